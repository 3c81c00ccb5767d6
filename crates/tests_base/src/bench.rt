// The bench and the source in memory. In helpers `None` is want of memory, or an answer that no call may give.
use dl_base::{Area, Bench, List, Source};
use dl_bench::{Call, MemoryBench, MemorySource, Pick};
use std::alloc::Global;

/// A bench whose Rows are `abcdef`, of which the nth call of a kind fails, and each call after as many as the fuse says.
fn bench_of(alloc: Global, failing: Option<(Call, u64)>, fuse: Option<u64>) -> Option<MemoryBench> {
    let mut list = List::empty(alloc);
    if let Some(call) = failing {
        list.push(call).ok()?;
    }
    let mut bench = MemoryBench::new(alloc, list, fuse).ok()?;
    bench.put(Area::Rows, b"abcdef").ok()?;
    Some(bench)
}

fn has_rows(bench: &MemoryBench, want: &[u8]) -> bool {
    bench.area(Area::Rows) == want
}

/// Whether a read of the last three of six bytes is done, which finds `def`.
fn read(bench: &mut MemoryBench) -> Option<bool> {
    let mut into = [0; 3];
    if bench.area(Area::Rows).len() < 6 {
        return None;
    }
    match bench.read(Area::Rows, 3, &mut into) {
        Ok(()) => if into == *b"def" { Some(true) } else { None },
        Err(_) => Some(false),
    }
}

/// Whether a write of a few bytes at one of the first six is done.
fn write(bench: &mut MemoryBench, at: u64, bytes: &[u8]) -> Option<bool> {
    if bench.area(Area::Rows).len() < 6 || at > 6 || bytes.len() > 4 {
        return None;
    }
    Some(bench.write(Area::Rows, at, bytes).is_ok())
}

/// Whether the sixth byte is renewed.
fn renew(bench: &mut MemoryBench) -> Option<bool> {
    let byte = *bench.area(Area::Rows).get(5)?;
    Some(bench.renew(Area::Rows, 5, byte).is_ok())
}

/// Whether one call of this kind is done. A write puts `XY` at 2.
fn call(bench: &mut MemoryBench, kind: Call) -> Option<bool> {
    match kind {
        Call::Length => Some(bench.length(Area::Rows).is_ok()),
        Call::Read => read(bench),
        Call::Write => write(bench, 2, b"XY"),
        Call::Renew => renew(bench),
        Call::Sync => Some(bench.sync(Area::Rows).is_ok()),
        Call::Say => Some(bench.say(b"hi").is_ok()),
    }
}

/// Whether an area that was put is there, and another is empty.
fn begins(alloc: Global) -> Option<bool> {
    let bench = bench_of(alloc, None, None)?;
    Some(has_rows(&bench, b"abcdef") && bench.area(Area::Backups).is_empty())
}

/// Whether a write in the middle and one past the end leave these bytes, and the length behind them.
fn write_both(bench: &mut MemoryBench) -> Option<(bool, bool, Option<u64>)> {
    let inside = write(bench, 2, b"XY")? && has_rows(bench, b"abXYef");
    let past = write(bench, 5, b"long")? && has_rows(bench, b"abXYelong");
    Some((inside, past, bench.length(Area::Rows).ok()))
}

fn written(alloc: Global) -> Option<(bool, bool, Option<u64>)> {
    let mut bench = bench_of(alloc, None, None)?;
    write_both(&mut bench)
}

/// How many calls found no memory, where two texts are told, one behind the other.
fn say_both(bench: &mut MemoryBench) -> Option<u64> {
    bench.say(b"one ").ok()?;
    bench.say(b"two").ok()?;
    if bench.told() == b"one two".as_slice() {
        Some(bench.starved())
    } else {
        None
    }
}

fn told(alloc: Global) -> Option<u64> {
    let mut bench = bench_of(alloc, None, None)?;
    say_both(&mut bench)
}

#[test]
fn calls_do_what_they_say(rt: HostRuntime) {
    let alloc = rt.alloc();
    assert!(rt; begins(alloc) == Some(true));
    assert!(rt; written(alloc) == Some((true, true, Some(9))));
    assert!(rt; told(alloc) == Some(0));
}

fn kinds() -> [Call; 6] {
    [
        Call::Length,
        Call::Read,
        Call::Write,
        Call::Renew,
        Call::Sync,
        Call::Say,
    ]
}

/// Whether the first of two calls is done, whether Rows are as they were then, how much is told, and whether the second is done.
fn call_both(bench: &mut MemoryBench, kind: Call) -> Option<(bool, bool, usize, bool)> {
    let first = call(bench, kind)?;
    let same = has_rows(bench, b"abcdef");
    let told = bench.told().len();
    Some((first, same, told, call(bench, kind)?))
}

fn first_fails(alloc: Global, kind: Call) -> Option<(bool, bool, usize, bool)> {
    let mut bench = bench_of(alloc, Some((kind, 1)), None)?;
    call_both(&mut bench, kind)
}

/// Where the second fails: whether each is done, and how many calls found no memory.
fn second_fails(alloc: Global, kind: Call) -> Option<(bool, bool, u64)> {
    let mut bench = bench_of(alloc, Some((kind, 2)), None)?;
    let (first, _, _, second) = call_both(&mut bench, kind)?;
    Some((first, second, bench.starved()))
}

#[test]
fn a_listed_call_fails_and_changes_nothing(rt: HostRuntime) {
    for kind in kinds() {
        let told = usize::from(kind == Call::Say);
        assert!(rt; first_fails(rt.alloc(), kind) == Some((false, true, told, true)));
        assert!(rt; second_fails(rt.alloc(), kind) == Some((true, false, 0)));
    }
}

/// Whether each of four calls is done.
fn call_four(bench: &mut MemoryBench) -> Option<(bool, bool, bool, bool)> {
    let first = call(bench, Call::Length)?;
    let second = call(bench, Call::Write)?;
    let third = call(bench, Call::Sync)?;
    Some((first, second, third, call(bench, Call::Say)?))
}

/// The same where the fuse lets two calls pass, if the write is there then and half of the last call is told.
fn fused(alloc: Global) -> Option<(bool, bool, bool, bool)> {
    let mut bench = bench_of(alloc, None, Some(2))?;
    let done = call_four(&mut bench)?;
    let is_left = has_rows(&bench, b"abXYef") && bench.told() == b"h".as_slice();
    if is_left { Some(done) } else { None }
}

#[test]
fn a_fuse_lets_so_many_calls_pass(rt: HostRuntime) {
    assert!(rt; fused(rt.alloc()) == Some((true, true, false, false)));
}

/// What a crash leaves behind a write and one more call.
fn crashed(alloc: Global, kind: Call, fuse: Option<u64>, pick: Pick) -> Option<MemoryBench> {
    let mut bench = bench_of(alloc, None, fuse)?;
    if call(&mut bench, Call::Write)? && call(&mut bench, kind)? {
        return bench.crash(pick).ok();
    }
    None
}

/// Whether a crash leaves these Rows where they were not synced, tells nothing and has no fuse.
fn leaves(alloc: Global, pick: Pick, want: &[u8]) -> Option<bool> {
    let mut found = crashed(alloc, Call::Say, Some(2), pick)?;
    let is_left = has_rows(&found, want) && found.told().is_empty();
    Some(is_left && call(&mut found, Call::Say)?)
}

/// Whether it leaves what was synced.
fn keeps(alloc: Global, pick: Pick) -> Option<bool> {
    let found = crashed(alloc, Call::Sync, None, pick)?;
    Some(has_rows(&found, b"abXYef"))
}

fn picks() -> [(Pick, &'static [u8]); 3] {
    [
        (Pick::Kept, b"abXYef"),
        (Pick::Lost, b"abcdef"),
        (Pick::Torn, b"ab\xa7\xa6ef"),
    ]
}

#[test]
fn a_crash_leaves_what_was_picked(rt: HostRuntime) {
    for (pick, want) in picks() {
        assert!(rt; leaves(rt.alloc(), pick, want) == Some(true));
        assert!(rt; keeps(rt.alloc(), pick) == Some(true));
    }
}

/// How many bytes each take gives of `abc`, and what is in the buffer then.
fn takes() -> [(Option<usize>, [u8; 2]); 4] {
    [
        (Some(2), *b"ab"),
        (None, *b"ab"),
        (Some(1), *b"cb"),
        (Some(0), *b"cb"),
    ]
}

fn source_of(alloc: Global, failing: u64) -> Option<MemorySource> {
    MemorySource::new(alloc, b"abc", Some(failing)).ok()
}

/// Whether the takes of a source whose second one fails are these.
fn taken(alloc: Global) -> Option<bool> {
    let mut source = source_of(alloc, 2)?;
    let mut into = [0; 2];
    let mut same = true;
    for (count, bytes) in takes() {
        same = same && source.take(&mut into).ok() == count && into == bytes;
    }
    Some(same)
}

fn first_take(alloc: Global) -> Option<bool> {
    let mut source = source_of(alloc, 1)?;
    let mut into = [0; 2];
    Some(source.take(&mut into).is_ok())
}

#[test]
fn a_source_fails_once_and_goes_on(rt: HostRuntime) {
    assert!(rt; taken(rt.alloc()) == Some(true));
    assert!(rt; first_take(rt.alloc()) == Some(false));
}
