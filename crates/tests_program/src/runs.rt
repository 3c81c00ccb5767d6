// Whole runs over a bench in memory. In helpers `None` is want of memory.
use datalinks::{Status, single};
use dl_base::{Area, List, Text};
use dl_bench::{Call, MemoryBench, MemorySource};
use std::alloc::Global;

// The bytes stand in functions without a clause, which keeps them out of the goals.

/// The area Files after `@ann create /a one`, whose end is at byte 46.
pub fn first_record() -> &'static [u8] {
    b"\x01\0\0\0\0\0\0\0\x24\x01\0\0\0\0\0\0\0\0\0\0\0\x01\x01\0\0\0\x02/a\0\0\0\x03ann\x01\0\0\0\0\x03one\0"
}

/// The area Rows, and the area Links, after one opening and after two.
pub fn openings() -> [&'static [u8]; 2] {
    [
        b"\x01\0\0\0\0\0\0\0\x05\x01\0\0\0\x01\0",
        b"\x01\0\0\0\0\0\0\0\x05\x01\0\0\0\x01\x01\0\0\0\0\0\0\0\x05\x01\0\0\0\x02\0",
    ]
}

/// The same after `@ann rename /a /b`, a removal and a put, and `@ann chmod /b off`, a new owner and no saved one.
pub fn renamed_files() -> &'static [u8] {
    b"\x01\0\0\0\0\0\0\0\x24\x01\0\0\0\0\0\0\0\0\0\0\0\x01\x01\0\0\0\x02/a\0\0\0\x03ann\x01\0\0\0\0\x03one\
      \x01\0\0\0\0\0\0\0\x2b\x01\0\0\0\0\0\0\0\0\0\0\0\x02\0\0\0\0\x02/a\x01\0\0\0\x02/b\0\0\0\x03ann\x01\0\0\0\0\x03one\
      \x01\0\0\0\0\0\0\0\x1d\x01\0\0\0\0\0\0\0\0\0\0\0\x01\x02\0\0\0\x02/b\0\0\0\x03ann\0\0\0"
}

fn renaming_script() -> &'static [u8] {
    b"@ann rename /a /b\n@ann chmod /b off\n@ann write /b x\n"
}

fn renaming_text() -> &'static [u8] {
    b"1: ok\n2: ok\n3: refused read only /b\n"
}

fn first_script() -> &'static [u8] {
    b"@ann create /a one\n@ann read /a\n"
}

fn first_text() -> &'static [u8] {
    b"1: ok\n2: bytes 3\n2| one\n"
}

/// A record whose length passes the end, a body that is no record, and a removal of a file that is not there.
fn damaged() -> [&'static [u8]; 3] {
    [
        b"\x01\0\0\0\0\0\0\0\x24\x01",
        b"\x01\0\0\0\0\0\0\0\x01\x07\0",
        b"\x01\0\0\0\0\0\0\0\x14\x01\0\0\0\0\0\0\0\0\0\0\0\x01\0\0\0\0\x02/a\0",
    ]
}

/// Words with one space between them.
pub fn words_of(alloc: Global, words: &[u8]) -> Option<List<Text>> {
    let mut given = List::empty(alloc);
    for word in words.split(|b| *b == b' ') {
        given.push(Text::of(alloc, word).ok()?).ok()?;
    }
    Some(given)
}

fn listed(alloc: Global, failing: Option<(Call, u64)>) -> Option<List<(Call, u64)>> {
    let mut list = List::empty(alloc);
    if let Some(call) = failing {
        list.push(call).ok()?;
    }
    Some(list)
}

/// A bench with nothing in its areas, where the listed call fails, and each call after as many as the fuse says.
pub fn bench_with(
    alloc: Global,
    failing: Option<(Call, u64)>,
    fuse: Option<u64>,
) -> Option<MemoryBench> {
    MemoryBench::new(alloc, listed(alloc, failing)?, fuse).ok()
}

/// A bench with this in one area, and nothing in the others.
pub fn bench_of(alloc: Global, area: Area, bytes: &[u8]) -> Option<MemoryBench> {
    let mut bench = bench_with(alloc, None, None)?;
    if bench.put(area, bytes).is_ok() {
        Some(bench)
    } else {
        drop(bench);
        None
    }
}

/// How a run ends that is given these words, and what it leaves.
fn ended(
    alloc: Global,
    words: &[u8],
    source: &mut MemorySource,
    bench: MemoryBench,
) -> Option<(Status, MemoryBench)> {
    match words_of(alloc, words) {
        Some(given) => {
            let end = single(alloc, given.as_slice(), source, bench);
            drop(given);
            Some(end)
        }
        None => {
            drop(bench);
            None
        }
    }
}

/// The same of a script.
pub fn done(
    alloc: Global,
    words: &[u8],
    script: &[u8],
    bench: MemoryBench,
) -> Option<(Status, MemoryBench)> {
    match MemorySource::new(alloc, script, None) {
        Ok(mut source) => {
            let end = ended(alloc, words, &mut source, bench);
            drop(source);
            end
        }
        Err(_) => {
            drop(bench);
            None
        }
    }
}

/// The exit status, and the number that some have beside it.
pub fn numbers(status: Status) -> (u8, u64) {
    match status {
        Status::NotAStore(_, place) => (status.code(), place),
        Status::TooLong(taken) => (status.code(), taken),
        _ => (status.code(), 0),
    }
}

/// The numbers of a run's end, and whether it told this text and left these Files.
fn leaves(end: &(Status, MemoryBench), told: &[u8], files: &[u8]) -> ((u8, u64), bool) {
    let same = end.1.told() == told && end.1.area(Area::Files) == files;
    (numbers(end.0), same)
}

/// Whether Rows and Links have the records of one opening behind so many before it, and no other, and Archive and Backups none.
fn has_opened(after: &MemoryBench, before: usize) -> bool {
    let opened = openings().get(before).copied();
    let areas = [Area::Rows, Area::Links];
    let empty = [Area::Archive, Area::Backups];
    areas.iter().all(|area| Some(after.area(*area)) == opened)
        && empty
            .iter()
            .all(|area| after.area(*area) == b"\0".as_slice())
}

/// A run of these words and this script on these Files: see `leaves`.
fn run_leaves(
    alloc: Global,
    (words, script, before): (&[u8], &[u8], &[u8]),
    (told, after): (&[u8], &[u8]),
) -> Option<((u8, u64), bool)> {
    let bench = bench_of(alloc, Area::Files, before)?;
    let end = done(alloc, words, script, bench)?;
    let left = leaves(&end, told, after);
    drop(end);
    Some(left)
}

#[test]
fn the_first_run_and_a_second_one(rt: HostRuntime) {
    let first = (b"run".as_slice(), first_script(), b"".as_slice());
    let left = run_leaves(rt.alloc(), first, (first_text(), first_record()));
    assert_eq!(rt; left, Some(((0, 0), true)));
    let second = (
        b"run".as_slice(),
        b"@ann read /a".as_slice(),
        first_record(),
    );
    let left = run_leaves(
        rt.alloc(),
        second,
        (b"1: bytes 3\n1| one\n", first_record()),
    );
    assert_eq!(rt; left, Some(((0, 0), true)));
}

#[test]
fn a_rename_and_a_chmod_found_again(rt: HostRuntime) {
    let first = (b"run".as_slice(), renaming_script(), first_record());
    let left = run_leaves(rt.alloc(), first, (renaming_text(), renamed_files()));
    assert_eq!(rt; left, Some(((0, 0), true)));
    let second = (
        b"run".as_slice(),
        b"@bob list\n@bob read /a".as_slice(),
        renamed_files(),
    );
    let told = b"1: ok files 1\n1| /b ann off 3\n2: refused no file /a\n";
    let left = run_leaves(rt.alloc(), second, (told, renamed_files()));
    assert_eq!(rt; left, Some(((0, 0), true)));
}

/// How an empty script ends that runs once and once more, and whether all areas then have what the openings wrote.
fn opened_twice(alloc: Global) -> Option<(bool, bool)> {
    let (_, first) = done(alloc, b"run", b"", bench_with(alloc, None, None)?)?;
    let is_first = has_opened(&first, 0);
    let (_, second) = done(alloc, b"run", b"", first)?;
    let is_second = has_opened(&second, 1);
    drop(second);
    Some((is_first, is_second))
}

#[test]
fn an_empty_script_opens_five_areas(rt: HostRuntime) {
    assert_eq!(rt; opened_twice(rt.alloc()), Some((true, true)));
}

/// An opening wants 15 bytes of Rows and of Links.
#[test]
fn the_limit_of_an_opening(rt: HostRuntime) {
    let short = run_leaves(rt.alloc(), (b"run --area 14", b"", b""), (b"", b"\0"));
    assert_eq!(rt; short, Some(((6, 0), true)));
    let enough = run_leaves(rt.alloc(), (b"run --area 15", b"", b""), (b"", b"\0"));
    assert_eq!(rt; enough, Some(((0, 0), true)));
}

/// With no room for the record the area has a closed gate alone.
#[test]
fn the_limit_of_the_area(rt: HostRuntime) {
    let script = b"@ann create /a one".as_slice();
    let short = (b"run --area 45".as_slice(), script, b"".as_slice());
    assert_eq!(rt;
        run_leaves(rt.alloc(), short, (b"", b"\0")),
        Some(((6, 0), true))
    );
    let enough = (b"--area=46 run".as_slice(), script, b"".as_slice());
    let left = run_leaves(rt.alloc(), enough, (b"1: ok\n", first_record()));
    assert_eq!(rt; left, Some(((0, 0), true)));
}

fn no_commands() -> [&'static [u8]; 6] {
    [
        b"walk",
        b"run run",
        b"race",
        b"load 1 100",
        b"run --area 0",
        b"run --now",
    ]
}

#[test]
fn other_words(rt: HostRuntime) {
    for words in no_commands() {
        let left = run_leaves(rt.alloc(), (words, first_script(), b""), (b"", b""));
        assert_eq!(rt; left, Some(((2, 0), true)));
    }
}

#[test]
fn damaged_areas_stay_as_they_are(rt: HostRuntime) {
    for files in damaged() {
        let left = run_leaves(rt.alloc(), (b"run", first_script(), files), (b"", files));
        assert_eq!(rt; left, Some(((5, 0), true)));
    }
}

/// The exit status of a run whose nth take fails, and how many bytes it told and left.
fn without_source(alloc: Global, script: &[u8], n: u64) -> Option<(u8, usize)> {
    let mut source = MemorySource::new(alloc, script, Some(n)).ok()?;
    let bench = bench_with(alloc, None, None)?;
    let (status, after) = ended(alloc, b"run", &mut source, bench)?;
    let count = after.told().len() + after.area(Area::Files).len();
    drop(after);
    Some((status.code(), count))
}

#[test]
fn a_source_that_fails(rt: HostRuntime) {
    for n in 1..3 {
        assert_eq!(rt; without_source(rt.alloc(), first_script(), n), Some((4, 0)));
    }
}

fn without_write(alloc: Global) -> Option<u8> {
    let bench = bench_with(alloc, Some((Call::Write, 2)), None)?;
    let (status, after) = done(alloc, b"run", first_script(), bench)?;
    drop(after);
    Some(status.code())
}

#[test]
fn a_device_that_fails(rt: HostRuntime) {
    assert_eq!(rt; without_write(rt.alloc()), Some(3));
}
