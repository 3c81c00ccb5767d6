// The machine stopped after each of its calls, and every call failing once: what is found then. In helpers the outer
// `None` is want of memory.
use crate::runs::{bench_of, bench_with, done, first_record, numbers, openings};
use datalinks::Status;
use dl_base::{Area, List, Memory};
use dl_bench::{Call, MemoryBench, Pick};
use std::alloc::Global;

/// A script, all that it tells, and the look at what stands behind a stop of it: what that look tells where so many of the steps are there,
/// how many bytes are told before the line whose step leads there, and how many once it is told.
#[derive(Drop)]
struct Case {
    script: &'static [u8],
    text: &'static [u8],
    look: &'static [u8],
    looks: [&'static [u8]; 6],
    told_before: [usize; 6],
    told_behind: [usize; 6],
}

/// A file, a row that links it, a transaction that lets it go with its vote, its decision and its Finish as lines of their own, and one that
/// is rolled back behind its vote. Found are no steps, the file, the table, the row, none of them again, and the second file, behind which
/// nothing is to be seen. The texts of the first two differ from no table at all.
fn let_go() -> Case {
    Case {
        script: b"@ann create /a one\n\
          A: CREATE TABLE m (id INTEGER PRIMARY KEY, f DATALINK LINKTYPE URL FILE LINK CONTROL INTEGRITY ALL READ PERMISSION DB WRITE PERMISSION BLOCKED RECOVERY NO ON UNLINK DELETE)\n\
          A: INSERT INTO m VALUES (1, DLVALUE('http://fs1/a'))\n\
          @ann delete /a\n\
          A: BEGIN\n\
          A: DELETE FROM m\n\
          A: !prepare\n\
          A: !decide\n\
          A: !finish\n\
          @ann create /a two\n\
          A: BEGIN\n\
          A: INSERT INTO m VALUES (2, DLVALUE('http://fs1/a'))\n\
          A: !prepare\n\
          A: ROLLBACK\n",
        text: b"1: ok\n2: ok\n3: ok 1\n4: refused linked /a 1-2-1 delete\n5: ok 1-3\n6: ok 1\n7: ok\n8: ok commit 3\n9: ok\n10: ok\n\
          11: ok 1-4\n12: ok 1\n13: ok\n14: ok\n",
        look: b"@ann list\nA: SELECT COUNT(*) FROM m\n",
        looks: [
            b"1: ok files 0\n2: refused no table m\n",
            b"1: ok files 1\n1| /a ann on 3\n2: refused no table m\n",
            b"1: ok files 1\n1| /a ann on 3\n2: rows 1\n2| 0\n",
            b"1: ok files 1\n1| /a dlfm off 3\n2: rows 1\n2| 1\n",
            b"1: ok files 0\n2: rows 1\n2| 0\n",
            b"1: ok files 1\n1| /a ann on 3\n2: rows 1\n2| 0\n",
        ],
        told_before: [0, 0, 6, 12, 78, 99],
        told_behind: [0, 6, 12, 20, 93, 106],
    }
}

/// A file that is archived when a transaction lets it go and links it anew, and once more at the end. Found are no steps, the file, the table,
/// the row, the other row, whose link wants a copy as the first did, and that copy.
fn archived() -> Case {
    Case {
        script: b"@ann create /a abc\n\
          A: CREATE TABLE m (id INTEGER PRIMARY KEY, f DATALINK LINKTYPE URL FILE LINK CONTROL INTEGRITY ALL READ PERMISSION DB WRITE PERMISSION BLOCKED RECOVERY YES ON UNLINK DELETE)\n\
          A: INSERT INTO m VALUES (1, DLVALUE('http://fs1/a'))\n\
          A: BEGIN\n\
          A: DELETE FROM m WHERE id = 1\n\
          A: INSERT INTO m VALUES (2, DLVALUE('http://fs1/a'))\n\
          A: COMMIT\n\
          @ann list\n\
          ! archive\n",
        text: b"1: ok\n2: ok\n3: ok 1\n4: ok 1-3\n5: ok 1\n6: ok 1\n7: ok commit 3\n8: ok files 1\n8| /a dlfm off 3\n9: ok archived 1\n",
        look: b"@ann list\nA: SELECT id FROM m\n! archive\n",
        looks: [
            b"1: ok files 0\n2: refused no table m\n3: ok archived 0\n",
            b"1: ok files 1\n1| /a ann on 3\n2: refused no table m\n3: ok archived 0\n",
            b"1: ok files 1\n1| /a ann on 3\n2: rows 0\n3: ok archived 0\n",
            b"1: ok files 1\n1| /a dlfm off 3\n2: rows 1\n2| 1\n3: ok archived 1\n",
            b"1: ok files 1\n1| /a dlfm off 3\n2: rows 1\n2| 2\n3: ok archived 1\n",
            b"1: ok files 1\n1| /a dlfm off 3\n2: rows 1\n2| 2\n3: ok archived 0\n",
        ],
        told_before: [0, 0, 6, 12, 46, 92],
        told_behind: [0, 6, 12, 20, 61, 109],
    }
}

/// A file that is deleted with its row, and comes back from its copy with a restore. Found are no steps, the file, the table, the row, neither
/// row nor file, and both again, with the copy that was made then.
fn restored() -> Case {
    Case {
        script: b"@ann create /a abc\n\
          A: CREATE TABLE m (id INTEGER PRIMARY KEY, f DATALINK LINKTYPE URL FILE LINK CONTROL INTEGRITY ALL READ PERMISSION DB WRITE PERMISSION BLOCKED RECOVERY YES ON UNLINK DELETE)\n\
          A: INSERT INTO m VALUES (1, DLVALUE('http://fs1/a'))\n\
          A: DELETE FROM m\n\
          @ann read /a\n\
          ! restore commit 2\n",
        text: b"1: ok\n2: ok\n3: ok 1\n4: ok 1\n5: refused no file /a\n6: ok commit 4\n",
        look: b"@ann list\nA: SELECT id FROM m\n! archive\n",
        looks: [
            b"1: ok files 0\n2: refused no table m\n3: ok archived 0\n",
            b"1: ok files 1\n1| /a ann on 3\n2: refused no table m\n3: ok archived 0\n",
            b"1: ok files 1\n1| /a ann on 3\n2: rows 0\n3: ok archived 0\n",
            b"1: ok files 1\n1| /a dlfm off 3\n2: rows 1\n2| 1\n3: ok archived 1\n",
            b"1: ok files 0\n2: rows 0\n3: ok archived 0\n",
            b"1: ok files 1\n1| /a dlfm off 3\n2: rows 1\n2| 1\n3: ok archived 0\n",
        ],
        told_before: [0, 0, 6, 12, 20, 50],
        told_behind: [0, 6, 12, 20, 28, 65],
    }
}

/// More calls than a reopening makes.
const REOPENING: u64 = 70;

const AREAS: [Area; 5] = [
    Area::Rows,
    Area::Links,
    Area::Files,
    Area::Archive,
    Area::Backups,
];

/// A bench with what stands in another's areas.
pub fn again(alloc: Global, left: &MemoryBench, fuse: Option<u64>) -> Option<MemoryBench> {
    let mut bench = bench_with(alloc, None, fuse)?;
    if put_areas(&mut bench, left).is_ok() {
        Some(bench)
    } else {
        drop(bench);
        None
    }
}

fn put_areas(bench: &mut MemoryBench, left: &MemoryBench) -> Result<(), Memory> {
    for area in AREAS {
        bench.put(area, left.area(area))?;
    }
    Ok(())
}

/// What a look finds, in a run that ended well: what it told.
fn found(alloc: Global, case: &Case, left: &MemoryBench) -> Option<MemoryBench> {
    let (status, after) = done(alloc, b"run", case.look, again(alloc, left, None)?)?;
    if status == Status::Done {
        Some(after)
    } else {
        drop(after);
        None
    }
}

/// Whether a look finds what some of the steps leave that go with how much was told: what was told never runs ahead, and does not lag by more
/// than a line.
fn goes_with(alloc: Global, case: &Case, left: &MemoryBench, told: usize) -> Option<bool> {
    let after = found(alloc, case, left)?;
    let goes = is_as_told(case, after.told(), told);
    drop(after);
    Some(goes)
}

fn is_as_told(case: &Case, seen: &[u8], told: usize) -> bool {
    (0..6).any(|k| case.looks[k] == seen && is_between(case, k, told))
}

/// The line of these steps is in progress, or told, and that of the next is not told whole.
fn is_between(case: &Case, k: usize, told: usize) -> bool {
    let before = case.told_before.get(k).copied().unwrap_or(usize::MAX);
    let next = case
        .told_behind
        .get(k.saturating_add(1))
        .copied()
        .unwrap_or(usize::MAX);
    before <= told && told < next
}

/// How many bytes a run told, where it ended well or with a fault of the device, and told a front of the text; at a good
/// end all of it.
fn told_front(case: &Case, end: &(Status, MemoryBench)) -> Option<usize> {
    let told = end.1.told();
    let is_end = end.0 == Status::Device
        || (end.0 == Status::Done && told.len() == case.text.len());
    if is_end && case.text.starts_with(told) {
        return Some(told.len());
    }
    None
}

/// What a crash of a run of the script leaves, how it ended, and how much it told.
fn crashed(
    alloc: Global,
    case: &Case,
    failing: Option<(Call, u64)>,
    fuse: Option<u64>,
    pick: Pick,
) -> Option<(bool, usize, MemoryBench)> {
    let bench = bench_with(alloc, failing, fuse)?;
    let end = done(alloc, b"run", case.script, bench)?;
    match told_front(case, &end) {
        Some(told) => crashed_end(end, told, pick),
        None => {
            drop(end);
            None
        }
    }
}

fn crashed_end(
    (status, bench): (Status, MemoryBench),
    told: usize,
    pick: Pick,
) -> Option<(bool, usize, MemoryBench)> {
    let after = bench.crash(pick).ok()?;
    Some((status == Status::Done, told, after))
}

/// Whether a reopening that is stopped by the fuse leaves what goes with how much was told.
fn reopened(
    alloc: Global,
    case: &Case,
    left: &MemoryBench,
    fuse: u64,
    (pick, told): (Pick, usize),
) -> Option<bool> {
    let bench = again(alloc, left, Some(fuse))?;
    let (_, stopped) = done(alloc, b"run", b"@ann list\n", bench)?;
    let after = stopped.crash(pick).ok()?;
    let goes = goes_with(alloc, case, &after, told);
    drop(after);
    goes
}

fn picks() -> [Pick; 3] {
    [Pick::Kept, Pick::Lost, Pick::Torn]
}

fn pick_of(n: u64) -> Pick {
    match n % 3 {
        0 => Pick::Kept,
        1 => Pick::Lost,
        _ => Pick::Torn,
    }
}

/// Whether a run of one more line, which opens what was left, does so after each of its calls.
fn reopens(alloc: Global, case: &Case, (left, told): (&MemoryBench, usize), first: u64) -> bool {
    (0..REOPENING).all(|fuse| {
        let pick = pick_of(first.saturating_add(fuse));
        reopened(alloc, case, left, fuse, (pick, told)) == Some(true)
    })
}

/// Whether a run that the fuse stops ends well, where what is found after a crash goes with what it told, and a run that opens it and is
/// stopped itself leaves it; `None` where not.
fn stops(alloc: Global, case: &Case, fuse: u64, pick: Pick) -> Option<bool> {
    let (is_done, told, after) = crashed(alloc, case, None, Some(fuse), pick)?;
    let goes = goes_with(alloc, case, &after, told) == Some(true)
        && reopens(alloc, case, (&after, told), fuse);
    drop(after);
    if goes { Some(is_done) } else { None }
}

#[test]
fn a_stop_after_each_call(rt: HostRuntime) {
    let case = let_go();
    for fuse in 0..154 {
        for pick in picks() {
            let is_done = stops(rt.alloc(), &case, fuse, pick);
            assert_eq!(rt; is_done, Some(fuse == 153), "fuse {fuse}");
        }
    }
}

#[test]
fn a_stop_after_each_call_of_archived_files(rt: HostRuntime) {
    let case = archived();
    for fuse in 0..137 {
        for pick in picks() {
            let is_done = stops(rt.alloc(), &case, fuse, pick);
            assert_eq!(rt; is_done, Some(fuse == 136), "fuse {fuse}");
        }
    }
}

#[test]
fn a_stop_after_each_call_of_a_restore(rt: HostRuntime) {
    let case = restored();
    for fuse in 0..170 {
        for pick in picks() {
            let is_done = stops(rt.alloc(), &case, fuse, pick);
            assert_eq!(rt; is_done, Some(fuse == 169), "fuse {fuse}");
        }
    }
}

/// How many calls of each kind there are in a run that ends well.
const CALLS: [(Call, u64); 5] = [
    (Call::Length, 5),
    (Call::Read, 5),
    (Call::Write, 81),
    (Call::Sync, 48),
    (Call::Say, 14),
];

/// Whether a run of which this call fails ends well, where what is found after a crash goes with what it told; `None` where not.
fn fails(alloc: Global, case: &Case, call: (Call, u64), pick: Pick) -> Option<bool> {
    let (is_done, told, after) = crashed(alloc, case, Some(call), None, pick)?;
    let goes = goes_with(alloc, case, &after, told) == Some(true);
    drop(after);
    if goes { Some(is_done) } else { None }
}

#[test]
fn each_call_failing_once(rt: HostRuntime) {
    let case = let_go();
    for (kind, count) in CALLS {
        for n in 1..count + 2 {
            for pick in picks() {
                assert_eq!(rt;
                    fails(rt.alloc(), &case, (kind, n), pick),
                    Some(n > count),
                    "call {n}"
                );
            }
        }
    }
}

/// The exit status of a run on this area, which is part of a store, or is found to be none at byte 0 and stays.
fn opens(alloc: Global, area: Area, bytes: &[u8]) -> Option<u8> {
    let bench = bench_of(alloc, area, bytes)?;
    let (status, after) = done(alloc, b"run", b"", bench)?;
    let is_kept = after.area(area) == bytes;
    drop(after);
    match status {
        Status::Done => Some(0),
        Status::NotAStore(at, 0) if at == area && is_kept => Some(5),
        _ => None,
    }
}

/// These bytes with another one of them.
fn changed(alloc: Global, of: &[u8], at: usize, to: u8) -> Option<List<u8>> {
    let mut bytes = List::empty(alloc);
    for (i, byte) in of.iter().enumerate() {
        let kept = if i == at { to } else { *byte };
        bytes.push(kept).ok()?;
    }
    Some(bytes)
}

fn opens_changed(alloc: Global, area: Area, of: &[u8], (at, to): (usize, u8)) -> Option<u8> {
    let bytes = changed(alloc, of, at, to)?;
    opens(alloc, area, bytes.as_slice())
}

/// Of Files only the first gate, which then is closed, the transaction, the content and the closing gate may be any bytes.
fn may_be_any(at: usize) -> bool {
    at == 0 || (at >= 10 && at < 18) || at >= 42
}

fn code_where(is_store: bool) -> u8 {
    if is_store { 0 } else { 5 }
}

#[test]
fn damaged_files(rt: HostRuntime) {
    let record = first_record();
    for at in 0..record.len() {
        let short = opens(rt.alloc(), Area::Files, &record[..at]);
        assert_eq!(rt; short, Some(code_where(at < 2)), "{at} bytes");
        let inverted = opens_changed(rt.alloc(), Area::Files, record, (at, !record[at]));
        assert_eq!(rt; inverted, Some(code_where(may_be_any(at))), "byte {at}");
    }
}

/// Of the record of an opening only its first gate and the closing gate may be any bytes.
#[test]
fn damaged_openings(rt: HostRuntime) {
    let record = openings()[0];
    for area in [Area::Rows, Area::Links] {
        for at in 0..record.len() {
            let short = opens(rt.alloc(), area, &record[..at]);
            assert_eq!(rt; short, Some(code_where(at < 2)), "{at} bytes");
            let inverted = opens_changed(rt.alloc(), area, record, (at, !record[at]));
            assert_eq!(rt;
                inverted,
                Some(code_where(at == 0 || at == 14)),
                "byte {at}"
            );
        }
        assert_eq!(rt; opens_changed(rt.alloc(), area, record, (8, 6)), Some(5));
    }
}

/// One newline more than a script may have.
fn many_lines(alloc: Global) -> Option<List<u8>> {
    let mut lines = List::empty(alloc);
    let chunk = [b'\n'; 4_096];
    for _ in 0..16_384 {
        lines.extend(&chunk).ok()?;
    }
    lines.push(b'\n').ok()?;
    Some(lines)
}

/// The numbers of a run's end on that script, and whether the Files stay.
fn too_long(alloc: Global) -> Option<((u8, u64), bool)> {
    let lines = many_lines(alloc)?;
    let bench = bench_of(alloc, Area::Files, first_record())?;
    let (status, after) = done(alloc, b"run", lines.as_slice(), bench)?;
    let stay = after.area(Area::Files) == first_record();
    drop(after);
    Some((numbers(status), stay))
}

#[test]
fn a_script_that_is_too_long(rt: HostRuntime) {
    assert_eq!(rt; too_long(rt.alloc()), Some(((7, 67_108_865), true)));
}
