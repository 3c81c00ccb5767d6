// Whole runs over the folder's logic, on a host in memory.
ghost use Rattle.std.specs.Prelude.{◌≡◌, false, IfOk};

use crate::fake::{FakeHost, FakeReader, Plan};
use crate::runs::{first_record, openings, renamed_files, words_of};
use datalinks::{Status, single};
use dl_base::{Area, Memory, Text};
use dl_host::{FolderBench, InputSource};
use std::alloc::Global;

fn script() -> &'static [u8] {
    b"@ann create /a one\n@ann read /a\n"
}

fn text() -> &'static [u8] {
    b"1: ok\n2: bytes 3\n2| one\n"
}

/// The end of a run, and what it leaves.
#[derive(Clone, Copy)]
struct End {
    code: u8,
    told: usize,
    /// The whole text was told, and each file has its records.
    is_whole: bool,
    calls: usize,
    /// Syncs of files: two of each new area, and two of each record.
    syncs: usize,
    /// The folder was locked before all else, and once; each file was opened once, in the order of the areas; and the folder was
    /// synced behind each of these openings, before all else, and not again.
    begins_once: bool,
}

fn count(calls: &[u8], letter: u8) -> usize {
    calls.iter().filter(|c| **c == letter).count()
}

/// Each call that opens a file has the sync of the folder behind it, and no other has.
fn is_synced(calls: &[u8]) -> bool {
    (1..calls.len()).all(|at| calls[at - 1].is_ascii_uppercase() == (calls[at] == b'd'))
}

/// The files are opened in the order of the areas, each once.
fn is_in_order(calls: &[u8]) -> bool {
    let mut opened = calls.iter().filter(|call| call.is_ascii_uppercase());
    let is_front = b"RLFAB".iter().all(|letter| opened.next() == Some(letter));
    is_front && opened.next().is_none()
}

fn begins_once(calls: &[u8]) -> bool {
    let is_locked = calls.starts_with(b"lRd") && count(calls, b'l') == 1;
    is_locked && is_in_order(calls) && is_synced(calls)
}

/// Whether Rows and Links have the record of one opening, Files that of the first line, and the others none.
fn has_records(host: &FakeHost) -> bool {
    let opened = openings()[0];
    host.file(Area::Rows) == opened
        && host.file(Area::Links) == opened
        && host.file(Area::Files) == first_record()
        && host.file(Area::Archive) == b"\0".as_slice()
        && host.file(Area::Backups) == b"\0".as_slice()
}

fn end_of(status: Status, host: &FakeHost) -> End {
    End {
        code: status.code(),
        told: host.told().len(),
        is_whole: host.told() == text() && has_records(host),
        calls: host.calls().len(),
        syncs: count(host.calls(), b's'),
        begins_once: begins_once(host.calls()),
    }
}

/// A run of the script by this plan. `None` is want of memory.
fn run(alloc: Global, plan: Plan, fails: bool) -> Option<End> {
    let words = words_of(alloc, b"run")?;
    let end = match FakeHost::new(alloc, plan) {
        Ok(host) => Some(end_on(alloc, words.as_slice(), host, fails)),
        Err(_) => None,
    };
    drop(words);
    end
}

fn end_on(alloc: Global, words: &[Text], host: FakeHost, fails: bool) -> End
    requires { host.is_locked ≡ false }
{
    let mut source = InputSource::new(FakeReader::new(script(), fails));
    let (status, after) = single(alloc, words, &mut source, FolderBench::new(host));
    let end = end_of(status, after.host());
    drop(after);
    end
}

#[test]
fn a_whole_run(rt: HostRuntime) {
    let end = run(rt.alloc(), Plan::new(rt.alloc()), false);
    assert!(rt; end.is_some_and(|end| end.code == 0 && end.is_whole));
    assert!(rt; end.is_some_and(|end| end.begins_once));
    assert!(rt; end.is_some_and(|end| end.syncs == 16));
}

/// Whether a run is whole whose calls do so many bytes at most, each behind an interrupted one: that of the lock, of the
/// opening, of each sync and of the length too.
fn is_whole_by(alloc: Global, most: usize) -> Option<bool> {
    let mut plan = Plan::new(alloc);
    plan.most = most;
    plan.interrupts = true;
    let end = run(alloc, plan, false)?;
    Some(end.code == 0 && end.is_whole)
}

#[test]
fn short_and_interrupted_calls(rt: HostRuntime) {
    for most in 1..5 {
        assert_eq!(rt; is_whole_by(rt.alloc(), most), Some(true));
    }
}

fn put_all(host: &mut FakeHost) -> Result<(), Memory>
    ensures { host.new.is_locked ≡ host.old.is_locked }
{
    let opened = openings()[0];
    host.put(Area::Rows, opened)?;
    host.put(Area::Links, opened)?;
    host.put(Area::Files, first_record())?;
    host.put(Area::Archive, b"\0")?;
    host.put(Area::Backups, b"\0")
}

/// A folder as a run of the script leaves it.
fn left(alloc: Global, plan: Plan) -> Result<FakeHost, Memory>
    ensures { IfOk result (λ host. host.is_locked ≡ false) }
{
    let mut host = FakeHost::new(alloc, plan)?;
    match put_all(&mut host) {
        Ok(()) => Ok(host),
        Err(fault) => {
            drop(host);
            Err(fault)
        }
    }
}

fn put_more(host: &mut FakeHost) -> Result<(), Memory>
    ensures { host.new.is_locked ≡ host.old.is_locked }
{
    let opened = openings()[1];
    host.put(Area::Rows, opened)?;
    host.put(Area::Links, opened)?;
    host.put(Area::Files, renamed_files())?;
    host.put(Area::Archive, b"\0")?;
    host.put(Area::Backups, b"\0")
}

/// The status of a run without a line, whether it begins with these calls, and the byte that was given again last, behind its place.
fn opened_on(
    alloc: Global,
    words: &[Text],
    host: FakeHost,
    begin: &[u8],
) -> (u8, bool, Option<(u64, u8)>)
    requires { host.is_locked ≡ false }
{
    let mut source = InputSource::new(FakeReader::new(b"", false));
    let (status, after) = single(alloc, words, &mut source, FolderBench::new(host));
    let calls = after.host().calls();
    let is_begin = calls.starts_with(begin) && count(calls, b'g') == count(begin, b'g');
    let end = (status.code(), is_begin, after.host().given());
    drop(after);
    end
}

/// The same where Rows and Links have two records each, and Files has three. `None` is want of memory.
fn opened(alloc: Global, begin: &[u8]) -> Option<(u8, bool, Option<(u64, u8)>)> {
    let words = words_of(alloc, b"run")?;
    let end = match FakeHost::new(alloc, Plan::new(alloc)) {
        Ok(mut host) => match put_more(&mut host) {
            Ok(()) => Some(opened_on(alloc, words.as_slice(), host, begin)),
            Err(_) => {
                drop(host);
                None
            }
        },
        Err(_) => None,
    };
    drop(words);
    end
}

// The third record of Files begins at byte 97, where its gate is open.
#[test]
fn each_last_gate_is_given_again_before_the_sync(rt: HostRuntime) {
    let begin = b"lRdnrgsLdnrgsFdnrgsAdnrswsBdnrsws";
    assert_eq!(rt; opened(rt.alloc(), begin), Some((0, true, Some((97, 1)))));
}

fn told_file() -> &'static [u8] {
    b"1: bytes 3\n1| one\n"
}

/// The status of a run that reads the file, how many bytes are told, and whether these are the file's.
fn read_on(alloc: Global, words: &[Text], host: FakeHost) -> (u8, usize, bool)
    requires { host.is_locked ≡ false }
{
    let mut source = InputSource::new(FakeReader::new(b"@ann read /a\n", false));
    let (status, after) = single(alloc, words, &mut source, FolderBench::new(host));
    let told = after.host().told();
    let end = (status.code(), told.len(), told == told_file());
    drop(after);
    end
}

/// The same over what the script leaves, where calls do so many bytes at most, each behind an interrupted one, and those of a letter fail.
/// `None` is want of memory.
fn read_again(alloc: Global, most: usize, failing: u8) -> Option<(u8, usize, bool)> {
    let words = words_of(alloc, b"run")?;
    let mut plan = Plan::new(alloc);
    plan.most = most;
    plan.interrupts = true;
    plan.failing = failing;
    let end = match left(alloc, plan) {
        Ok(host) => Some(read_on(alloc, words.as_slice(), host)),
        Err(_) => None,
    };
    drop(words);
    end
}

#[test]
fn short_interrupted_and_failing_reads(rt: HostRuntime) {
    for most in 1..5 {
        assert_eq!(rt; read_again(rt.alloc(), most, 0), Some((0, 18, true)));
    }
    assert_eq!(rt; read_again(rt.alloc(), 1_000, b'r'), Some((3, 0, false)));
    assert_eq!(rt; read_again(rt.alloc(), 1_000, b'g'), Some((3, 0, false)));
}

/// The status, and how much was told, where calls of this letter fail.
fn end_without(alloc: Global, letter: u8) -> Option<(u8, usize)> {
    let mut plan = Plan::new(alloc);
    plan.failing = letter;
    let end = run(alloc, plan, false)?;
    Some((end.code, end.told))
}

#[test]
fn each_call_failing(rt: HostRuntime) {
    for letter in [b'l', b'o', b'd', b'n', b'w', b's', b't'] {
        assert_eq!(rt; end_without(rt.alloc(), letter), Some((3, 0)));
    }
}

/// No call but the one for the lock.
#[test]
fn a_locked_folder(rt: HostRuntime) {
    let mut plan = Plan::new(rt.alloc());
    plan.failing = b'l';
    let end = run(rt.alloc(), plan, false);
    assert!(rt; end.is_some_and(|end| end.calls == 1));
}

/// The status, and how much was told, where a file has room for so many bytes.
fn end_within(alloc: Global, room: usize) -> Option<(u8, usize)> {
    let mut plan = Plan::new(alloc);
    plan.room = room;
    let end = run(alloc, plan, false)?;
    Some((end.code, end.told))
}

#[test]
fn a_full_disk(rt: HostRuntime) {
    for room in 0..46 {
        assert_eq!(rt; end_within(rt.alloc(), room), Some((3, 0)));
    }
}

#[test]
fn a_read_that_fails_is_no_end(rt: HostRuntime) {
    let end = run(rt.alloc(), Plan::new(rt.alloc()), true);
    assert!(rt; end.is_some_and(|end| end.code == 4 && end.calls == 0));
}
