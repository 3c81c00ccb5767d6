// What is read and appended, and each call that fails. Expected bytes are written by the format, byte by byte. Which bytes are records
// is said by worked rows.
ghost use Rattle.std.specs.Prelude.{IfSome};
ghost use Rattle.dl_bench.specs.Traces.{seen};
ghost use Rattle.dl_journal.specs.Open.{IsOpen};

use crate::made::with_area;
use dl_base::{AppendFault, Area, BeginFault, Full, List, Text};
use dl_bench::MemoryBench;
use dl_journal::Journal;
use std::alloc::Global;

/// Two records, of 5 and of 7 and 8, and bytes behind the closed gate.
const TWO_RECORDS: [u8; 24] = [
    1, 0, 0, 0, 0, 0, 0, 0, 1, 5, 1, 0, 0, 0, 0, 0, 0, 0, 2, 7, 8, 0, 1, 1,
];

/// Two records, of 7 and 8 and of nothing, and the closing gate.
const APPENDED: [u8; 21] = [
    1, 0, 0, 0, 0, 0, 0, 0, 2, 7, 8, 1, 0, 0, 0, 0, 0, 0, 0, 0, 0,
];

fn is_at(list: &List<Text>, place: usize, body: &[u8]) -> bool {
    match list.at(place) {
        Some(found) => found.bytes() == body,
        None => false,
    }
}

/// How many records an area has, whether the second is of 7 and 8, and the length of the journal.
fn begun(alloc: Global, content: &[u8]) -> Option<(usize, bool, u64)> {
    let mut bench = with_area(alloc, Area::Rows, content, None)?;
    match Journal::begin(alloc, &mut bench, Area::Rows, 64) {
        Ok((journal, list)) => Some((list.len(), is_at(&list, 1, &[7, 8]), journal.length())),
        Err(_) => None,
    }
}

/// The place of the first record that is none.
fn refused_at(alloc: Global, content: &[u8]) -> Option<u64> {
    let mut bench = with_area(alloc, Area::Rows, content, None)?;
    match Journal::begin(alloc, &mut bench, Area::Rows, 64) {
        Err(BeginFault::NotAJournal(place)) => Some(place),
        _ => None,
    }
}

#[test]
fn reads_by_the_format(rt: HostRuntime) {
    assert!(rt; begun(rt.alloc(), &TWO_RECORDS) == Some((2, true, 22)));
    assert!(rt; refused_at(rt.alloc(), &TWO_RECORDS[..21]) == Some(10));
}

/// Whether an opening that has so many calls ends well.
fn begins_within(alloc: Global, content: &[u8], calls: u64) -> Option<bool> {
    let mut bench = with_area(alloc, Area::Rows, content, Some(calls))?;
    let begun = Journal::begin(alloc, &mut bench, Area::Rows, 64);
    Some(begun.is_ok())
}

// The length, the read, the last gate that is given again, and the sync. Without records no gate is.
#[test]
fn gives_one_gate_again(rt: HostRuntime) {
    for calls in 0..4 {
        assert!(rt; begins_within(rt.alloc(), &TWO_RECORDS, calls) == Some(false));
    }
    assert!(rt; begins_within(rt.alloc(), &TWO_RECORDS, 4) == Some(true));
    assert!(rt; begins_within(rt.alloc(), &TWO_RECORDS[21..], 2) == Some(false));
    assert!(rt; begins_within(rt.alloc(), &TWO_RECORDS[21..], 3) == Some(true));
}

/// The journal of an area, with room for 21 bytes.
fn opened(alloc: Global, bench: &mut MemoryBench) -> Option<Journal>
    ensures { IfSome result (λ journal. IsOpen journal (seen bench.new)) }
{
    let (journal, _) = Journal::begin(alloc, bench, Area::Rows, 21).ok()?;
    Some(journal)
}

/// The length behind two records, and the answer of a third that has no room.
fn appended(journal: &mut Journal, bench: &mut MemoryBench) -> Option<(u64, Option<AppendFault>)>
    requires { IsOpen journal.old (seen bench.old) }
{
    journal.append(bench, &[7, 8]).ok()?;
    journal.append(bench, &[]).ok()?;
    let length = journal.length();
    Some((length, journal.append(bench, &[9]).err()))
}

fn told(alloc: Global, bench: &mut MemoryBench) -> Option<(u64, Option<AppendFault>)> {
    let mut journal = opened(alloc, bench)?;
    appended(&mut journal, bench)
}

/// The same on a bench that has so many calls, if the area is those records then.
fn told_of(alloc: Global, calls: u64) -> Option<(u64, Option<AppendFault>)> {
    let mut bench = with_area(alloc, Area::Rows, b"", Some(calls))?;
    let answers = told(alloc, &mut bench)?;
    if bench.area(Area::Rows) == APPENDED.as_slice() {
        Some(answers)
    } else {
        None
    }
}

// The opening has five calls, and each append six.
#[test]
fn appends_by_the_format(rt: HostRuntime) {
    let full = Some(AppendFault::Full(Full::Area(Area::Rows, 31)));
    assert!(rt; told_of(rt.alloc(), 17) == Some((21, full)));
    assert!(rt; told_of(rt.alloc(), 16) == None);
}

/// What the first call that fails is answered, of an opening and an append.
fn first_fault(alloc: Global, calls: u64) -> Option<(Option<BeginFault>, Option<AppendFault>)> {
    let mut bench = with_area(alloc, Area::Files, b"", Some(calls))?;
    match Journal::begin(alloc, &mut bench, Area::Files, 64) {
        Ok((mut journal, _list)) => Some((None, journal.append(&mut bench, &[7, 8]).err())),
        Err(fault) => Some((Some(fault), None)),
    }
}

#[test]
fn hands_each_fault_on(rt: HostRuntime) {
    for calls in 0..5 {
        assert!(rt; first_fault(rt.alloc(), calls) == Some((Some(BeginFault::Device), None)));
    }
    for calls in 5..11 {
        assert!(rt; first_fault(rt.alloc(), calls) == Some((None, Some(AppendFault::Device))));
    }
    assert!(rt; first_fault(rt.alloc(), 11) == Some((None, None)));
}
