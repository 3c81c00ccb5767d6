// The calls of branches, once each, with ample memory, over areas whose bytes are written by the format.
ghost use Rattle.std.specs.Prelude.{◌≡◌};
ghost use Rattle.std.specs.FinMap as maps;
ghost use Rattle.dl_bench.specs.Traces.{seen};
ghost use Rattle.dl_journal.specs.Open.{IsOpen};
ghost use Rattle.fm_branch.specs.Linked.{extent};
ghost use Rattle.fm_branch.specs.Table.{is_branch_at};
ghost use Rattle.meaning_areas.specs.Branches.{phase_number};

use crate::bench::{refused_place, with_area};
use dl_base::{Area, BeginFault, LinkRow};
use dl_bench::MemoryBench;
use dl_codec::BranchPhase;
use fm_branch::Branches;
use std::alloc::Global;

// The bytes stand in functions without a clause, which keeps them out of the goals.

/// Opening 1; branches 1 (done: takes `/a` and `/b`), 3 (aborted: gives `/b`), 2 (committed: gives `/a`, takes `/a` and `/c`), 5 (takes
/// `/d`) and 4 (gives `/b`), in the order of their Prepared.
fn five_branches() -> &'static [u8] {
    b"\x01\0\0\0\0\0\0\0\x05\x01\0\0\0\x01\
      \x01\0\0\0\0\0\0\0?\x02\0\0\0\x01\0\0\0\x01\0\0\0\0\0\0\0\x02\0\0\0\x01\0\0\0\x01\0\0\0\x01\0\0\0\x02/a\0\0\0\0\0\0\0\0\x01\0\0\0\x01\0\0\0\x02\0\0\0\x02/b\0\0\0\0\0\
      \x01\0\0\0\0\0\0\0\x09\x03\0\0\0\x01\0\0\0\x01\
      \x01\0\0\0\0\0\0\0\x09\x04\0\0\0\x01\0\0\0\x01\
      \x01\0\0\0\0\0\0\0'\x02\0\0\0\x01\0\0\0\x03\0\0\0\x01\0\0\0\x01\0\0\0\x01\0\0\0\x02\0\0\0\x02/b\0\0\0\0\0\0\0\0\
      \x01\0\0\0\0\0\0\0U\x02\0\0\0\x01\0\0\0\x02\0\0\0\x01\0\0\0\x01\0\0\0\x01\0\0\0\x01\0\0\0\x02/a\0\0\0\0\0\0\0\x02\0\0\0\x01\0\0\0\x02\0\0\0\x01\0\0\0\x02/a\0\0\0\0\0\0\0\0\x01\0\0\0\x02\0\0\0\x02\0\0\0\x02/c\0\0\0\0\0\
      \x01\0\0\0\0\0\0\0\x09\x05\0\0\0\x01\0\0\0\x03\
      \x01\0\0\0\0\0\0\0\x09\x03\0\0\0\x01\0\0\0\x02\
      \x01\0\0\0\0\0\0\0(\x02\0\0\0\x01\0\0\0\x05\0\0\0\0\0\0\0\x01\0\0\0\x01\0\0\0\x05\0\0\0\x01\0\0\0\x02/d\0\0\0\0\0\
      \x01\0\0\0\0\0\0\0'\x02\0\0\0\x01\0\0\0\x04\0\0\0\x01\0\0\0\x01\0\0\0\x01\0\0\0\x02\0\0\0\x02/b\0\0\0\0\0\0\0\0\
      \0"
}

/// An opening that is not the first.
fn another_opening() -> &'static [u8] {
    b"\x01\0\0\0\0\0\0\0\x05\x01\0\0\0\x02\
      \0"
}

/// A take on a path on which a link is held that is not given.
fn over_a_held_path() -> &'static [u8] {
    b"\x01\0\0\0\0\0\0\0\x05\x01\0\0\0\x01\
      \x01\0\0\0\0\0\0\0?\x02\0\0\0\x01\0\0\0\x01\0\0\0\0\0\0\0\x02\0\0\0\x01\0\0\0\x01\0\0\0\x01\0\0\0\x02/a\0\0\0\0\0\0\0\0\x01\0\0\0\x01\0\0\0\x02\0\0\0\x02/b\0\0\0\0\0\
      \x01\0\0\0\0\0\0\0\x09\x03\0\0\0\x01\0\0\0\x01\
      \x01\0\0\0\0\0\0\0\x09\x04\0\0\0\x01\0\0\0\x01\
      \x01\0\0\0\0\0\0\0(\x02\0\0\0\x01\0\0\0\x02\0\0\0\0\0\0\0\x01\0\0\0\x01\0\0\0\x02\0\0\0\x01\0\0\0\x02/a\0\0\0\0\0\
      \0"
}

/// A gift of a link with another number than that which is held.
fn gives_what_is_not_held() -> &'static [u8] {
    b"\x01\0\0\0\0\0\0\0\x05\x01\0\0\0\x01\
      \x01\0\0\0\0\0\0\0?\x02\0\0\0\x01\0\0\0\x01\0\0\0\0\0\0\0\x02\0\0\0\x01\0\0\0\x01\0\0\0\x01\0\0\0\x02/a\0\0\0\0\0\0\0\0\x01\0\0\0\x01\0\0\0\x02\0\0\0\x02/b\0\0\0\0\0\
      \x01\0\0\0\0\0\0\0\x09\x03\0\0\0\x01\0\0\0\x01\
      \x01\0\0\0\0\0\0\0\x09\x04\0\0\0\x01\0\0\0\x01\
      \x01\0\0\0\0\0\0\0'\x02\0\0\0\x01\0\0\0\x02\0\0\0\x01\0\0\0\x01\0\0\0\x01\0\0\0\x09\0\0\0\x02/a\0\0\0\0\0\0\0\0\
      \0"
}

/// A second Prepared of a transaction.
fn prepared_twice() -> &'static [u8] {
    b"\x01\0\0\0\0\0\0\0\x05\x01\0\0\0\x01\
      \x01\0\0\0\0\0\0\0?\x02\0\0\0\x01\0\0\0\x01\0\0\0\0\0\0\0\x02\0\0\0\x01\0\0\0\x01\0\0\0\x01\0\0\0\x02/a\0\0\0\0\0\0\0\0\x01\0\0\0\x01\0\0\0\x02\0\0\0\x02/b\0\0\0\0\0\
      \x01\0\0\0\0\0\0\0\x09\x03\0\0\0\x01\0\0\0\x01\
      \x01\0\0\0\0\0\0\0\x09\x04\0\0\0\x01\0\0\0\x01\
      \x01\0\0\0\0\0\0\0\x11\x02\0\0\0\x01\0\0\0\x01\0\0\0\0\0\0\0\0\
      \0"
}

/// A fill at a take with RECOVERY NO.
fn filled_without_recovery() -> &'static [u8] {
    b"\x01\0\0\0\0\0\0\0\x05\x01\0\0\0\x01\
      \x01\0\0\0\0\0\0\0?\x02\0\0\0\x01\0\0\0\x01\0\0\0\0\0\0\0\x02\0\0\0\x01\0\0\0\x01\0\0\0\x01\0\0\0\x02/a\0\0\0\0\0\0\0\0\x01\0\0\0\x01\0\0\0\x02\0\0\0\x02/b\0\0\0\0\0\
      \x01\0\0\0\0\0\0\0\x09\x03\0\0\0\x01\0\0\0\x01\
      \x01\0\0\0\0\0\0\0\x09\x04\0\0\0\x01\0\0\0\x01\
      \x01\0\0\0\0\0\0\0(\x02\0\0\0\x01\0\0\0\x02\0\0\0\0\0\0\0\x01\0\0\0\x01\0\0\0\x02\0\0\0\x01\0\0\0\x02/x\0\0\0\0\x01\
      \0"
}

/// A fill at one of two takes with RECOVERY YES.
fn filled_in_part() -> &'static [u8] {
    b"\x01\0\0\0\0\0\0\0\x05\x01\0\0\0\x01\
      \x01\0\0\0\0\0\0\0?\x02\0\0\0\x01\0\0\0\x01\0\0\0\0\0\0\0\x02\0\0\0\x01\0\0\0\x01\0\0\0\x01\0\0\0\x02/a\0\0\0\0\0\0\0\0\x01\0\0\0\x01\0\0\0\x02\0\0\0\x02/b\0\0\0\0\0\
      \x01\0\0\0\0\0\0\0\x09\x03\0\0\0\x01\0\0\0\x01\
      \x01\0\0\0\0\0\0\0\x09\x04\0\0\0\x01\0\0\0\x01\
      \x01\0\0\0\0\0\0\0?\x02\0\0\0\x01\0\0\0\x02\0\0\0\0\0\0\0\x02\0\0\0\x01\0\0\0\x02\0\0\0\x01\0\0\0\x02/x\0\x01\x01\x01\x01\0\0\0\x01\0\0\0\x02\0\0\0\x02\0\0\0\x02/y\0\x01\x01\x01\0\
      \0"
}

/// A Done of a branch that is Prepared.
fn done_before_committed() -> &'static [u8] {
    b"\x01\0\0\0\0\0\0\0\x05\x01\0\0\0\x01\
      \x01\0\0\0\0\0\0\0\x11\x02\0\0\0\x01\0\0\0\x01\0\0\0\0\0\0\0\0\
      \x01\0\0\0\0\0\0\0\x09\x04\0\0\0\x01\0\0\0\x01\
      \0"
}

/// A Committed of a branch that is Aborted.
fn committed_after_aborted() -> &'static [u8] {
    b"\x01\0\0\0\0\0\0\0\x05\x01\0\0\0\x01\
      \x01\0\0\0\0\0\0\0\x11\x02\0\0\0\x01\0\0\0\x01\0\0\0\0\0\0\0\0\
      \x01\0\0\0\0\0\0\0\x09\x05\0\0\0\x01\0\0\0\x01\
      \x01\0\0\0\0\0\0\0\x09\x03\0\0\0\x01\0\0\0\x01\
      \0"
}

/// A branch that is filled, at its only take with RECOVERY YES.
fn filled() -> &'static [u8] {
    b"\x01\0\0\0\0\0\0\0\x05\x01\0\0\0\x01\
      \x01\0\0\0\0\0\0\0?\x02\0\0\0\x01\0\0\0\x01\0\0\0\0\0\0\0\x02\0\0\0\x01\0\0\0\x01\0\0\0\x01\0\0\0\x02/a\0\0\0\0\0\0\0\0\x01\0\0\0\x01\0\0\0\x02\0\0\0\x02/b\0\0\0\0\0\
      \x01\0\0\0\0\0\0\0\x09\x03\0\0\0\x01\0\0\0\x01\
      \x01\0\0\0\0\0\0\0\x09\x04\0\0\0\x01\0\0\0\x01\
      \x01\0\0\0\0\0\0\0?\x02\0\0\0\x01\0\0\0\x02\0\0\0\0\0\0\0\x02\0\0\0\x01\0\0\0\x02\0\0\0\x01\0\0\0\x02/x\0\x01\x01\x01\x01\0\0\0\x01\0\0\0\x02\0\0\0\x02\0\0\0\x02/y\0\0\0\0\0\
      \0"
}

/// An Aborted of a transaction without a branch.
fn no_branch() -> &'static [u8] {
    b"\x01\0\0\0\0\0\0\0\x05\x01\0\0\0\x01\
      \x01\0\0\0\0\0\0\0\x09\x05\0\0\0\x01\0\0\0\x01\
      \0"
}

// A transaction of opening 1.
fn tx(n: u64) -> u64 {
    4_294_967_296u64.wrapping_add(n)
}

fn begun(alloc: Global, bytes: &[u8]) -> Option<Result<Branches, BeginFault>> {
    let mut bench = with_area(alloc, Area::Links, bytes)?;
    let begun = Branches::begin(alloc, &mut bench, 1_000);
    drop(bench);
    Some(begun)
}

fn opened(alloc: Global, bytes: &[u8]) -> Option<Branches> {
    begun(alloc, bytes)?.ok()
}

fn refused_at(alloc: Global, bytes: &[u8]) -> Option<u64> {
    refused_place(begun(alloc, bytes)?)
}

fn number_of(phase: BranchPhase) -> u8
    ensures { result ≡ phase_number phase }
{
    match phase {
        BranchPhase::Prepared => 0,
        BranchPhase::Committed => 1,
        BranchPhase::Done => 2,
        BranchPhase::Aborted => 3,
    }
}

// The phase of a branch by its number, how many links the branch gives and takes, and whether it is filled.
fn told(branches: &Branches, tx: u64) -> Option<(u8, usize, usize, bool)> {
    let branch = branches.branch(tx)?;
    Some((
        number_of(branch.phase),
        branch.gives.len(),
        branch.takes.len(),
        branch.fill,
    ))
}

// The branch at a place in the order of the Prepared, and that of those in doubt.
fn prepared_at(branches: &Branches, place: usize) -> Option<u64> {
    branches.branches().ok()?.at(place).copied()
}

fn doubtful_at(branches: &Branches, place: usize) -> Option<u64> {
    branches.in_doubt().ok()?.at(place).copied()
}

// The number of the held link at a place, and the last byte of its path.
fn held_at(branches: &Branches, place: usize) -> Option<(u64, u32, u8)> {
    shown(branches.held().ok()?.at(place)?)
}

fn shown(row: &LinkRow) -> Option<(u64, u32, u8)> {
    Some((row.link.tx, row.link.k, *row.path.bytes().get(1)?))
}

// The same of the branches of an area.

fn told_in(alloc: Global, bytes: &[u8], tx: u64) -> Option<(u8, usize, usize, bool)> {
    let branches = opened(alloc, bytes)?;
    let told = told(&branches, tx);
    drop(branches);
    told
}

fn prepared_in(alloc: Global, bytes: &[u8], place: usize) -> Option<u64> {
    let branches = opened(alloc, bytes)?;
    let prepared = prepared_at(&branches, place);
    drop(branches);
    prepared
}

fn doubtful_in(alloc: Global, bytes: &[u8], place: usize) -> Option<u64> {
    let branches = opened(alloc, bytes)?;
    let doubtful = doubtful_at(&branches, place);
    drop(branches);
    doubtful
}

fn held_in(alloc: Global, bytes: &[u8], place: usize) -> Option<(u64, u32, u8)> {
    let branches = opened(alloc, bytes)?;
    let held = held_at(&branches, place);
    drop(branches);
    held
}

// Calls that write, each over branches that are opened for it.

fn announced(branches: &mut Branches, bench: &mut MemoryBench) -> Option<u32>
    requires ready { IsOpen (extent branches.old) (seen bench.old) }
{
    branches.announce(bench).ok()?;
    Some(branches.opening())
}

fn announce(alloc: Global, bench: &mut MemoryBench) -> Option<u32> {
    let mut branches = Branches::begin(alloc, bench, 1_000).ok()?;
    let opening = announced(&mut branches, bench);
    drop(branches);
    opening
}

// Whether there is a branch of a transaction, in this phase.
fn is_at(branches: &Branches, tx: u64, phase: BranchPhase) -> bool
    ensures { result ≡ is_branch_at phase (maps.get branches.now.links.table tx) }
{
    match branches.branch(tx) {
        Some(branch) => number_of(branch.phase) == number_of(phase),
        None => false,
    }
}

#[tactic(auto, using(crate::proofs::Phases::commit_taken))]
fn commit(branches: &mut Branches, bench: &mut MemoryBench, tx: u64) -> Option<()>
    requires ready { IsOpen (extent branches.old) (seen bench.old) }
{
    if !is_at(branches, tx, BranchPhase::Prepared) {
        return None;
    }
    branches.commit(bench, tx).ok()
}

#[tactic(auto, using(crate::proofs::Phases::done_taken))]
fn finish(branches: &mut Branches, bench: &mut MemoryBench, tx: u64) -> Option<()>
    requires ready { IsOpen (extent branches.old) (seen bench.old) }
{
    if !is_at(branches, tx, BranchPhase::Committed) {
        return None;
    }
    branches.done(bench, tx).ok()
}

#[tactic(auto, using(crate::proofs::Phases::abort_taken))]
fn abort(branches: &mut Branches, bench: &mut MemoryBench, tx: u64) -> Option<()>
    requires ready { IsOpen (extent branches.old) (seen bench.old) }
{
    if !is_at(branches, tx, BranchPhase::Prepared) {
        return None;
    }
    branches.abort(bench, tx).ok()
}

// A step of a branch to its end.
#[derive(Clone, Copy, Drop)]
enum Step {
    Commit,
    Finish,
    Abort,
}

fn end(alloc: Global, bench: &mut MemoryBench, tx: u64, step: Step) -> Option<()> {
    let mut branches = Branches::begin(alloc, bench, 1_000).ok()?;
    let ended = match step {
        Step::Commit => commit(&mut branches, bench, tx),
        Step::Finish => finish(&mut branches, bench, tx),
        Step::Abort => abort(&mut branches, bench, tx),
    };
    drop(branches);
    ended
}

// All branches are ended, with the next opening between; its number.
fn end_all(alloc: Global, bench: &mut MemoryBench) -> Option<u32> {
    end(alloc, bench, tx(2), Step::Finish)?;
    let opening = announce(alloc, bench)?;
    end(alloc, bench, tx(4), Step::Commit)?;
    end(alloc, bench, tx(4), Step::Finish)?;
    end(alloc, bench, tx(5), Step::Abort)?;
    Some(opening)
}

// A bench on which that was done, if it was the opening 2.
fn ended(alloc: Global) -> Option<MemoryBench> {
    let mut bench = with_area(alloc, Area::Links, five_branches())?;
    if end_all(alloc, &mut bench) == Some(2) {
        Some(bench)
    } else {
        drop(bench);
        None
    }
}

fn told_at_end(alloc: Global, tx: u64) -> Option<(u8, usize, usize, bool)> {
    let bench = ended(alloc)?;
    let told = told_in(alloc, bench.area(Area::Links), tx);
    drop(bench);
    told
}

fn held_at_end(alloc: Global, place: usize) -> Option<(u64, u32, u8)> {
    let bench = ended(alloc)?;
    let held = held_in(alloc, bench.area(Area::Links), place);
    drop(bench);
    held
}

fn doubtful_at_end(alloc: Global, place: usize) -> Option<u64> {
    let bench = ended(alloc)?;
    let doubtful = doubtful_in(alloc, bench.area(Area::Links), place);
    drop(bench);
    doubtful
}

#[test]
fn branches_of_an_area(rt: HostRuntime) {
    let alloc = rt.alloc();
    for (bytes, n, want) in [
        (five_branches(), 1, Some((2, 0, 2, false))),
        (five_branches(), 2, Some((1, 1, 2, false))),
        (five_branches(), 3, Some((3, 1, 0, false))),
        (five_branches(), 4, Some((0, 1, 0, false))),
        (five_branches(), 5, Some((0, 0, 1, false))),
        (five_branches(), 6, None),
        (filled(), 2, Some((0, 0, 2, true))),
    ] {
        assert_eq!(rt; told_in(alloc, bytes, tx(n)), want);
    }
}

#[test]
fn branches_in_the_order_of_their_prepared(rt: HostRuntime) {
    let alloc = rt.alloc();
    for (place, want) in [
        (0, Some(tx(1))),
        (1, Some(tx(3))),
        (2, Some(tx(2))),
        (3, Some(tx(5))),
        (4, Some(tx(4))),
        (5, None),
    ] {
        assert_eq!(rt; prepared_in(alloc, five_branches(), place), want);
    }
}

#[test]
fn branches_in_doubt(rt: HostRuntime) {
    let alloc = rt.alloc();
    for (place, want) in [
        (0, Some(tx(2))),
        (1, Some(tx(4))),
        (2, Some(tx(5))),
        (3, None),
    ] {
        assert_eq!(rt; doubtful_in(alloc, five_branches(), place), want);
    }
}

#[test]
fn links_that_are_held(rt: HostRuntime) {
    let alloc = rt.alloc();
    for (place, want) in [
        (0, Some((tx(1), 1, b'a'))),
        (1, Some((tx(1), 2, b'b'))),
        (2, None),
    ] {
        assert_eq!(rt; held_in(alloc, five_branches(), place), want);
    }
}

#[test]
fn areas_that_are_refused(rt: HostRuntime) {
    let alloc = rt.alloc();
    for (bytes, place) in [
        (another_opening(), 0),
        (over_a_held_path(), 122),
        (gives_what_is_not_held(), 122),
        (prepared_twice(), 122),
        (filled_without_recovery(), 122),
        (filled_in_part(), 122),
        (done_before_committed(), 40),
        (committed_after_aborted(), 58),
        (no_branch(), 14),
    ] {
        assert_eq!(rt; refused_at(alloc, bytes), Some(place));
    }
}

#[test]
fn branches_end(rt: HostRuntime) {
    let alloc = rt.alloc();
    for (n, want) in [
        (2, Some((2, 1, 2, false))),
        (4, Some((2, 1, 0, false))),
        (5, Some((3, 0, 1, false))),
    ] {
        assert_eq!(rt; told_at_end(alloc, tx(n)), want);
    }
}

#[test]
fn links_that_are_held_once_branches_have_ended(rt: HostRuntime) {
    let alloc = rt.alloc();
    assert_eq!(rt; doubtful_at_end(alloc, 0), None);
    for (place, want) in [
        (0, Some((tx(2), 1, b'a'))),
        (1, Some((tx(2), 2, b'c'))),
        (2, None),
    ] {
        assert_eq!(rt; held_at_end(alloc, place), want);
    }
}
