// The commits, one after another: what is asked of each, and the links of all.
ghost use Rattle.std.specs.Prelude.{◌≡◌, ◌&&◌, ◌==◌, ◌/◌, ◌^◌, ℕ, List, [], IfOk, Some, length, nat_le, true};
ghost use Rattle.std.specs.BTreeMap.{get};
ghost use Rattle.std.specs.BTreeSet.{contains};
ghost use Rattle.std.specs.Bool.{Decides};
ghost use Rattle.std.specs.Cmp.Lexicographic.{slice_cmp};
ghost use Rattle.std.specs.Option.{option_map};
ghost use Rattle.std.specs.Ordering.{nat_cmp};
ghost use Rattle.compare_every.specs.Every.{first_row};
ghost use Rattle.compare_links.specs.Fitting.{CommitsFit, EachCommit, are_drawn, is_done_at};
ghost use Rattle.compare_links.specs.Moving.{AreKnown, StepFits, all_agree, are_free, with_paths, without_paths};
ghost use Rattle.db_changes.specs.Touched.{AreCommitted, Covers};
ghost use Rattle.db_store.specs.Log.{commit_between};
ghost use Rattle.dl_codec.specs.declared.links.BranchPhase.TheVariants as phases;
ghost use Rattle.fm_branch.specs.Shown.{shown};
ghost use Rattle.meaning_areas.specs.Branches.{is_phase};
ghost use Rattle.meaning_areas.specs.Commits.{HaveMoved};
ghost use Rattle.meaning_areas.specs.Stands.{IsBranch};
ghost use Rattle.meaning_settling.specs.Settling.{numbered};
ghost use Rattle.meaning_tables.specs.Fits.{Fits};
ghost use Rattle.meaning_tables.specs.Links.{gives, takes};
ghost use Rattle.meaning_tables.specs.Links as meant;

use crate::agree::tables_agree;
use crate::paths::{give_paths, take_paths};
use crate::rows::are_drawn;
use crate::walk::{Passed, commit_after};
use compare_every::{EveryLink, listed, put_rows};
use db_moved::moved_links;
use db_store::Store;
use dl_base::{LinkRow, List, Memory, Path, Same};
use dl_codec::BranchPhase;
use fm_branch::{Branch, Branches};
use sql_table::Tables;
use std::alloc::Global;
use std::collections::{BTreeMap, BTreeSet};

/// What is known of links, as far as the commits have been gone through: the paths that are linked after the last of them, and the
/// links of all of them by their numbers.
#[derive(Drop)]
struct Known {
    paths: BTreeSet<Path>,
    rows: BTreeMap<[u64; 2], LinkRow>,
}

/// The links of all commits; None exactly where one of these does not hold. Each commit with a branch has a Prepared of its number, not
/// aborted, with the links that it took away and added, and each other one has no Prepared and no such links. Each branch that has
/// ended is Done. No transaction of a commit, nor of its links, is of a later opening than the last. The links after each commit have
/// distinct paths. No two commits have links of one number that differ in their paths or options.
///
/// It costs, for each commit, its changes, the names of its tables, and for each link of the rows that it touched a logarithm, and a
/// look for its number in each table: a link whose path is another under the same number is neither taken away nor added. Where a
/// commit makes or drops a table, these are all its rows.
pub fn commits_fit(
    alloc: Global,
    store: &Store,
    branches: &Branches,
) -> Result<Option<EveryLink>, Memory>
    requires moved { HaveMoved [] store.now.rows.commits }
    requires fit { EachCommit (λ c. Fits c.tables) store.now.rows.commits }
    ensures { IfOk result (λ every. CommitsFit store.now.rows branches.now.links.table every) }
{
    let mut before = Tables::empty(alloc);
    let mut known = Known {
        paths: BTreeSet::new(alloc),
        rows: BTreeMap::new(alloc),
    };
    for index in 0..store.commits() {
        let passed = commit_after(store, index, &before)?;
        if !commit_fits(alloc, store, branches, &before, &passed, &mut known)? {
            drop(passed);
            drop(before);
            drop(known);
            return Ok(None);
        }
        let Passed {
            tables,
            touched,
            ..
        } = passed;
        drop(touched);
        before = tables;
    }
    drop(before);
    let Known { paths, rows } = known;
    drop(paths);
    Ok(Some(listed(alloc, rows)?))
}

// Whether a commit fits, from the tables before it and what is known then; what is known goes on to it.
fn commit_fits(
    alloc: Global,
    store: &Store,
    branches: &Branches,
    before: &Tables,
    passed: &Passed,
    known: &mut Known,
) -> Result<bool, Memory>
    requires has { AreKnown (get (slice_cmp nat_cmp) known.old.rows) before.now }
    requires covers { Covers passed.now.touched before.now passed.now.tables }
    requires committed { AreCommitted passed.now.tables }
    ensures fits { IfOk result (λ fits. Decides fits (StepFits store.now.rows branches.now.links.table (contains (slice_cmp nat_cmp) known.old.paths) (get (slice_cmp nat_cmp) known.old.rows) (commit_between before.now passed.now.tx passed.now.branch passed.now.tables))) }
    ensures paths { IfOk result (λ fits. fits ≡ true → (q : List ℕ) → contains (slice_cmp nat_cmp) known.new.paths q ≡ with_paths (takes before.now passed.now.tables) (without_paths (gives before.now passed.now.tables) (contains (slice_cmp nat_cmp) known.old.paths)) q) }
    ensures rows { IfOk result (λ fits. fits ≡ true → (n : List ℕ) → get (slice_cmp nat_cmp) known.new.rows n ≡ first_row (get (slice_cmp nat_cmp) known.old.rows n) (numbered (takes before.now passed.now.tables) n)) }
{
    if !is_drawn(store, passed.tx) {
        return Ok(false);
    }
    let branch = branches.branch(passed.tx);
    if !is_done_at(store.is_ended(passed.tx), branch) {
        return Ok(false);
    }
    let (gives, takes) = moved_links(alloc, before, &passed.tables, &passed.touched)?;
    if !is_branch(passed.branch, &gives, &takes, branch) {
        drop(gives);
        drop(takes);
        return Ok(false);
    }
    let fits = links_fit(store.opening(), before, passed, &gives, &takes, known);
    drop(gives);
    drop(takes);
    fits
}

// Whether the links after a commit fit what is known before it, from the links that it gave and took; what is known goes on to them.
fn links_fit(
    opening: u32,
    before: &Tables,
    passed: &Passed,
    gives: &List<LinkRow>,
    takes: &List<LinkRow>,
    known: &mut Known,
) -> Result<bool, Memory>
    requires has { AreKnown (get (slice_cmp nat_cmp) known.old.rows) before.now }
    requires covers { Covers passed.now.touched before.now passed.now.tables }
    requires committed { AreCommitted passed.now.tables }
    ensures fit { IfOk result (λ fit. fit ≡ (are_drawn opening takes.now && all_agree (get (slice_cmp nat_cmp) known.old.rows) (meant.links passed.now.tables) && are_free (without_paths gives.now (contains (slice_cmp nat_cmp) known.old.paths)) takes.now)) }
    ensures paths { IfOk result (λ fit. fit ≡ true → (q : List ℕ) → contains (slice_cmp nat_cmp) known.new.paths q ≡ with_paths takes.now (without_paths gives.now (contains (slice_cmp nat_cmp) known.old.paths)) q) }
    ensures rows { IfOk result (λ fit. fit ≡ true → (n : List ℕ) → get (slice_cmp nat_cmp) known.new.rows n ≡ first_row (get (slice_cmp nat_cmp) known.old.rows n) (numbered takes.now n)) }
{
    if !are_drawn(opening, takes) {
        return Ok(false);
    }
    if !tables_agree(&known.rows, before, &passed.tables, &passed.touched) {
        return Ok(false);
    }
    give_paths(&mut known.paths, gives);
    if !take_paths(&mut known.paths, takes)? {
        return Ok(false);
    }
    put_rows(&mut known.rows, takes)?;
    Ok(true)
}

// Whether a transaction is of no later opening than the last.
fn is_drawn(store: &Store, tx: u64) -> bool
    ensures { result ≡ nat_le (tx / 2 ^ 32) store.now.rows.opening }
{
    tx / 4_294_967_296 <= u64::from(store.opening())
}

// Whether a branch that has ended is done.
fn is_done_at(ended: bool, branch: Option<Branch<'_>>) -> bool
    ensures { result ≡ is_done_at ended (option_map shown branch.entry) }
{
    match branch {
        Some(branch) => !ended || is_done(branch.phase),
        None => !ended,
    }
}

fn is_done(phase: BranchPhase) -> bool
    ensures { result ≡ is_phase phase phases.Done }
{
    match phase {
        BranchPhase::Done => true,
        BranchPhase::Prepared | BranchPhase::Committed | BranchPhase::Aborted => false,
    }
}

// Whether the branch is that of a commit with these links.
fn is_branch(
    has: bool,
    gives: &List<LinkRow>,
    takes: &List<LinkRow>,
    branch: Option<Branch<'_>>,
) -> bool
    ensures { Decides result (IsBranch has gives.now takes.now (option_map shown branch.entry)) }
{
    match branch {
        Some(branch) => {
            if !has {
                return false;
            }
            is_branch_of(gives, takes, branch)
        }
        None => {
            if has {
                return false;
            }
            are_none(gives, takes)
        }
    }
}

// Whether a branch has these links, and is not aborted.
fn is_branch_of(gives: &List<LinkRow>, takes: &List<LinkRow>, branch: Branch<'_>) -> bool
    ensures { Decides result (IsBranch true gives.now takes.now (Some (shown branch.entry))) }
{
    if is_aborted(branch.phase) {
        return false;
    }
    if !branch.gives.same(gives) {
        return false;
    }
    branch.takes.same(takes)
}

fn is_aborted(phase: BranchPhase) -> bool
    ensures { result ≡ is_phase phase phases.Aborted }
{
    match phase {
        BranchPhase::Aborted => true,
        BranchPhase::Prepared | BranchPhase::Committed | BranchPhase::Done => false,
    }
}

// Whether there are no links.
fn are_none(gives: &List<LinkRow>, takes: &List<LinkRow>) -> bool
    ensures { result ≡ ((length gives.now == 0) && (length takes.now == 0)) }
{
    gives.len() == 0 && takes.len() == 0
}
