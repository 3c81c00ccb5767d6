// What becomes of branches in doubt at an opening.
ghost use Rattle.std.specs.Prelude.{◌≡◌, ◌++◌, true, Some, OnOk, is_some};
ghost use Rattle.std.specs.FinMap as maps;
ghost use Rattle.std.specs.List.{flat_map};
ghost use Rattle.std.specs.Result.{result_err};
ghost use Rattle.db_store.specs.Log.{commit_numbered};
ghost use Rattle.dl_areas.specs.Lists.{AreReady};
ghost use Rattle.dl_areas.specs.Writing.{Does};
ghost use Rattle.fm_manager.specs.Managed.{AreSpelled, as_writes};
ghost use Rattle.meaning_areas.specs.Commits.{commit_of};
ghost use Rattle.meaning_areas.specs.Lists.{folds_on};
ghost use Rattle.meaning_areas.specs.Stands.{IsStand, Stored};
ghost use Rattle.meaning_history.specs.Reached.{HasPast};
ghost use Rattle.meaning_system.specs.Writes.{open_drop, open_settles, open_writes};
ghost use Rattle.sys_opening.specs.Halting.{Halts, Tries};
ghost use Rattle.sys_opening.specs.Resolving.{Settles, commit_writes, drop_writes};
ghost use Rattle.sys_owners.specs.Owned.{folds_in, journals_of};

use crate::fault::OpenFault;
use dl_areas::calls_follow_one_another;
use dl_base::{AppendFault, Bench};
use meaning_areas::openings_ends_and_copies_are_taken;
use meaning_opening::{a_finish_goes_on, branches_without_a_commit_are_aborted};
use meaning_system::steps_keep_tables_fitting;
use sys_owners::{Owners, finish};

/// Settles the branches in doubt that have a commit, in the order of the commits, and then drops the others, in the order of their
/// numbers. The errors are `Full` with the first record that does not fit, `Device`, after which the areas are to be opened again, and
/// want of memory, which it takes between two records: the records before are there then.
pub fn resolve<B: Bench>(owners: &mut Owners, bench: &mut B) -> Result<(), OpenFault>
    requires ready { AreReady (journals_of owners.old) (B.outside bench.old) }
    requires stand { (x : Stored) × IsStand (folds_in owners.old) x × HasPast x }
    ensures folds { OnOk result (folds_on (Some (folds_in owners.old)) (open_settles (folds_in owners.old) (folds_in owners.old).rows.commits ++ flat_map (open_drop (folds_in owners.old)) (maps.entries (folds_in owners.old).links.table)) ≡ Some (folds_in owners.new)) }
    ensures drawn { OnOk result (owners.new.store.drawn ≡ owners.old.store.drawn) }
    ensures halts { Halts (journals_of owners.old) (journals_of owners.new) (as_writes (open_settles (folds_in owners.old) (folds_in owners.old).rows.commits ++ flat_map (open_drop (folds_in owners.old)) (maps.entries (folds_in owners.old).links.table))) (result_err result) (B.outside bench.old) (B.outside bench.new) }
    ensures tries { Tries (journals_of owners.old) (journals_of owners.new) (open_settles (folds_in owners.old) (folds_in owners.old).rows.commits ++ flat_map (open_drop (folds_in owners.old)) (maps.entries (folds_in owners.old).links.table)) (result_err result) (B.outside bench.old) (B.outside bench.new) }
{
    calls_follow_one_another::<B>();
    settle_all(owners, bench)?;
    drop_all(owners, bench)
}

// Settles the branches in doubt that have a commit.
fn settle_all<B: Bench>(owners: &mut Owners, bench: &mut B) -> Result<(), OpenFault>
    requires ready { AreReady (journals_of owners.old) (B.outside bench.old) }
    requires stand { (x : Stored) × IsStand (folds_in owners.old) x × HasPast x }
    ensures settles { OnOk result (Settles (folds_in owners.old) (folds_in owners.new) (open_settles (folds_in owners.old) (folds_in owners.old).rows.commits)) }
    ensures drawn { OnOk result (owners.new.store.drawn ≡ owners.old.store.drawn) }
    ensures halts { Halts (journals_of owners.old) (journals_of owners.new) (as_writes (open_settles (folds_in owners.old) (folds_in owners.old).rows.commits)) (result_err result) (B.outside bench.old) (B.outside bench.new) }
    ensures tries { Tries (journals_of owners.old) (journals_of owners.new) (open_settles (folds_in owners.old) (folds_in owners.old).rows.commits) (result_err result) (B.outside bench.old) (B.outside bench.new) }
{
    calls_follow_one_another::<B>();
    for index in 0..owners.store.commits() {
        settle_commit(owners, bench, index + 1)?;
    }
    Ok(())
}

// Settles the branch of a commit, from 1, if it has one that is in doubt.
fn settle_commit<B: Bench>(owners: &mut Owners, bench: &mut B, number: u64) -> Result<(), OpenFault>
    requires ready { AreReady (journals_of owners.old) (B.outside bench.old) }
    requires stand { (x : Stored) × IsStand (folds_in owners.old) x × HasPast x }
    ensures settles { OnOk result (Settles (folds_in owners.old) (folds_in owners.new) (commit_writes (folds_in owners.old) (commit_numbered (folds_in owners.old).rows.commits number))) }
    ensures drawn { OnOk result (owners.new.store.drawn ≡ owners.old.store.drawn) }
    ensures halts { Halts (journals_of owners.old) (journals_of owners.new) (as_writes (commit_writes (folds_in owners.old) (commit_numbered (folds_in owners.old).rows.commits number))) (result_err result) (B.outside bench.old) (B.outside bench.new) }
    ensures tries { Tries (journals_of owners.old) (journals_of owners.new) (commit_writes (folds_in owners.old) (commit_numbered (folds_in owners.old).rows.commits number)) (result_err result) (B.outside bench.old) (B.outside bench.new) }
{
    calls_follow_one_another::<B>();
    match owners.store.commit_at(number) {
        Some((tx, _)) => settle(owners, bench, tx),
        None => Ok(()),
    }
}

// Settles the branch of a transaction that has a commit, if it is in doubt.
fn settle<B: Bench>(owners: &mut Owners, bench: &mut B, tx: u64) -> Result<(), OpenFault>
    requires ready { AreReady (journals_of owners.old) (B.outside bench.old) }
    requires stand { (x : Stored) × IsStand (folds_in owners.old) x × HasPast x }
    requires committed { is_some (commit_of tx (folds_in owners.old).rows.commits) ≡ true }
    ensures settles { OnOk result (Settles (folds_in owners.old) (folds_in owners.new) (open_writes (folds_in owners.old) tx (maps.get (folds_in owners.old).links.table tx))) }
    ensures drawn { OnOk result (owners.new.store.drawn ≡ owners.old.store.drawn) }
    ensures halts { Halts (journals_of owners.old) (journals_of owners.new) (as_writes (open_writes (folds_in owners.old) tx (maps.get (folds_in owners.old).links.table tx))) (result_err result) (B.outside bench.old) (B.outside bench.new) }
    ensures tries { Tries (journals_of owners.old) (journals_of owners.new) (open_writes (folds_in owners.old) tx (maps.get (folds_in owners.old).links.table tx)) (result_err result) (B.outside bench.old) (B.outside bench.new) }
{
    a_finish_goes_on();
    openings_ends_and_copies_are_taken();
    steps_keep_tables_fitting();
    calls_follow_one_another::<B>();
    let Some(pieces) = owners.manager.pieces_left(tx)? else {
        return Ok(());
    };
    pieces.are_spelled();
    finish(owners, bench, pieces)?;
    Ok(())
}

// Drops the branches in doubt that have no commit.
fn drop_all<B: Bench>(owners: &mut Owners, bench: &mut B) -> Result<(), OpenFault>
    requires ready { AreReady (journals_of owners.old) (B.outside bench.old) }
    requires stand { (x : Stored) × IsStand (folds_in owners.old) x }
    ensures folds { OnOk result (folds_on (Some (folds_in owners.old)) (flat_map (open_drop (folds_in owners.old)) (maps.entries (folds_in owners.old).links.table)) ≡ Some (folds_in owners.new)) }
    ensures drawn { OnOk result (owners.new.store.drawn ≡ owners.old.store.drawn) }
    ensures halts { Halts (journals_of owners.old) (journals_of owners.new) (as_writes (flat_map (open_drop (folds_in owners.old)) (maps.entries (folds_in owners.old).links.table))) (result_err result) (B.outside bench.old) (B.outside bench.new) }
    ensures tries { Tries (journals_of owners.old) (journals_of owners.new) (flat_map (open_drop (folds_in owners.old)) (maps.entries (folds_in owners.old).links.table)) (result_err result) (B.outside bench.old) (B.outside bench.new) }
{
    branches_without_a_commit_are_aborted();
    calls_follow_one_another::<B>();
    for tx in owners.manager.branches().in_doubt()?.into_vec() {
        drop_one(owners, bench, tx)?;
    }
    Ok(())
}

// Drops a branch in doubt, unless it has a commit.
fn drop_one<B: Bench>(owners: &mut Owners, bench: &mut B, tx: u64) -> Result<(), AppendFault>
    requires ready { AreReady (journals_of owners.old) (B.outside bench.old) }
    requires taken { is_some (folds_on (Some (folds_in owners.old)) (drop_writes (folds_in owners.old) tx)) ≡ true }
    ensures folds { OnOk result (folds_on (Some (folds_in owners.old)) (drop_writes (folds_in owners.old) tx) ≡ Some (folds_in owners.new)) }
    ensures store { OnOk result (owners.new.store ≡ owners.old.store) }
    ensures does { Does (journals_of owners.old) (journals_of owners.new) (as_writes (drop_writes (folds_in owners.old) tx)) (result_err result) (B.outside bench.old) (B.outside bench.new) }
    ensures spelled { AreSpelled (drop_writes (folds_in owners.old) tx) }
{
    calls_follow_one_another::<B>();
    if owners.store.decided(tx) {
        return Ok(());
    }
    owners.manager.abort(bench, tx)
}
