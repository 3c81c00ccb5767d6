// Whether each backup has the tables after its commit.
ghost use Rattle.std.specs.Prelude.{◌≡◌, ◌-◌, ◌≤◌, [], IfOk, None, OnOk, Some, false, true};
ghost use Rattle.std.specs.Bool.{Decides};
ghost use Rattle.bk_backup.specs.Saved.{backup_numbered};
ghost use Rattle.dl_base.specs.declared.area.Area.TheVariants as areas;
ghost use Rattle.meaning_areas.specs.Areas.{ComparesAt};
ghost use Rattle.meaning_areas.specs.Copies.{Backup};
ghost use Rattle.meaning_areas.specs.Lists.{Folds};
ghost use Rattle.meaning_areas.specs.Stands.{past};

use bk_backup::Backups;
use db_store::Store;
use dl_base::{Memory, Same};
use sql_table::Tables;
use std::alloc::Global;
use std::mem;

/// Whether each backup has the tables after its commit, with their names, versions, columns, next numbers and rows: the comparison at
/// the area Backups. The error is want of memory, and changes nothing. It costs the rows of all backups, and the changes of the commits
/// up to the last of theirs once; for each backup of an earlier commit than the one before it, which is never made, once more.
pub fn backups_compare(alloc: Global, store: &Store, backups: &Backups) -> Result<bool, Memory>
    ensures { IfOk result (λ fits. (f : Folds) → f.rows ≡ store.now.rows → f.backups ≡ backups.now.backups → Decides fits (ComparesAt f areas.Backups)) }
{
    let mut reached = Reached {
        commit: 0,
        tables: Tables::empty(alloc),
    };
    for n in 0..backups.len() {
        if !backup_fits(alloc, &mut reached, store, backups, n + 1)? {
            return Ok(false);
        }
    }
    Ok(true)
}

// The number of a commit, and the tables after it: those of later backups come from them.
#[derive(Drop)]
struct Reached {
    commit: u64,
    tables: Tables,
}

// Whether the backup of a number, from 1, has the tables after its commit, if there is one.
fn backup_fits(
    alloc: Global,
    reached: &mut Reached,
    store: &Store,
    backups: &Backups,
    n: u64,
) -> Result<bool, Memory>
    requires { past [] store.now.rows.commits reached.old.commit ≡ Some reached.old.tables }
    ensures reached { OnOk result (past [] store.now.rows.commits reached.new.commit ≡ Some reached.new.tables) }
    ensures fits { IfOk result (λ fits. (b : Backup) → backup_numbered backups.now.backups n ≡ Some b → Decides fits (past [] store.now.rows.commits b.commit ≡ Some b.tables)) }
{
    let Some(commit) = backups.commit_of(n) else {
        return Ok(true);
    };
    let Some(tables) = backups.image(n) else {
        return Ok(true);
    };
    if !reach(alloc, reached, store, commit)? {
        return Ok(false);
    }
    Ok(reached.tables.same(tables))
}

// Goes on to a commit, and says whether there is one of this number.
fn reach(alloc: Global, reached: &mut Reached, store: &Store, commit: u64) -> Result<bool, Memory>
    requires { past [] store.now.rows.commits reached.old.commit ≡ Some reached.old.tables }
    ensures reached { OnOk result (past [] store.now.rows.commits reached.new.commit ≡ Some reached.new.tables) }
    ensures there { IfOk result (λ there. there ≡ true → reached.new.commit ≡ commit) }
    ensures none { IfOk result (λ there. there ≡ false → past [] store.now.rows.commits commit ≡ None) }
{
    let (from, before) = if commit < reached.commit {
        (0, Tables::empty(alloc))
    } else {
        (
            reached.commit,
            mem::replace(&mut reached.tables, Tables::empty(alloc)),
        )
    };
    match advance(store, from, before, commit)? {
        Some(tables) => {
            reached.commit = commit;
            reached.tables = tables;
            Ok(true)
        }
        None => {
            reached.commit = 0;
            reached.tables = Tables::empty(alloc);
            Ok(false)
        }
    }
}

// The tables after a commit, from those after an earlier one, or after the same.
fn advance(store: &Store, from: u64, before: Tables, commit: u64) -> Result<Option<Tables>, Memory>
    requires before { past [] store.now.rows.commits from ≡ Some before }
    requires order { from ≤ commit }
    ensures { IfOk result (λ after. after ≡ past [] store.now.rows.commits commit) }
{
    let mut tables = before;
    for n in from..commit {
        match next(store, n + 1, tables)? {
            Some(after) => tables = after,
            None => return Ok(None),
        }
    }
    Ok(Some(tables))
}

// The tables after a commit, from 1, from those after the one before it.
fn next(store: &Store, commit: u64, before: Tables) -> Result<Option<Tables>, Memory>
    requires before { past [] store.now.rows.commits (commit - 1) ≡ Some before }
    requires first { 1 ≤ commit }
    ensures { IfOk result (λ after. after ≡ past [] store.now.rows.commits commit) }
{
    store.next(commit, before)
}
