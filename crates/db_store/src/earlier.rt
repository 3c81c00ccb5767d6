// Tables of earlier commits, made again from the records of the commits.
ghost use Rattle.std.specs.Prelude.{◌≡◌, ◌+◌, ◌-◌, ◌<◌, ◌≤◌, [], IfOk, IfSome, Some, drop, length};
ghost use Rattle.std.specs.Option.{option_map};
ghost use Rattle.db_changes.specs.Made.{changes_in};
ghost use Rattle.db_changes.specs.Touched.{Covers};
ghost use Rattle.db_store.specs.Log.{commits_from, first_changes, redone};
ghost use Rattle.meaning_areas.specs.Stands.{past};

use crate::log::Log;
use db_changes::{TouchedRows, named_rows};
use db_replay::redo;
use dl_base::{List, Memory};
use dl_codec::{RowsRecord, TableChange, get_rows_record};
use sql_table::Tables;
use std::alloc::Global;

// The changes of the commit whose record has these bytes.
fn record_changes(alloc: Global, body: &[u8]) -> Result<List<TableChange>, Memory>
    ensures { IfOk result (λ changes. changes ≡ changes_in body.now) }
{
    match get_rows_record(alloc, body)? {
        Some(RowsRecord::Commit(_, _, _, changes)) => Ok(changes),
        Some(RowsRecord::Opening(_)) => Ok(List::empty(alloc)),
        Some(RowsRecord::Ended(_)) => Ok(List::empty(alloc)),
        None => Ok(List::empty(alloc)),
    }
}

// The changes of the commit at a place from 0.
fn changes_at(alloc: Global, log: &Log, index: usize) -> Result<List<TableChange>, Memory>
    ensures { IfOk result (λ changes. changes ≡ first_changes (drop index log.now.entries)) }
{
    match log.at(index) {
        Some((_, entry)) => record_changes(alloc, entry.body.bytes()),
        None => Ok(List::empty(alloc)),
    }
}

// The tables after the changes of the commit of a number.
fn redone(before: &Tables, number: u64, changes: &List<TableChange>) -> Result<Tables, Memory>
    ensures { IfOk result (λ tables. tables ≡ redone number before.now changes.now) }
{
    match redo(before, number, changes)? {
        Some(tables) => Ok(tables),
        None => before.copy(),
    }
}

// The tables after the commit at a place from 0.
fn after(alloc: Global, log: &Log, index: usize, before: &Tables) -> Result<Tables, Memory>
    requires { index < length log.now.entries }
    ensures { IfOk result (λ tables. tables ≡ redone (index + 1) before.now (first_changes (drop index log.now.entries))) }
{
    // so it is known that the number is one
    let _ = log.len();
    let changes = changes_at(alloc, log, index)?;
    let tables = redone(before, index as u64 + 1, &changes);
    drop(changes);
    tables
}

// The tables after the commit at a place from 0, and the rows that its changes name.
fn after_beside(
    alloc: Global,
    log: &Log,
    index: usize,
    before: &Tables,
) -> Result<(Tables, TouchedRows), Memory>
    requires { index < length log.now.entries }
    ensures tables { IfOk result (λ made. made.0 ≡ redone (index + 1) before.now (first_changes (drop index log.now.entries))) }
    ensures covers { IfOk result (λ made. Covers made.1 before.now made.0) }
{
    let _ = log.len();
    let changes = changes_at(alloc, log, index)?;
    let made = redone_beside(alloc, before, index as u64 + 1, &changes);
    drop(changes);
    made
}

fn redone_beside(
    alloc: Global,
    before: &Tables,
    number: u64,
    changes: &List<TableChange>,
) -> Result<(Tables, TouchedRows), Memory>
    ensures tables { IfOk result (λ made. made.0 ≡ redone number before.now changes.now) }
    ensures covers { IfOk result (λ made. Covers made.1 before.now made.0) }
{
    let tables = redone(before, number, changes)?;
    match named_rows(alloc, before, changes) {
        Ok(touched) => Ok((tables, touched)),
        Err(fault) => {
            drop(tables);
            Err(fault)
        }
    }
}

// The tables after so many commits.
#[tactic(auto, using(crate::proofs::LogLaws::past_done))]
fn tables_at(alloc: Global, log: &Log, count: usize) -> Result<Tables, Memory>
    requires { count ≤ length log.now.entries }
    ensures { IfOk result (λ tables. past [] (commits_from 1 [] log.now.entries) count ≡ Some tables) }
{
    let mut tables = Tables::empty(alloc);
    for i in 0..count {
        match after(alloc, log, i, &tables) {
            Ok(later) => tables = later,
            Err(fault) => {
                drop(tables);
                return Err(fault);
            }
        }
    }
    Ok(tables)
}

/// The tables after a commit, none after commit 0; None exactly where there is no such commit. They are made again from the records
/// of the commits up to it: it takes the time and the memory that these take at an opening.
#[tactic(auto, using(crate::proofs::LogLaws::past_none))]
pub fn past_tables(alloc: Global, log: &Log, commit: u64) -> Result<Option<Tables>, Memory>
    ensures { IfOk result (λ tables. tables ≡ past [] (commits_from 1 [] log.now.entries) commit) }
{
    if commit > log.len() as u64 {
        return Ok(None);
    }
    let tables = tables_at(alloc, log, commit as usize)?;
    Ok(Some(tables))
}

/// The tables after a commit, from 1, from those before it; None exactly where there is no such commit. They share what they have with
/// those before. The cost grows with the bytes of the commit's record, and with the number of tables.
#[tactic(auto, using(crate::proofs::LogLaws::past_none))]
pub fn next_tables(
    alloc: Global,
    log: &Log,
    commit: u64,
    before: &Tables,
) -> Result<Option<Tables>, Memory>
    requires first { 1 ≤ commit }
    requires before { past [] (commits_from 1 [] log.now.entries) (commit - 1) ≡ Some before.now }
    ensures { IfOk result (λ tables. tables ≡ past [] (commits_from 1 [] log.now.entries) commit) }
{
    if commit > log.len() as u64 {
        return Ok(None);
    }
    let tables = after(alloc, log, (commit - 1) as usize, before)?;
    Ok(Some(tables))
}

/// The same, and the rows beside which they have the rows of those before: those that the commit's record names.
#[tactic(auto, using(crate::proofs::LogLaws::past_none))]
pub fn next_beside(
    alloc: Global,
    log: &Log,
    commit: u64,
    before: &Tables,
) -> Result<Option<(Tables, TouchedRows)>, Memory>
    requires first { 1 ≤ commit }
    requires before { past [] (commits_from 1 [] log.now.entries) (commit - 1) ≡ Some before.now }
    ensures tables { IfOk result (λ made. option_map (λ m. m.0) made ≡ past [] (commits_from 1 [] log.now.entries) commit) }
    ensures covers { IfOk result (λ made. IfSome made (λ m. Covers m.1 before.now m.0)) }
{
    if commit > log.len() as u64 {
        return Ok(None);
    }
    let made = after_beside(alloc, log, (commit - 1) as usize, before)?;
    Ok(Some(made))
}
