// A commit as a whole: all changes are done to tables that share what they have with those before, and then it is asked whether each
// row that they put stands among the others.
ghost use Rattle.std.specs.Prelude.{◌≡◌, IfOk, IfSome};
ghost use Rattle.std.specs.Bool.{then_some};
ghost use Rattle.dl_codec.specs.declared.rows.TableChange.TheVariants as changes_of;
ghost use Rattle.meaning_areas.specs.Commits.{with_table_change, with_table_changes};
ghost use Rattle.meaning_tables.specs.Fits.{Fits};
ghost use Rattle.db_replay.specs.Replaying.{ColumnsStand, fitted};

use crate::columns::columns_stand;
use crate::rows::change_rows;
use crate::standing::put_rows_stand;
use dl_base::{Column, Copied, List, Memory, Name};
use dl_codec::{RowChange, TableChange};
use sql_table::Tables;
use std::alloc::Global;

/// The tables after the changes of a commit, which gives the tables that it changes its number as version; None exactly where the
/// changes do not apply, or the tables after them do not fit: then the record is refused. Changes are done one after another, so a
/// table may be changed again, and only the tables after all of them need fit. The only error is want of memory.
///
/// The tables before stay, and share with those after them what has not changed. The cost grows with the number of tables, with
/// their names, and with the rows that the changes name, times the logarithm of the rows of their tables; where a row that is put
/// has links, also times the number of tables.
pub fn replay(
    alloc: Global,
    tables: &Tables,
    version: u64,
    changes: &List<TableChange>,
) -> Result<Option<Tables>, Memory>
    requires fit { Fits tables.now }
    requires columns { ColumnsStand tables.now }
    ensures exact { IfOk result (λ later. later ≡ fitted (with_table_changes version tables.now changes.now)) }
    ensures fit { IfOk result (λ later. IfSome later Fits) }
    ensures columns { IfOk result (λ later. IfSome later ColumnsStand) }
{
    let later = match redo(tables, version, changes)? {
        Some(later) => later,
        None => return Ok(None),
    };
    match put_rows_stand(alloc, &later, changes) {
        Ok(true) => Ok(Some(later)),
        Ok(false) => {
            drop(later);
            Ok(None)
        }
        Err(fault) => {
            drop(later);
            Err(fault)
        }
    }
}

/// The same without asking whether the tables after the changes fit; None exactly where the changes do not apply. The cost grows with
/// the number of tables, with their names, and with the rows that the changes name, times the logarithm of the rows of their tables.
pub fn redo(
    tables: &Tables,
    version: u64,
    changes: &List<TableChange>,
) -> Result<Option<Tables>, Memory>
    ensures { IfOk result (λ later. later ≡ with_table_changes version tables.now changes.now) }
{
    let mut later = tables.copy()?;
    match change_all(&mut later, version, changes) {
        Ok(true) => Ok(Some(later)),
        Ok(false) => {
            drop(later);
            Ok(None)
        }
        Err(fault) => {
            drop(later);
            Err(fault)
        }
    }
}

// Does all changes; false where one does not apply, and then the tables are of no more use.
fn change_all(
    tables: &mut Tables,
    version: u64,
    changes: &List<TableChange>,
) -> Result<bool, Memory>
    ensures { IfOk result (λ applies. with_table_changes version tables.old changes.now ≡ then_some applies tables.new) }
{
    for change in changes.as_slice() {
        if !change_one(tables, version, change)? {
            return Ok(false);
        }
    }
    Ok(true)
}

// Does one change; false where it does not apply, and then the tables are of no more use.
fn change_one(tables: &mut Tables, version: u64, change: &TableChange) -> Result<bool, Memory>
    ensures { IfOk result (λ applies. with_table_change version tables.old change.now ≡ then_some applies tables.new) }
{
    match change {
        TableChange::Dropped(name) => Ok(tables.discard(name)),
        TableChange::New(name, columns, next, made) => {
            make_table(tables, version, name, columns, *next, made)
        }
        TableChange::Kept(name, next, made) => change_table(tables, version, name, *next, made),
    }
}

// Adds a table with its rows, where its name is free and its columns stand.
fn make_table(
    tables: &mut Tables,
    version: u64,
    name: &Name,
    columns: &List<Column>,
    next: u64,
    rows: &List<RowChange>,
) -> Result<bool, Memory>
    ensures { IfOk result (λ applies. with_table_change version tables.old (changes_of.New name.now columns.now next rows.now) ≡ then_some applies tables.new) }
{
    if tables.table(name).is_some() {
        return Ok(false);
    }
    if !columns_stand(columns) {
        return Ok(false);
    }
    tables.add(name.copy()?, columns.copy()?)?;
    change_table(tables, version, name, next, rows)
}

// Gives the table of a name a version, a next row number and other rows.
fn change_table(
    tables: &mut Tables,
    version: u64,
    name: &Name,
    next: u64,
    made: &List<RowChange>,
) -> Result<bool, Memory>
    ensures { IfOk result (λ applies. with_table_change version tables.old (changes_of.Kept name.now next made.now) ≡ then_some applies tables.new) }
{
    let mut table = match tables.table(name) {
        Some(table) => table.copy()?,
        None => return Ok(false),
    };
    table.set_version(version);
    match change_rows(&mut table, next, made) {
        Ok(true) => {
            drop(tables.put(name, table));
            Ok(true)
        }
        Ok(false) => {
            drop(table);
            Ok(false)
        }
        Err(fault) => {
            drop(table);
            Err(fault)
        }
    }
}
