// Whether the tables after a commit fit: whether each row that it put stands among the others. All these rows are taken out of a
// copy, one after another, and each is asked for among what is left. The rows that are left in the end stood in the tables before,
// which fit; so no row is looked at that the commit leaves alone.
ghost use Rattle.std.specs.Prelude.{◌≡◌, ◌&&◌, IfOk, OnOk, Some, None, true};
ghost use Rattle.std.specs.Bool.{OnTrue};
ghost use Rattle.meaning_tables.specs.Fits.{fits};
ghost use Rattle.meaning_tables.specs.Tables.{row_of, table_of, without_row};
ghost use Rattle.db_replay.specs.Replaying.{ColumnsStand};
ghost use Rattle.db_replay.specs.Standing.{is_row, row_in, row_stands_in, stripped, without_all, without_changed, without_row_in, without_rows};

use crate::cells::row_stands;
use dl_base::{Copied, List, Memory, Name, Row};
use dl_codec::{RowChange, TableChange};
use sql_table::{Table, Tables};
use std::alloc::Global;

/// Whether tables fit, where they do without the rows that the changes name.
pub(crate) fn put_rows_stand(
    alloc: Global,
    tables: &Tables,
    changes: &List<TableChange>,
) -> Result<bool, Memory>
    requires { ColumnsStand tables.now }
    ensures { IfOk result (λ stand. fits tables.now ≡ (stand && fits (without_all tables.now changes.now))) }
{
    let mut left = tables.copy()?;
    let stand = take_all(alloc, &mut left, changes);
    drop(left);
    stand
}

// Takes the rows out that all changes name; false where one of them does not stand among those that are left.
fn take_all(alloc: Global, left: &mut Tables, changes: &List<TableChange>) -> Result<bool, Memory>
    requires { ColumnsStand left.old }
    ensures { IfOk result (λ stand. fits left.old ≡ (stand && fits (without_all left.old changes.now))) }
{
    for change in changes.as_slice() {
        if !take_changed(alloc, left, change)? {
            return Ok(false);
        }
    }
    Ok(true)
}

// Takes the rows out that a change names; false where one of them does not stand among those that are left.
fn take_changed(alloc: Global, left: &mut Tables, change: &TableChange) -> Result<bool, Memory>
    requires { ColumnsStand left.old }
    ensures stand { IfOk result (λ stand. fits left.old ≡ (stand && fits (without_changed left.old change.now))) }
    ensures taken { IfOk result (λ stand. OnTrue stand (left.new ≡ without_changed left.old change.now)) }
{
    match change {
        TableChange::Dropped(_) => Ok(true),
        TableChange::New(name, _, _, made) => take_rows(alloc, left, name, made),
        TableChange::Kept(name, _, made) => take_rows(alloc, left, name, made),
    }
}

// Takes rows of one table out.
fn take_rows(
    alloc: Global,
    left: &mut Tables,
    name: &Name,
    made: &List<RowChange>,
) -> Result<bool, Memory>
    requires { ColumnsStand left.old }
    ensures stand { IfOk result (λ stand. fits left.old ≡ (stand && fits (without_rows left.old name.now made.now))) }
    ensures taken { IfOk result (λ stand. OnTrue stand (left.new ≡ without_rows left.old name.now made.now)) }
{
    for change in made.as_slice() {
        if !take_row(alloc, left, name, change.number)? {
            return Ok(false);
        }
    }
    Ok(true)
}

// Takes a row out, where it is there; false where it does not stand among those that are left.
fn take_row(alloc: Global, left: &mut Tables, name: &Name, number: u64) -> Result<bool, Memory>
    requires { ColumnsStand left.old }
    ensures stand { IfOk result (λ stand. fits left.old ≡ (stand && fits left.new)) }
    ensures taken { OnOk result (left.new ≡ stripped (is_row name.now number) left.old) }
{
    match removed(left, name, number)? {
        Some(row) => stands(alloc, left, name, &row),
        None => Ok(true),
    }
}

// Takes a row out and gives a copy of it.
fn removed(left: &mut Tables, name: &Name, number: u64) -> Result<Option<Row>, Memory>
    ensures row { IfOk result (λ row. row ≡ row_in left.old name.now number) }
    ensures taken { OnOk result (left.new ≡ without_row_in left.old name.now number) }
    ensures stripped { OnOk result (left.new ≡ stripped (is_row name.now number) left.old) }
{
    // so it is known that names differ, and below that row numbers rise
    let _ = left.len();
    match left.table_mut(name) {
        Some(table) => {
            let _ = table.len();
            taken_out(table, number)
        }
        None => Ok(None),
    }
}

fn taken_out(table: &mut Table, number: u64) -> Result<Option<Row>, Memory>
    ensures found { IfOk result (λ row. row ≡ row_of table.old.rows number) }
    ensures ok { OnOk result (table.new ≡ record table.old { rows = without_row table.old.rows number }) }
{
    let before = copy_of(table, number)?;
    table.unset(number)?;
    Ok(before)
}

fn copy_of(table: &Table, number: u64) -> Result<Option<Row>, Memory>
    ensures { IfOk result (λ row. row ≡ row_of table.now.rows number) }
{
    match table.row(number) {
        Some(row) => Ok(Some(row.copy()?)),
        None => Ok(None),
    }
}

// Whether a row stands in the table of a name.
fn stands(alloc: Global, tables: &Tables, name: &Name, row: &Row) -> Result<bool, Memory>
    ensures { IfOk result (λ stands. stands ≡ row_stands_in tables.now row.now (table_of tables.now name.now)) }
{
    match tables.table(name) {
        Some(table) => row_stands(alloc, tables, table, row),
        None => Ok(true),
    }
}
