// What a copy of tables differs in from its base, table by table, once as the changes of a record and once as handles. Of a table that
// both have only the touched rows are looked at.
ghost use Rattle.std.specs.Prelude.{◌≡◌, ◌==◌, ◌++◌, ◌∷◌, [], ◌&&◌, ℕ, IfOk, OnOk, Some, filter, map};
ghost use Rattle.std.specs.List.{filter_map};
ghost use Rattle.std.specs.Option.{option_copied, option_to_list};
ghost use Rattle.meaning_areas.specs.Same.{same_columns, same_row, same_rows};
ghost use Rattle.meaning_merge.specs.Merging as merging;
ghost use Rattle.meaning_tables.specs.Tables.{row_of, table_of};
ghost use Rattle.db_changes.specs.Handles.{dropped_handle, fate_between, fate_in, kept_handle, kept_in, new_handle};
ghost use Rattle.db_changes.specs.Made.{change_at, changes_at};
ghost use Rattle.db_changes.specs.Touched.{Agree, Covers, numbers_of};

use crate::TouchedRows;
use db_replay::Change;
use dl_base::{Copied, List, Memory, Name, Row, Same};
use dl_codec::{RowChange, TableChange};
use dl_pages::Pages;
use sql_table::{Table, Tables};
use std::alloc::Global;

/// Puts the tables of the base that the copy has no more.
pub(crate) fn put_dropped(
    changes: &mut List<TableChange>,
    handles: &mut List<Change>,
    base: &Tables,
    copy: &Tables,
) -> Result<(), Memory>
    ensures changes { OnOk result (changes.new ≡ changes.old ++ filter_map (λ t. merging.dropped_by t (fate_in copy.now t)) base.now) }
    ensures handles { OnOk result (handles.new ≡ handles.old ++ filter_map (λ t. dropped_handle t (fate_in copy.now t)) base.now) }
{
    for i in 0..base.len() {
        match base.at(i) {
            Some((name, table)) => put_if_dropped(changes, handles, name, table, copy)?,
            None => return Ok(()),
        }
    }
    Ok(())
}

fn put_if_dropped(
    changes: &mut List<TableChange>,
    handles: &mut List<Change>,
    name: &Name,
    table: &Table,
    copy: &Tables,
) -> Result<(), Memory>
    ensures changes { OnOk result (changes.new ≡ changes.old ++ option_to_list (merging.dropped_by (name.now, table.now) (fate_in copy.now (name.now, table.now)))) }
    ensures handles { OnOk result (handles.new ≡ handles.old ++ option_to_list (dropped_handle (name.now, table.now) (fate_in copy.now (name.now, table.now)))) }
{
    let _ = table;
    if kept(copy, name).is_some() {
        return Ok(());
    }
    changes.push(TableChange::Dropped(name.copy()?))?;
    handles.push(Change::Dropped(name.copy()?))?;
    Ok(())
}

// The table of a name in a copy, where the base has it too.
fn kept<'a>(copy: &'a Tables, name: &Name) -> Option<&'a Table>
    ensures { option_copied result ≡ kept_in (table_of copy.now name.now) }
{
    match copy.table(name) {
        Some(table) => {
            if table.version() == 0 {
                None
            } else {
                Some(table)
            }
        }
        None => None,
    }
}

/// Puts the tables of the base that the copy has otherwise.
pub(crate) fn put_kept(
    changes: &mut List<TableChange>,
    handles: &mut List<Change>,
    base: &Tables,
    copy: &Tables,
    touched: &TouchedRows,
) -> Result<(), Memory>
    requires { Covers touched.now base.now copy.now }
    ensures changes { OnOk result (changes.new ≡ changes.old ++ filter_map (λ t. merging.kept_by t (fate_in copy.now t)) base.now) }
    ensures handles { OnOk result (handles.new ≡ handles.old ++ filter_map (λ t. kept_handle t (fate_in copy.now t)) base.now) }
{
    for i in 0..base.len() {
        match base.at(i) {
            Some((name, table)) => put_if_kept(changes, handles, name, table, base, copy, touched)?,
            None => return Ok(()),
        }
    }
    Ok(())
}

fn put_if_kept(
    changes: &mut List<TableChange>,
    handles: &mut List<Change>,
    name: &Name,
    table: &Table,
    base: &Tables,
    copy: &Tables,
    touched: &TouchedRows,
) -> Result<(), Memory>
    requires covers { Covers touched.now base.now copy.now }
    requires stands { table_of base.now name.now ≡ Some table.now }
    ensures changes { OnOk result (changes.new ≡ changes.old ++ option_to_list (merging.kept_by (name.now, table.now) (fate_in copy.now (name.now, table.now)))) }
    ensures handles { OnOk result (handles.new ≡ handles.old ++ option_to_list (kept_handle (name.now, table.now) (fate_in copy.now (name.now, table.now)))) }
{
    let _ = base;
    match kept(copy, name) {
        Some(now) => put_if_changed(changes, handles, name, table, now, touched),
        None => Ok(()),
    }
}

// Puts a table that both have, where it differs.
fn put_if_changed(
    changes: &mut List<TableChange>,
    handles: &mut List<Change>,
    name: &Name,
    was: &Table,
    now: &Table,
    touched: &TouchedRows,
) -> Result<(), Memory>
    requires { Agree (numbers_of touched.now name.now) was.now.rows now.now.rows }
    ensures changes { OnOk result (changes.new ≡ changes.old ++ option_to_list (merging.kept_by (name.now, was.now) (fate_between was.now now.now))) }
    ensures handles { OnOk result (handles.new ≡ handles.old ++ option_to_list (kept_handle (name.now, was.now) (fate_between was.now now.now))) }
{
    let rows = row_changes(changes.allocator(), was, now, name, touched)?;
    if is_same(was, now, &rows) {
        return Ok(());
    }
    changes.push(TableChange::Kept(name.copy()?, now.next_number(), rows))?;
    handles.push(Change::Kept(name.copy()?, now.copy()?))?;
    Ok(())
}

// Whether two tables are the same, by the changes of their rows.
fn is_same(was: &Table, now: &Table, rows: &List<RowChange>) -> bool
    requires { rows.now ≡ merging.row_changes was.now.rows now.now.rows }
    ensures { result ≡ same_rows was.now now.now }
{
    // so it is known that row numbers rise
    let _ = was.len();
    let _ = now.len();
    if rows.len() != 0 {
        return false;
    }
    heads_are_same(was, now)
}

// Whether two tables have one version, the same columns and one next row number.
fn heads_are_same(was: &Table, now: &Table) -> bool
    ensures { result ≡ ((was.now.version == now.now.version) && same_columns was.now now.now && (was.now.next == now.now.next)) }
{
    was.version() == now.version()
        && columns_are_same(was, now)
        && was.next_number() == now.next_number()
}

fn columns_are_same(was: &Table, now: &Table) -> bool
    ensures { result ≡ same_columns was.now now.now }
{
    was.columns().same(now.columns())
}

// The changes of the rows of a table, of which the touched ones alone are looked at.
fn row_changes(
    alloc: Global,
    was: &Table,
    now: &Table,
    name: &Name,
    touched: &TouchedRows,
) -> Result<List<RowChange>, Memory>
    requires { Agree (numbers_of touched.now name.now) was.now.rows now.now.rows }
    ensures { IfOk result (λ made. made ≡ merging.row_changes was.now.rows now.now.rows) }
{
    // so it is known that row numbers rise
    let _ = was.len();
    let _ = now.len();
    match touched.of(name) {
        Some(numbers) => changes_at(alloc, was, now, numbers),
        None => Ok(List::empty(alloc)),
    }
}

/// The changes that lead from the rows of a table to those of another at some row numbers, in the order of these: none at a number
/// under which both have the same row, or no row. It costs a look in both for each number, and the bytes of the rows there.
/// `Err` is want of memory, which comes only where there is a change.
pub fn changes_at(
    alloc: Global,
    was: &Table,
    now: &Table,
    numbers: &Pages<u64>,
) -> Result<List<RowChange>, Memory>
    ensures { IfOk result (λ made. made ≡ changes_at was.now.rows now.now.rows numbers.now) }
{
    let mut made = List::empty(alloc);
    for i in 0..numbers.len() {
        put_change(&mut made, was, now, *numbers.item(i))?;
    }
    Ok(made)
}

// Puts the change of the row of a number, if there is one.
fn put_change(
    made: &mut List<RowChange>,
    was: &Table,
    now: &Table,
    number: u64,
) -> Result<(), Memory>
    ensures { OnOk result (made.new ≡ made.old ++ change_at (row_of was.now.rows number) (row_of now.now.rows number) number) }
{
    match now.row(number) {
        Some(row) => {
            if is_changed(was.row(number), row) {
                put_row(made, number, row)?;
            }
            Ok(())
        }
        None => {
            if was.row(number).is_some() {
                made.push(RowChange {
                    number,
                    values: None,
                })?;
            }
            Ok(())
        }
    }
}

/// Whether a row is another than before, or was not there before. It costs the bytes of the rows, and takes no memory.
pub fn is_changed(was: Option<&Row>, row: &Row) -> bool
    ensures { (number : ℕ) → result ≡ merging.is_changed (option_copied was.entry) (number, row.now) }
{
    match was {
        Some(before) => !is_same_row(before, row),
        None => true,
    }
}

fn is_same_row(was: &Row, row: &Row) -> bool
    ensures { (number : ℕ) → result ≡ same_row (number, was.now) (number, row.now) }
{
    was.same(row)
}

fn put_row(made: &mut List<RowChange>, number: u64, row: &Row) -> Result<(), Memory>
    ensures { OnOk result (made.new ≡ made.old ++ merging.row_change (number, row.now) ∷ []) }
{
    made.push(RowChange {
        number,
        values: Some(row.values.copy()?),
    })?;
    Ok(())
}

/// Puts the tables that the copy has made.
pub(crate) fn put_new(
    changes: &mut List<TableChange>,
    handles: &mut List<Change>,
    copy: &Tables,
) -> Result<(), Memory>
    ensures changes { OnOk result (changes.new ≡ changes.old ++ map merging.new_by (filter (λ t. t.1.version == 0) copy.now)) }
    ensures handles { OnOk result (handles.new ≡ handles.old ++ map new_handle (filter (λ t. t.1.version == 0) copy.now)) }
{
    for i in 0..copy.len() {
        match copy.at(i) {
            Some((name, table)) => put_if_new(changes, handles, name, table)?,
            None => return Ok(()),
        }
    }
    Ok(())
}

fn put_if_new(
    changes: &mut List<TableChange>,
    handles: &mut List<Change>,
    name: &Name,
    table: &Table,
) -> Result<(), Memory>
    ensures changes { OnOk result (changes.new ≡ changes.old ++ map merging.new_by (filter (λ t. t.1.version == 0) ((name.now, table.now) ∷ []))) }
    ensures handles { OnOk result (handles.new ≡ handles.old ++ map new_handle (filter (λ t. t.1.version == 0) ((name.now, table.now) ∷ []))) }
{
    if table.version() != 0 {
        return Ok(());
    }
    changes.push(new_change(changes.allocator(), name, table)?)?;
    handles.push(Change::New(name.copy()?, table.copy()?))?;
    Ok(())
}

fn new_change(alloc: Global, name: &Name, table: &Table) -> Result<TableChange, Memory>
    ensures { IfOk result (λ made. made ≡ merging.new_by (name.now, table.now)) }
{
    let rows = all_rows(alloc, table)?;
    Ok(TableChange::New(
        name.copy()?,
        table.columns().copy()?,
        table.next_number(),
        rows,
    ))
}

/// All rows of a table, as changes that put them, in the order of their numbers. It costs the bytes of the rows. `Err` is want of
/// memory, which comes only where there is a row.
pub fn all_rows(alloc: Global, table: &Table) -> Result<List<RowChange>, Memory>
    ensures { IfOk result (λ made. made ≡ map merging.row_change table.now.rows) }
{
    let mut made = List::empty(alloc);
    for i in 0..table.len() {
        match table.at(i) {
            Some((number, row)) => put_row(&mut made, number, row)?,
            None => return Ok(made),
        }
    }
    Ok(made)
}
