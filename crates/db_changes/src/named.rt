// The rows that the changes of a commit name.
ghost use Rattle.std.specs.Prelude.{◌≡◌, ℕ, IfOk, OnOk, Some, map};
ghost use Rattle.meaning_areas.specs.Commits.{with_table_changes};
ghost use Rattle.meaning_tables.specs.Tables.{Tables as Named, table_of};
ghost use Rattle.db_changes.specs.Named.{name_of, numbers_in, rows_named};
ghost use Rattle.db_changes.specs.Touched.{Adds, Covers};

use crate::TouchedRows;
use dl_base::{List, Memory, Name};
use dl_codec::{RowChange, TableChange};
use sql_table::{Table, Tables};
use std::alloc::Global;

/// The numbers of the rows that the changes of a commit name, by the names of their tables: those that the changes put, replace or
/// remove, and of a table that they drop all rows that the tables before the commit have under its name. Beside them the tables after
/// the changes have the rows of those before. The error is want of memory. It costs the rows that the changes name, and those of
/// dropped tables, times the logarithm of how many they are, and for each change a look for its name.
pub fn named_rows(
    alloc: Global,
    before: &Tables,
    changes: &List<TableChange>,
) -> Result<TouchedRows, Memory>
    ensures { IfOk result (λ touched. (version : ℕ) (after : Named) → with_table_changes version before.now changes.now ≡ Some after → Covers touched before.now after) }
{
    // so it is known that names differ
    let _ = before.len();
    let mut touched = TouchedRows::empty(alloc);
    for change in changes.as_slice() {
        match add_named(alloc, &mut touched, before, change) {
            Ok(()) => {}
            Err(fault) => {
                drop(touched);
                return Err(fault);
            }
        }
    }
    Ok(touched)
}

// Adds the rows that a change names.
fn add_named(
    alloc: Global,
    touched: &mut TouchedRows,
    before: &Tables,
    change: &TableChange,
) -> Result<(), Memory>
    ensures { OnOk result (Adds (name_of change.now) (rows_named before.now change.now) touched.old touched.new) }
{
    match change {
        TableChange::Dropped(name) => {
            let numbers = standing_numbers(alloc, before, name)?;
            touched.add(alloc, name, numbers.as_slice())
        }
        TableChange::New(name, _, _, made) => add_changed(alloc, touched, name, made),
        TableChange::Kept(name, _, made) => add_changed(alloc, touched, name, made),
    }
}

fn add_changed(
    alloc: Global,
    touched: &mut TouchedRows,
    name: &Name,
    made: &List<RowChange>,
) -> Result<(), Memory>
    ensures { OnOk result (Adds name.now (map (λ c. c.number) made.now) touched.old touched.new) }
{
    let numbers = changed_numbers(alloc, made)?;
    touched.add(alloc, name, numbers.as_slice())
}

fn changed_numbers(alloc: Global, made: &List<RowChange>) -> Result<List<u64>, Memory>
    ensures { IfOk result (λ numbers. numbers ≡ map (λ c. c.number) made.now) }
{
    let mut numbers = List::empty(alloc);
    for change in made.as_slice() {
        numbers.push(change.number)?;
    }
    Ok(numbers)
}

// The numbers of the rows of the table of a name; none where no table has it.
fn standing_numbers(alloc: Global, tables: &Tables, name: &Name) -> Result<List<u64>, Memory>
    ensures { IfOk result (λ numbers. numbers ≡ numbers_in (table_of tables.now name.now)) }
{
    match tables.table(name) {
        Some(table) => row_numbers(alloc, table),
        None => Ok(List::empty(alloc)),
    }
}

fn row_numbers(alloc: Global, table: &Table) -> Result<List<u64>, Memory>
    ensures { IfOk result (λ numbers. numbers ≡ map (λ r. r.0) table.now.rows) }
{
    let mut numbers = List::empty(alloc);
    for i in 0..table.len() {
        match table.at(i) {
            Some((number, _)) => numbers.push(number)?,
            None => return Ok(numbers),
        }
    }
    Ok(numbers)
}
