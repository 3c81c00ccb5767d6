// What a copy gives and takes of links, where all but touched rows are known to be the base's.
ghost use Rattle.std.specs.Prelude.{◌≡◌, ◌++◌, [], ℕ, IfOk, OnOk, false};
ghost use Rattle.std.specs.List.{list_any};
ghost use Rattle.db_changes.specs.Touched.{Covers, among, numbers_of};
ghost use Rattle.meaning_tables.specs.Links as meant;
ghost use Rattle.sql_table.specs.Lacking.{lacking_at};
ghost use Rattle.db_moved.specs.Moving.{Stay, StaysIn, is_kept, is_linked};

use crate::same::has_same_columns;
use db_changes::TouchedRows;
use dl_base::{Column, Kind, LinkRow, List, Memory, Name};
use sql_table::{Table, Tables, put_lacking_of, put_row_lacking};
use std::alloc::Global;

/// What a copy gives and what it takes: the links of the base whose numbers the copy lacks, and the links of the copy whose numbers
/// the base lacks, tables in order, their rows in order and the columns of a row in order. Of tables without a column under link
/// control no row is looked at, of others that both have the touched rows alone, and of all others each row; each of their links costs
/// a look for its number in each table of the other side. The error is want of memory.
pub fn moved_links(
    alloc: Global,
    base: &Tables,
    copy: &Tables,
    touched: &TouchedRows,
) -> Result<(List<LinkRow>, List<LinkRow>), Memory>
    requires { Covers touched.now base.now copy.now }
    ensures { IfOk result (λ made. (made.0 ≡ meant.gives base.now copy.now) × (made.1 ≡ meant.takes base.now copy.now)) }
{
    let gives = lacking(alloc, base, copy, touched)?;
    let takes = lacking(alloc, copy, base, touched)?;
    Ok((gives, takes))
}

// The links of tables whose numbers others lack.
fn lacking(
    alloc: Global,
    tables: &Tables,
    others: &Tables,
    touched: &TouchedRows,
) -> Result<List<LinkRow>, Memory>
    requires { Stay touched.now tables.now others.now }
    ensures { IfOk result (λ made. made ≡ meant.lacking (meant.links tables.now) (meant.links others.now)) }
{
    let mut made = List::empty(alloc);
    for i in 0..tables.len() {
        match tables.at(i) {
            Some((name, table)) => put_lacking(&mut made, name, table, others, touched)?,
            None => return Ok(made),
        }
    }
    Ok(made)
}

// Puts the links of a table whose numbers others lack. No row is looked at where no column is under link control.
fn put_lacking(
    made: &mut List<LinkRow>,
    name: &Name,
    table: &Table,
    others: &Tables,
    touched: &TouchedRows,
) -> Result<(), Memory>
    requires { StaysIn touched.now name.now table.now others.now }
    ensures { OnOk result (made.new ≡ made.old ++ meant.lacking (meant.table_links table.now) (meant.links others.now)) }
{
    if !has_linked(table.columns()) {
        return Ok(());
    }
    match others.table(name) {
        Some(other) => {
            if is_kept(table, other) {
                put_touched(made, name, table, others, touched)
            } else {
                put_all(made, table, others)
            }
        }
        None => put_all(made, table, others),
    }
}

// Whether neither of two tables was just made, and both have the same columns.
fn is_kept(table: &Table, other: &Table) -> bool
    ensures { result ≡ is_kept table.now other.now }
{
    table.version() != 0 && other.version() != 0 && has_same_columns(table, other)
}

// Puts the links of a table whose numbers others lack, where they lack none of a row that is not touched.
fn put_touched(
    made: &mut List<LinkRow>,
    name: &Name,
    table: &Table,
    others: &Tables,
    touched: &TouchedRows,
) -> Result<(), Memory>
    requires { (n : ℕ) → among (numbers_of touched.now name.now) n ≡ false → lacking_at (meant.links others.now) table.now n ≡ [] }
    ensures { OnOk result (made.new ≡ made.old ++ meant.lacking (meant.table_links table.now) (meant.links others.now)) }
{
    // so it is known that row numbers rise
    let _ = table.len();
    match touched.of(name) {
        Some(numbers) => {
            put_lacking_of(made, table, numbers, others)?;
            Ok(())
        }
        None => Ok(()),
    }
}

// Whether a column is under link control.
fn has_linked(columns: &List<Column>) -> bool
    ensures { result ≡ list_any (λ c. is_linked c.kind) columns.now }
{
    columns
        .as_slice()
        .iter()
        .any(|column| is_linked(column.kind))
}

fn is_linked(kind: Kind) -> bool
    ensures { result ≡ is_linked kind }
{
    match kind {
        Kind::Linked(_) => true,
        Kind::Int => false,
        Kind::Text(_) => false,
        Kind::Free => false,
    }
}

// Puts the links of all rows of a table whose numbers others lack.
fn put_all(made: &mut List<LinkRow>, table: &Table, others: &Tables) -> Result<(), Memory>
    ensures { OnOk result (made.new ≡ made.old ++ meant.lacking (meant.table_links table.now) (meant.links others.now)) }
{
    for i in 0..table.len() {
        match table.at(i) {
            Some((_, row)) => put_row_lacking(made, table.columns(), row, others)?,
            None => return Ok(()),
        }
    }
    Ok(())
}
