// Whether the links of tables are those that are known of their numbers.
ghost use Rattle.std.specs.Prelude.{◌≡◌, ◌↔◌, IsTrue};
ghost use Rattle.std.specs.BTreeMap.{get};
ghost use Rattle.std.specs.Cmp.Lexicographic.{slice_cmp};
ghost use Rattle.std.specs.List.{list_all};
ghost use Rattle.std.specs.Ordering.{nat_cmp};
ghost use Rattle.compare_every.specs.Every.{agrees};
ghost use Rattle.compare_links.specs.Moving.{AgreesBeside, AreKnown, StaysKnown, agrees_at, all_agree, are_unlinked, is_unlinked};
ghost use Rattle.db_changes.specs.Touched.{AreCommitted, Covers, numbers_of};
ghost use Rattle.meaning_settling.specs.Settling.{link_key};
ghost use Rattle.meaning_tables.specs.Links as meant;

use compare_every::number_of;
use db_changes::TouchedRows;
use dl_base::{Column, Kind, LinkNo, LinkRow, List, Name, Options, Path, Row, Same, Value};
use dl_pages::Pages;
use sql_table::{Table, Tables};
use std::collections::BTreeMap;

/// Whether each link of tables is the one that is known of its number, if one is, where each link of the tables before them is known.
/// It takes no memory. It costs a look at each table's columns; of a table with one under link control a look-up of its name, and a
/// look at each touched row, or at each row where none of its name and columns was before; and a look-up for each link of those rows.
pub fn tables_agree(
    rows: &BTreeMap<[u64; 2], LinkRow>,
    before: &Tables,
    after: &Tables,
    touched: &TouchedRows,
) -> bool
    requires has { AreKnown (get (slice_cmp nat_cmp) rows.now) before.now }
    requires covers { Covers touched.now before.now after.now }
    requires committed { AreCommitted after.now }
    ensures { result ≡ all_agree (get (slice_cmp nat_cmp) rows.now) (meant.links after.now) }
{
    for i in 0..after.len() {
        match after.at(i) {
            Some((name, table)) => {
                if !table_agrees(rows, before, name, table, touched) {
                    return false;
                }
            }
            None => return true,
        }
    }
    true
}

fn table_agrees(
    rows: &BTreeMap<[u64; 2], LinkRow>,
    before: &Tables,
    name: &Name,
    table: &Table,
    touched: &TouchedRows,
) -> bool
    requires { StaysKnown (get (slice_cmp nat_cmp) rows.now) touched.now before.now name.now table.now }
    ensures { result ≡ all_agree (get (slice_cmp nat_cmp) rows.now) (meant.table_links table.now) }
{
    if are_unlinked(table.columns()) {
        return true;
    }
    match before.table(name) {
        Some(was) => {
            if was.columns().same(table.columns()) {
                touched_agree(rows, name, table, touched)
            } else {
                rows_agree(rows, table)
            }
        }
        None => rows_agree(rows, table),
    }
}

// Whether the links of a table agree, where those of each row that was not touched do.
fn touched_agree(
    rows: &BTreeMap<[u64; 2], LinkRow>,
    name: &Name,
    table: &Table,
    touched: &TouchedRows,
) -> bool
    requires { AgreesBeside (get (slice_cmp nat_cmp) rows.now) (numbers_of touched.now name.now) table.now }
    ensures { result ≡ all_agree (get (slice_cmp nat_cmp) rows.now) (meant.table_links table.now) }
{
    // so it is known that row numbers rise
    let _ = table.len();
    match touched.of(name) {
        Some(numbers) => numbers_agree(rows, table, numbers),
        None => true,
    }
}

// Whether the links of the rows of some numbers agree.
fn numbers_agree(rows: &BTreeMap<[u64; 2], LinkRow>, table: &Table, numbers: &Pages<u64>) -> bool
    ensures { result ≡ list_all (agrees_at (get (slice_cmp nat_cmp) rows.now) table.now) numbers.now }
{
    for i in 0..numbers.len() {
        if !number_agrees(rows, table, *numbers.item(i)) {
            return false;
        }
    }
    true
}

fn number_agrees(rows: &BTreeMap<[u64; 2], LinkRow>, table: &Table, number: u64) -> bool
    ensures { result ≡ agrees_at (get (slice_cmp nat_cmp) rows.now) table.now number }
{
    match table.row(number) {
        Some(row) => row_agrees(rows, table.columns(), row),
        None => true,
    }
}

// Whether columns have no links.
fn are_unlinked(columns: &List<Column>) -> bool
    ensures { result ≡ are_unlinked columns.now }
{
    for column in columns.as_slice() {
        if !is_unlinked(column.kind) {
            return false;
        }
    }
    true
}

fn is_unlinked(kind: Kind) -> bool
    ensures { result ≡ is_unlinked kind }
{
    match kind {
        Kind::Int | Kind::Text(_) | Kind::Free => true,
        Kind::Linked(_) => false,
    }
}

fn rows_agree(rows: &BTreeMap<[u64; 2], LinkRow>, table: &Table) -> bool
    ensures { result ≡ all_agree (get (slice_cmp nat_cmp) rows.now) (meant.table_links table.now) }
{
    for i in 0..table.len() {
        match table.at(i) {
            Some((_, row)) => {
                if !row_agrees(rows, table.columns(), row) {
                    return false;
                }
            }
            None => return true,
        }
    }
    true
}

fn row_agrees(rows: &BTreeMap<[u64; 2], LinkRow>, columns: &List<Column>, row: &Row) -> bool
    ensures { result ≡ all_agree (get (slice_cmp nat_cmp) rows.now) (meant.row_links columns.now row.now.values) }
{
    let values = row.values.as_slice();
    for (i, column) in columns.as_slice().iter().enumerate() {
        if values.len() <= i {
            return true;
        }
        if !cell_agrees(rows, column.kind, &values[i]) {
            return false;
        }
    }
    true
}

fn cell_agrees(rows: &BTreeMap<[u64; 2], LinkRow>, kind: Kind, value: &Value) -> bool
    ensures { result ≡ all_agree (get (slice_cmp nat_cmp) rows.now) (meant.cell_links kind value.now) }
{
    match kind {
        Kind::Linked(options) => match value {
            Value::Link(datalink) => match datalink.link {
                Some(link) => agrees(rows, link, &datalink.path, options),
                None => true,
            },
            Value::Null | Value::Int(_) | Value::Text(_) => true,
        },
        Kind::Int | Kind::Text(_) | Kind::Free => true,
    }
}

// Whether a link is the one that is known of its number, if one is.
fn agrees(rows: &BTreeMap<[u64; 2], LinkRow>, link: LinkNo, path: &Path, options: Options) -> bool
    ensures { result ≡ agrees (get (slice_cmp nat_cmp) rows.now (link_key link)) (record { link = link; path = path.now; options = options }) }
{
    match rows.get(&number_of(link)) {
        Some(row) => is_link(row, link, path, options),
        None => true,
    }
}

// Whether a link has this number, path and options.
fn is_link(row: &LinkRow, link: LinkNo, path: &Path, options: Options) -> bool
    ensures { IsTrue result ↔ (row.now ≡ record { link = link; path = path.now; options = options }) }
{
    row.link == link && row.path.same(path) && row.options == options
}
