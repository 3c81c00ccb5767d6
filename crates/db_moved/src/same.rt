// Whether a copy is its base, where all but touched rows are known to be the base's.
ghost use Rattle.std.specs.Prelude.{◌≡◌, ◌==◌, ◌&&◌, ℕ, false, slice_get};
ghost use Rattle.std.specs.Cmp.Lexicographic.{pointwise};
ghost use Rattle.db_changes.specs.Made.{change_at, changes_at};
ghost use Rattle.db_changes.specs.Touched.{Agree, AreCommitted, Covers, numbers_of};
ghost use Rattle.meaning_areas.specs.Same.{same_columns, same_row, same_rows, same_tables};
ghost use Rattle.meaning_system.specs.State.{is_empty};
ghost use Rattle.meaning_tables.specs.Tables.{row_of};
ghost use Rattle.db_moved.specs.Comparing.{same_at};

use db_changes::TouchedRows;
use dl_base::{Name, Row, Same};
use dl_pages::Pages;
use sql_table::{Table, Tables};

/// Whether a copy is its base: names, versions, columns, next row numbers and rows. Of tables that both have only the touched rows
/// are looked at. It takes no memory.
pub fn are_same(base: &Tables, copy: &Tables, touched: &TouchedRows) -> bool
    requires covers { Covers touched.now base.now copy.now }
    requires committed { AreCommitted base.now }
    ensures { result ≡ same_tables base.now copy.now }
{
    if base.len() != copy.len() {
        return false;
    }
    for i in 0..base.len() {
        if !are_same_at(base, copy, touched, i) {
            return false;
        }
    }
    true
}

// Whether both have the same table at a place, or neither has one there.
fn are_same_at(base: &Tables, copy: &Tables, touched: &TouchedRows, index: usize) -> bool
    requires covers { Covers touched.now base.now copy.now }
    requires committed { AreCommitted base.now }
    ensures { result ≡ same_at (slice_get base.now index) (slice_get copy.now index) }
{
    // so it is known that names differ
    let _ = base.len();
    let _ = copy.len();
    match (base.at(index), copy.at(index)) {
        (Some((name, was)), Some((other, now))) => {
            name.bytes() == other.bytes() && is_same_table(name, was, now, touched)
        }
        (None, None) => true,
        _ => false,
    }
}

// Whether two tables are the same, of which the first is not one just made.
fn is_same_table(name: &Name, was: &Table, now: &Table, touched: &TouchedRows) -> bool
    requires old { (was.now.version == 0) ≡ false }
    requires agree { (now.now.version == 0) ≡ false → Agree (numbers_of touched.now name.now) was.now.rows now.now.rows }
    ensures { result ≡ same_rows was.now now.now }
{
    if was.version() != now.version() {
        return false;
    }
    has_same_head(was, now) && has_same_rows(name, was, now, touched)
}

// Whether two tables have the same columns and one next row number.
fn has_same_head(was: &Table, now: &Table) -> bool
    ensures { result ≡ (same_columns was.now now.now && (was.now.next == now.now.next)) }
{
    has_same_columns(was, now) && was.next_number() == now.next_number()
}

/// Whether two tables have the same columns. It takes no memory.
pub(crate) fn has_same_columns(was: &Table, now: &Table) -> bool
    ensures { result ≡ same_columns was.now now.now }
{
    was.columns().same(now.columns())
}

fn has_same_rows(name: &Name, was: &Table, now: &Table, touched: &TouchedRows) -> bool
    requires { Agree (numbers_of touched.now name.now) was.now.rows now.now.rows }
    ensures { result ≡ pointwise same_row was.now.rows now.now.rows }
{
    // so it is known that row numbers rise
    let _ = was.len();
    let _ = now.len();
    match touched.of(name) {
        Some(numbers) => has_same_at(was, now, numbers),
        None => true,
    }
}

// Whether the rows of some numbers are the same.
fn has_same_at(was: &Table, now: &Table, numbers: &Pages<u64>) -> bool
    ensures { result ≡ is_empty (changes_at was.now.rows now.now.rows numbers.now) }
{
    for i in 0..numbers.len() {
        if !has_same_row(was, now, *numbers.item(i)) {
            return false;
        }
    }
    true
}

fn has_same_row(was: &Table, now: &Table, number: u64) -> bool
    ensures { result ≡ is_empty (change_at (row_of was.now.rows number) (row_of now.now.rows number) number) }
{
    match (was.row(number), now.row(number)) {
        (Some(before), Some(row)) => is_same_row(before, row),
        (None, None) => true,
        _ => false,
    }
}

fn is_same_row(before: &Row, row: &Row) -> bool
    ensures { (number : ℕ) → result ≡ same_row (number, before.now) (number, row.now) }
{
    before.same(row)
}
