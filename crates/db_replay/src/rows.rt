// The rows of one table.
ghost use Rattle.std.specs.Prelude.{◌≡◌, ◌≤◌, ◌||◌, IfOk, OnOk, is_none, map, nat_le, true};
ghost use Rattle.std.specs.Bool.{then_some};
ghost use Rattle.std.specs.List.{list_all};
ghost use Rattle.meaning_areas.specs.Commits.{by_values, changed_rows, rising, with_row_changes};
ghost use Rattle.db_replay.specs.Rows.{is_below, least_after};

use dl_base::{Copied, List, Memory, Row};
use dl_codec::RowChange;
use sql_table::Table;

/// Gives a table a next row number and changes its rows; false where the numbers of the changes do not rise, or a row has the next
/// number or a greater one then. After that the table is of no more use.
pub(crate) fn change_rows(
    table: &mut Table,
    next: u64,
    made: &List<RowChange>,
) -> Result<bool, Memory>
    ensures { IfOk result (λ applies. changed_rows (record table.old { next = next }) made.now ≡ then_some applies table.new) }
{
    if !numbers_rise(made) {
        return Ok(false);
    }
    if !are_below(next, made) {
        return Ok(false);
    }
    raise_next(table, next);
    change_each(table, next, made)?;
    Ok(table.set_next_number(next))
}

// Whether the numbers of changes rise.
fn numbers_rise(made: &List<RowChange>) -> bool
    ensures { result ≡ rising 0 (map (λ c. c.number) made.now) }
{
    let mut before = None;
    for change in made.as_slice() {
        if !follows(before, change.number) {
            return false;
        }
        before = Some(change.number);
    }
    true
}

fn follows(before: Option<u64>, number: u64) -> bool
    ensures { result ≡ nat_le (least_after before) number }
{
    match before {
        Some(one) => one < number,
        None => true,
    }
}

// Whether each row that is put has a number below the next one. As the numbers rise, no later change takes one out again.
fn are_below(next: u64, made: &List<RowChange>) -> bool
    ensures { result ≡ list_all (is_below next) made.now }
{
    for change in made.as_slice() {
        if !is_below(next, change) {
            return false;
        }
    }
    true
}

fn is_below(next: u64, change: &RowChange) -> bool
    ensures { result ≡ is_below next change.now }
{
    change.values.is_none() || change.number < next
}

// Makes room for rows below a number.
fn raise_next(table: &mut Table, next: u64)
    ensures rest { table.new ≡ record table.old { next = table.new.next } }
    ensures raised { next ≤ table.new.next }
{
    if table.next_number() < next {
        let _ = table.set_next_number(next);
    }
}

// Changes rows one after another.
fn change_each(table: &mut Table, next: u64, made: &List<RowChange>) -> Result<(), Memory>
    requires room { next ≤ table.old.next }
    requires below { list_all (is_below next) made.now ≡ true }
    ensures { OnOk result (table.new ≡ record table.old { rows = with_row_changes table.old.rows made.now }) }
{
    for change in made.as_slice() {
        change_row(table, next, change)?;
    }
    Ok(())
}

// Puts a row, or takes it out.
fn change_row(table: &mut Table, next: u64, change: &RowChange) -> Result<(), Memory>
    requires room { next ≤ table.old.next }
    requires below { is_below next change.now ≡ true }
    ensures { OnOk result (table.new ≡ record table.old { rows = by_values table.old.rows change.now.number change.now.values }) }
{
    let _ = next;
    match &change.values {
        Some(values) => {
            let row = Row {
                values: values.copy()?,
            };
            table.place_row(change.number, row)?;
            Ok(())
        }
        None => {
            table.unset(change.number)?;
            Ok(())
        }
    }
}
