// The changes of the rows of a table that a restore keeps.
ghost use Rattle.std.specs.Prelude.{◌≡◌, IfOk, OnOk};
ghost use Rattle.std.specs.List.Sorted.{IsStrictlySortedBy};
ghost use Rattle.std.specs.Ordering.{nat_cmp};
ghost use Rattle.db_changes.specs.Touched.{AddsNumbers, Agree};
ghost use Rattle.meaning_merge.specs.Merging as merging;
ghost use Rattle.bk_restore.specs.Differing.{one_if, other_numbers};

use db_changes::{changes_at, is_changed};
use dl_base::{List, Memory};
use dl_codec::RowChange;
use dl_pages::{Pages, with_member};
use sql_table::Table;
use std::alloc::Global;

/// The changes that lead from the rows of a table to those of another. It costs a look for each row of both, and the bytes of the rows
/// that differ.
pub(crate) fn row_changes(
    alloc: Global,
    was: &Table,
    now: &Table,
) -> Result<List<RowChange>, Memory>
    ensures { IfOk result (λ made. made ≡ merging.row_changes was.now.rows now.now.rows) }
{
    // so it is known that row numbers rise
    let _ = was.len();
    let _ = now.len();
    let numbers = differing(alloc, was, now)?;
    changes_at(alloc, was, now, &numbers)
}

// The numbers of the rows that differ.
fn differing(alloc: Global, was: &Table, now: &Table) -> Result<Pages<u64>, Memory>
    ensures rise { IfOk result (λ made. IsStrictlySortedBy nat_cmp made) }
    ensures agree { IfOk result (λ made. Agree made was.now.rows now.now.rows) }
{
    let mut numbers = Pages::empty();
    add_others(alloc, &mut numbers, was, now)?;
    add_others(alloc, &mut numbers, now, was)?;
    Ok(numbers)
}

// Adds the numbers of the rows that a second table has and a first one lacks, or has otherwise.
fn add_others(
    alloc: Global,
    numbers: &mut Pages<u64>,
    first: &Table,
    second: &Table,
) -> Result<(), Memory>
    requires { IsStrictlySortedBy nat_cmp numbers.old }
    ensures rise { OnOk result (IsStrictlySortedBy nat_cmp numbers.new) }
    ensures added { OnOk result (AddsNumbers (other_numbers first.now.rows second.now.rows) numbers.old numbers.new) }
{
    for i in 0..second.len() {
        match second.at(i) {
            Some((number, row)) => add_if(
                alloc,
                numbers,
                is_changed(first.row(number), row),
                number,
            )?,
            None => return Ok(()),
        }
    }
    Ok(())
}

fn add_if(alloc: Global, numbers: &mut Pages<u64>, is: bool, number: u64) -> Result<(), Memory>
    requires { IsStrictlySortedBy nat_cmp numbers.old }
    ensures rise { OnOk result (IsStrictlySortedBy nat_cmp numbers.new) }
    ensures added { OnOk result (AddsNumbers (one_if is number) numbers.old numbers.new) }
{
    if !is {
        return Ok(());
    }
    *numbers = with_member(alloc, numbers, number)?;
    Ok(())
}
