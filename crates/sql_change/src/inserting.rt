// INSERT: the rows of its tuples, and the table with them.
ghost use Rattle.std.specs.Prelude.{◌≡◌, ◌+◌, ◌≤◌, All, IfOk, OnOk, Some, is_some, length, slice_get, true};
ghost use Rattle.dl_base.specs.Limits.{link_numbers, most_rows, row_numbers};
ghost use Rattle.dl_base.specs.declared.value.Value.{Value as ValueOf};
ghost use Rattle.meaning_sql.specs.Faults.{Computes};
ghost use Rattle.meaning_statements.specs.Changing as meant;
ghost use Rattle.meaning_statements.specs.Changing.{keys_hold};
ghost use Rattle.meaning_tables.specs.First.{first_number, has_key};
ghost use Rattle.meaning_tables.specs.Fits.{table_fits};
ghost use Rattle.sql_rows.specs.Beside.{RowsAgreeBeside};
ghost use Rattle.sql_rows.specs.NewRows.{counted};
ghost use Rattle.sql_keys.specs.Keys.{IsKeyAt};
ghost use Rattle.sql_change.specs.Touched.{numbers_from};
ghost use Rattle.sql_change.specs.Parts as parts;

use crate::changing::Outcome;
use crate::keys::check_keys;
use crate::places::{check_all_types, check_lengths, target_places, tuple_types};
use dl_base::limits::{MOST_ROWS, ROW_NUMBERS};
use dl_base::{Copied, Expr, Limit, List, Memory, Name, Row, SqlFault};
use sql_expr::{Columns, Context};
use sql_keys::only_key;
use sql_rows::{NewRows, tuple_rows};
use sql_table::Table;
use std::alloc::Global;

/// What an INSERT makes of its table.
#[tactic(auto, unfolding(crate::specs::Parts::inserted))]
pub(crate) fn inserted(
    alloc: Global,
    table: &Table,
    names: &Option<List<Name>>,
    tuples: &List<List<Expr>>,
    context: &Context,
    k: u32,
) -> Result<Outcome, SqlFault>
    requires numbers { k ≤ link_numbers }
    requires fits { table_fits table.now ≡ true }
    ensures made { Computes (λ m. (m.table, (m.next, m.count))) result (parts.inserted table.now names.now tuples.now context.entry.now k) }
    ensures few { IfOk result (λ m. m.next ≤ link_numbers) }
    ensures beside { IfOk result (λ m. RowsAgreeBeside m.touched table.now.rows m.table.rows) }
    ensures told { IfOk result (λ m. length m.touched ≡ m.count) }
{
    let seen: Columns = List::empty(alloc);
    let at = Row {
        values: List::empty(alloc),
    };
    let places = target_places(alloc, table.columns(), names)?;
    put_in(alloc, &seen, &at, table, &places, tuples, context, k)
}

// What is made once the places of the columns are known. Expressions see the given columns at the given row.
#[tactic(auto, unfolding(crate::specs::Parts::put_in), using(crate::proofs::Clearing::passing))]
fn put_in(
    alloc: Global,
    seen: &Columns,
    at: &Row,
    table: &Table,
    places: &List<usize>,
    tuples: &List<List<Expr>>,
    context: &Context,
    k: u32,
) -> Result<Outcome, SqlFault>
    requires numbers { k ≤ link_numbers }
    requires fits { table_fits table.now ≡ true }
    ensures made { Computes (λ m. (m.table, (m.next, m.count))) result (parts.put_in seen.now at.now table.now places.now tuples.now context.entry.now k) }
    ensures few { IfOk result (λ m. m.next ≤ link_numbers) }
    ensures beside { IfOk result (λ m. RowsAgreeBeside m.touched table.now.rows m.table.rows) }
    ensures told { IfOk result (λ m. length m.touched ≡ m.count) }
{
    check_lengths(tuples, places)?;
    typed_in(alloc, seen, at, table, places, tuples, context, k)
}

// The same once the tuples have the right lengths.
#[tactic(auto, unfolding(crate::specs::Parts::typed_in), using(crate::proofs::Clearing::passing))]
fn typed_in(
    alloc: Global,
    seen: &Columns,
    at: &Row,
    table: &Table,
    places: &List<usize>,
    tuples: &List<List<Expr>>,
    context: &Context,
    k: u32,
) -> Result<Outcome, SqlFault>
    requires numbers { k ≤ link_numbers }
    requires fits { table_fits table.now ≡ true }
    ensures made { Computes (λ m. (m.table, (m.next, m.count))) result (parts.typed_in seen.now at.now table.now places.now tuples.now context.entry.now k) }
    ensures few { IfOk result (λ m. m.next ≤ link_numbers) }
    ensures beside { IfOk result (λ m. RowsAgreeBeside m.touched table.now.rows m.table.rows) }
    ensures told { IfOk result (λ m. length m.touched ≡ m.count) }
{
    let types = tuple_types(alloc, tuples, seen)?;
    check_all_types(table.columns(), places, &types)?;
    filled(alloc, seen, at, table, places, tuples, context, k)
}

// The same once all types fit.
#[tactic(auto, unfolding(crate::specs::Parts::filled))]
fn filled(
    alloc: Global,
    seen: &Columns,
    at: &Row,
    table: &Table,
    places: &List<usize>,
    tuples: &List<List<Expr>>,
    context: &Context,
    k: u32,
) -> Result<Outcome, SqlFault>
    requires numbers { k ≤ link_numbers }
    requires fits { table_fits table.now ≡ true }
    ensures made { Computes (λ m. (m.table, (m.next, m.count))) result (parts.filled seen.now at.now table.now places.now tuples.now context.entry.now k) }
    ensures few { IfOk result (λ m. m.next ≤ link_numbers) }
    ensures beside { IfOk result (λ m. RowsAgreeBeside m.touched table.now.rows m.table.rows) }
    ensures told { IfOk result (λ m. length m.touched ≡ m.count) }
{
    let made = new_rows(alloc, seen, at, table, places, tuples, context, k)?;
    grown(alloc, table, made)
}

// The rows of tuples, which get the numbers from the table's next one on.
#[tactic(auto, using(crate::proofs::Numbering::numbered))]
fn new_rows(
    alloc: Global,
    seen: &Columns,
    at: &Row,
    table: &Table,
    places: &List<usize>,
    tuples: &List<List<Expr>>,
    context: &Context,
    k: u32,
) -> Result<NewRows, SqlFault>
    requires { k ≤ link_numbers }
    ensures put { Computes (λ p. (counted table.now.next p.rows, p.next)) result (meant.inserted_rows context.entry.now seen.now at.now table.now.columns places.now table.now.next k tuples.now) }
    ensures few { IfOk result (λ p. p.next ≤ link_numbers) }
    ensures one_each { IfOk result (λ p. length p.rows ≡ length tuples.now) }
    ensures wide { IfOk result (λ p. All (λ r. length r.values ≡ length table.now.columns) p.rows) }
{
    let made = tuple_rows(alloc, context, seen, at, table.columns(), places, k, tuples)?;
    Ok(made)
}

fn has_room(table: &Table, more: usize) -> bool
    ensures { result ≡ meant.has_room table.now more }
{
    more <= MOST_ROWS
        && table.len() <= MOST_ROWS - more
        && table.next_number() <= ROW_NUMBERS - more as u64
}

// A table with more rows, where there is room for them and the keys differ.
#[tactic(auto, unfolding(crate::specs::Parts::grown))]
fn grown(alloc: Global, table: &Table, made: NewRows) -> Result<Outcome, SqlFault>
    requires fits { table_fits table.now ≡ true }
    requires wide { All (λ r. length r.values ≡ length table.now.columns) made.rows }
    ensures made { Computes (λ m. (m.table, (m.next, m.count))) result (parts.grown table.now (counted table.now.next made.rows) made.next (length made.rows)) }
    ensures next { IfOk result (λ m. m.next ≡ made.next) }
    ensures beside { IfOk result (λ m. RowsAgreeBeside m.touched table.now.rows m.table.rows) }
    ensures told { IfOk result (λ m. length m.touched ≡ m.count) }
{
    if !has_room(table, made.rows.len()) {
        return Err(SqlFault::Limit(Limit::Rows));
    }
    let count = made.rows.len() as u64;
    let touched = numbers_from(alloc, table.next_number(), count)?;
    let after = with_new_rows(alloc, table, made.rows)?;
    Ok(Outcome {
        table: after,
        next: made.next,
        count,
        touched,
    })
}

// So many numbers from one on.
fn numbers_from(alloc: Global, first: u64, count: u64) -> Result<List<u64>, Memory>
    requires { first + count ≤ row_numbers }
    ensures { IfOk result (λ numbers. numbers ≡ numbers_from first count) }
{
    let mut numbers = List::empty(alloc);
    for i in 0..count {
        numbers.push(first + i)?;
    }
    Ok(numbers)
}

// A copy of the table with more rows, where the keys differ; the copy shares what it has with the table.
fn with_new_rows(alloc: Global, table: &Table, more: List<Row>) -> Result<Table, SqlFault>
    requires few { length table.now.rows + length more ≤ most_rows }
    requires small { table.now.next + length more ≤ row_numbers }
    requires fits { table_fits table.now ≡ true }
    requires wide { All (λ r. length r.values ≡ length table.now.columns) more }
    ensures table { IfOk result (λ made. made ≡ parts.grown_table table.now (counted table.now.next more) (length more)) }
    ensures keys { Computes (λ made. true) result (keys_hold (parts.grown_table table.now (counted table.now.next more) (length more))) }
{
    match table.copy() {
        Ok(mut made) => match put_new_rows(alloc, &mut made, more) {
            Ok(()) => Ok(made),
            Err(fault) => {
                drop(made);
                Err(fault)
            }
        },
        Err(fault) => {
            drop(more);
            Err(fault.into())
        }
    }
}

// Puts more rows into a table, where the keys differ: one key column is asked of the index, several are looked at row by row.
fn put_new_rows(alloc: Global, made: &mut Table, more: List<Row>) -> Result<(), SqlFault>
    requires few { length made.old.rows + length more ≤ most_rows }
    requires small { made.old.next + length more ≤ row_numbers }
    requires fits { table_fits made.old ≡ true }
    requires wide { All (λ r. length r.values ≡ length made.old.columns) more }
    ensures table { OnOk result (made.new ≡ parts.grown_table made.old (counted made.old.next more) (length more)) }
    ensures keys { Computes (λ put. true) result (keys_hold (parts.grown_table made.old (counted made.old.next more) (length more))) }
{
    match only_key(made.columns().as_slice()) {
        Some(place) => put_keyed_rows(made, place, more),
        None => {
            put_rows(made, more)?;
            check_keys(alloc, made)
        }
    }
}

// Puts more rows into a table.
fn put_rows(made: &mut Table, more: List<Row>) -> Result<(), Memory>
    requires few { length made.old.rows + length more ≤ most_rows }
    requires small { made.old.next + length more ≤ row_numbers }
    ensures { OnOk result (made.new ≡ parts.grown_table made.old (counted made.old.next more) (length more)) }
{
    for row in more.into_vec() {
        made.put_next(row)?;
    }
    Ok(())
}

// The same where each row's key, at one place, is new.
fn put_keyed_rows(made: &mut Table, place: usize, more: List<Row>) -> Result<(), SqlFault>
    requires few { length made.old.rows + length more ≤ most_rows }
    requires small { made.old.next + length more ≤ row_numbers }
    requires key { IsKeyAt made.old.columns place }
    requires fits { table_fits made.old ≡ true }
    requires wide { All (λ r. length r.values ≡ length made.old.columns) more }
    ensures table { OnOk result (made.new ≡ parts.grown_table made.old (counted made.old.next more) (length more)) }
    ensures keys { Computes (λ put. true) result (keys_hold (parts.grown_table made.old (counted made.old.next more) (length more))) }
{
    for row in more.into_vec() {
        if stands(made, place, &row) {
            drop(row);
            return Err(SqlFault::DupKey(made.next_number()));
        }
        made.put_next(row)?;
    }
    Ok(())
}

// Whether the value of a row at the place of the key is a key of the table.
fn stands(table: &Table, place: usize, row: &Row) -> bool
    ensures { (key : ValueOf) → slice_get row.now.values place ≡ Some key → result ≡ is_some (first_number (has_key table.now.columns key) table.now.rows) }
{
    match row.values.at(place) {
        Some(key) => table.by_key(key).is_some(),
        None => false,
    }
}
