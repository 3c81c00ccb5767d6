// The rows that INSERT puts in, tables after UPDATE, and what DELETE leaves of tables.
ghost use Rattle.std.specs.Prelude.{◌≡◌, ◌≤◌, ◌+◌, ◌∷◌, All, IfErr, IfOk, Ok, OnOk, [], length, map, true};
ghost use Rattle.dl_base.specs.Limits.{link_numbers};
ghost use Rattle.dl_base.specs.declared.sql_fault.SqlFault.TheVariants as faults;
ghost use Rattle.meaning_sql.specs.Columns.{Columns as ColumnsOf};
ghost use Rattle.meaning_sql.specs.Faults.{Computes, try_map, option_list};
ghost use Rattle.meaning_sql.specs.Values.{meaning};
ghost use Rattle.meaning_statements.specs.Changing as meant;
ghost use Rattle.meaning_tables.specs.Fits.{table_fits};
ghost use Rattle.meaning_tables.specs.Tables.{Rise, with_row};
ghost use Rattle.sql_expr.specs.Binding.{AreIn, bound_in, bound_value};
ghost use Rattle.sql_keys.specs.Finding.{IsUnmet, PassesOver};
ghost use Rattle.sql_keys.specs.declared.finding.KeyRows.TheVariants as key_rows;
ghost use Rattle.sql_rows.specs.Beside.{RowsAgreeBeside};
ghost use Rattle.sql_rows.specs.NewRows.{tuple_rows};
ghost use Rattle.sql_rows.specs.Remaining.{remainder_of};
ghost use Rattle.sql_rows.specs.declared.rows.Remainder.TheVariants as remainders;
ghost use Rattle.sql_rows.specs.Touching.{KeepsOthers};

use dl_base::{Column, Copied, Expr, List, Memory, Name, Row, SqlFault, Value};
use sql_cells::{PutRow, stored_row};
use sql_expr::{Bound, Columns, Context, Filter, cell, filter_holds, value};
use sql_keys::{KeyRows, rows_asked};
use sql_table::Table;
use std::alloc::Global;

/// The rows of tuples, and the next link number.
#[derive(Drop)]
pub struct NewRows {
    /// One for each tuple, in order.
    pub rows: List<Row>,
    /// The count of the next link inside its transaction.
    pub next: u32,
}

/// A table after an UPDATE, the next link number, and how many rows were met.
#[derive(Drop)]
pub struct Updated {
    /// The table with the new values of the rows that were met.
    pub table: Table,
    /// The count of the next link inside its transaction.
    pub next: u32,
    /// How many rows the condition was true of.
    pub met: u64,
    /// Which rows may have new values.
    pub touched: KeyRows,
    /// The numbers of the rows that were met.
    pub numbers: List<u64>,
}

/// What a DELETE leaves of a table: what is to be done with the table, which stays as it was until then.
#[derive(Drop)]
pub enum Remainder {
    /// Another table stands for it.
    Another(Table),
    /// The row of this number goes.
    Without(u64),
    /// All rows stay.
    Same,
}

/// What a DELETE makes of a table.
#[derive(Drop)]
pub struct Deleted {
    /// What is left: the rows that were not met.
    pub left: Remainder,
    /// The numbers of the rows that were met.
    pub removed: List<u64>,
}

// The values of expressions at a row, in order.
fn evaluated(
    alloc: Global,
    exprs: &List<Expr>,
    row: &Row,
    columns: &Columns,
    context: &Context,
) -> Result<List<Value>, SqlFault>
    ensures { Computes (λ v. v) result (try_map (λ e. meaning columns.now context.entry.now [] e row.now) exprs.now) }
{
    let mut values = List::empty(alloc);
    for expr in exprs.as_slice() {
        values.push(value(alloc, expr, row, columns, context)?)?;
    }
    Ok(values)
}

// The value for the column at a place: that of the tuple where the column is named, else NULL.
fn value_for(places: &List<usize>, tuple: &Row, place: usize) -> Result<Value, SqlFault>
    ensures { Computes (λ v. v) result (Ok (meant.value_for 0 places.now tuple.now place)) }
{
    for (j, p) in places.as_slice().iter().enumerate() {
        if *p == place {
            return Ok(cell(tuple, j)?);
        }
    }
    Ok(Value::Null)
}

fn arranged(
    alloc: Global,
    columns: &List<Column>,
    places: &List<usize>,
    tuple: &Row,
) -> Result<List<Value>, SqlFault>
    ensures { Computes (λ v. v) result (Ok (meant.arranged 0 columns.now places.now tuple.now)) }
{
    let mut values = List::empty(alloc);
    for (i, _column) in columns.as_slice().iter().enumerate() {
        values.push(value_for(places, tuple, i)?)?;
    }
    Ok(values)
}

#[tactic(auto, unfolding(meaning_statements::specs::Changing::inserted_row))]
fn inserted_row(
    alloc: Global,
    context: &Context,
    seen: &Columns,
    at: &Row,
    columns: &List<Column>,
    places: &List<usize>,
    k: u32,
    tuple: &List<Expr>,
) -> Result<PutRow, SqlFault>
    requires { k ≤ link_numbers }
    ensures put { Computes (λ p. (p.values, p.next)) result (meant.inserted_row context.entry.now seen.now at.now columns.now places.now k tuple.now) }
    ensures few { IfOk result (λ p. p.next ≤ link_numbers) }
    ensures wide { IfOk result (λ p. length p.values ≡ length columns.now) }
{
    let values = evaluated(alloc, tuple, at, seen, context)?;
    let values = arranged(alloc, columns, places, &Row { values })?;
    let old = Row {
        values: List::empty(alloc),
    };
    stored_row(alloc, context.tx, k, columns, &old, &Row { values })
}

/// The rows of tuples in order: expressions, NULL rule, length and link limit of one before the next. Expressions see the
/// given columns at the given row. Each row has a value for each column.
#[tactic(auto, using(crate::proofs::Wide::wide_pushed))]
pub fn tuple_rows(
    alloc: Global,
    context: &Context,
    seen: &Columns,
    at: &Row,
    columns: &List<Column>,
    places: &List<usize>,
    first: u32,
    tuples: &List<List<Expr>>,
) -> Result<NewRows, SqlFault>
    requires { first ≤ link_numbers }
    ensures put { Computes (λ p. (p.rows, p.next)) result (tuple_rows context.entry.now seen.now at.now columns.now places.now first tuples.now) }
    ensures few { IfOk result (λ p. p.next ≤ link_numbers) }
    ensures one_each { IfOk result (λ p. length p.rows ≡ length tuples.now) }
    ensures wide { IfOk result (λ p. All (λ r. length r.values ≡ length columns.now) p.rows) }
{
    let mut rows = List::empty(alloc);
    let mut k = first;
    for tuple in tuples.as_slice() {
        let put = inserted_row(alloc, context, seen, at, columns, places, k, tuple)?;
        rows.push(Row { values: put.values })?;
        k = put.next;
    }
    Ok(NewRows { rows, next: k })
}

/// What a DELETE leaves of a table, and the numbers of the rows that go. Where the condition asks for a key, the row that has it is
/// looked at alone, and no copy is made; else what is left is a copy, which shares what stays with the table.
pub fn delete_rows(
    alloc: Global,
    table: &Table,
    columns: &Columns,
    context: &Context,
    filter: &Option<Expr>,
) -> Result<Deleted, SqlFault>
    requires { table_fits table.now ≡ true }
    ensures rows { Computes (λ d. (remainder_of table.now d.left).rows) result (meant.remaining columns.now context.entry.now (option_list filter.now) table.now.rows) }
    ensures others { IfOk result (λ d. remainder_of table.now d.left ≡ record table.now { rows = (remainder_of table.now d.left).rows }) }
    ensures beside { IfOk result (λ d. RowsAgreeBeside d.removed table.now.rows (remainder_of table.now d.left).rows) }
    ensures told { IfOk result (λ d. length (remainder_of table.now d.left).rows + length d.removed ≡ length table.now.rows) }
{
    match rows_asked(table, columns, filter)? {
        KeyRows::All => delete_each(alloc, table, columns, context, filter),
        KeyRows::One(number) => delete_one(alloc, table, columns, context, filter, number),
        KeyRows::Nothing => Ok(untouched(alloc)),
    }
}

// The same where any row may be met.
fn delete_each(
    alloc: Global,
    table: &Table,
    columns: &Columns,
    context: &Context,
    filter: &Option<Expr>,
) -> Result<Deleted, SqlFault>
    ensures rows { Computes (λ d. (remainder_of table.now d.left).rows) result (meant.remaining columns.now context.entry.now (option_list filter.now) table.now.rows) }
    ensures others { IfOk result (λ d. remainder_of table.now d.left ≡ record table.now { rows = (remainder_of table.now d.left).rows }) }
    ensures beside { IfOk result (λ d. RowsAgreeBeside d.removed table.now.rows (remainder_of table.now d.left).rows) }
    ensures told { IfOk result (λ d. length (remainder_of table.now d.left).rows + length d.removed ≡ length table.now.rows) }
{
    let bound = Filter::new(alloc, filter, columns)?;
    let made = delete_met(alloc, table, context, &bound);
    drop(bound);
    made
}

// The same, the columns of the condition having places.
fn delete_met(
    alloc: Global,
    table: &Table,
    context: &Context,
    filter: &Filter,
) -> Result<Deleted, SqlFault>
    ensures rows { Computes (λ d. (remainder_of table.now d.left).rows) result (meant.remaining filter.now.columns context.entry.now (option_list filter.now.condition) table.now.rows) }
    ensures others { IfOk result (λ d. remainder_of table.now d.left ≡ record table.now { rows = (remainder_of table.now d.left).rows }) }
    ensures beside { IfOk result (λ d. RowsAgreeBeside d.removed table.now.rows (remainder_of table.now d.left).rows) }
    ensures told { IfOk result (λ d. length (remainder_of table.now d.left).rows + length d.removed ≡ length table.now.rows) }
{
    let mut left = table.copy()?;
    let mut removed = List::empty(alloc);
    match unset_met(alloc, table, context, filter, &mut left, &mut removed) {
        Ok(()) => Ok(Deleted {
            left: Remainder::Another(left),
            removed,
        }),
        Err(fault) => {
            drop(removed);
            drop(left);
            Err(fault)
        }
    }
}

// Takes the rows that are met out of a copy of the table, and puts down their numbers.
fn unset_met(
    alloc: Global,
    table: &Table,
    context: &Context,
    filter: &Filter,
    left: &mut Table,
    removed: &mut List<u64>,
) -> Result<(), SqlFault>
    requires copied { left.old ≡ table.now }
    requires none { removed.old ≡ [] }
    ensures rows { Computes (λ _. left.new.rows) result (meant.remaining filter.now.columns context.entry.now (option_list filter.now.condition) table.now.rows) }
    ensures others { OnOk result (left.new ≡ record table.now { rows = left.new.rows }) }
    ensures beside { OnOk result (RowsAgreeBeside removed.new table.now.rows left.new.rows) }
    ensures told { OnOk result (length left.new.rows + length removed.new ≡ length table.now.rows) }
{
    for i in 0..table.len() {
        match table.at(i) {
            Some((number, row)) => {
                let goes = filter.holds(alloc, row, context)?;
                if !goes {
                    continue;
                }
                removed.push(number)?;
                left.unset(number)?;
            }
            None => return Ok(()),
        }
    }
    Ok(())
}

// The same where the row of a number alone may be met.
#[tactic(auto, using(crate::proofs::Alone::alone_left, crate::proofs::Alone::alone_gone, crate::proofs::Alone::alone_refused))]
fn delete_one(
    alloc: Global,
    table: &Table,
    columns: &Columns,
    context: &Context,
    filter: &Option<Expr>,
    number: u64,
) -> Result<Deleted, SqlFault>
    requires { PassesOver (IsUnmet columns.now filter.now) table.now.rows (key_rows.One number) }
    ensures rows { Computes (λ d. (remainder_of table.now d.left).rows) result (meant.remaining columns.now context.entry.now (option_list filter.now) table.now.rows) }
    ensures others { IfOk result (λ d. remainder_of table.now d.left ≡ record table.now { rows = (remainder_of table.now d.left).rows }) }
    ensures beside { IfOk result (λ d. RowsAgreeBeside d.removed table.now.rows (remainder_of table.now d.left).rows) }
    ensures told { IfOk result (λ d. length (remainder_of table.now d.left).rows + length d.removed ≡ length table.now.rows) }
{
    numbered(table);
    match table.row(number) {
        Some(row) => {
            if !filter_holds(alloc, filter, row, columns, context)? {
                return Ok(untouched(alloc));
            }
            Ok(without_one(alloc, number)?)
        }
        None => Ok(untouched(alloc)),
    }
}

// No row is met.
fn untouched(alloc: Global) -> Deleted
    ensures { result ≡ record { left = remainders.Same; removed = [] } }
{
    Deleted {
        left: Remainder::Same,
        removed: List::empty(alloc),
    }
}

// The row of a number is met alone.
fn without_one(alloc: Global, number: u64) -> Result<Deleted, Memory>
    ensures { IfOk result (λ d. d ≡ record { left = remainders.Without number; removed = number ∷ [] }) }
{
    let removed = only(alloc, number)?;
    Ok(Deleted {
        left: Remainder::Without(number),
        removed,
    })
}

fn only(alloc: Global, number: u64) -> Result<List<u64>, Memory>
    ensures { IfOk result (λ numbers. numbers ≡ number ∷ []) }
{
    let mut numbers = List::empty(alloc);
    numbers.push(number)?;
    Ok(numbers)
}

// The numbers of rows rise, as a table tells with their count.
fn numbered(table: &Table)
    ensures { Rise 0 table.now.next table.now.rows }
{
    let _ = table.len();
}

// The right sides of an UPDATE, in order, with the places of their columns.
fn bound_sets<'a>(
    alloc: Global,
    sets: &'a List<(Name, Expr)>,
    all: &'a Columns,
) -> Result<List<Bound<'a>>, Memory>
    ensures { IfOk result (λ made. made ≡ map (λ s. bound_in all.now s.1) sets.now) }
{
    let mut rights = List::empty(alloc);
    for set in sets.as_slice() {
        rights.push(Bound::new(alloc, &set.1, all)?)?;
    }
    Ok(rights)
}

// The values of right sides at a row, each in its own columns.
fn bound_values(
    alloc: Global,
    rights: &[Bound],
    row: &Row,
    context: &Context,
) -> Result<List<Value>, SqlFault>
    ensures { Computes (λ v. v) result (try_map (bound_value context.entry.now row.now) rights.now) }
{
    let mut values = List::empty(alloc);
    for right in rights {
        values.push(right.value(alloc, row, context)?)?;
    }
    Ok(values)
}

// The same where all are in the same columns.
fn set_values(
    alloc: Global,
    rights: &List<Bound>,
    row: &Row,
    context: &Context,
) -> Result<List<Value>, SqlFault>
    ensures { (all : ColumnsOf) → AreIn all rights.now → Computes (λ v. v) result (try_map (λ e. meaning all context.entry.now [] e row.now) (map (λ b. b.expr) rights.now)) }
{
    bound_values(alloc, rights.as_slice(), row, context)
}

// The new value of the column at a place where it is set, else the old one.
fn new_cell(places: &List<usize>, news: &Row, place: usize, old: &Value) -> Result<Value, SqlFault>
    ensures { Computes (λ v. v) result (Ok (meant.new_cell 0 places.now news.now place old.now)) }
{
    for (j, p) in places.as_slice().iter().enumerate() {
        if *p == place {
            return Ok(cell(news, j)?);
        }
    }
    Ok(old.copy()?)
}

fn with_cells(
    alloc: Global,
    places: &List<usize>,
    news: &Row,
    old: &Row,
) -> Result<List<Value>, SqlFault>
    ensures { Computes (λ v. v) result (Ok (meant.with_cells places.now news.now 0 old.now.values)) }
{
    let mut values = List::empty(alloc);
    for (i, before) in old.values.as_slice().iter().enumerate() {
        values.push(new_cell(places, news, i, before)?)?;
    }
    Ok(values)
}

// What an UPDATE makes of a row.
fn updated_by(
    alloc: Global,
    context: &Context,
    columns: &List<Column>,
    places: &List<usize>,
    rights: &List<Bound>,
    k: u32,
    row: &Row,
) -> Result<PutRow, SqlFault>
    requires { k ≤ link_numbers }
    ensures put { (all : ColumnsOf) → AreIn all rights.now → Computes (λ p. (p.values, p.next)) result (meant.updated_row all context.entry.now columns.now places.now (map (λ b. b.expr) rights.now) k row.now) }
    ensures few { IfOk result (λ p. p.next ≤ link_numbers) }
{
    let values = set_values(alloc, rights, row, context)?;
    let values = with_cells(alloc, places, &Row { values }, row)?;
    stored_row(alloc, context.tx, k, columns, row, &Row { values })
}

// The same, where right sides have no places yet.
fn updated_row(
    alloc: Global,
    all: &Columns,
    context: &Context,
    columns: &List<Column>,
    places: &List<usize>,
    sets: &List<(Name, Expr)>,
    k: u32,
    row: &Row,
) -> Result<PutRow, SqlFault>
    requires { k ≤ link_numbers }
    ensures put { Computes (λ p. (p.values, p.next)) result (meant.updated_row all.now context.entry.now columns.now places.now (map (λ s. s.1) sets.now) k row.now) }
    ensures few { IfOk result (λ p. p.next ≤ link_numbers) }
{
    let rights = bound_sets(alloc, sets, all)?;
    updated_by(alloc, context, columns, places, &rights, k, row)
}

/// What an UPDATE makes of a table, in a copy that shares all other rows with the table: of each row the condition, the right sides
/// on the old row, and the NULL rule, length and link limit of each column, before the next row. Where the condition asks for a key,
/// the row that has it is looked at alone.
pub fn update_rows(
    alloc: Global,
    table: &Table,
    all: &Columns,
    context: &Context,
    filter: &Option<Expr>,
    places: &List<usize>,
    sets: &List<(Name, Expr)>,
    first: u32,
) -> Result<Updated, SqlFault>
    requires numbers { first ≤ link_numbers }
    requires fits { table_fits table.now ≡ true }
    ensures put { Computes (λ u. (u.table.rows, (u.next, u.met))) result (meant.updated_rows all.now context.entry.now table.now.columns (option_list filter.now) places.now (map (λ s. s.1) sets.now) first table.now.rows) }
    ensures others { IfOk result (λ u. u.table ≡ record table.now { rows = u.table.rows }) }
    ensures few { IfOk result (λ u. u.next ≤ link_numbers) }
    ensures touched { IfOk result (λ u. KeepsOthers u.touched table.now.rows u.table.rows) }
    ensures beside { IfOk result (λ u. RowsAgreeBeside u.numbers table.now.rows u.table.rows) }
    ensures told { IfOk result (λ u. length u.numbers ≡ u.met) }
{
    match rows_asked(table, all, filter)? {
        KeyRows::All => update_each(alloc, table, all, context, filter, places, sets, first),
        KeyRows::One(number) => update_one(
            alloc, table, all, context, filter, places, sets, first, number,
        ),
        KeyRows::Nothing => Ok(unmet(alloc, table.copy()?, first)),
    }
}

// The same where any row may be met.
fn update_each(
    alloc: Global,
    table: &Table,
    all: &Columns,
    context: &Context,
    filter: &Option<Expr>,
    places: &List<usize>,
    sets: &List<(Name, Expr)>,
    first: u32,
) -> Result<Updated, SqlFault>
    requires { first ≤ link_numbers }
    ensures put { Computes (λ u. (u.table.rows, (u.next, u.met))) result (meant.updated_rows all.now context.entry.now table.now.columns (option_list filter.now) places.now (map (λ s. s.1) sets.now) first table.now.rows) }
    ensures others { IfOk result (λ u. u.table ≡ record table.now { rows = u.table.rows }) }
    ensures few { IfOk result (λ u. u.next ≤ link_numbers) }
    ensures touched { IfOk result (λ u. KeepsOthers u.touched table.now.rows u.table.rows) }
    ensures beside { IfOk result (λ u. RowsAgreeBeside u.numbers table.now.rows u.table.rows) }
    ensures told { IfOk result (λ u. length u.numbers ≡ u.met) }
{
    let bound = Filter::new(alloc, filter, all)?;
    match bound_sets(alloc, sets, all) {
        Ok(rights) => {
            let made = update_met(alloc, table, context, &bound, places, &rights, first);
            drop(rights);
            drop(bound);
            made
        }
        Err(Memory) => {
            drop(bound);
            Err(SqlFault::Memory)
        }
    }
}

// The same, the columns of the condition and of the right sides having places.
fn update_met(
    alloc: Global,
    table: &Table,
    context: &Context,
    filter: &Filter,
    places: &List<usize>,
    rights: &List<Bound>,
    first: u32,
) -> Result<Updated, SqlFault>
    requires numbers { first ≤ link_numbers }
    requires rights { AreIn filter.now.columns rights.now }
    ensures put { Computes (λ u. (u.table.rows, (u.next, u.met))) result (meant.updated_rows filter.now.columns context.entry.now table.now.columns (option_list filter.now.condition) places.now (map (λ b. b.expr) rights.now) first table.now.rows) }
    ensures others { IfOk result (λ u. u.table ≡ record table.now { rows = u.table.rows }) }
    ensures few { IfOk result (λ u. u.next ≤ link_numbers) }
    ensures touched { IfOk result (λ u. KeepsOthers u.touched table.now.rows u.table.rows) }
    ensures beside { IfOk result (λ u. RowsAgreeBeside u.numbers table.now.rows u.table.rows) }
    ensures told { IfOk result (λ u. length u.numbers ≡ u.met) }
{
    let mut made = table.copy()?;
    let mut numbers = List::empty(alloc);
    match set_met(
        alloc,
        table,
        context,
        filter,
        places,
        rights,
        first,
        &mut made,
        &mut numbers,
    ) {
        Ok((next, met)) => Ok(Updated {
            table: made,
            next,
            met,
            touched: KeyRows::All,
            numbers,
        }),
        Err(fault) => {
            drop(numbers);
            drop(made);
            Err(fault)
        }
    }
}

// Sets the rows that are met in a copy of the table, and puts down their numbers: the next link number, and how many were met.
fn set_met(
    alloc: Global,
    table: &Table,
    context: &Context,
    filter: &Filter,
    places: &List<usize>,
    rights: &List<Bound>,
    first: u32,
    made: &mut Table,
    numbers: &mut List<u64>,
) -> Result<(u32, u64), SqlFault>
    requires numbers { first ≤ link_numbers }
    requires rights { AreIn filter.now.columns rights.now }
    requires copied { made.old ≡ table.now }
    requires none { numbers.old ≡ [] }
    ensures put { Computes (λ u. (made.new.rows, (u.0, u.1))) result (meant.updated_rows filter.now.columns context.entry.now table.now.columns (option_list filter.now.condition) places.now (map (λ b. b.expr) rights.now) first table.now.rows) }
    ensures others { OnOk result (made.new ≡ record table.now { rows = made.new.rows }) }
    ensures few { IfOk result (λ u. u.0 ≤ link_numbers) }
    ensures beside { OnOk result (RowsAgreeBeside numbers.new table.now.rows made.new.rows) }
    ensures told { IfOk result (λ u. length numbers.new ≡ u.1) }
{
    let mut k = first;
    let mut met = 0;
    for i in 0..table.len() {
        match table.at(i) {
            Some((number, row)) => {
                let is_met = filter.holds(alloc, row, context)?;
                if !is_met {
                    continue;
                }
                let put = updated_by(alloc, context, table.columns(), places, rights, k, row)?;
                made.set(number, Row { values: put.values })?;
                numbers.push(number)?;
                k = put.next;
                met += 1;
            }
            None => return Ok((k, met)),
        }
    }
    Ok((k, met))
}

// The same where the row of a number alone may be met.
#[tactic(auto, using(crate::proofs::Alone::alone_passed, crate::proofs::Alone::alone_set, crate::proofs::Alone::alone_stopped, crate::proofs::Alone::alone_stopped_in))]
fn update_one(
    alloc: Global,
    table: &Table,
    all: &Columns,
    context: &Context,
    filter: &Option<Expr>,
    places: &List<usize>,
    sets: &List<(Name, Expr)>,
    first: u32,
    number: u64,
) -> Result<Updated, SqlFault>
    requires numbers { first ≤ link_numbers }
    requires over { PassesOver (IsUnmet all.now filter.now) table.now.rows (key_rows.One number) }
    ensures put { Computes (λ u. (u.table.rows, (u.next, u.met))) result (meant.updated_rows all.now context.entry.now table.now.columns (option_list filter.now) places.now (map (λ s. s.1) sets.now) first table.now.rows) }
    ensures others { IfOk result (λ u. u.table ≡ record table.now { rows = u.table.rows }) }
    ensures few { IfOk result (λ u. u.next ≤ link_numbers) }
    ensures touched { IfOk result (λ u. KeepsOthers u.touched table.now.rows u.table.rows) }
    ensures beside { IfOk result (λ u. RowsAgreeBeside u.numbers table.now.rows u.table.rows) }
    ensures told { IfOk result (λ u. length u.numbers ≡ u.met) }
{
    numbered(table);
    match table.row(number) {
        Some(row) => {
            if !filter_holds(alloc, filter, row, all, context)? {
                return Ok(unmet(alloc, table.copy()?, first));
            }
            let put = updated_row(
                alloc,
                all,
                context,
                table.columns(),
                places,
                sets,
                first,
                row,
            )?;
            set_one(alloc, table, number, put)
        }
        None => Ok(unmet(alloc, table.copy()?, first)),
    }
}

// A table of which one row is met, which has other values.
fn set_one(alloc: Global, table: &Table, number: u64, put: PutRow) -> Result<Updated, SqlFault>
    ensures table { IfOk result (λ u. u.table ≡ record table.now { rows = with_row table.now.rows number (record { values = put.values }) }) }
    ensures next { IfOk result (λ u. (u.next ≡ put.next) × (u.met ≡ 1)) }
    ensures touched { IfOk result (λ u. KeepsOthers u.touched table.now.rows u.table.rows) }
    ensures beside { IfOk result (λ u. RowsAgreeBeside u.numbers table.now.rows u.table.rows) }
    ensures told { IfOk result (λ u. length u.numbers ≡ u.met) }
    ensures memory { IfErr result (λ e. e ≡ faults.Memory) }
{
    let next = put.next;
    let made = with_values(table, number, put.values)?;
    match only(alloc, number) {
        Ok(numbers) => Ok(Updated {
            table: made,
            next,
            met: 1,
            touched: KeyRows::One(number),
            numbers,
        }),
        Err(Memory) => {
            drop(made);
            Err(SqlFault::Memory)
        }
    }
}

// A copy of a table with other values in the row of a number, if there is one.
fn with_values(table: &Table, number: u64, values: List<Value>) -> Result<Table, Memory>
    ensures { IfOk result (λ made. made ≡ record table.now { rows = with_row table.now.rows number (record { values = values }) }) }
{
    match table.copy() {
        Ok(mut made) => match made.set(number, Row { values }) {
            Ok(_) => Ok(made),
            Err(Memory) => {
                drop(made);
                Err(Memory)
            }
        },
        Err(Memory) => {
            drop(values);
            Err(Memory)
        }
    }
}

// What is made of a table of which no row is met.
fn unmet(alloc: Global, table: Table, next: u32) -> Updated
    ensures { result ≡ record { table = table; next = next; met = 0; touched = key_rows.Nothing; numbers = [] } }
{
    Updated {
        table,
        next,
        met: 0,
        touched: KeyRows::Nothing,
        numbers: List::empty(alloc),
    }
}
