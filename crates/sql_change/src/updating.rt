// A table after an UPDATE, and what a DELETE leaves of one.
ghost use Rattle.std.specs.Prelude.{◌≡◌, ◌≤◌, IfOk, Ok, false, length, true, ℕ};
ghost use Rattle.dl_base.specs.Limits.{link_numbers};
ghost use Rattle.meaning_sql.specs.Faults.{Computes};
ghost use Rattle.meaning_statements.specs.Changing.{keys_hold};
ghost use Rattle.meaning_statements.specs.Sources as sources_meant;
ghost use Rattle.meaning_tables.specs.Fits.{table_fits};
ghost use Rattle.sql_rows.specs.Beside.{RowsAgreeBeside};
ghost use Rattle.sql_rows.specs.Remaining.{remainder_of};
ghost use Rattle.sql_rows.specs.Touching.{KeepsOthers};
ghost use Rattle.sql_change.specs.Parts as parts;

use crate::changing::Outcome;
use crate::keys::{check_keys, has_own_key, sets_key};
use crate::places::{check_types, own_columns, set_names, set_places, types_of_sets};
use dl_base::{Expr, List, Name, SqlFault};
use sql_expr::{Columns, Context, filter_type};
use sql_keys::KeyRows;
use sql_rows::{Deleted, Updated, delete_rows, update_rows};
use sql_table::Table;
use std::alloc::Global;

/// What an UPDATE makes of its table.
#[tactic(auto, unfolding(crate::specs::Parts::updated))]
pub(crate) fn updated(
    alloc: Global,
    table: &Table,
    name: &Name,
    sets: &List<(Name, Expr)>,
    filter: &Option<Expr>,
    context: &Context,
    k: u32,
) -> Result<Outcome, SqlFault>
    requires numbers { k ≤ link_numbers }
    requires fits { table_fits table.now ≡ true }
    ensures made { Computes (λ m. (m.table, (m.next, m.count))) result (parts.updated name.now table.now sets.now filter.now context.entry.now k) }
    ensures few { IfOk result (λ m. m.next ≤ link_numbers) }
    ensures beside { IfOk result (λ m. RowsAgreeBeside m.touched table.now.rows m.table.rows) }
    ensures told { IfOk result (λ m. length m.touched ≡ m.count) }
{
    let names = set_names(alloc, sets)?;
    let places = set_places(alloc, table.columns(), &names)?;
    set_under(alloc, name, table, &places, sets, filter, context, k)
}

// What is made once the places of the columns are known: expressions see the columns under the table's name.
fn set_under(
    alloc: Global,
    name: &Name,
    table: &Table,
    places: &List<usize>,
    sets: &List<(Name, Expr)>,
    filter: &Option<Expr>,
    context: &Context,
    k: u32,
) -> Result<Outcome, SqlFault>
    requires numbers { k ≤ link_numbers }
    requires fits { table_fits table.now ≡ true }
    ensures made { Computes (λ m. (m.table, (m.next, m.count))) result (parts.set_at (sources_meant.own_columns name.now table.now) table.now places.now sets.now filter.now context.entry.now k) }
    ensures few { IfOk result (λ m. m.next ≤ link_numbers) }
    ensures beside { IfOk result (λ m. RowsAgreeBeside m.touched table.now.rows m.table.rows) }
    ensures told { IfOk result (λ m. length m.touched ≡ m.count) }
{
    let columns = own_columns(alloc, name, table.columns())?;
    set_at(alloc, &columns, table, places, sets, filter, context, k)
}

#[tactic(auto, unfolding(crate::specs::Parts::set_at), using(crate::proofs::Clearing::passing))]
fn set_at(
    alloc: Global,
    columns: &Columns,
    table: &Table,
    places: &List<usize>,
    sets: &List<(Name, Expr)>,
    filter: &Option<Expr>,
    context: &Context,
    k: u32,
) -> Result<Outcome, SqlFault>
    requires numbers { k ≤ link_numbers }
    requires fits { table_fits table.now ≡ true }
    ensures made { Computes (λ m. (m.table, (m.next, m.count))) result (parts.set_at columns.now table.now places.now sets.now filter.now context.entry.now k) }
    ensures few { IfOk result (λ m. m.next ≤ link_numbers) }
    ensures beside { IfOk result (λ m. RowsAgreeBeside m.touched table.now.rows m.table.rows) }
    ensures told { IfOk result (λ m. length m.touched ≡ m.count) }
{
    let types = types_of_sets(alloc, sets, columns)?;
    filter_type(columns, filter)?;
    check_types(table.columns(), places, &types)?;
    set_rows(alloc, columns, table, places, sets, filter, context, k)
}

// The same once all types fit.
#[tactic(auto, unfolding(crate::specs::Parts::set_rows))]
fn set_rows(
    alloc: Global,
    columns: &Columns,
    table: &Table,
    places: &List<usize>,
    sets: &List<(Name, Expr)>,
    filter: &Option<Expr>,
    context: &Context,
    k: u32,
) -> Result<Outcome, SqlFault>
    requires numbers { k ≤ link_numbers }
    requires fits { table_fits table.now ≡ true }
    ensures made { Computes (λ m. (m.table, (m.next, m.count))) result (parts.set_rows columns.now table.now places.now sets.now filter.now context.entry.now k) }
    ensures few { IfOk result (λ m. m.next ≤ link_numbers) }
    ensures beside { IfOk result (λ m. RowsAgreeBeside m.touched table.now.rows m.table.rows) }
    ensures told { IfOk result (λ m. length m.touched ≡ m.count) }
{
    let made = update_rows(alloc, table, columns, context, filter, places, sets, k)?;
    let keyed = sets_key(table.columns(), places);
    let differ = keys_differ(table, &made, keyed);
    replaced(alloc, made, differ)
}

// Whether the keys of a table after an UPDATE surely differ: none is set, or no row is met, or the one that is met has a key that no
// other row has.
fn keys_differ(table: &Table, made: &Updated, keyed: bool) -> bool
    requires unset { keyed ≡ false → keys_hold made.now.table ≡ Ok true }
    requires fits { table_fits table.now ≡ true }
    requires others { made.now.table ≡ record table.now { rows = made.now.table.rows } }
    requires touched { KeepsOthers made.now.touched table.now.rows made.now.table.rows }
    ensures { result ≡ true → keys_hold made.now.table ≡ Ok true }
{
    if !keyed {
        return true;
    }
    match made.touched {
        KeyRows::All => false,
        KeyRows::One(number) => has_own_key(table, &made.table, number),
        KeyRows::Nothing => true,
    }
}

// The table after an UPDATE, where its keys differ: all are looked at where this is not known.
#[tactic(auto, unfolding(crate::specs::Parts::replaced))]
fn replaced(alloc: Global, made: Updated, differ: bool) -> Result<Outcome, SqlFault>
    requires { differ ≡ true → keys_hold made.table ≡ Ok true }
    ensures made { Computes (λ m. (m.table, (m.next, m.count))) result (parts.replaced made.table made.next made.met) }
    ensures next { IfOk result (λ m. m.next ≡ made.next) }
    ensures same { IfOk result (λ m. (m.table ≡ made.table) × (m.count ≡ made.met) × (m.touched ≡ made.numbers)) }
{
    if !differ {
        match check_keys(alloc, &made.table) {
            Ok(()) => {}
            Err(fault) => {
                drop(made);
                return Err(fault);
            }
        }
    }
    Ok(Outcome {
        table: made.table,
        next: made.next,
        count: made.met,
        touched: made.numbers,
    })
}

/// What a DELETE leaves of its table, and the rows that go. It draws no link number.
pub(crate) fn deleted(
    alloc: Global,
    table: &Table,
    name: &Name,
    filter: &Option<Expr>,
    context: &Context,
) -> Result<Deleted, SqlFault>
    requires { table_fits table.now ≡ true }
    ensures made { (k : ℕ) → Computes (λ d. (remainder_of table.now d.left, (k, length d.removed))) result (parts.deleted name.now table.now filter.now context.entry.now k) }
    ensures beside { IfOk result (λ d. RowsAgreeBeside d.removed table.now.rows (remainder_of table.now d.left).rows) }
{
    let columns = own_columns(alloc, name, table.columns())?;
    left_over(alloc, &columns, table, filter, context)
}

#[tactic(auto, unfolding(crate::specs::Parts::left_over))]
fn left_over(
    alloc: Global,
    columns: &Columns,
    table: &Table,
    filter: &Option<Expr>,
    context: &Context,
) -> Result<Deleted, SqlFault>
    requires { table_fits table.now ≡ true }
    ensures made { (k : ℕ) → Computes (λ d. (remainder_of table.now d.left, (k, length d.removed))) result (parts.left_over columns.now table.now filter.now context.entry.now k) }
    ensures beside { IfOk result (λ d. RowsAgreeBeside d.removed table.now.rows (remainder_of table.now d.left).rows) }
{
    filter_type(columns, filter)?;
    delete_rows(alloc, table, columns, context, filter)
}
