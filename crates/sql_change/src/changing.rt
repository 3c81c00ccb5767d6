// A statement as a whole: the new table is built beside the old one, and put in its place as the last step, which takes no memory.
// Where the condition of a DELETE asks for a key, the row that goes is taken out of the table as the last step, and want of memory
// leaves the tables as they were.
ghost use Rattle.std.specs.Prelude.{◌≡◌, ◌≢◌, ◌≤◌, ◌==◌, IfOk, IfErr, OnErr, OnOk, Ok, Err, Some, [], false, true, ℕ, length, map};
ghost use Rattle.std.specs.Cmp.Lexicographic.{pointwise};
ghost use Rattle.std.specs.List.{IsDistinct};
ghost use Rattle.dl_base.specs.Limits.{link_numbers};
ghost use Rattle.dl_base.specs.declared.sql_fault.SqlFault.TheVariants as faults;
ghost use Rattle.meaning_sql.specs.Faults.{Computes};
ghost use Rattle.meaning_statements.specs.Changing as meant;
ghost use Rattle.meaning_statements.specs.Sources.{present};
ghost use Rattle.meaning_tables.specs.Fits.{RowsFit, table_fits};
ghost use Rattle.meaning_tables.specs.Tables.{Rows, table_of, with_table};
ghost use Rattle.sql_change.specs.Touched.{changes_rows};
ghost use Rattle.sql_rows.specs.Beside.{AgreeBeside, RowsAgreeBeside};
ghost use Rattle.sql_rows.specs.Remaining.{remainder_of};

use crate::creating::columns_made;
use crate::inserting::inserted;
use crate::updating::{deleted, updated};
use dl_base::limits::{MOST_COLUMNS, MOST_TABLES};
use dl_base::{ColumnDef, Expr, Limit, List, Memory, Name, SqlFault, Stmt};
use sql_expr::Context;
use sql_invariants::changes_keep_rows_fitting;
use sql_rows::{Deleted, Remainder};
use sql_table::{Table, Tables};
use std::alloc::Global;

/// How many rows a statement put in, met or removed, and which.
#[derive(Drop)]
pub struct Changed {
    /// How many rows.
    pub count: u64,
    /// Their row numbers. No other row of a table that is there before and after is put in, changed or removed.
    pub touched: List<u64>,
}

/// What an INSERT or UPDATE makes of its table, the next link number, and the number of rows that it put in or met, and which.
#[derive(Drop)]
pub(crate) struct Outcome {
    pub table: Table,
    pub next: u32,
    pub count: u64,
    pub touched: List<u64>,
}

/// Carries out CREATE TABLE, DROP TABLE, INSERT, UPDATE or DELETE, and gives the number of rows that it put in, met or removed, with
/// their row numbers; none for the first two, and for any other statement, which changes nothing. Links get the context's
/// transaction number and the next link number, counted from 1 inside the transaction, which then goes up. A refusal, or want of
/// memory, leaves the tables and the next link number as they were. The rows of tables fit before and after it.
pub fn change(
    alloc: Global,
    tables: &mut Tables,
    stmt: &Stmt,
    context: &Context,
    next_link: &mut u32,
) -> Result<Changed, SqlFault>
    requires numbers { next_link.old ≤ link_numbers }
    requires rows { RowsFit tables.old }
    ensures ok { IfOk result (λ made. meant.change tables.old stmt.now context.entry.now next_link.old ≡ Ok (record { tables = tables.new; next = next_link.new; count = made.count })) }
    ensures refused { IfErr result (λ e. e ≢ faults.Memory → meant.change tables.old stmt.now context.entry.now next_link.old ≡ Err e) }
    ensures unchanged { OnErr result ((tables.new ≡ tables.old) × (next_link.new ≡ next_link.old)) }
    ensures few { next_link.new ≤ link_numbers }
    ensures beside { IfOk result (λ made. AgreeBeside made.touched tables.old tables.new) }
    ensures told { IfOk result (λ made. length made.touched ≡ made.count) }
    ensures none { IfOk result (λ made. changes_rows stmt.now ≡ false → made.touched ≡ []) }
    ensures rows { RowsFit tables.new }
{
    changes_keep_rows_fitting();
    carried_out(alloc, tables, stmt, context, next_link)
}

fn carried_out(
    alloc: Global,
    tables: &mut Tables,
    stmt: &Stmt,
    context: &Context,
    next_link: &mut u32,
) -> Result<Changed, SqlFault>
    requires numbers { next_link.old ≤ link_numbers }
    requires rows { RowsFit tables.old }
    ensures ok { IfOk result (λ made. meant.change tables.old stmt.now context.entry.now next_link.old ≡ Ok (record { tables = tables.new; next = next_link.new; count = made.count })) }
    ensures refused { IfErr result (λ e. e ≢ faults.Memory → meant.change tables.old stmt.now context.entry.now next_link.old ≡ Err e) }
    ensures unchanged { OnErr result ((tables.new ≡ tables.old) × (next_link.new ≡ next_link.old)) }
    ensures few { next_link.new ≤ link_numbers }
    ensures beside { IfOk result (λ made. AgreeBeside made.touched tables.old tables.new) }
    ensures told { IfOk result (λ made. length made.touched ≡ made.count) }
    ensures none { IfOk result (λ made. changes_rows stmt.now ≡ false → made.touched ≡ []) }
{
    match stmt {
        Stmt::CreateTable(name, columns) => {
            create(alloc, tables, name, columns)?;
            Ok(nothing(alloc))
        }
        Stmt::DropTable(name) => {
            drop_table(tables, name)?;
            Ok(nothing(alloc))
        }
        Stmt::Insert(name, names, tuples) => {
            insert(alloc, tables, name, names, tuples, context, next_link)
        }
        Stmt::Update(name, sets, filter) => {
            update(alloc, tables, name, sets, filter, context, next_link)
        }
        Stmt::Delete(name, filter) => delete(alloc, tables, name, filter, context),
        Stmt::Begin | Stmt::Commit | Stmt::Rollback | Stmt::Select(_) => Ok(nothing(alloc)),
    }
}

// No row is touched.
fn nothing(alloc: Global) -> Changed
    ensures { result ≡ record { count = 0; touched = [] } }
{
    Changed {
        count: 0,
        touched: List::empty(alloc),
    }
}

fn put_in_place(tables: &mut Tables, name: &Name, made: Outcome, next_link: &mut u32) -> Changed
    ensures tables { tables.new ≡ with_table tables.old name.now made.table }
    ensures next { next_link.new ≡ made.next }
    ensures count { result ≡ record { count = made.count; touched = made.touched } }
    ensures beside { (t : Rows) → table_of tables.old name.now ≡ Some t → RowsAgreeBeside made.touched t.rows made.table.rows → AgreeBeside made.touched tables.old tables.new }
{
    let Outcome {
        table,
        next,
        count,
        touched,
    } = made;
    drop(tables.put(name, table));
    *next_link = next;
    Changed { count, touched }
}

#[tactic(auto, unfolding(meaning_statements::specs::Changing::create))]
fn create(
    alloc: Global,
    tables: &mut Tables,
    name: &Name,
    columns: &List<ColumnDef>,
) -> Result<(), SqlFault>
    ensures ok { OnOk result ((k : ℕ) → meant.create tables.old name.now columns.now k ≡ Ok (record { tables = tables.new; next = k; count = 0 })) }
    ensures refused { IfErr result (λ e. (k : ℕ) → e ≢ faults.Memory → meant.create tables.old name.now columns.now k ≡ Err e) }
    ensures unchanged { OnErr result (tables.new ≡ tables.old) }
    ensures beside { OnOk result (AgreeBeside [] tables.old tables.new) }
{
    if tables.table(name).is_some() {
        return Err(SqlFault::TableExists(name.copy()?));
    }
    if tables.len() >= MOST_TABLES {
        return Err(SqlFault::Limit(Limit::Tables));
    }
    if columns.len() > MOST_COLUMNS {
        return Err(SqlFault::Limit(Limit::Columns));
    }
    let made = columns_made(alloc, columns)?;
    tables.add(name.copy()?, made)?;
    Ok(())
}

#[tactic(auto, unfolding(meaning_statements::specs::Changing::drop_table))]
fn drop_table(tables: &mut Tables, name: &Name) -> Result<(), SqlFault>
    ensures ok { OnOk result ((k : ℕ) → meant.drop_table tables.old name.now k ≡ Ok (record { tables = tables.new; next = k; count = 0 })) }
    ensures refused { IfErr result (λ e. (k : ℕ) → e ≢ faults.Memory → meant.drop_table tables.old name.now k ≡ Err e) }
    ensures unchanged { OnErr result (tables.new ≡ tables.old) }
    ensures beside { OnOk result (AgreeBeside [] tables.old tables.new) }
{
    distinct(tables);
    if tables.table(name).is_none() {
        return Err(SqlFault::NoTable(name.copy()?));
    }
    tables.discard(name);
    Ok(())
}

// Names differ, as tables tell with their count.
fn distinct(tables: &Tables)
    ensures { IsDistinct (pointwise ◌==◌) (map (λ t. t.0) tables.now) }
{
    let _ = tables.len();
}

// The table of a name.
#[tactic(auto, using(crate::proofs::Fitting::found_fits))]
fn found<'a>(tables: &'a Tables, name: &Name) -> Result<&'a Table, SqlFault>
    requires { RowsFit tables.now }
    ensures table { Computes (λ t. t.now) result (present name.now (table_of tables.now name.now)) }
    ensures fits { IfOk result (λ t. table_fits t.now ≡ true) }
    ensures there { IfOk result (λ t. table_of tables.now name.now ≡ Some t.now) }
{
    match tables.table(name) {
        Some(table) => Ok(table),
        None => Err(SqlFault::NoTable(name.copy()?)),
    }
}

#[tactic(auto, using(crate::proofs::Whole::insert_is))]
fn insert(
    alloc: Global,
    tables: &mut Tables,
    name: &Name,
    names: &Option<List<Name>>,
    tuples: &List<List<Expr>>,
    context: &Context,
    next_link: &mut u32,
) -> Result<Changed, SqlFault>
    requires numbers { next_link.old ≤ link_numbers }
    requires rows { RowsFit tables.old }
    ensures ok { IfOk result (λ made. meant.insert tables.old name.now names.now tuples.now context.entry.now next_link.old ≡ Ok (record { tables = tables.new; next = next_link.new; count = made.count })) }
    ensures refused { IfErr result (λ e. e ≢ faults.Memory → meant.insert tables.old name.now names.now tuples.now context.entry.now next_link.old ≡ Err e) }
    ensures unchanged { OnErr result ((tables.new ≡ tables.old) × (next_link.new ≡ next_link.old)) }
    ensures few { next_link.new ≤ link_numbers }
    ensures beside { IfOk result (λ made. AgreeBeside made.touched tables.old tables.new) }
    ensures told { IfOk result (λ made. length made.touched ≡ made.count) }
{
    let made = inserted(
        alloc,
        found(tables, name)?,
        names,
        tuples,
        context,
        *next_link,
    )?;
    Ok(put_in_place(tables, name, made, next_link))
}

#[tactic(auto, using(crate::proofs::Whole::update_is))]
fn update(
    alloc: Global,
    tables: &mut Tables,
    name: &Name,
    sets: &List<(Name, Expr)>,
    filter: &Option<Expr>,
    context: &Context,
    next_link: &mut u32,
) -> Result<Changed, SqlFault>
    requires numbers { next_link.old ≤ link_numbers }
    requires rows { RowsFit tables.old }
    ensures ok { IfOk result (λ made. meant.update tables.old name.now sets.now filter.now context.entry.now next_link.old ≡ Ok (record { tables = tables.new; next = next_link.new; count = made.count })) }
    ensures refused { IfErr result (λ e. e ≢ faults.Memory → meant.update tables.old name.now sets.now filter.now context.entry.now next_link.old ≡ Err e) }
    ensures unchanged { OnErr result ((tables.new ≡ tables.old) × (next_link.new ≡ next_link.old)) }
    ensures few { next_link.new ≤ link_numbers }
    ensures beside { IfOk result (λ made. AgreeBeside made.touched tables.old tables.new) }
    ensures told { IfOk result (λ made. length made.touched ≡ made.count) }
{
    let made = updated(
        alloc,
        found(tables, name)?,
        name,
        sets,
        filter,
        context,
        *next_link,
    )?;
    Ok(put_in_place(tables, name, made, next_link))
}

// It draws no link number.
#[tactic(auto, using(crate::proofs::Whole::delete_is))]
fn delete(
    alloc: Global,
    tables: &mut Tables,
    name: &Name,
    filter: &Option<Expr>,
    context: &Context,
) -> Result<Changed, SqlFault>
    requires { RowsFit tables.old }
    ensures ok { IfOk result (λ made. (k : ℕ) → meant.delete tables.old name.now filter.now context.entry.now k ≡ Ok (record { tables = tables.new; next = k; count = made.count })) }
    ensures refused { IfErr result (λ e. (k : ℕ) → e ≢ faults.Memory → meant.delete tables.old name.now filter.now context.entry.now k ≡ Err e) }
    ensures unchanged { OnErr result (tables.new ≡ tables.old) }
    ensures beside { IfOk result (λ made. AgreeBeside made.touched tables.old tables.new) }
    ensures told { IfOk result (λ made. length made.touched ≡ made.count) }
{
    let made = deleted(alloc, found(tables, name)?, name, filter, context)?;
    Ok(left_in_place(tables, name, made)?)
}

// Makes of the table of a name what a DELETE leaves of it, and tells the rows that went. The error is want of memory.
fn left_in_place(tables: &mut Tables, name: &Name, made: Deleted) -> Result<Changed, Memory>
    ensures tables { (t : Rows) → table_of tables.old name.now ≡ Some t → OnOk result (tables.new ≡ with_table tables.old name.now (remainder_of t made.left)) }
    ensures err { OnErr result (tables.new ≡ tables.old) }
    ensures told { IfOk result (λ told. told ≡ record { count = length made.removed; touched = made.removed }) }
{
    let Deleted { left, removed } = made;
    match put_left(tables, name, left) {
        Ok(()) => Ok(Changed {
            count: removed.len() as u64,
            touched: removed,
        }),
        Err(Memory) => {
            drop(removed);
            Err(Memory)
        }
    }
}

// Does with the table of a name what is left to do.
#[tactic(auto, using(crate::proofs::Touched::put_same))]
fn put_left(tables: &mut Tables, name: &Name, left: Remainder) -> Result<(), Memory>
    ensures ok { (t : Rows) → table_of tables.old name.now ≡ Some t → OnOk result (tables.new ≡ with_table tables.old name.now (remainder_of t left)) }
    ensures err { OnErr result (tables.new ≡ tables.old) }
{
    match left {
        Remainder::Another(table) => {
            drop(tables.put(name, table));
            Ok(())
        }
        Remainder::Without(number) => tables.unset(name, number),
        Remainder::Same => Ok(()),
    }
}
