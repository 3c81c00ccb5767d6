// A statement of any kind, and what it answers.
ghost use Rattle.std.specs.Prelude.{◌≡◌, ◌≢◌, ◌≤◌, IfOk, OnErr, Err, [], false, length};
ghost use Rattle.dl_base.specs.Limits.{link_numbers};
ghost use Rattle.dl_base.specs.declared.sql_fault.SqlFault.TheVariants as faults;
ghost use Rattle.meaning_statements.specs.Changing.{change};
ghost use Rattle.meaning_tables.specs.Fits.{RowsFit};
ghost use Rattle.sql_change.specs.Touched.{changes_rows};
ghost use Rattle.sql_rows.specs.Beside.{AgreeBeside};
ghost use Rattle.sql_run.specs.declared.evaluating.Outcome.TheVariants as outcomes;
ghost use Rattle.sql_run.specs.Outcomes.{after_change, evaluated, answer_of, count_of, counted, done, rows_answered, rows_changed, touched_of};

use dl_base::{Answer, Grid, List, Memory, Refusal, SqlFault, Stmt};
use meaning_sql::Context;
use sql_change::{Changed, change};
use sql_query::select;
use sql_table::Tables;
use std::alloc::Global;

/// What a statement answers.
#[derive(Drop)]
pub enum Outcome {
    /// How many rows an INSERT put in, an UPDATE met or a DELETE removed.
    Changed(u64),
    /// What a SELECT gives.
    Rows(Grid),
    /// A table is made or dropped.
    Done,
    /// Why nothing is changed; never that there was no memory.
    Refused(SqlFault),
}

/// What a statement answers, and the rows that it touched.
#[derive(Drop)]
pub struct Evaluation {
    /// What it answers.
    pub outcome: Outcome,
    /// The row numbers of the rows that it put in, met or removed, in its one table; none for a query, for CREATE and DROP TABLE,
    /// and where it is refused.
    pub touched: List<u64>,
}

/// The answer that is told of an outcome.
pub fn answer_of(outcome: Outcome) -> Answer
    ensures { result ≡ answer_of outcome }
{
    match outcome {
        Outcome::Changed(count) => Answer::Changed(count),
        Outcome::Rows(grid) => Answer::Rows(grid),
        Outcome::Done => Answer::Done,
        Outcome::Refused(fault) => Answer::Refused(Refusal::Sql(fault)),
    }
}

/// Carries out a statement over tables, and gives its outcome and the rows that it touched. CREATE TABLE and DROP TABLE are `Done`.
/// BEGIN, COMMIT and ROLLBACK are not for this call: they are `Done` and change nothing. Links get the context's transaction number
/// and the next link number, counted from 1 inside the transaction, which then goes up. A statement that is refused, or for which
/// there is no memory, leaves the tables and the next link number as they were. The rows of tables fit before and after it.
pub fn evaluate(
    alloc: Global,
    tables: &mut Tables,
    stmt: &Stmt,
    context: &Context,
    next_link: &mut u32,
) -> Result<Evaluation, Memory>
    requires numbers { next_link.old ≤ link_numbers }
    requires rows { RowsFit tables.old }
    ensures exact { IfOk result (λ made. evaluated tables.old stmt.now context.entry.now next_link.old ≡ record { outcome = made.outcome; tables = tables.new; next = next_link.new }) }
    ensures memory { IfOk result (λ made. made.outcome ≢ outcomes.Refused faults.Memory) }
    ensures beside { IfOk result (λ made. AgreeBeside made.touched tables.old tables.new) }
    ensures told { IfOk result (λ made. length made.touched ≡ rows_changed made.outcome) }
    ensures unchanged { OnErr result ((tables.new ≡ tables.old) × (next_link.new ≡ next_link.old)) }
    ensures few { next_link.new ≤ link_numbers }
    ensures rows { RowsFit tables.new }
{
    match stmt {
        Stmt::Select(query) => rows_answered(alloc, select(alloc, tables, query, context)),
        Stmt::Insert(_, _, _) => carried_out(alloc, tables, stmt, context, next_link),
        Stmt::Update(_, _, _) => carried_out(alloc, tables, stmt, context, next_link),
        Stmt::Delete(_, _) => carried_out(alloc, tables, stmt, context, next_link),
        Stmt::CreateTable(_, _) => defined(alloc, tables, stmt, context, next_link),
        Stmt::DropTable(_) => defined(alloc, tables, stmt, context, next_link),
        Stmt::Begin | Stmt::Commit | Stmt::Rollback => Ok(untouched(alloc, Outcome::Done)),
    }
}

// A statement that puts in, sets or removes rows.
fn carried_out(
    alloc: Global,
    tables: &mut Tables,
    stmt: &Stmt,
    context: &Context,
    next_link: &mut u32,
) -> Result<Evaluation, Memory>
    requires numbers { next_link.old ≤ link_numbers }
    requires rows { RowsFit tables.old }
    ensures exact { IfOk result (λ made. after_change tables.old next_link.old counted (change tables.old stmt.now context.entry.now next_link.old) ≡ record { outcome = made.outcome; tables = tables.new; next = next_link.new }) }
    ensures memory { IfOk result (λ made. made.outcome ≢ outcomes.Refused faults.Memory) }
    ensures beside { IfOk result (λ made. AgreeBeside made.touched tables.old tables.new) }
    ensures told { IfOk result (λ made. length made.touched ≡ rows_changed made.outcome) }
    ensures unchanged { OnErr result ((tables.new ≡ tables.old) × (next_link.new ≡ next_link.old)) }
    ensures few { next_link.new ≤ link_numbers }
    ensures rows { RowsFit tables.new }
{
    counted(alloc, change(alloc, tables, stmt, context, next_link))
}

// A statement that makes or drops a table.
fn defined(
    alloc: Global,
    tables: &mut Tables,
    stmt: &Stmt,
    context: &Context,
    next_link: &mut u32,
) -> Result<Evaluation, Memory>
    requires numbers { next_link.old ≤ link_numbers }
    requires rows { RowsFit tables.old }
    requires none { changes_rows stmt.now ≡ false }
    ensures exact { IfOk result (λ made. after_change tables.old next_link.old done (change tables.old stmt.now context.entry.now next_link.old) ≡ record { outcome = made.outcome; tables = tables.new; next = next_link.new }) }
    ensures memory { IfOk result (λ made. made.outcome ≢ outcomes.Refused faults.Memory) }
    ensures beside { IfOk result (λ made. AgreeBeside made.touched tables.old tables.new) }
    ensures told { IfOk result (λ made. length made.touched ≡ rows_changed made.outcome) }
    ensures unchanged { OnErr result ((tables.new ≡ tables.old) × (next_link.new ≡ next_link.old)) }
    ensures few { next_link.new ≤ link_numbers }
    ensures rows { RowsFit tables.new }
{
    done(alloc, change(alloc, tables, stmt, context, next_link))
}

fn untouched(alloc: Global, outcome: Outcome) -> Evaluation
    ensures { result ≡ record { outcome = outcome; touched = [] } }
{
    Evaluation {
        outcome,
        touched: List::empty(alloc),
    }
}

// A refusal is an outcome; want of memory is none.
fn refused(alloc: Global, fault: SqlFault) -> Result<Evaluation, Memory>
    ensures ok { IfOk result (λ made. made ≡ record { outcome = outcomes.Refused fault; touched = [] }) }
    ensures other { IfOk result (λ made. fault ≢ faults.Memory) }
    ensures memory { OnErr result (fault ≡ faults.Memory) }
{
    match fault {
        SqlFault::Memory => Err(Memory),
        other => Ok(untouched(alloc, Outcome::Refused(other))),
    }
}

fn counted(alloc: Global, changed: Result<Changed, SqlFault>) -> Result<Evaluation, Memory>
    ensures ok { IfOk result (λ made. made.outcome ≡ counted (count_of changed)) }
    ensures touched { IfOk result (λ made. made.touched ≡ touched_of changed) }
    ensures other { IfOk result (λ made. changed ≢ Err faults.Memory) }
    ensures memory { OnErr result (changed ≡ Err faults.Memory) }
{
    match changed {
        Ok(Changed { count, touched }) => Ok(Evaluation {
            outcome: Outcome::Changed(count),
            touched,
        }),
        Err(fault) => refused(alloc, fault),
    }
}

fn done(alloc: Global, changed: Result<Changed, SqlFault>) -> Result<Evaluation, Memory>
    ensures ok { IfOk result (λ made. made.outcome ≡ done (count_of changed)) }
    ensures touched { IfOk result (λ made. made.touched ≡ touched_of changed) }
    ensures other { IfOk result (λ made. changed ≢ Err faults.Memory) }
    ensures memory { OnErr result (changed ≡ Err faults.Memory) }
{
    match changed {
        Ok(Changed { touched, .. }) => Ok(Evaluation {
            outcome: Outcome::Done,
            touched,
        }),
        Err(fault) => refused(alloc, fault),
    }
}

fn rows_answered(alloc: Global, rows: Result<Grid, SqlFault>) -> Result<Evaluation, Memory>
    ensures ok { IfOk result (λ made. made ≡ record { outcome = rows_answered rows; touched = [] }) }
    ensures other { IfOk result (λ made. rows ≢ Err faults.Memory) }
    ensures memory { OnErr result (rows ≡ Err faults.Memory) }
{
    match rows {
        Ok(grid) => Ok(untouched(alloc, Outcome::Rows(grid))),
        Err(fault) => refused(alloc, fault),
    }
}
