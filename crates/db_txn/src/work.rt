// What the statements of a transaction have made so far.
ghost use Rattle.std.specs.Prelude.{◌≡◌, ◌≢◌, ◌==◌, ◌≤◌, [], IfOk, OnOk, map};
ghost use Rattle.std.specs.Cmp.Lexicographic.{pointwise};
ghost use Rattle.std.specs.List.{IsDistinct};
ghost use Rattle.dl_base.specs.Limits.{link_numbers};
ghost use Rattle.dl_base.specs.declared.sql_fault.SqlFault.TheVariants as faults;
ghost use Rattle.meaning_system.specs.Claims.{with_names};
ghost use Rattle.meaning_system.specs.Sql.{named_by};
ghost use Rattle.meaning_tables.specs.Fits.{RowsFit};
ghost use Rattle.meaning_tables.specs.Tables.{Tables as TablesOf};
ghost use Rattle.sql_run.specs.Outcomes.{evaluated as meant};
ghost use Rattle.sql_run.specs.declared.evaluating.Outcome.TheVariants as outcomes;
ghost use Rattle.db_txn.specs.Working.{AddsRows, IsWorkOn};

use crate::names::put_names;
use db_changes::TouchedRows;
use dl_base::{Copied, List, Memory, Name, Stmt};
use meaning_sql::Context;
use sql_run::{Evaluation, Outcome, evaluate};
use sql_table::Tables;
use std::alloc::Global;
use std::mem;

/// The copy of the tables, the tables that statements named, the next count of link numbers, and the rows that were touched.
#[derive(Drop)]
pub(crate) struct Work {
    pub copy: Tables,
    pub named: List<Name>,
    pub next: u32,
    pub touched: TouchedRows,
}

/// The outcome of an evaluation, and the work that it found.
#[derive(Drop)]
pub(crate) struct Before {
    pub outcome: Outcome,
    pub work: Work,
}

impl Work {
    /// No work on these tables yet. It takes no memory.
    pub fn begun(alloc: Global, copy: Tables) -> Work
        ensures { result ≡ record { copy = copy; named = []; next = 1; touched = [] } }
    {
        Work {
            copy,
            named: List::empty(alloc),
            next: 1,
            touched: TouchedRows::empty(alloc),
        }
    }

    /// Takes all but its named tables from another. It takes no memory.
    pub fn take_back(&mut self, found: Work)
        ensures { self.new ≡ record { copy = found.copy; named = self.old.named; next = found.next; touched = found.touched } }
    {
        let Work {
            copy,
            named,
            next,
            touched,
        } = found;
        drop(named);
        drop(mem::replace(&mut self.copy, copy));
        self.next = next;
        drop(mem::replace(&mut self.touched, touched));
    }

    // The same once more, which shares its rows with this.
    fn share(&self) -> Result<Work, Memory>
        ensures { IfOk result (λ made. made ≡ self.now) }
    {
        let copy = self.copy.copy()?;
        match self.share_notes() {
            Ok((named, touched)) => Ok(Work {
                copy,
                named,
                next: self.next,
                touched,
            }),
            Err(Memory) => {
                drop(copy);
                Err(Memory)
            }
        }
    }

    // What statements named and touched, once more.
    fn share_notes(&self) -> Result<(List<Name>, TouchedRows), Memory>
        ensures { IfOk result (λ made. (made.0 ≡ self.now.named) × (made.1 ≡ self.now.touched)) }
    {
        let named = self.named.copy()?;
        match self.touched.share() {
            Ok(touched) => Ok((named, touched)),
            Err(Memory) => {
                drop(named);
                Err(Memory)
            }
        }
    }
}

/// The outcome of a statement over a transaction's copy, and the work with it. The cost is that of the statement, and of the names
/// of tables.
pub(crate) fn evaluated(
    alloc: Global,
    work: &Work,
    stmt: &Stmt,
    context: &Context,
) -> Result<(Outcome, Work), Memory>
    requires rows { RowsFit work.now.copy }
    requires numbers { work.now.next ≤ link_numbers }
    ensures exact { IfOk result (λ made. meant work.now.copy stmt.now context.entry.now work.now.next ≡ record { outcome = made.0; tables = made.1.copy; next = made.1.next }) }
    ensures memory { IfOk result (λ made. made.0 ≢ outcomes.Refused faults.Memory) }
    ensures named { IfOk result (λ made. made.1.named ≡ with_names work.now.named (named_by stmt.now)) }
    ensures work { IfOk result (λ made. (base : TablesOf) → IsWorkOn base work.now → IsWorkOn base made.1) }
{
    let mut made = work.share()?;
    match carry_out(alloc, &mut made, stmt, context) {
        Ok(outcome) => Ok((outcome, made)),
        Err(Memory) => {
            drop(made);
            Err(Memory)
        }
    }
}

// Carries out a statement; after an error the work is not to be used.
fn carry_out(
    alloc: Global,
    work: &mut Work,
    stmt: &Stmt,
    context: &Context,
) -> Result<Outcome, Memory>
    requires rows { RowsFit work.old.copy }
    requires numbers { work.old.next ≤ link_numbers }
    ensures exact { IfOk result (λ outcome. meant work.old.copy stmt.now context.entry.now work.old.next ≡ record { outcome = outcome; tables = work.new.copy; next = work.new.next }) }
    ensures memory { IfOk result (λ outcome. outcome ≢ outcomes.Refused faults.Memory) }
    ensures named { OnOk result (work.new.named ≡ with_names work.old.named (named_by stmt.now)) }
    ensures work { OnOk result ((base : TablesOf) → IsWorkOn base work.old → IsWorkOn base work.new) }
{
    distinct(&work.copy);
    put_names(&mut work.named, stmt)?;
    let Evaluation { outcome, touched } = evaluate(
        alloc,
        &mut work.copy,
        stmt,
        context,
        &mut work.next,
    )?;
    let put = put_touched(alloc, &mut work.touched, stmt, touched.as_slice());
    drop(touched);
    match put {
        Ok(()) => Ok(outcome),
        Err(Memory) => {
            drop(outcome);
            Err(Memory)
        }
    }
}

// Names differ, as tables tell with their count.
fn distinct(tables: &Tables)
    ensures { IsDistinct (pointwise ◌==◌) (map (λ t. t.0) tables.now) }
{
    let _ = tables.len();
}

// Puts the touched rows of a statement under the name of the table that it changes.
fn put_touched(
    alloc: Global,
    touched: &mut TouchedRows,
    stmt: &Stmt,
    numbers: &[u64],
) -> Result<(), Memory>
    ensures { OnOk result (AddsRows stmt.now numbers.now touched.old touched.new) }
{
    match stmt {
        Stmt::CreateTable(name, _) => touched.add(alloc, name, numbers),
        Stmt::DropTable(name) => touched.add(alloc, name, numbers),
        Stmt::Insert(name, _, _) => touched.add(alloc, name, numbers),
        Stmt::Update(name, _, _) => touched.add(alloc, name, numbers),
        Stmt::Delete(name, _) => touched.add(alloc, name, numbers),
        Stmt::Select(_) | Stmt::Begin | Stmt::Commit | Stmt::Rollback => Ok(()),
    }
}
