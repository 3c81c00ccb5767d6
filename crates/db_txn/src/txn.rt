// The transaction of one session.
ghost use Rattle.std.specs.Prelude.{◌≡◌, ◌≢◌, None, Some, IfOk, OnOk, OnErr, false, is_some, true};
ghost use Rattle.std.specs.Option.{option_copied, option_map};
ghost use Rattle.dl_base.specs.declared.sql_fault.SqlFault.TheVariants as faults;
ghost use Rattle.db_changes.specs.Touched.{AreCommitted};
ghost use Rattle.meaning_areas.specs.Same.{same_tables};
ghost use Rattle.meaning_tables.specs.Fits.{RowsFit};
ghost use Rattle.meaning_tables.specs.Links.{gives, takes};
ghost use Rattle.sql_run.specs.Outcomes.{evaluated as meant};
ghost use Rattle.sql_run.specs.declared.evaluating.Outcome.TheVariants as outcomes;
ghost use Rattle.db_txn.specs.Transaction.{after_evaluation, back_to, begun, made_of, is_evaluated, standing, undone_to, vacant, with_made};

use crate::branch::has_branch;
use crate::work::{Before, Work, evaluated};
use db_changes::Made;
use db_moved::{are_same, moved_links};
use dl_base::{LinkRow, List, Memory, Name, Stmt};
use meaning_sql::Context;
use sql_run::Outcome;
use sql_table::Tables;
use std::alloc::Global;
use std::marker::Model;
use std::mem;

/// The transaction of one session, or none: the committed tables at its begin and its copy of them, the tables that its statements
/// named, and the last evaluation of a statement, as long as that is kept. It is active from `begin` on, until `made` tells what it
/// made, and again after `reopen`.
#[derive(Drop)]
pub struct Txn {
    alloc: Global,
    session: u32,
    tx: Option<u64>,
    base: Tables,
    work: Work,
    made: bool,
    kept: Option<Before>,
}

impl Model for Txn {
    ghost use Rattle.db_changes.specs.Touched.{AreCommitted};
    ghost use Rattle.db_txn.specs.Transaction.{Transaction};
    ghost use Rattle.db_txn.specs.Working.{IsBefore, IsWorkOn, kept_of};

    ghost Value = { Transaction };

    ghost view = { λ t. record {
      session = t.session;
      tx = t.tx;
      base = t.base;
      copy = t.work.copy;
      named = t.work.named;
      next = t.work.next;
      made = t.made;
      kept = kept_of t.kept;
    } };

    ghost invariant = { λ t. AreCommitted t.base × IsWorkOn t.base t.work × IsBefore t.base t.kept };
}

impl Txn {
    /// A session without a transaction. It takes no memory.
    pub fn vacant(alloc: Global, session: u32) -> Txn
        ensures { result ≡ vacant session }
    {
        Txn {
            alloc,
            session,
            tx: None,
            base: Tables::empty(alloc),
            work: Work::begun(alloc, Tables::empty(alloc)),
            made: false,
            kept: None,
        }
    }

    /// Begins a transaction of a number on the committed tables, of which none has version 0. The copies share their rows with
    /// them, so the cost grows with the names of tables. After an `Err`, which is want of memory, all is as it was.
    pub fn begin(&mut self, tables: &Tables, tx: u64) -> Result<(), Memory>
        requires vacant { self.old.tx ≡ None }
        requires rows { RowsFit tables.now }
        requires committed { AreCommitted tables.now }
        ensures ok { OnOk result (self.new ≡ begun self.old.session tx tables.now) }
        ensures err { OnErr result (self.new ≡ self.old) }
    {
        let begun = fresh(self.alloc, self.session, tx, tables)?;
        drop(mem::replace(self, begun));
        Ok(())
    }

    /// Evaluates a statement on the copy, and keeps its outcome and what it found. A statement that is refused leaves the copy as it
    /// was, and its tables are named all the same. It waits for nobody. After an `Err`, which is want of memory, all is as it was.
    /// The cost is that of the statement, and of the names of tables.
    pub fn evaluate(&mut self, stmt: &Stmt, context: &Context) -> Result<(), Memory>
        requires begun { self.old.tx ≡ Some context.now.tx }
        requires active { self.old.made ≡ false }
        requires plain { is_evaluated stmt.now ≡ true }
        ensures ok { OnOk result (self.new ≡ after_evaluation self.old stmt.now (meant self.old.copy stmt.now context.entry.now self.old.next)) }
        ensures err { OnErr result (self.new ≡ self.old) }
    {
        let (outcome, work) = evaluated(self.alloc, &self.work, stmt, context)?;
        let found = mem::replace(&mut self.work, work);
        let before = Before {
            outcome,
            work: found,
        };
        drop(mem::replace(&mut self.kept, Some(before)));
        Ok(())
    }

    /// The outcome of the last evaluation; None where none is kept. It is never the refusal that there was no memory. It takes no
    /// memory.
    pub fn outcome(&self) -> Option<&Outcome>
        ensures value { option_copied result ≡ option_map (λ k. k.outcome) self.now.kept }
        ensures memory { option_copied result ≢ Some (outcomes.Refused faults.Memory) }
    {
        match &self.kept {
            Some(before) => Some(&before.outcome),
            None => None,
        }
    }

    /// Undoes the last evaluation, but its tables stay named; where none is kept all stays as it is. It takes no memory.
    pub fn back(&mut self)
        ensures { self.new ≡ back_to self.old self.old.kept }
    {
        if let Some(Before { outcome, work }) = mem::replace(&mut self.kept, None) {
            drop(outcome);
            self.work.take_back(work);
        }
    }

    /// Undoes the last evaluation with the tables that it named; where none is kept all stays as it is. It takes no memory.
    pub fn undo(&mut self)
        ensures { self.new ≡ undone_to self.old self.old.kept }
    {
        if let Some(Before { outcome, work }) = mem::replace(&mut self.kept, None) {
            drop(outcome);
            drop(mem::replace(&mut self.work, work));
        }
    }

    /// The outcome of the last evaluation, which then stands: it cannot be undone any more. None where none is kept. It is never the
    /// refusal that there was no memory. It takes no memory.
    pub fn take_outcome(&mut self) -> Option<Outcome>
        ensures value { result ≡ option_map (λ k. k.outcome) self.old.kept }
        ensures memory { result ≢ Some (outcomes.Refused faults.Memory) }
        ensures stands { self.new ≡ standing self.old }
    {
        match mem::replace(&mut self.kept, None) {
            Some(Before { outcome, work }) => {
                drop(work);
                Some(outcome)
            }
            None => None,
        }
    }

    /// The session. It takes no memory.
    pub fn session(&self) -> u32
        ensures { result ≡ self.now.session }
    {
        self.session
    }

    /// The number of the transaction; None exactly where the session has none. It takes no memory.
    pub fn tx(&self) -> Option<u64>
        ensures { result ≡ self.now.tx }
    {
        self.tx
    }

    /// The committed tables at its begin. It takes no memory.
    pub fn base(&self) -> &Tables
        ensures value { result.now ≡ self.now.base }
        ensures committed { AreCommitted result.now }
    {
        &self.base
    }

    /// Its copy of the tables, whose rows fit. It takes no memory.
    pub fn tables(&self) -> &Tables
        ensures value { result.now ≡ self.now.copy }
        ensures rows { RowsFit result.now }
    {
        &self.work.copy
    }

    /// The tables that its statements named, each once, in order of naming. It takes no memory.
    pub fn touched(&self) -> &List<Name>
        ensures { result.now ≡ self.now.named }
    {
        &self.work.named
    }

    /// Whether its copy is its base, next row numbers too: then there is nothing to commit. Of tables that both have only the rows
    /// that its statements touched are looked at. It takes no memory.
    pub fn changes_nothing(&self) -> bool
        ensures { result ≡ same_tables self.now.base self.now.copy }
    {
        are_same(&self.base, &self.work.copy, &self.work.touched)
    }

    /// The links that the transaction gives and those that it takes, in the order of tables, rows and columns. The error is want of
    /// memory. The cost is n log n in the number of tables. Of those with a column under link control it grows with the rows that its
    /// statements touched, and with the rows of new tables and of dropped ones; no row of another table is looked at.
    pub fn moved(&self) -> Result<(List<LinkRow>, List<LinkRow>), Memory>
        ensures { IfOk result (λ made. (made.0 ≡ gives self.now.base self.now.copy) × (made.1 ≡ takes self.now.base self.now.copy)) }
    {
        moved_links(self.alloc, &self.base, &self.work.copy, &self.work.touched)
    }

    /// What the transaction has made of its base, with a branch exactly where it gives or takes a link; from then on it is not
    /// active. After an `Err`, which is want of memory, all is as it was. The cost is n log n in the number of tables, and grows
    /// with the touched rows, and with the rows of new tables and of dropped ones.
    pub fn made(&mut self) -> Result<Made, Memory>
        requires begun { is_some self.old.tx ≡ true }
        requires active { self.old.made ≡ false }
        ensures value { IfOk result (λ made. made ≡ made_of self.old) }
        ensures ok { OnOk result (self.new ≡ with_made self.old true) }
        ensures err { OnErr result (self.new ≡ self.old) }
    {
        let branch = has_branch(self.alloc, &self.base, &self.work.copy, &self.work.touched)?;
        let made = Made::new(
            self.alloc,
            self.tx.unwrap_or(0),
            branch,
            &self.base,
            &self.work.copy,
            &self.work.touched,
        )?;
        self.made = true;
        Ok(made)
    }

    /// Makes it active again after `made`. It takes no memory.
    pub fn reopen(&mut self)
        ensures { self.new ≡ with_made self.old false }
    {
        self.made = false;
    }

    /// Ends the transaction, and leaves nothing of it. It takes no memory.
    pub fn clear(&mut self)
        ensures { self.new ≡ vacant self.old.session }
    {
        drop(mem::replace(self, Txn::vacant(self.alloc, self.session)));
    }
}

// A transaction that has only begun.
fn fresh(alloc: Global, session: u32, tx: u64, tables: &Tables) -> Result<Txn, Memory>
    requires rows { RowsFit tables.now }
    requires committed { AreCommitted tables.now }
    ensures { IfOk result (λ made. made ≡ begun session tx tables.now) }
{
    let base = tables.copy()?;
    match tables.copy() {
        Ok(copy) => Ok(Txn {
            alloc,
            session,
            tx: Some(tx),
            base,
            work: Work::begun(alloc, copy),
            made: false,
            kept: None,
        }),
        Err(Memory) => {
            drop(base);
            Err(Memory)
        }
    }
}
