// A statement of plain SQL in a transaction.
ghost use Rattle.std.specs.Prelude.{◌≡◌, ℕ, true, Err, IfOk};
ghost use Rattle.db_txn.specs.Transaction.{is_evaluated, standing};
ghost use Rattle.dl_base.specs.declared.step.Step.TheVariants as steps;
ghost use Rattle.meaning_system.specs.State.{State};
ghost use Rattle.sys_core.specs.Claiming.{told_of};
ghost use Rattle.sys_core.specs.Seated.{HasTxn, IsAtWork};
ghost use Rattle.sys_core.specs.Standing.{IsOf};
ghost use Rattle.sys_core.specs.Steps.{Shows, StepsInMemory};

use crate::engine::Engine;
use db_txn::{Txn, an_evaluation_is_the_machines};
use dl_base::{Answer, Memory, Phase, Refusal, StepFault, Stmt};
use fm_links::{claims_answer_as_a_search_does, claims_behind_steps_of_a_session};
use meaning_history::each_step_leads_on;
use meaning_sql::Context;
use sql_run::answer_of;
use sys_seats::seats_count_together;

impl Engine {
    /// Evaluates a statement on the copy of a session's transaction, and claims the links that it gives and takes, where it altered them.
    /// A statement that is refused leaves the copy as it was; its tables are named all the same. It is refused NoTransaction, WrongPhase,
    /// as plain SQL, or as a claim: Doomed, Conflict, and NoFile, AlreadyLinked or Busy on the first link that is so. The only error is
    /// want of memory, after which all is as it was. It costs what `evaluate` of `Txn` does and, where that changed the tables, what
    /// `moved` does; where it altered a link, n log n of the links that the transaction gives and takes.
    pub fn statement(&mut self, txn: &mut Txn, stmt: &Stmt) -> Result<Answer, StepFault>
        requires plain { is_evaluated stmt.now ≡ true }
        requires stands { (first : ℕ) × (s : State) × IsOf first self.old s × HasTxn s txn.old }
        ensures steps { (first : ℕ) (s : State) → IsOf first self.old s → HasTxn s txn.old → StepsInMemory first (steps.Statement txn.old.session stmt.now) s self.old self.new result }
        ensures shows { (first : ℕ) (s : State) → IsOf first self.old s → HasTxn s txn.old → Shows (steps.Statement txn.old.session stmt.now) s txn.old txn.new result }
        ensures memory { result ≡ Err StepFault.Memory → IsAtWork self.old.seats txn.old }
    {
        each_step_leads_on();
        claims_answer_as_a_search_does();
        claims_behind_steps_of_a_session();
        an_evaluation_is_the_machines();
        seats_count_together();
        let Some(tx) = txn.tx() else {
            return Ok(Answer::Refused(Refusal::NoTransaction));
        };
        match self.phase(tx) {
            Phase::Active => {}
            phase => return Ok(Answer::Refused(Refusal::WrongPhase(phase))),
        }
        let context = self.context(tx)?;
        txn.evaluate(stmt, &context)?;
        match self.claim(txn, tx) {
            Ok(None) => Ok(taken(txn)),
            Ok(Some(refusal)) => {
                txn.back();
                Ok(Answer::Refused(refusal))
            }
            Err(Memory) => {
                txn.undo();
                Err(StepFault::Memory)
            }
        }
    }

    // What the values of a statement depend on, in a transaction.
    fn context(&self, tx: u64) -> Result<Context, Memory>
        ensures { IfOk result (λ made. made ≡ record { server = self.now.settings.server; key = self.now.settings.key; now = self.now.moment; life = self.now.settings.life; tx = tx }) }
    {
        Ok(Context {
            server: self.settings.server.copy()?,
            key: self.settings.key,
            now: self.moment,
            life: self.settings.life,
            tx,
        })
    }
}

// The answer of the last evaluation, which then stands; Done where none is kept.
fn taken(txn: &mut Txn) -> Answer
    ensures answer { result ≡ told_of txn.old.kept }
    ensures stands { txn.new ≡ standing txn.old }
{
    match txn.take_outcome() {
        Some(outcome) => answer_of(outcome),
        None => Answer::Done,
    }
}
