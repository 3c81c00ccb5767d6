// A transaction is decided.
ghost use Rattle.std.specs.Prelude.{◌≡◌, ℕ, OnOk, None, Some};
ghost use Rattle.std.specs.FinMap as maps;
ghost use Rattle.db_txn.specs.Transaction.{vacant};
ghost use Rattle.dl_areas.specs.Lists.{AreReady};
ghost use Rattle.dl_base.specs.declared.step.Phase.TheVariants as phases;
ghost use Rattle.dl_base.specs.declared.step.Step.TheVariants as steps;
ghost use Rattle.fm_manager.specs.Managed.{AreSpelled};
ghost use Rattle.meaning_system.specs.State.{State, Txn as Txns};
ghost use Rattle.meaning_system.specs.Writes.{writes};
ghost use Rattle.sys_core.specs.Between.{DecidesTo, IsBetween, IsDeciding};
ghost use Rattle.sys_core.specs.Seated.{HasTxn, making_of, phase_at};
ghost use Rattle.sys_core.specs.Standing.{IsOf};
ghost use Rattle.sys_core.specs.Steps.{Shows, Steps, as_step};
ghost use Rattle.sys_owners.specs.Owned.{journals_of};

use crate::engine::Engine;
use crate::versions::conflict;
use db_changes::{Made, handles_lead_to_merged_tables};
use db_txn::Txn;
use dl_areas::calls_follow_one_another;
use dl_base::{Answer, AppendFault, Bench, Phase, Refusal};
use fm_links::claims_behind_steps_of_a_session;
use fm_manager::Pieces;
use meaning_history::each_step_leads_on;
use sys_seats::{Stage, Vote, seats_count_together};

impl Engine {
    /// The decision on the prepared transaction of a session. What changes nothing ends with Done. Where a table that its statements named
    /// has another version now than it saw, it is refused Conflict with that table and both versions, and ends; its branch is aborted.
    /// Else what it has made is the next commit, whose number is answered. Other refusals are NoTransaction and WrongPhase. The errors
    /// are `Full(Area)` and `Device`, behind which the areas are to be opened again. It takes no memory.
    pub fn decide<B: Bench>(&mut self, bench: &mut B, txn: &mut Txn) -> Result<Answer, AppendFault>
        requires ready { AreReady (journals_of self.old.owners) (B.outside bench.old) }
        requires stands { (first : ℕ) × (s : State) × IsOf first self.old s × HasTxn s txn.old }
        ensures steps { (first : ℕ) (s : State) → IsOf first self.old s → HasTxn s txn.old → Steps first (steps.Decide txn.old.session) s self.old self.new (as_step result) (B.outside bench.old) (B.outside bench.new) }
        ensures shows { (first : ℕ) (s : State) → IsOf first self.old s → HasTxn s txn.old → Shows (steps.Decide txn.old.session) s txn.old txn.new (as_step result) }
        ensures spelled { (first : ℕ) (s : State) → IsOf first self.old s → HasTxn s txn.old → AreSpelled (writes s (steps.Decide txn.old.session)) }
    {
        calls_follow_one_another::<B>();
        let Some(tx) = txn.tx() else {
            return Ok(Answer::Refused(Refusal::NoTransaction));
        };
        match self.phase(tx) {
            Phase::Prepared => self.decide_prepared(bench, txn, tx),
            phase => Ok(Answer::Refused(Refusal::WrongPhase(phase))),
        }
    }

    // The decision on a transaction that is prepared.
    fn decide_prepared<B: Bench>(
        &mut self,
        bench: &mut B,
        txn: &mut Txn,
        tx: u64,
    ) -> Result<Answer, AppendFault>
        requires ready { AreReady (journals_of self.old.owners) (B.outside bench.old) }
        requires own { txn.old.tx ≡ Some tx }
        requires prepared { phase_at (maps.get self.old.seats tx) ≡ phases.Prepared }
        requires stands { (first : ℕ) × (s : State) × IsOf first self.old s × HasTxn s txn.old }
        ensures steps { (first : ℕ) (s : State) → IsOf first self.old s → HasTxn s txn.old → Steps first (steps.Decide txn.old.session) s self.old self.new (as_step result) (B.outside bench.old) (B.outside bench.new) }
        ensures shows { (first : ℕ) (s : State) → IsOf first self.old s → HasTxn s txn.old → Shows (steps.Decide txn.old.session) s txn.old txn.new (as_step result) }
        ensures spelled { (first : ℕ) (s : State) → IsOf first self.old s → HasTxn s txn.old → AreSpelled (writes s (steps.Decide txn.old.session)) }
    {
        seats_count_together();
        // what is put in its place is not active, so its claims count as there
        match self.seats.change_stage(tx, Stage::Decided(None)) {
            Some(Stage::Prepared(vote)) => self.decide_on(bench, txn, tx, vote),
            _ => unreachable!(),
        }
    }

    // The decision on a transaction whose vote was taken out.
    fn decide_on<B: Bench>(
        &mut self,
        bench: &mut B,
        txn: &mut Txn,
        tx: u64,
        vote: Vote,
    ) -> Result<Answer, AppendFault>
        requires ready { AreReady (journals_of self.old.owners) (B.outside bench.old) }
        requires deciding { (first : ℕ) × (s : State) × (t : Txns) × IsDeciding first self.old s txn.old tx t vote }
        ensures steps { (first : ℕ) (s : State) (t : Txns) → IsDeciding first self.old s txn.old tx t vote → Steps first (steps.Decide txn.old.session) s self.old self.new (as_step result) (B.outside bench.old) (B.outside bench.new) }
        ensures shows { (first : ℕ) (s : State) (t : Txns) → IsDeciding first self.old s txn.old tx t vote → Shows (steps.Decide txn.old.session) s txn.old txn.new (as_step result) }
        ensures spelled { (first : ℕ) (s : State) (t : Txns) → IsDeciding first self.old s txn.old tx t vote → AreSpelled (writes s (steps.Decide txn.old.session)) }
    {
        calls_follow_one_another::<B>();
        claims_behind_steps_of_a_session();
        each_step_leads_on();
        seats_count_together();
        if txn.changes_nothing() {
            drop(vote);
            self.end(txn, tx);
            return Ok(Answer::Done);
        }
        let Vote {
            made,
            names,
            pieces,
        } = vote;
        match conflict(names, txn.base(), self.owners.store.committed()) {
            Some(refusal) => {
                drop(made);
                self.refuse_conflict(bench, txn, tx, pieces, refusal)
            }
            None => self.commit_made(bench, tx, made, pieces),
        }
    }

    // Ends a transaction that has a conflict.
    fn refuse_conflict<B: Bench>(
        &mut self,
        bench: &mut B,
        txn: &mut Txn,
        tx: u64,
        pieces: Option<Pieces>,
        refusal: Refusal,
    ) -> Result<Answer, AppendFault>
        requires ready { AreReady (journals_of self.old.owners) (B.outside bench.old) }
        requires stands { (first : ℕ) × (s : State) × (t : Txns) × IsBetween first self.old s txn.old.session tx t phases.Prepared pieces × DecidesTo s t (Some refusal) }
        ensures steps { (first : ℕ) (s : State) (t : Txns) → IsBetween first self.old s txn.old.session tx t phases.Prepared pieces → DecidesTo s t (Some refusal)
            → Steps first (steps.Decide txn.old.session) s self.old self.new (as_step result) (B.outside bench.old) (B.outside bench.new) }
        ensures txn { OnOk result (txn.new ≡ vacant txn.old.session) }
        ensures spelled { (first : ℕ) (s : State) (t : Txns) → IsBetween first self.old s txn.old.session tx t phases.Prepared pieces → DecidesTo s t (Some refusal) → AreSpelled (writes s (steps.Decide txn.old.session)) }
    {
        claims_behind_steps_of_a_session();
        each_step_leads_on();
        seats_count_together();
        let branch = pieces.is_some();
        drop(pieces);
        match self.abort(bench, tx, branch) {
            Ok(()) => {
                self.end(txn, tx);
                Ok(Answer::Refused(refusal))
            }
            Err(fault) => {
                drop(refusal);
                Err(fault)
            }
        }
    }

    // Writes the commit of a transaction that has no conflict, and what it may still want stays with it.
    fn commit_made<B: Bench>(
        &mut self,
        bench: &mut B,
        tx: u64,
        made: Made,
        pieces: Option<Pieces>,
    ) -> Result<Answer, AppendFault>
        requires ready { AreReady (journals_of self.old.owners) (B.outside bench.old) }
        requires stands { (first : ℕ) × (s : State) × (session : ℕ) × (t : Txns) × IsBetween first self.old s session tx t phases.Prepared pieces × DecidesTo s t None × (made ≡ making_of tx t) }
        ensures steps { (first : ℕ) (s : State) (session : ℕ) (t : Txns) → IsBetween first self.old s session tx t phases.Prepared pieces → DecidesTo s t None → made ≡ making_of tx t
            → Steps first (steps.Decide session) s self.old self.new (as_step result) (B.outside bench.old) (B.outside bench.new) }
        ensures spelled { (first : ℕ) (s : State) (session : ℕ) (t : Txns) → IsBetween first self.old s session tx t phases.Prepared pieces → DecidesTo s t None → made ≡ making_of tx t → AreSpelled (writes s (steps.Decide session)) }
    {
        claims_behind_steps_of_a_session();
        each_step_leads_on();
        handles_lead_to_merged_tables();
        seats_count_together();
        match self.owners.store.commit(bench, made) {
            Ok(number) => {
                drop(self.seats.change_stage(tx, Stage::Decided(pieces)));
                Ok(Answer::Committed(number))
            }
            Err(fault) => {
                drop(pieces);
                Err(fault)
            }
        }
    }
}
