// A decided transaction is finished.
ghost use Rattle.std.specs.Prelude.{◌≡◌, ℕ, OnOk, Some};
ghost use Rattle.std.specs.FinMap as maps;
ghost use Rattle.std.specs.Result.{result_err};
ghost use Rattle.db_txn.specs.Transaction.{vacant};
ghost use Rattle.dl_areas.specs.Lists.{AreReady};
ghost use Rattle.dl_areas.specs.Writing.{Does};
ghost use Rattle.dl_base.specs.declared.step.Phase.TheVariants as phases;
ghost use Rattle.dl_base.specs.declared.step.Step.TheVariants as steps;
ghost use Rattle.fm_manager.specs.Managed.{AreSpelled, as_writes};
ghost use Rattle.meaning_system.specs.State.{State, Txn as Txns, kept_in, moved_of};
ghost use Rattle.meaning_system.specs.Writes.{whole_finish, writes};
ghost use Rattle.sys_core.specs.Between.{IsBetween, IsSettled};
ghost use Rattle.sys_core.specs.Seated.{HasTxn, phase_at};
ghost use Rattle.sys_core.specs.Standing.{IsOf};
ghost use Rattle.sys_core.specs.Steps.{Shows, Steps, as_step};
ghost use Rattle.sys_owners.specs.Owned.{journals_of};

use crate::engine::Engine;
use db_txn::Txn;
use dl_areas::calls_follow_one_another;
use dl_base::{Answer, AppendFault, Bench, Phase, Refusal};
use fm_links::claims_behind_steps_of_a_session;
use fm_manager::Pieces;
use fm_pieces::{pieces_as_they_are_made, pieces_stay_what_they_are};
use meaning_history::each_step_leads_on;
use sys_seats::{Stage, seats_count_together};

impl Engine {
    /// Settles the decided transaction of a session: its files are archived, given back, deleted and taken over as its links say, and it
    /// ends. It is refused NoTransaction and WrongPhase. The errors are `Full(Area)` where an area has no room for the next record, and
    /// `Device`, after which the areas are to be opened again, which goes on with it. It takes no memory.
    pub fn finish<B: Bench>(&mut self, bench: &mut B, txn: &mut Txn) -> Result<Answer, AppendFault>
        requires ready { AreReady (journals_of self.old.owners) (B.outside bench.old) }
        requires stands { (first : ℕ) × (s : State) × IsOf first self.old s × HasTxn s txn.old }
        ensures steps { (first : ℕ) (s : State) → IsOf first self.old s → HasTxn s txn.old → Steps first (steps.Finish txn.old.session) s self.old self.new (as_step result) (B.outside bench.old) (B.outside bench.new) }
        ensures shows { (first : ℕ) (s : State) → IsOf first self.old s → HasTxn s txn.old → Shows (steps.Finish txn.old.session) s txn.old txn.new (as_step result) }
        ensures spelled { (first : ℕ) (s : State) → IsOf first self.old s → HasTxn s txn.old → AreSpelled (writes s (steps.Finish txn.old.session)) }
    {
        calls_follow_one_another::<B>();
        let Some(tx) = txn.tx() else {
            return Ok(Answer::Refused(Refusal::NoTransaction));
        };
        match self.phase(tx) {
            Phase::Decided => self.finish_decided(bench, txn, tx),
            phase => Ok(Answer::Refused(Refusal::WrongPhase(phase))),
        }
    }

    // Settles a transaction that is decided.
    fn finish_decided<B: Bench>(
        &mut self,
        bench: &mut B,
        txn: &mut Txn,
        tx: u64,
    ) -> Result<Answer, AppendFault>
        requires ready { AreReady (journals_of self.old.owners) (B.outside bench.old) }
        requires own { txn.old.tx ≡ Some tx }
        requires decided { phase_at (maps.get self.old.seats tx) ≡ phases.Decided }
        requires stands { (first : ℕ) × (s : State) × IsOf first self.old s × HasTxn s txn.old }
        ensures steps { (first : ℕ) (s : State) → IsOf first self.old s → HasTxn s txn.old → Steps first (steps.Finish txn.old.session) s self.old self.new (as_step result) (B.outside bench.old) (B.outside bench.new) }
        ensures shows { (first : ℕ) (s : State) → IsOf first self.old s → HasTxn s txn.old → Shows (steps.Finish txn.old.session) s txn.old txn.new (as_step result) }
        ensures spelled { (first : ℕ) (s : State) → IsOf first self.old s → HasTxn s txn.old → AreSpelled (writes s (steps.Finish txn.old.session)) }
    {
        seats_count_together();
        // what is put in its place is not active, so its claims count as there
        match self.seats.change_stage(tx, Stage::Decided(None)) {
            Some(Stage::Decided(pieces)) => self.finish_on(bench, txn, tx, pieces),
            _ => unreachable!(),
        }
    }

    // Settles a transaction whose pieces were taken out, and ends it.
    fn finish_on<B: Bench>(
        &mut self,
        bench: &mut B,
        txn: &mut Txn,
        tx: u64,
        pieces: Option<Pieces>,
    ) -> Result<Answer, AppendFault>
        requires ready { AreReady (journals_of self.old.owners) (B.outside bench.old) }
        requires stands { (first : ℕ) × (s : State) × (t : Txns) × IsBetween first self.old s txn.old.session tx t phases.Decided pieces }
        ensures steps { (first : ℕ) (s : State) (t : Txns) → IsBetween first self.old s txn.old.session tx t phases.Decided pieces
            → Steps first (steps.Finish txn.old.session) s self.old self.new (as_step result) (B.outside bench.old) (B.outside bench.new) }
        ensures txn { OnOk result (txn.new ≡ vacant txn.old.session) }
        ensures spelled { (first : ℕ) (s : State) (t : Txns) → IsBetween first self.old s txn.old.session tx t phases.Decided pieces → AreSpelled (writes s (steps.Finish txn.old.session)) }
    {
        claims_behind_steps_of_a_session();
        each_step_leads_on();
        pieces_stay_what_they_are();
        seats_count_together();
        match self.settle(bench, pieces) {
            Ok(()) => {
                self.end(txn, tx);
                Ok(Answer::Done)
            }
            Err(fault) => Err(fault),
        }
    }

    // Writes what is left of a Finish, where there is one.
    fn settle<B: Bench>(&mut self, bench: &mut B, pieces: Option<Pieces>) -> Result<(), AppendFault>
        requires ready { AreReady (journals_of self.old.owners) (B.outside bench.old) }
        requires stands { (first : ℕ) × (s : State) × (session : ℕ) × (tx : ℕ) × (t : Txns) × IsBetween first self.old s session tx t phases.Decided pieces }
        ensures settled { OnOk result ((first : ℕ) (s : State) (session tx : ℕ) (t : Txns) → IsBetween first self.old s session tx t phases.Decided pieces → IsSettled self.old.owners self.new.owners s tx t) }
        ensures same { OnOk result (self.new ≡ record self.old { owners = self.new.owners }) }
        ensures does { (first : ℕ) (s : State) (session tx : ℕ) (t : Txns) → IsBetween first self.old s session tx t phases.Decided pieces
            → Does (journals_of self.old.owners) (journals_of self.new.owners) (as_writes (whole_finish tx (moved_of t) (kept_in s))) (result_err result) (B.outside bench.old) (B.outside bench.new) }
        ensures spelled { (first : ℕ) (s : State) (session tx : ℕ) (t : Txns) → IsBetween first self.old s session tx t phases.Decided pieces → AreSpelled (whole_finish tx (moved_of t) (kept_in s)) }
    {
        calls_follow_one_another::<B>();
        each_step_leads_on();
        pieces_as_they_are_made();
        seats_count_together();
        match pieces {
            Some(pieces) => {
                let left = self.owners.manager.left(pieces);
                left.are_spelled();
                sys_owners::finish(&mut self.owners, bench, left)
            }
            None => Ok(()),
        }
    }
}
