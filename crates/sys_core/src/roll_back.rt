// A transaction is rolled back.
ghost use Rattle.std.specs.Prelude.{◌≡◌, ◌∷◌, [], ℕ, Some, OnOk};
ghost use Rattle.std.specs.FinMap as maps;
ghost use Rattle.std.specs.Result.{result_err};
ghost use Rattle.dl_areas.specs.Lists.{AreReady};
ghost use Rattle.dl_areas.specs.Writing.{Does};
ghost use Rattle.dl_base.specs.declared.step.Phase.TheVariants as phases;
ghost use Rattle.dl_base.specs.declared.step.Step.TheVariants as steps;
ghost use Rattle.dl_codec.specs.declared.links.LinksRecord.TheVariants as links_records;
ghost use Rattle.fm_manager.specs.Managed.{AreSpelled, IsTakenBy, as_writes};
ghost use Rattle.meaning_areas.specs.Lists.{folds_on, in_links};
ghost use Rattle.meaning_system.specs.State.{State, Txn as Txns, has_links, moved_of};
ghost use Rattle.meaning_system.specs.Writes.{when, writes};
ghost use Rattle.sys_core.specs.Seated.{AreSeated, HasTxn};
ghost use Rattle.sys_core.specs.Standing.{IsOf};
ghost use Rattle.sys_core.specs.Steps.{Shows, Steps, as_step};
ghost use Rattle.sys_owners.specs.Owned.{folds_in, journals_of};

use crate::engine::Engine;
use db_txn::Txn;
use dl_areas::calls_follow_one_another;
use dl_base::{Answer, AppendFault, Bench, Phase, Refusal};
use fm_links::claims_behind_steps_of_a_session;
use meaning_history::each_step_leads_on;
use sys_seats::{Stage, seats_count_together};

impl Engine {
    /// ROLLBACK: the transaction ends, and the paths of its links are free. Where it is prepared and gives or takes a link, its Aborted
    /// is written. It is refused NoTransaction, and WrongPhase once it is decided. The errors are `Full(Area)` where Links has no room
    /// for the record, and `Device`, behind which the areas are to be opened again. It takes no memory.
    pub fn roll_back<B: Bench>(
        &mut self,
        bench: &mut B,
        txn: &mut Txn,
    ) -> Result<Answer, AppendFault>
        requires ready { AreReady (journals_of self.old.owners) (B.outside bench.old) }
        requires stands { (first : ℕ) × (s : State) × IsOf first self.old s × HasTxn s txn.old }
        ensures steps { (first : ℕ) (s : State) → IsOf first self.old s → HasTxn s txn.old → Steps first (steps.Rollback txn.old.session) s self.old self.new (as_step result) (B.outside bench.old) (B.outside bench.new) }
        ensures shows { (first : ℕ) (s : State) → IsOf first self.old s → HasTxn s txn.old → Shows (steps.Rollback txn.old.session) s txn.old txn.new (as_step result) }
        ensures spelled { (first : ℕ) (s : State) → IsOf first self.old s → HasTxn s txn.old → AreSpelled (writes s (steps.Rollback txn.old.session)) }
    {
        each_step_leads_on();
        claims_behind_steps_of_a_session();
        seats_count_together();
        calls_follow_one_another::<B>();
        let Some(tx) = txn.tx() else {
            return Ok(Answer::Refused(Refusal::NoTransaction));
        };
        match self.phase(tx) {
            Phase::Active => {
                self.end(txn, tx);
                Ok(Answer::Done)
            }
            Phase::Prepared => {
                let branch = self.has_branch(tx);
                match self.abort(bench, tx, branch) {
                    Ok(()) => {
                        self.end(txn, tx);
                        Ok(Answer::Done)
                    }
                    Err(fault) => Err(fault),
                }
            }
            phase => Ok(Answer::Refused(Refusal::WrongPhase(phase))),
        }
    }

    // Whether a transaction that is prepared has a branch: it gives or takes a link.
    fn has_branch(&self, tx: u64) -> bool
        ensures { (s : State) (t : Txns) → AreSeated s self.now.seats → maps.get s.txs tx ≡ Some t → t.phase ≡ phases.Prepared → result ≡ has_links (moved_of t) }
    {
        match self.seats.get(tx) {
            Some(seat) => match &seat.stage {
                Stage::Prepared(vote) => vote.pieces.is_some(),
                _ => false,
            },
            None => false,
        }
    }

    // Writes the Aborted of a transaction that is prepared, where it has a branch. It takes no memory.
    pub(crate) fn abort<B: Bench>(
        &mut self,
        bench: &mut B,
        tx: u64,
        branch: bool,
    ) -> Result<(), AppendFault>
        requires ready { AreReady (journals_of self.old.owners) (B.outside bench.old) }
        requires taken { IsTakenBy self.old.owners.manager (when branch (in_links (links_records.Aborted tx) ∷ [])) }
        ensures folds { OnOk result (folds_on (Some (folds_in self.old.owners)) (when branch (in_links (links_records.Aborted tx) ∷ [])) ≡ Some (folds_in self.new.owners)) }
        ensures same { OnOk result (self.new ≡ record self.old { owners = record self.old.owners { manager = record self.old.owners.manager { links = self.new.owners.manager.links } } }) }
        ensures prepared { OnOk result (self.new.owners.manager.links.prepared ≡ self.old.owners.manager.links.prepared) }
        ensures does { Does (journals_of self.old.owners) (journals_of self.new.owners) (as_writes (when branch (in_links (links_records.Aborted tx) ∷ []))) (result_err result) (B.outside bench.old) (B.outside bench.new) }
        ensures spelled { AreSpelled (when branch (in_links (links_records.Aborted tx) ∷ [])) }
    {
        calls_follow_one_another::<B>();
        if !branch {
            return Ok(());
        }
        self.owners.manager.abort(bench, tx)
    }
}
