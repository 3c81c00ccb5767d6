// A transaction is voted for.
ghost use Rattle.std.specs.Prelude.{◌≡◌, ◌≢◌, ℕ, Err};
ghost use Rattle.dl_areas.specs.Lists.{AreReady};
ghost use Rattle.dl_base.specs.declared.step.Step.TheVariants as steps;
ghost use Rattle.fm_manager.specs.Managed.{AreSpelled};
ghost use Rattle.meaning_system.specs.State.{State};
ghost use Rattle.meaning_system.specs.Writes.{writes};
ghost use Rattle.sys_core.specs.Seated.{HasTxn, IsAtWork};
ghost use Rattle.sys_core.specs.Standing.{IsOf};
ghost use Rattle.sys_core.specs.Steps.{Shows, Steps};
ghost use Rattle.sys_owners.specs.Owned.{journals_of};

use crate::engine::Engine;
use db_txn::Txn;
use dl_areas::calls_follow_one_another;
use dl_base::{Answer, Bench, Phase, Refusal, StepFault};

impl Engine {
    /// The vote on the transaction of a session: what it has made is fixed, and all memory is taken that its decision, its Finish and a
    /// ROLLBACK need. Where it gives or takes a link, its branch is written to Links. It is refused NoTransaction, WrongPhase, and,
    /// where it gives or takes a link, Doomed or NoFile(path) with the first new link whose file is not there. The errors are
    /// `Full(Area)` and `Device`, behind which the areas are to be opened again, and want of memory, which leaves all as it was but for
    /// room.
    pub fn prepare<B: Bench>(&mut self, bench: &mut B, txn: &mut Txn) -> Result<Answer, StepFault>
        requires ready { AreReady (journals_of self.old.owners) (B.outside bench.old) }
        requires stands { (first : ℕ) × (s : State) × IsOf first self.old s × HasTxn s txn.old }
        ensures steps { (first : ℕ) (s : State) → IsOf first self.old s → HasTxn s txn.old → Steps first (steps.Prepare txn.old.session) s self.old self.new result (B.outside bench.old) (B.outside bench.new) }
        ensures shows { (first : ℕ) (s : State) → IsOf first self.old s → HasTxn s txn.old → Shows (steps.Prepare txn.old.session) s txn.old txn.new result }
        ensures spelled { result ≢ Err StepFault.Memory → (first : ℕ) (s : State) → IsOf first self.old s → HasTxn s txn.old → AreSpelled (writes s (steps.Prepare txn.old.session)) }
        ensures memory { result ≡ Err StepFault.Memory → IsAtWork self.old.seats txn.old }
    {
        calls_follow_one_another::<B>();
        let Some(tx) = txn.tx() else {
            return Ok(Answer::Refused(Refusal::NoTransaction));
        };
        match self.phase(tx) {
            Phase::Active => {}
            phase => return Ok(Answer::Refused(Refusal::WrongPhase(phase))),
        }
        if let Some(refusal) = self.vote_refusal(tx)? {
            return Ok(Answer::Refused(refusal));
        }
        let made = txn.made()?;
        match self.vote(bench, tx, txn.touched(), made) {
            Ok(()) => Ok(Answer::Done),
            Err(fault) => {
                txn.reopen();
                Err(fault)
            }
        }
    }
}
