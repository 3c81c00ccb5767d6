// The committed tables are backed up.
ghost use Rattle.std.specs.Prelude.{◌≡◌, ◌≢◌, ℕ, [], Err, IfOk, None};
ghost use Rattle.dl_areas.specs.Lists.{AreReady};
ghost use Rattle.dl_base.specs.declared.step.Step.TheVariants as steps;
ghost use Rattle.fm_manager.specs.Managed.{AreSpelled};
ghost use Rattle.meaning_system.specs.Machine.{pending, unfinished};
ghost use Rattle.meaning_system.specs.State.{State};
ghost use Rattle.meaning_system.specs.Writes.{writes};
ghost use Rattle.sys_core.specs.Archiving.{first_link};
ghost use Rattle.sys_core.specs.Standing.{IsOf};
ghost use Rattle.sys_core.specs.Steps.{Steps};
ghost use Rattle.sys_owners.specs.Owned.{journals_of};

use crate::engine::Engine;
use dl_areas::calls_follow_one_another;
use dl_base::{Answer, Bench, LinkNo, Memory, Refusal, StepFault};
use fm_links::claims_behind_other_steps;
use fm_pieces::pieces_stay_what_they_are;
use meaning_history::each_step_leads_on;

impl Engine {
    /// Stores the committed tables as the next backup, whose number is answered. It is refused Unfinished with the least number of a
    /// transaction that is prepared or decided, then ArchivePending with the first link of `pending`. The errors are `Full(Area)` where Backups
    /// has no room for the record, and `Device`, behind which the areas are to be opened again, and want of memory, also for tables that no
    /// record can have, which leaves all as it was. It costs the committed rows, as bytes.
    pub fn backup<B: Bench>(&mut self, bench: &mut B) -> Result<Answer, StepFault>
        requires ready { AreReady (journals_of self.old.owners) (B.outside bench.old) }
        requires stands { (first : ℕ) × (s : State) × IsOf first self.old s }
        ensures steps { (first : ℕ) (s : State) → IsOf first self.old s → Steps first steps.Backup s self.old self.new result (B.outside bench.old) (B.outside bench.new) }
        ensures spelled { result ≢ Err StepFault.Memory → (first : ℕ) (s : State) → IsOf first self.old s → AreSpelled (writes s steps.Backup) }
        ensures memory { result ≡ Err StepFault.Memory → (first : ℕ) (s : State) → IsOf first self.old s → unfinished s ≡ None }
    {
        calls_follow_one_another::<B>();
        if let Some(tx) = self.seats.unfinished() {
            return Ok(Answer::Refused(Refusal::Unfinished(tx)));
        }
        if let Some(link) = self.first_pending()? {
            return Ok(Answer::Refused(Refusal::ArchivePending(link)));
        }
        self.back_up(bench)
    }

    // The first link whose copy is pending.
    fn first_pending(&self) -> Result<Option<LinkNo>, Memory>
        ensures { (first : ℕ) (s : State) → IsOf first self.now s → IfOk result (λ link. link ≡ first_link (pending s)) }
    {
        let waiting = self.pending()?;
        match waiting.at(0) {
            Some(link) => Ok(Some(*link)),
            None => Ok(None),
        }
    }

    // Stores the committed tables, where nothing refuses it.
    fn back_up<B: Bench>(&mut self, bench: &mut B) -> Result<Answer, StepFault>
        requires ready { AreReady (journals_of self.old.owners) (B.outside bench.old) }
        requires stands { (first : ℕ) × (s : State) × IsOf first self.old s × (unfinished s ≡ None) × (pending s ≡ []) }
        ensures steps { (first : ℕ) (s : State) → IsOf first self.old s → unfinished s ≡ None → pending s ≡ [] → Steps first steps.Backup s self.old self.new result (B.outside bench.old) (B.outside bench.new) }
        ensures spelled { result ≢ Err StepFault.Memory → (first : ℕ) (s : State) → IsOf first self.old s → unfinished s ≡ None → pending s ≡ [] → AreSpelled (writes s steps.Backup) }
    {
        calls_follow_one_another::<B>();
        claims_behind_other_steps();
        each_step_leads_on();
        pieces_stay_what_they_are();
        let tables = self.owners.store.committed().copy()?;
        let commit = self.owners.store.commits();
        match self.owners.backups.store(bench, commit, &tables) {
            Ok(number) => {
                drop(tables);
                Ok(Answer::BackedUp(number))
            }
            Err(fault) => {
                drop(tables);
                Err(fault)
            }
        }
    }
}
