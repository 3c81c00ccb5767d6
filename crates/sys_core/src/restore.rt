// The tables of a backup or of a commit are restored.
ghost use Rattle.std.specs.Prelude.{◌≡◌, ◌≢◌, ◌+◌, ℕ, Err, IfOk, None};
ghost use Rattle.bk_restore.specs.Planning.{IsPlanned};
ghost use Rattle.bk_restore.specs.declared.planning.RestorePlan.{RestorePlan as RestorePlans};
ghost use Rattle.db_store.specs.Store.{drawn_next};
ghost use Rattle.dl_areas.specs.Lists.{AreReady};
ghost use Rattle.dl_base.specs.declared.step.Step.TheVariants as steps;
ghost use Rattle.dl_base.specs.declared.step.Target.{Target as Targets};
ghost use Rattle.fm_manager.specs.Managed.{AreSpelled};
ghost use Rattle.meaning_areas.specs.Full.{draw_full};
ghost use Rattle.meaning_system.specs.Machine.{first_session};
ghost use Rattle.meaning_system.specs.State.{State};
ghost use Rattle.meaning_system.specs.Writes.{writes};
ghost use Rattle.sys_core.specs.Restoring.{CanPutBack, CanRestore};
ghost use Rattle.sys_core.specs.Standing.{IsOf};
ghost use Rattle.sys_core.specs.Steps.{Steps};
ghost use Rattle.sys_owners.specs.Owned.{journals_of};

use crate::engine::Engine;
use bk_restore::{Planned, RestorePlan, plan};
use dl_areas::calls_follow_one_another;
use dl_base::{Answer, Bench, Memory, Refusal, StepFault, Target};
use fm_links::claims_behind_other_steps;
use fm_pieces::pieces_stay_what_they_are;
use meaning_history::each_step_leads_on;
use meaning_restore::restores_go_on_with_the_history;
use sys_records::{Restoration, make_restoration, write_restore};

impl Engine {
    /// Puts the tables of a backup, or those after a commit, in the place of the committed ones, as the next commit, whose number is
    /// answered; their links are settled at once, and files of links with RECOVERY YES come from the archive. `busy` is the first session
    /// that has a transaction, if one has. It is refused SessionBusy with that session; Unfinished with the least number of a
    /// transaction that is prepared or decided; NoTarget; and InTheWay with the first path at which other bytes stand than the archived
    /// ones. The answer also has the cells that are lost: they link a file that is gone, with RECOVERY NO, and become NULL. The errors are
    /// `Full(Transactions)` where the opening has no number left, `Full(Area)` where an area has no room for the next record, and `Device`,
    /// behind which the areas are to be opened again; and want of memory, also for tables that no record can have, which leaves all as it
    /// was but for room. It costs a look for each row of the tables before and after, and the bytes of the rows that differ and of the
    /// files that change.
    pub fn restore<B: Bench>(
        &mut self,
        bench: &mut B,
        busy: Option<u32>,
        target: Target,
    ) -> Result<Answer, StepFault>
        requires ready { AreReady (journals_of self.old.owners) (B.outside bench.old) }
        requires stands { (first : ℕ) × (s : State) × IsOf first self.old s × (first_session s ≡ busy) }
        ensures steps { (first : ℕ) (s : State) → IsOf first self.old s → first_session s ≡ busy → Steps first (steps.Restore target) s self.old self.new result (B.outside bench.old) (B.outside bench.new) }

        // Where no number is left to draw nothing is written.
        ensures spelled { result ≢ Err StepFault.Memory → (first : ℕ) (s : State) → IsOf first self.old s → first_session s ≡ busy → draw_full (s.drawn + 1) ≡ None → AreSpelled (writes s (steps.Restore target)) }
        ensures memory { result ≡ Err StepFault.Memory → busy ≡ None }
    {
        calls_follow_one_another::<B>();
        if let Some(session) = busy {
            return Ok(Answer::Refused(Refusal::SessionBusy(session)));
        }
        match self.planned(target)? {
            Planned::Refused(refusal) => Ok(Answer::Refused(refusal)),
            Planned::Ready(plan) => self.restore_by(bench, plan),
        }
    }

    // What a restore will do, where no session has a transaction.
    fn planned(&self, target: Target) -> Result<Planned, Memory>
        ensures { (first : ℕ) (s : State) → IsOf first self.now s → IfOk result (IsPlanned s target) }
    {
        plan(
            self.alloc,
            &self.owners.store,
            &self.owners.backups,
            self.owners.manager.files(),
            self.owners.manager.copies(),
            self.seats.unfinished(),
            target,
        )
    }

    // Does the restore of a plan that is let through.
    fn restore_by<B: Bench>(
        &mut self,
        bench: &mut B,
        plan: RestorePlan,
    ) -> Result<Answer, StepFault>
        requires ready { AreReady (journals_of self.old.owners) (B.outside bench.old) }
        requires stands { (first : ℕ) × (s : State) × (t : Targets) × CanRestore first self.old s t plan }
        ensures steps { (first : ℕ) (s : State) (t : Targets) → CanRestore first self.old s t plan → Steps first (steps.Restore t) s self.old self.new result (B.outside bench.old) (B.outside bench.new) }
        ensures spelled { result ≢ Err StepFault.Memory → (first : ℕ) (s : State) (t : Targets) → CanRestore first self.old s t plan → draw_full (s.drawn + 1) ≡ None → AreSpelled (writes s (steps.Restore t)) }
    {
        calls_follow_one_another::<B>();
        match self.owners.store.coming() {
            Ok(tx) => self.restore_as(bench, tx, plan),
            Err(fault) => {
                drop(plan);
                Err(StepFault::from(fault))
            }
        }
    }

    // Does it as the transaction of the number that comes next.
    fn restore_as<B: Bench>(
        &mut self,
        bench: &mut B,
        tx: u64,
        plan: RestorePlan,
    ) -> Result<Answer, StepFault>
        requires ready { AreReady (journals_of self.old.owners) (B.outside bench.old) }
        requires left { draw_full (self.old.owners.store.drawn + 1) ≡ None }
        requires number { tx ≡ drawn_next self.old.owners.store }
        requires stands { (first : ℕ) × (s : State) × (t : Targets) × CanRestore first self.old s t plan }
        ensures steps { (first : ℕ) (s : State) (t : Targets) → CanRestore first self.old s t plan → Steps first (steps.Restore t) s self.old self.new result (B.outside bench.old) (B.outside bench.new) }
        ensures spelled { result ≢ Err StepFault.Memory → (first : ℕ) (s : State) (t : Targets) → CanRestore first self.old s t plan → AreSpelled (writes s (steps.Restore t)) }
    {
        calls_follow_one_another::<B>();
        match make_restoration(self.alloc, &mut self.owners, &self.seats, tx, plan) {
            Ok(made) => self.put_back(bench, made),
            Err(Memory) => Err(StepFault::Memory),
        }
    }

    // Writes what was made for a restore.
    fn put_back<B: Bench>(&mut self, bench: &mut B, made: Restoration) -> Result<Answer, StepFault>
        requires ready { AreReady (journals_of self.old.owners) (B.outside bench.old) }
        requires stands { (first : ℕ) × (s : State) × (t : Targets) × (p : RestorePlans) × CanPutBack first self.old s t p made }
        ensures steps { (first : ℕ) (s : State) (t : Targets) (p : RestorePlans) → CanPutBack first self.old s t p made → Steps first (steps.Restore t) s self.old self.new result (B.outside bench.old) (B.outside bench.new) }
        ensures spelled { result ≢ Err StepFault.Memory → (first : ℕ) (s : State) (t : Targets) (p : RestorePlans) → CanPutBack first self.old s t p made → AreSpelled (writes s (steps.Restore t)) }
    {
        claims_behind_other_steps();
        each_step_leads_on();
        pieces_stay_what_they_are();
        restores_go_on_with_the_history();
        write_restore(&mut self.owners, bench, made)
    }
}
