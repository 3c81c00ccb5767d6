// What a restore brings back, and what backups keep. The functions do nothing: they carry laws.
ghost use Rattle.std.specs.Prelude.{◌≡◌, ℕ, ◌+◌, ◌^◌, ◌<◌, List, true};
ghost use Rattle.dl_base.specs.declared.answer.Answer.TheVariants as answers;
ghost use Rattle.dl_base.specs.declared.answer.Lost as cells;
ghost use Rattle.dl_base.specs.declared.step.Step as asked;
ghost use Rattle.dl_base.specs.declared.step.Step.TheVariants as steps;
ghost use Rattle.dl_base.specs.declared.step.Target as aims;
ghost use Rattle.dl_base.specs.declared.step.Target.TheVariants as targets;
ghost use Rattle.dl_base.specs.declared.value.LinkRow as linked;
ghost use Rattle.meaning_areas.specs.Lists.{Folds};
ghost use Rattle.meaning_history.specs.Sound.{AreSound};
ghost use Rattle.meaning_merge.specs.Touching.{In};
ghost use Rattle.meaning_system.specs.Machine.{step};
ghost use Rattle.meaning_system.specs.State.{State, tables_of};
ghost use Rattle.meaning_tables.specs.Links.{links};
ghost use Rattle.meaning_tables.specs.Tables.{Tables};
ghost use Rattle.meaning_restored.specs.Back.{HasBack, HasItsBytes, IsComplete};

use meaning_history::each_step_leads_on;

/// A RESTORE that is let through leaves the tables of its target, with the cells that it lists empty; each link that it took with
/// RECOVERY YES has a copy, and a file with the bytes of it. Of a complete backup no link with RECOVERY YES is lost, whether it was
/// committed or not, and each has its copy's bytes. A number must be left to draw.
pub fn a_restore_brings_its_target_back()
    ensures brings { (first : ℕ) (f : Folds) (s : State) → AreSound first f s → (t : aims.Target) (c : ℕ) (lost : List cells.Lost) → (step s (steps.Restore t)).0 ≡ answers.Restored c lost → s.drawn + 1 < 2 ^ 32
        → HasBack s t c lost (step s (steps.Restore t)).1 }
    ensures backed_up { (first : ℕ) (f : Folds) (s : State) → AreSound first f s → (n c : ℕ) (lost : List cells.Lost) → (step s (steps.Restore (targets.Backup n))).0 ≡ answers.Restored c lost → s.drawn + 1 < 2 ^ 32
        → (tables : Tables) → IsComplete s n tables → (l : linked.LinkRow) → In l (links tables) → l.options.recovery ≡ true
        → In l (links (tables_of (step s (steps.Restore (targets.Backup n))).1)) × HasItsBytes (step s (steps.Restore (targets.Backup n))).1 l }
{
    each_step_leads_on();
}

/// A BACKUP that is made is one of the committed tables, and complete: each of its links with RECOVERY YES has a copy. It stays so behind each step, since backups keep
/// their numbers and copies are only added. No more is asked of the state.
pub fn backups_stay_complete()
    ensures complete { (s : State) (n : ℕ) → (step s steps.Backup).0 ≡ answers.BackedUp n → IsComplete (step s steps.Backup).1 n (tables_of s) }
    ensures kept { (s : State) (x : asked.Step) (n : ℕ) (tables : Tables) → IsComplete s n tables → IsComplete (step s x).1 n tables }
{}
