// What a crash leaves recovers. The functions do nothing: they carry laws.
ghost use Rattle.std.specs.Prelude.{◌≡◌, ◌+◌, ◌<◌, ◌^◌, ◌∷◌, ◌++◌, ℕ, List, Some, true};
ghost use Rattle.dl_areas.specs.Lists.{HasLists, Lists, puts};
ghost use Rattle.dl_base.specs.Outside.{CrashState};
ghost use Rattle.dl_base.specs.declared.step.Step as asked;
ghost use Rattle.dl_base.specs.declared.step.Step.TheVariants as steps;
ghost use Rattle.dl_base.specs.declared.step.Target as aims;
ghost use Rattle.fm_manager.specs.Managed.{AreSpelled, as_writes};
ghost use Rattle.meaning_areas.specs.Areas.{AreasStand};
ghost use Rattle.meaning_areas.specs.Lists.{Folds, Written, folds_on};
ghost use Rattle.meaning_areas.specs.Stands.{IsStand, Stored};
ghost use Rattle.meaning_history.specs.Sound.{AreSound};
ghost use Rattle.meaning_system.specs.Machine.{step};
ghost use Rattle.meaning_system.specs.State.{State, stored};
ghost use Rattle.meaning_system.specs.Writes.{writes};
ghost use Rattle.sys_owners.specs.Owned.{AreFolded};
ghost use Rattle.sys_recovery.specs.Left.{IsAtomic, areas_of, has_commit, left_by};

use dl_codec::{
    archive_records_have_one_spelling, backup_records_have_one_spelling, layouts_are_sound,
    links_records_have_one_spelling, rows_records_have_one_spelling,
};
use meaning_areas::lists_stand_for_their_core;
use meaning_history::each_step_leads_on;
use meaning_opening::a_finish_goes_on;
use meaning_restore::restores_go_on_with_the_history;
use meaning_system::{a_state_and_its_core_have_one_stored_part, steps_keep_tables_fitting};

/// WHAT IS WRITTEN IS READ. Records that have a spelling are read again from the lists behind them; and areas with lists that stand for
/// something stand for it.
pub fn what_is_written_is_read()
    ensures folded { (lists : Lists) (f later : Folds) (xs : List Written) → AreFolded lists f → folds_on (Some f) xs ≡ Some later → AreSpelled xs → AreFolded (puts (as_writes xs) lists) later }
    ensures stand { (lists : Lists) (f : Folds) (x : Stored) (p : CrashState) → AreFolded lists f → IsStand f x → HasLists lists p → AreasStand (areas_of p) x }
{
    archive_records_have_one_spelling();
    backup_records_have_one_spelling();
    layouts_are_sound();
    links_records_have_one_spelling();
    rows_records_have_one_spelling();
}

/// A STEP THAT IS STOPPED. As long as a record of a step is not there, wherever it was stopped, the lists stand for the state before it,
/// or for the state behind it if its commit is there: so a restore is done with its commit. Once all are there they stand for the
/// state behind it. It is said of each step but Resolve. No step but a restore has records behind its commit.
pub fn stopped_steps_stand()
    ensures before { (first : ℕ) (f : Folds) (s : State) → AreSound first f s → IsStand f (stored s) }
    ensures stopped { (first : ℕ) (f : Folds) (s : State) (x : asked.Step) → AreSound first f s → s.drawn + 1 < 2 ^ 32 → IsAtomic x → (front rest : List Written) (w : Written) → front ++ w ∷ rest ≡ writes s x
        → (later : Folds) × (folds_on (Some f) front ≡ Some later) × IsStand later (stored (left_by s x front)) }
    ensures whole { (first : ℕ) (f : Folds) (s : State) (x : asked.Step) → AreSound first f s → s.drawn + 1 < 2 ^ 32 → IsAtomic x
        → (later : Folds) × (folds_on (Some f) (writes s x) ≡ Some later) × IsStand later (stored (step s x).1) }
    ensures commits { (s : State) (x : asked.Step) (front rest : List Written) (w : Written) → front ++ w ∷ rest ≡ writes s x → has_commit front ≡ true → (t : aims.Target) × (x ≡ steps.Restore t) }
{
    a_state_and_its_core_have_one_stored_part();
    lists_stand_for_their_core();
    each_step_leads_on();
    restores_go_on_with_the_history();
    a_finish_goes_on();
    steps_keep_tables_fitting();
}
