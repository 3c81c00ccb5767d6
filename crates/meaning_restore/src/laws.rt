// What a restore owes to the history behind it. The function does nothing: it carries a law.
ghost use Rattle.std.specs.Prelude.{ℕ};
ghost use Rattle.dl_base.specs.declared.step.Target as aims;
ghost use Rattle.meaning_areas.specs.Lists.{Folds};
ghost use Rattle.meaning_history.specs.Sound.{AreSound};
ghost use Rattle.meaning_system.specs.Following.{AreRestored};
ghost use Rattle.meaning_system.specs.State.{State};

/// WHAT A RESTORE OWES TO THE HISTORY behind it holds of each state that is sound with its lists, and of each target that a restore is
/// let through with: its changes lead from the committed tables to the restored ones, and these fit; what it gives is committed, and
/// what it takes is on paths that are free or given; all link numbers were drawn; what it gives with RECOVERY YES has a copy or a file,
/// and what it takes has a file behind it, with the bytes of its copy where it has one. No more is asked of the state than what each
/// step keeps.
pub fn restores_go_on_with_the_history()
    ensures { (first : ℕ) (f : Folds) (s : State) → AreSound first f s → (t : aims.Target) → AreRestored s t }
{}
