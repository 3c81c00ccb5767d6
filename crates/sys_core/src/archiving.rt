// What an Archive leaves pending. The function does nothing: it carries a law.
ghost use Rattle.std.specs.Prelude.{◌≡◌, ◌∷◌, ℕ, List};
ghost use Rattle.dl_base.specs.declared.answer.Answer.TheVariants as answers;
ghost use Rattle.dl_base.specs.declared.step.Step.TheVariants as steps;
ghost use Rattle.dl_base.specs.declared.value.LinkRow as rows;
ghost use Rattle.meaning_areas.specs.Lists.{Folds};
ghost use Rattle.meaning_history.specs.Sound.{AreSound};
ghost use Rattle.meaning_system.specs.Machine.{pending, step};
ghost use Rattle.meaning_system.specs.State.{State};

/// The first of the links whose copies are pending is archived, and the others are left, in their order: so all are archived one after
/// another.
pub fn an_archive_leaves_the_others_pending()
    ensures archived { (first : ℕ) (f : Folds) (s : State) (l : rows.LinkRow) (ls : List rows.LinkRow) → AreSound first f s → pending s ≡ l ∷ ls → (step s (steps.Archive l.link)).0 ≡ answers.Archived 1 }
    ensures left { (first : ℕ) (f : Folds) (s : State) (l : rows.LinkRow) (ls : List rows.LinkRow) → AreSound first f s → pending s ≡ l ∷ ls → pending (step s (steps.Archive l.link)).1 ≡ ls }
{}
