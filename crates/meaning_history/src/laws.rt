// What runs keep of the history behind their states. The functions do nothing: they carry laws.
ghost use Rattle.std.specs.Prelude.{◌≡◌, ℕ, ◌+◌, ◌^◌, ◌<◌, List, Some, Ok};
ghost use Rattle.dl_base.specs.declared.step.Settings as options;
ghost use Rattle.dl_base.specs.declared.step.Step as asked;
ghost use Rattle.dl_base.specs.declared.step.Step.TheVariants as steps;
ghost use Rattle.dl_base.specs.declared.step.Target as aims;
ghost use Rattle.meaning_areas.specs.Areas.{rows_of};
ghost use Rattle.meaning_areas.specs.Lists.{Folds, folds_on};
ghost use Rattle.meaning_areas.specs.Stands.{IsStand, Stored};
ghost use Rattle.meaning_system.specs.Following.{AreMerged, AreRestored, Follows, HasSessions};
ghost use Rattle.meaning_system.specs.Machine.{start, step};
ghost use Rattle.meaning_system.specs.State.{State};
ghost use Rattle.meaning_system.specs.Writes.{writes};
ghost use Rattle.meaning_history.specs.Reached.{HasHistory, HasPast, first_of};
ghost use Rattle.meaning_history.specs.Sound.{AreSound};

use meaning_merge::a_history_goes_on;

/// A run begins with a history, and each step keeps it: its commits are one, each transaction that is not decided is of it, and no
/// number is used before it is drawn.
pub fn steps_keep_histories()
    ensures start { (given : options.Settings) (x : Stored) → HasPast x → HasHistory (first_of x) (start given x) }
    ensures kept { (first : ℕ) (s : State) (x : asked.Step) → HasHistory first s → HasSessions s → HasHistory first (step s x).1 }
{
    a_history_goes_on();
}

/// THE RECORDS OF A STEP are taken by the folds of the areas, in order, and lead to lists that go with the state behind the step; and
/// all that holds of lists and state between two steps holds behind it. A number must be left to draw, and a
/// restore owes its own premise. It holds at the begin of a run whose lists follow its first state.
pub fn each_step_leads_on()
    ensures kept { (first : ℕ) (f : Folds) (s : State) (x : asked.Step) → AreSound first f s → s.drawn + 1 < 2 ^ 32 → ((t : aims.Target) → x ≡ steps.Restore t → AreRestored s t)
        → (later : Folds) × (folds_on (Some f) (writes s x) ≡ Some later) × AreSound first later (step s x).1 }
    ensures merged { (first : ℕ) (f : Folds) (s : State) → AreSound first f s → AreMerged s }
    ensures begin { (given : options.Settings) (f : Folds) (x : Stored) → HasPast x → Follows f (start given x) → AreSound (first_of x) f (start given x) }
{
    a_history_goes_on();
}

/// What lists stand for has a past, whoever wrote them: the records of Rows that a fold takes are a history, whose links have numbers
/// of transactions of its openings, and no number of a later one is used.
pub fn what_lists_stand_for_has_a_past()
    ensures { (bodies : List (List ℕ)) (f : Folds) (s : Stored) → rows_of bodies ≡ Ok f.rows → IsStand f s → HasPast s }
{}
