// What a crash leaves of a step, and of the turns of a run. The functions do nothing: they carry laws. A law on what stands outside speaks of
// benches, each as it is seen.
ghost use Rattle.std.specs.Prelude.{◌≡◌, ◌<◌, ◌++◌, ◌∷◌, ℕ, true, length, List, Option, Some, Result, Err, OnOk};
ghost use Rattle.dl_areas.specs.Lists.{Journals, Lists, puts};
ghost use Rattle.dl_base.specs.Outside.{CrashState};
ghost use Rattle.dl_base.specs.declared.answer.Answer.{Answer};
ghost use Rattle.dl_base.specs.declared.answer.Answer.TheVariants as answers;
ghost use Rattle.dl_base.specs.declared.fault.Full.{Full};
ghost use Rattle.dl_base.specs.declared.fault.StepFault.{StepFault};
ghost use Rattle.dl_base.specs.declared.fault.StepFault.TheVariants as faults;
ghost use Rattle.dl_base.specs.declared.step.Step.{Step};
ghost use Rattle.dl_base.specs.declared.step.Step.TheVariants as steps;
ghost use Rattle.fm_manager.specs.Managed.{as_writes};
ghost use Rattle.meaning_areas.specs.Lists.{Folds, Written};
ghost use Rattle.meaning_areas.specs.Stands.{stored_of};
ghost use Rattle.meaning_history.specs.Reached.{first_of};
ghost use Rattle.meaning_promises.specs.Promises.{decision_record, vote_record};
ghost use Rattle.meaning_run.specs.Running.{Run, after, next_step};
ghost use Rattle.meaning_system.specs.Machine.{step};
ghost use Rattle.meaning_system.specs.Recovering.{Recovers};
ghost use Rattle.meaning_system.specs.State.{State, Txn, has_links, moved_of, stored, txn_of};
ghost use Rattle.meaning_system.specs.Writes.{opening, writes};
ghost use Rattle.sys_core.specs.Standing.{IsOf};
ghost use Rattle.sys_core.specs.Steps.{Steps, StepsInMemory};
ghost use Rattle.sys_core.specs.declared.engine.Engine.{Engine};
ghost use Rattle.sys_opening.specs.Begun.{HasBegun};
ghost use Rattle.sys_promises.specs.Recorded.{HasRecords, IsThere};
ghost use Rattle.sys_promises.specs.Taken.{AllRecover, EngineStands, IsBeforeOrBehind, RecoverAlike, Throughout, TookStep};
ghost use Rattle.sys_recovery.specs.Left.{IsAtomic, areas_of};
ghost use Rattle.sys_run.specs.Running.{IsInRun};

use dl_base::Bench;
use meaning_history::each_step_leads_on;
use meaning_restore::restores_go_on_with_the_history;
use sys_recovery::{stopped_steps_stand, what_is_written_is_read};

/// AN ENGINE STANDS OVER ITS AREAS once it is opened, behind the records of its opening. As long as it does, whatever a crash leaves recovers
/// to its state.
pub fn an_engine_stands_over_its_areas<B: Bench>()
    ensures opened { (limit : ℕ) (lists : Lists) (f : Folds) (s : State) (w : Engine) (o n : B) → HasBegun limit lists f w.owners (B.outside o) (B.outside n) → IsOf (first_of (stored_of f)) w s
        → EngineStands (first_of (stored_of f)) (puts (as_writes (opening f)) lists) s w (B.outside n) }
    ensures recovers { (first : ℕ) (lists : Lists) (s : State) (w : Engine) (o : B) → EngineStands first lists s w (B.outside o) → AllRecover s (B.outside o) }
{
    what_is_written_is_read();
    stopped_steps_stand();
}

/// EACH IMAGE OF A STEP RECOVERS. Whatever step a caller of the engine takes, and however it ends, what a crash leaves at any moment of it
/// recovers to the state before the step or to that behind it. Once the step is answered, all that a crash leaves recovers to the state
/// behind it, over which the engine stands then, so that the next step may be taken. A step that ends for want of memory leaves all as it
/// was. Of one that is full, all that a crash leaves recovers to one state.
pub fn each_image_of_a_step_recovers<B: Bench>()
    ensures during { (first : ℕ) (lists : Lists) (x : Step) (s : State) (w v : Engine) (result : Result Answer StepFault) (o n : B) → EngineStands first lists s w (B.outside o) → TookStep first x s w v result (B.outside o) (B.outside n)
        → Throughout (IsBeforeOrBehind s x) (B.outside o) (B.outside n) }
    ensures answered { (first : ℕ) (lists : Lists) (x : Step) (s : State) (w v : Engine) (result : Result Answer StepFault) (o n : B) → EngineStands first lists s w (B.outside o) → TookStep first x s w v result (B.outside o) (B.outside n)
        → OnOk result (AllRecover (step s x).1 (B.outside n) × EngineStands first (puts (as_writes (writes s x)) lists) (step s x).1 v (B.outside n)) }
    ensures memory { (first : ℕ) (lists : Lists) (x : Step) (s : State) (w v : Engine) (result : Result Answer StepFault) (o n : B) → EngineStands first lists s w (B.outside o) → TookStep first x s w v result (B.outside o) (B.outside n)
        → result ≡ Err faults.Memory → Throughout (λ p. Recovers (areas_of p) s) (B.outside o) (B.outside n) × EngineStands first lists s v (B.outside n) }
    ensures full { (first : ℕ) (lists : Lists) (x : Step) (s : State) (w v : Engine) (result : Result Answer StepFault) (o n : B) → EngineStands first lists s w (B.outside o) → TookStep first x s w v result (B.outside o) (B.outside n)
        → (full : Full) → result ≡ Err (faults.Full full) → RecoverAlike s x (B.outside n) }
{
    what_is_written_is_read();
    stopped_steps_stand();
    each_step_leads_on();
    restores_go_on_with_the_history();
}

/// A STEP IN MEMORY leaves the areas as they are: it is one over areas at which nothing is done, so that all that is said of steps is said
/// of it. Once it is answered, the states before it and behind it have one stored part: what recovers to the one recovers to the other.
pub fn a_step_in_memory_leaves_the_areas<B: Bench>()
    ensures steps { (first : ℕ) (x : Step) (s : State) (w v : Engine) (result : Result Answer StepFault) (o : B) → StepsInMemory first x s w v result → Steps first x s w v result (B.outside o) (B.outside o) }
    ensures same { (first : ℕ) (lists : Lists) (x : Step) (s : State) (w v : Engine) (result : Result Answer StepFault) (o : B) → EngineStands first lists s w (B.outside o) → IsAtomic x → StepsInMemory first x s w v result
        → OnOk result (stored (step s x).1 ≡ stored s) }
{
    stopped_steps_stand();
}

/// WHAT A TURN WROTE IS IN EVERY IMAGE BEHIND IT: at each moment of a run, what a crash leaves has the records of each step of the turns
/// that it is behind, in their order. It is behind a turn at the latest when more is told than was told before that turn.
pub fn what_a_turn_wrote_is_in_every_image_behind_it()
    ensures records { (js : Journals) (lists : Lists) (r : Run) (before : Option (List ℕ)) (p : CrashState) (m : IsInRun js lists r before p) (k : ℕ) (x : Step) → k < m.count → next_step (after k r) ≡ Some x
        → HasRecords lists (writes (after k r).state x) p }
    ensures each { (lists : Lists) (front back : List Written) (x : Written) (p : CrashState) → HasRecords lists (front ++ x ∷ back) p → IsThere x p }
    ensures told { (js : Journals) (lists : Lists) (r : Run) (before : Option (List ℕ)) (p : CrashState) (m : IsInRun js lists r before p) (k : ℕ) (x : Step) → next_step (after k r) ≡ Some x
        → length (after k r).told < length m.said → k < m.count }
{}

/// A VOTE IS IN EVERY IMAGE BEHIND IT: where a Prepare of a transaction with links was answered Done, and a crash comes at any moment behind
/// that turn, the Prepared of exactly its gives and takes is there.
pub fn a_vote_is_in_every_image_behind_it()
    ensures { (js : Journals) (lists : Lists) (r : Run) (before : Option (List ℕ)) (p : CrashState) (m : IsInRun js lists r before p) (k session : ℕ) → k < m.count → next_step (after k r) ≡ Some (steps.Prepare session)
        → (step (after k r).state (steps.Prepare session)).0 ≡ answers.Done
        → (tx : ℕ) × (t : Txn) × (txn_of (after k r).state session ≡ Some (tx, t)) × (has_links (moved_of t) ≡ true → IsThere (vote_record tx t) p) }
{}

/// A DECISION IS IN EVERY IMAGE BEHIND IT: where a Decide was answered with a commit, and a crash comes at any moment behind that turn, the
/// Commit with its number is there.
pub fn a_decision_is_in_every_image_behind_it()
    ensures { (js : Journals) (lists : Lists) (r : Run) (before : Option (List ℕ)) (p : CrashState) (m : IsInRun js lists r before p) (k session number : ℕ) → k < m.count → next_step (after k r) ≡ Some (steps.Decide session)
        → (step (after k r).state (steps.Decide session)).0 ≡ answers.Committed number
        → (tx : ℕ) × (t : Txn) × (txn_of (after k r).state session ≡ Some (tx, t)) × IsThere (decision_record tx t number) p }
{}
