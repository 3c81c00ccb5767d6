// The clock, which lines of a script move on.
ghost use Rattle.std.specs.Prelude.{ℕ, Ok};
ghost use Rattle.dl_base.specs.declared.step.Step.TheVariants as steps;
ghost use Rattle.meaning_system.specs.State.{State};
ghost use Rattle.sys_core.specs.Standing.{IsOf};
ghost use Rattle.sys_core.specs.Steps.{StepsInMemory};

use crate::engine::Engine;
use dl_base::Answer;
use fm_links::claims_behind_other_steps;
use meaning_history::each_step_leads_on;

impl Engine {
    /// Moves the moment on by so many seconds, at most to the greatest u64. It takes no memory and writes nothing: the moment is the
    /// engine's own, and each opening is given one.
    pub fn tick(&mut self, seconds: u64) -> Answer
        ensures steps { (first : ℕ) (s : State) → IsOf first self.old s → StepsInMemory first (steps.Tick seconds) s self.old self.new (Ok result) }
    {
        each_step_leads_on();
        claims_behind_other_steps();
        self.moment = self.moment.saturating_add(seconds);
        Answer::Done
    }
}
