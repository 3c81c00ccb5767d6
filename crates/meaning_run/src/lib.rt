//! What the lines of a script do to the machine, turn by turn, and what is told of them: definitions and their laws.
#![tactic(auto)]

mod laws;

pub use laws::{lines_take_few_steps, scripts_have_one_run, turns_follow_one_another};
