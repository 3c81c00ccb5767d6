//! The steps that a line takes, one after another, and its answer.
#![tactic(auto)]

mod expansion;

pub use expansion::expand;
pub use meaning_script::{ActorState, Line, Next};
