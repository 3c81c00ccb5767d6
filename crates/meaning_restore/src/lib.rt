//! What a restore owes to the history behind it holds of every state that a run reaches: a law of the machine's states.
#![tactic(auto)]

mod laws;

pub use laws::restores_go_on_with_the_history;
