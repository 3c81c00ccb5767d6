//! What holds of each state that a run of the machine reaches: its commits are a history, and its transactions are of it.
#![tactic(auto)]

mod laws;

pub use laws::{each_step_leads_on, steps_keep_histories, what_lists_stand_for_has_a_past};
