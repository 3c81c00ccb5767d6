//! What a crash leaves of each step that the engine takes, and what of the turns that a run has behind it: laws.
#![tactic(auto)]

mod laws;

pub use laws::{
    a_decision_is_in_every_image_behind_it, a_step_in_memory_leaves_the_areas,
    a_vote_is_in_every_image_behind_it, an_engine_stands_over_its_areas,
    each_image_of_a_step_recovers, what_a_turn_wrote_is_in_every_image_behind_it,
};
