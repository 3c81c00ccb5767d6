//! What a run keeps of a vote, of a decision, of a commit and of the numbers that were drawn, what a refusal changes, what moves the clock,
//! and what stops of one side and Resolve leave: laws of the machine's steps and of the turns of scripts.
#![tactic(auto)]

mod laws;
mod stops;

pub use laws::{
    a_decision_is_one_commit, a_vote_holds_until_its_end, a_vote_is_written, commits_stay,
    numbers_are_new, records_stay, what_is_refused_changes_nothing,
};
pub use stops::{
    a_resolve_ends_what_no_session_has, a_stop_leaves_the_other_side, only_a_tick_moves_the_clock,
};
