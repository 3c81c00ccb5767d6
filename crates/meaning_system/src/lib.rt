//! The one machine: its state, its steps, what they write and what is left of them after a stop. Definitions and their laws.
#![tactic(auto)]

mod laws;

pub use laws::{
    a_state_and_its_core_have_one_stored_part, accepted_claims_are_apart,
    commands_and_backups_are_taken, records_of_a_step_lead_to_its_lists,
    resolve_leaves_the_stored_part, settling_leaves_the_stored_part,
    steps_keep_claims_and_sessions, steps_keep_files_of_prepared_transactions,
    steps_keep_lists_with_their_state, steps_keep_tables_fitting,
};
