//! What a commit and a restore make of the committed tables, and the changes that their records have of it: definitions and
//! their laws.
#![tactic(auto)]

mod laws;

pub use laws::{
    a_commit_moves_what_its_transaction_moves, a_commit_without_conflict_merges,
    a_commit_without_conflict_touches_what_it_saw, a_history_goes_on,
    changes_of_a_commit_lead_to_its_tables, changes_of_a_restore_lead_to_its_tables,
    changes_of_rows_lead_to_them, links_after_a_commit_path_by_path, merging_table_by_table,
};
