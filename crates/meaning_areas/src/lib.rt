//! What areas stand for: the folds of their records, what the five stand for together, and the records that steps write.
//! Definitions and their laws.
#![tactic(auto)]

mod laws;

pub use laws::{
    a_restore_without_links_is_one_commit, areas_stand_where_all_compares,
    commits_and_backups_keep_stored_parts_whole, commits_have_what_they_moved,
    lists_stand_for_their_core, one_more_record_changes_nothing,
    openings_ends_and_copies_are_taken, prepared_of_a_claim_is_taken, records_of_a_finish_settle,
    same_tables_are_equal, steps_keep_lists_with_their_core, what_is_committed_is_apart,
};
