//! What becomes of files, archived copies and held links when transactions that give and take links are settled: definitions
//! and their laws.
#![tactic(auto)]

mod laws;

pub use laws::{
    a_part_and_then_all_is_all, one_may_be_settled_first, open_ones_after_a_part_of_one,
    order_is_no_matter_where_they_are_apart, settling_again_changes_nothing, settling_path_by_path,
};
