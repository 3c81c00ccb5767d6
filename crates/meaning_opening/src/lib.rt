//! What an opening writes leads to lists that go with the state with which a run begins, wherever it is stopped; and what a Finish
//! still has to write, whether it was cut short or not.
#![tactic(auto)]

mod laws;

pub use laws::{
    a_finish_goes_on, a_finish_writes_its_next_records, an_opening_goes_by_its_present_lists,
    an_opening_leads_to_the_start, an_opening_may_be_stopped,
    branches_without_a_commit_are_aborted,
};
