//! What calls do that write records into the five areas of one bench: the words for it, and the laws of calls that follow one
//! another. `Does` says what such a call does at each moment and at each of its ends; `DoesAlone` is what an owner of one area says.
#![tactic(auto)]

mod batch;
mod laws;

pub use batch::{append, append_all, append_batch};
pub use laws::{
    a_crash_finds_a_prefix, a_loop_writes_its_records, an_append_writes_one_record,
    an_opening_finds_the_lists_of_its_begin, an_opening_writes_its_records,
    areas_are_opened_in_order, calls_follow_one_another, journals_in_their_places,
    open_areas_have_their_lists, records_in_parts, steps_end_so, telling_leaves_the_areas,
};
