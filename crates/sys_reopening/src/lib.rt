//! What the next opening finds of what a crash left, also of an opening that was stopped, and what a crash leaves of a call of the file manager. Laws.
#![tactic(auto)]

mod laws;

pub use laws::{
    a_stopped_opening_keeps_what_stood, a_stopped_opening_stands, every_image_stands_there,
    the_manager_at_each_moment, the_next_run_begins_there, what_stands_is_never_refused,
};
