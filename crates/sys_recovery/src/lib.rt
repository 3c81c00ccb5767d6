//! What a crash leaves recovers: of what is written each part is read again, and a step that is stopped stands for the state before
//! it or behind it. Laws.
#![tactic(auto)]

mod laws;

pub use laws::{stopped_steps_stand, what_is_written_is_read};
