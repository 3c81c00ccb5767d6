//! The pieces of a Finish, made at its transaction's vote, stay what they are until it is written: laws of the machine's steps.
#![tactic(auto)]

mod laws;

pub use laws::{pieces_as_they_are_made, pieces_stay_what_they_are};
