//! The text of a user's file command, read into the command that it is.
#![tactic(auto)]

mod command;
mod laws;
mod line;
mod word;

pub use command::read_command;
pub use laws::places_are_those_of_the_grammar;
pub use line::{BadPlace, CommandFault, FileLine};
pub use word::{Span, misplaced, next_word, nothing_behind};
