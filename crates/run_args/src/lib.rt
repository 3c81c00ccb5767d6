//! The words of the command line, read into the settings of a run.
#![tactic(auto)]

mod fault;
mod split;
mod values;
mod words;

pub use fault::WordsFault;
pub use words::read_words;
