//! The datalink manager: a script from a source, done on the areas of a bench, and told to it.
#![tactic(auto)]

mod command;
mod run;
mod script;
mod status;

pub use command::single;
pub use status::Status;
