//! Statements of SQL as text.
#![tactic(auto)]

mod printer;
mod printing;
mod writing;

pub use printer::{print, print_again};
