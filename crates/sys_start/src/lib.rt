//! A run begins: the five areas opened, and an engine over their owners in the state with which the machine begins.
#![tactic(auto)]

mod opening;

pub use opening::open;
