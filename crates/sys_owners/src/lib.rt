//! The owners of the five areas, and the Finish of a branch with its end.
#![tactic(auto)]

mod finishing;
mod owners;

pub use finishing::finish;
pub use owners::Owners;
