//! The files of users, in memory and in the area Files.
#![tactic(auto)]

mod fold;
mod made;
mod store;
mod table;
mod write;

pub use made::FilesMade;
pub use store::Files;
