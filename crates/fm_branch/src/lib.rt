//! The branches of transactions that give and take links, and the links that are held, in memory and in the area Links.
#![tactic(auto)]

mod branches;
mod entry;
mod fold;
mod held;
mod history;
mod settle;
mod table;
mod vote;
mod write;

pub use branches::Branches;
pub use entry::Branch;
pub use held::Holding;
