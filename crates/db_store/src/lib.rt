//! The commits of the database, in memory and in the area Rows: the committed tables, those after each earlier commit, made again from
//! the records, the numbers of transactions, and the branches that have ended.
#![tactic(auto)]

mod earlier;
mod ended;
mod enter;
mod fold;
mod history;
mod log;
mod store;
mod write;

pub use store::{NextCommit, Store};
