//! The links that a copy of tables gives and takes, and whether it is its base: both by the rows that were touched.
#![tactic(auto)]

mod moved;
mod same;

pub use moved::moved_links;
pub use same::are_same;
