//! The printed text of answers, and of the steps of a history.
#![tactic(auto)]

mod answers;
mod cells;
mod history;
mod refusals;
mod words;

pub use answers::text;
pub use history::history_text;
