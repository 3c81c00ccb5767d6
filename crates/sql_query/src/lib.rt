//! SELECT (ISO/IEC 9075-2): the rows that a query gives over tables in memory.
#![tactic(auto)]

mod answering;
mod folding;
mod grouping;
mod items;
mod keys;
mod ordering;
mod selecting;
mod sorting;

pub use selecting::select;
