//! Which rows of a table a condition may be true of, as far as its key tells: what a condition asks of a cell, the place of a
//! table's only key, and the row that has a key.
#![tactic(auto)]

mod asking;
mod finding;
mod keys;

pub use asking::{Wanted, asked, asked_by_all, is_never_refused};
pub use finding::{KeyRows, rows_asked, rows_with_key};
pub use keys::{has_key, is_key, only_key};
