//! The rows that INSERT puts in, tables after UPDATE, and what DELETE leaves of tables.
#![tactic(auto)]

mod laws;
mod rows;

pub use laws::{agreement_adds_up, agreement_is_beside_more};
pub use rows::{Deleted, NewRows, Remainder, Updated, delete_rows, tuple_rows, update_rows};
