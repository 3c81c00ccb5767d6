//! What is put into the cells of a row: the rules of NULL and of lengths, and which link number a datalink keeps and which it draws.
#![tactic(auto)]

mod cells;

pub use cells::{PutRow, stored_row};
