//! The changes of one commit of the area Rows, done to tables, or refused exactly as its fold refuses them.
#![tactic(auto)]

mod cells;
mod changes;
mod columns;
mod replaying;
mod rows;
mod standing;

pub use changes::Change;
pub use replaying::{redo, replay};
