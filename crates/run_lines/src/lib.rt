//! What the lines of a script say, with their statements of SQL.
#![tactic(auto)]

mod laws;
mod read;

pub use laws::one_reading;
pub use read::read_line;
