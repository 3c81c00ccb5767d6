//! The lines of a script over the engine: who acts, which steps a line takes, and what is told of it.
#![tactic(auto)]

mod built;
mod grids;
mod line;
mod sessions;
mod step;
mod turn;

pub use grids::Grids;
pub use line::do_line;
pub use sessions::Sessions;
