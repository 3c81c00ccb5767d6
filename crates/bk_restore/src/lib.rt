//! What a restore of tables will do, as one value in memory: the refusal that applies, or the cells that are lost, what the commit
//! makes of the tables, and the links that it gives and takes. Nothing is written.
#![tactic(auto)]

mod changes;
mod planning;
mod rows;

pub use planning::{Planned, RestorePlan, plan};
