//! What a restore loses of its target, and what is in its way: the cells whose link is taken with RECOVERY NO and has no file, the
//! target with NULL in their place, and the first path at which it would fill a file over other bytes.
#![tactic(auto)]

mod losing;
mod way;

pub use losing::Losing;
pub use way::in_the_way;
