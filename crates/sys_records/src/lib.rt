//! What a vote and a restore write, or make for the steps behind them: the branch, the commit, the pieces of the Finish, and the room
//! for them, over the owners of the areas.
#![tactic(auto)]

mod branch;
mod restoring;
mod room;
mod vote;

pub use branch::write_prepared;
pub use restoring::{Restoration, make_restoration, write_restore};
pub use room::gives_with;
pub use vote::{has_links, vote_of};
