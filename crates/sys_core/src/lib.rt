//! The steps of the machine over the owners of the five areas: BEGIN, statements, the vote, the decision and its Finish, ROLLBACK,
//! commands on files, the archive, backups, restores, and the clock.
#![tactic(auto)]

mod archive;
mod archiving;
mod backup;
mod begin;
mod claim;
mod clock;
mod command;
mod decide;
mod ending;
mod engine;
mod finish;
mod guard;
mod laws;
mod numbered;
mod pending;
mod prepare;
mod refusing;
mod restore;
mod roll_back;
mod statement;
mod versions;
mod vote;

pub use archiving::an_archive_leaves_the_others_pending;
pub use engine::Engine;
pub use laws::steps_leave_other_sessions;
