//! Backups of the tables, in memory and in the area Backups.
#![tactic(auto)]

mod backups;
mod fold;
mod image;
mod kept;
mod tables;
mod write;

pub use backups::Backups;
