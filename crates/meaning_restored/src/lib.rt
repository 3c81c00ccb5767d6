//! What a restore brings back, and what backups keep: laws of the machine's steps.
#![tactic(auto)]

mod laws;

pub use laws::{a_restore_brings_its_target_back, backups_stay_complete};
