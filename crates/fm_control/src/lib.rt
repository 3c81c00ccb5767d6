//! Links and their files are under control between the steps of every run: laws of the machine's states.
#![tactic(auto)]

mod laws;

pub use laws::{
    every_step_leaves_files_under_control, files_are_under_control, settled_files_are_under_control,
};
