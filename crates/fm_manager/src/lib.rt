//! The file manager: branches, files and archived copies together, over three of the five areas.
#![tactic(auto)]

mod finish;
mod laws;
mod making;
mod manager;
mod pieces;

pub use manager::Manager;
pub use pieces::Pieces;
