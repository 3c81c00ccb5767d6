//! Archived copies of files, one a link, in memory and in the area Archive.
#![tactic(auto)]

mod archive;
mod copies;
mod fold;
mod made;
mod write;

pub use archive::Archive;
pub use made::{CopyMade, make};
