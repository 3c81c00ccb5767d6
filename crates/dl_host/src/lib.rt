//! The five areas as files of a folder, and the script as a stream, over single calls of the system.
#![tactic(auto)]

mod again;
mod calls;
mod folder;
mod host;
mod input;
mod names;
mod slots;

pub use folder::FolderBench;
pub use host::{Host, Reader, Stop};
pub use input::InputSource;
pub use names::file_name;
