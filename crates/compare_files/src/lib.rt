//! Whether files, archived copies and backups fit what is committed, as an opening asks it.
#![tactic(auto)]

mod archive;
mod backups;
mod doubt;
mod effects;
mod files;
mod numbers;
mod overlay;

pub use archive::archive_compares;
pub use backups::backups_compare;
pub use files::files_compare;
