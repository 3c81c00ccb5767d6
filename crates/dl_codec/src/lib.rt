//! Records as bytes. Each record has one spelling, and no other bytes are read as that record.
//!
//! An area has a file of its types here (`files`), one of their layouts in `specs/` (`Files`), and one of the laws of
//! these in `proofs/` (`FilesSound`). What all areas share is in `spelled`, `whole`, `Layout` and `Sound`; what those of
//! tables and links share is in `values`, `Values` and `ValuesSound`.
#![tactic(auto)]

mod archive;
mod backups;
mod files;
mod laws;
mod links;
mod read_fault;
mod rows;
mod spelled;
mod values;
mod whole;

pub use archive::{ArchiveRecord, FileCopy, get_archive_record, put_archive_record};
pub use backups::{BackupRecord, TableImage, get_backup_record, put_backup_record};
pub use files::{FilesRecord, get_files_record, put_files_record};
pub use laws::{
    archive_records_have_one_spelling, backup_records_have_one_spelling, layouts_are_sound,
    links_records_have_one_spelling, rows_records_have_one_spelling,
};
pub use links::{BranchPhase, LinksRecord, Taken, get_links_record, put_links_record};
pub use rows::{RowChange, RowsRecord, TableChange, get_rows_record, put_rows_record};
