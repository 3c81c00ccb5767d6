// Files, and the commands on them.
use crate::{Copied, List, Memory, Name, Path, Same, Text};

/// Who owns a file, and whether it may be written.
#[derive(Drop)]
pub struct Owner {
    pub name: Name,
    pub writable: bool,
}

/// A file: its owner, its bytes, and the owner that it had before it was linked, where that is saved.
#[derive(Drop)]
pub struct File {
    pub owner: Owner,
    pub bytes: Text,
    pub before: Option<Owner>,
}

/// A file under its path.
#[derive(Drop)]
pub struct FileRow {
    pub path: Path,
    pub file: File,
}

/// What a record does to one path.
#[derive(Drop)]
pub enum FileChange {
    /// The file is removed.
    Removed(Path),
    /// The file is put there, in place of any other.
    Put(FileRow),
    /// The file has a new owner and a new saved owner, and keeps its bytes.
    Kept(Path, Owner, Option<Owner>),
}

/// Leave to read a file: up to which moment, in seconds, and the first 16 bytes of the HMAC that shows it.
#[derive(Clone, Copy)]
pub struct Token {
    pub expiry: u64,
    pub mac: [u8; 16],
}

/// What a user asks of the files.
#[derive(Drop)]
pub enum FileWhat {
    Create(Path, Text),
    Write(Path, Text),
    Delete(Path),
    Rename(Path, Path),
    /// The flag that says whether the file may be written.
    Chmod(Path, bool),
    Read(Path, Option<Token>),
    List,
}

/// A user's command on the files.
#[derive(Drop)]
pub struct FileCmd {
    pub user: Name,
    pub what: FileWhat,
}

impl Copied for Owner {
    fn copy(&self) -> Result<Owner, Memory> {
        Ok(Owner {
            name: self.name.copy()?,
            writable: self.writable,
        })
    }
}

impl Same for Owner {
    fn same(&self, other: &Owner) -> bool {
        self.name.same(&other.name) && self.writable == other.writable
    }
}

impl Copied for File {
    fn copy(&self) -> Result<File, Memory> {
        Ok(File {
            owner: self.owner.copy()?,
            bytes: self.bytes.copy()?,
            before: self.before.copy()?,
        })
    }
}

impl Same for File {
    fn same(&self, other: &File) -> bool {
        self.owner.same(&other.owner)
            && self.bytes.same(&other.bytes)
            && self.before.same(&other.before)
    }
}
