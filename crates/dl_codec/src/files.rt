// The records of the area Files.
ghost use Rattle.std.specs.Prelude.{◌≡◌, ◌++◌, OnOk, OnErr, IfOk};
ghost use Rattle.dl_codec.specs.Layout.{Decodes, whole};
ghost use Rattle.dl_codec.specs.Files.{files_record};

use crate::read_fault::ReadFault;
use crate::spelled::Spelled;
use crate::whole::{get_whole, put_whole};
use dl_base::{File, FileChange, FileRow, List, Memory, Name, Owner, Path, Text};
use std::alloc::Global;

/// A record of the area Files.
#[derive(Drop)]
pub enum FilesRecord {
    /// The number of the transaction, 0 for a user's command, and what it does to the files.
    Batch(u64, List<FileChange>),
}

/// Appends the record's bytes. A record with a text or a list of 2^32 items or more has none: it is answered
/// `Memory`, as is want of memory, and nothing is appended.
pub fn put_files_record(into: &mut List<u8>, x: &FilesRecord) -> Result<(), Memory>
    ensures ok { OnOk result (files_record.fits x.now × (into.new ≡ into.old ++ files_record.spelling x.now)) }
    ensures err { OnErr result (into.new ≡ into.old) }
{
    put_whole(into, x)
}

/// The record that has these bytes; `None` exactly where no record has them.
#[tactic(auto, using(crate::proofs::FilesSound::files_record_decodes))]
pub fn get_files_record(alloc: Global, bytes: &[u8]) -> Result<Option<FilesRecord>, Memory>
    ensures exact { IfOk result (λ found. found ≡ whole files_record bytes.now) }
    ensures decodes { IfOk result (Decodes files_record bytes.now) }
{
    get_whole(alloc, bytes)
}

#[tactic(auto, unfolding(crate::specs::Files::owner))]
impl Spelled for Owner {
    ghost use Rattle.dl_codec.specs.Files.{owner};

    ghost layout = { owner };

    fn put(&self, into: &mut List<u8>) -> Result<(), Memory> {
        self.name.put(into)?;
        self.writable.put(into)
    }

    fn get(alloc: Global, bytes: &[u8]) -> Result<(Owner, &[u8]), ReadFault> {
        let ((name, writable), rest) = <(Name, bool)>::get(alloc, bytes)?;
        Ok((Owner { name, writable }, rest))
    }
}

// The fields of a file under its path, in the order in which they lie in bytes.
type FileFields = (Path, (Owner, (Option<Owner>, Text)));

#[tactic(auto, unfolding(crate::specs::Files::file_row))]
impl Spelled for FileRow {
    ghost use Rattle.dl_codec.specs.Files.{file_row};

    ghost layout = { file_row };

    fn put(&self, into: &mut List<u8>) -> Result<(), Memory> {
        self.path.put(into)?;
        self.file.owner.put(into)?;
        self.file.before.put(into)?;
        self.file.bytes.put(into)
    }

    fn get(alloc: Global, bytes: &[u8]) -> Result<(FileRow, &[u8]), ReadFault> {
        let ((path, (owner, (before, content))), rest) = FileFields::get(alloc, bytes)?;
        let file = File {
            owner,
            bytes: content,
            before,
        };
        Ok((FileRow { path, file }, rest))
    }
}

// What stands behind the tag of a change of the owner.
type OwnerFields = (Path, (Owner, Option<Owner>));

#[tactic(auto, unfolding(crate::specs::Files::file_change))]
impl Spelled for FileChange {
    ghost use Rattle.dl_codec.specs.Files.{file_change};

    ghost layout = { file_change };

    fn put(&self, into: &mut List<u8>) -> Result<(), Memory> {
        match self {
            FileChange::Removed(path) => {
                into.extend(&[0])?;
                path.put(into)
            }
            FileChange::Put(row) => {
                into.extend(&[1])?;
                row.put(into)
            }
            FileChange::Kept(path, owner, before) => {
                into.extend(&[2])?;
                path.put(into)?;
                owner.put(into)?;
                before.put(into)
            }
        }
    }

    fn get(alloc: Global, bytes: &[u8]) -> Result<(FileChange, &[u8]), ReadFault> {
        match bytes {
            [0, rest @ ..] => {
                let (path, rest) = Path::get(alloc, rest)?;
                Ok((FileChange::Removed(path), rest))
            }
            [1, rest @ ..] => {
                let (row, rest) = FileRow::get(alloc, rest)?;
                Ok((FileChange::Put(row), rest))
            }
            [2, rest @ ..] => {
                let ((path, (owner, before)), rest) = OwnerFields::get(alloc, rest)?;
                Ok((FileChange::Kept(path, owner, before), rest))
            }
            _ => Err(ReadFault::Bad),
        }
    }
}

// What stands behind the tag of a batch.
type BatchFields = (u64, List<FileChange>);

#[tactic(auto, unfolding(crate::specs::Files::files_record))]
impl Spelled for FilesRecord {
    ghost use Rattle.dl_codec.specs.Files.{files_record as layout_of_records};

    ghost layout = { layout_of_records };

    fn put(&self, into: &mut List<u8>) -> Result<(), Memory> {
        match self {
            FilesRecord::Batch(tx, changes) => {
                into.extend(&[1])?;
                tx.put(into)?;
                changes.put(into)
            }
        }
    }

    fn get(alloc: Global, bytes: &[u8]) -> Result<(FilesRecord, &[u8]), ReadFault> {
        match bytes {
            [1, rest @ ..] => {
                let ((tx, changes), rest) = BatchFields::get(alloc, rest)?;
                Ok((FilesRecord::Batch(tx, changes), rest))
            }
            _ => Err(ReadFault::Bad),
        }
    }
}
