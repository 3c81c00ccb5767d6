// A batch that is made, with its record.
ghost use Rattle.std.specs.Prelude.{◌≡◌, IfOk};
ghost use Rattle.dl_codec.specs.Files.{files_record};
ghost use Rattle.dl_codec.specs.declared.files.FilesRecord.TheVariants as records;
ghost use Rattle.fs_files.specs.Batch.{batch_record, put_count, puts};

use dl_base::{FileChange, List, Memory};
use dl_codec::{FilesRecord, put_files_record};
use std::alloc::Global;
use std::marker::Model;

/// A batch that can be written. Contracts see it as the number of its transaction, 0 for a user's command, and its changes.
#[derive(Drop)]
pub struct FilesMade {
    tx: u64,
    changes: List<FileChange>,
    body: List<u8>,
}

impl Model for FilesMade {
    ghost use Rattle.std.specs.Prelude.{◌≡◌};
    ghost use Rattle.dl_codec.specs.Files.{files_record};
    ghost use Rattle.dl_codec.specs.declared.files.FilesRecord.TheVariants as records;
    ghost use Rattle.fs_files.specs.Batch.{Batch};

    ghost Value = { Batch };

    ghost view = { λ m. record { tx = m.tx; changes = m.changes } };

    ghost invariant = { λ m. files_record.fits (records.Batch m.tx m.changes) × (m.body ≡ files_record.spelling (records.Batch m.tx m.changes)) };
}

impl FilesMade {
    /// Its record has a spelling. The function does nothing: it carries what a batch is made with.
    pub fn is_spelled(&self)
        ensures { files_record.fits (records.Batch self.now.tx self.now.changes) }
    {
        let _tx = self.tx;
    }

    /// The changes, and the body of their record. It takes no memory.
    pub(crate) fn parts(self) -> (List<FileChange>, List<u8>)
        ensures changes { result.0 ≡ self.changes }
        ensures fits { files_record.fits (records.Batch self.tx self.changes) }
        ensures body { result.1 ≡ batch_record self }
    {
        let FilesMade { changes, body, .. } = self;
        (changes, body)
    }
}

/// The batch of some changes. Changes that no record can have, as 2^32 or more, are answered `Memory`, as is want of memory.
pub(crate) fn make(alloc: Global, tx: u64, changes: List<FileChange>) -> Result<FilesMade, Memory>
    ensures { IfOk result (λ made. made ≡ record { tx = tx; changes = changes }) }
{
    let record = FilesRecord::Batch(tx, changes);
    let mut body = List::empty(alloc);
    put_files_record(&mut body, &record)?;
    let FilesRecord::Batch(tx, changes) = record;
    Ok(FilesMade { tx, changes, body })
}

/// How many files some changes put. It takes no memory.
pub(crate) fn puts(changes: &List<FileChange>) -> usize
    ensures { result ≡ puts changes.now }
{
    let mut count = 0;
    for change in changes.as_slice() {
        count += put_count(change);
    }
    count
}

fn put_count(change: &FileChange) -> usize
    ensures { result ≡ put_count change.now }
{
    match change {
        FileChange::Put(_) => 1,
        FileChange::Removed(_) | FileChange::Kept(_, _, _) => 0,
    }
}
