// A copy that is made, with its record.
ghost use Rattle.std.specs.Prelude.{◌≡◌, IfOk};
ghost use Rattle.dl_codec.specs.Archive.{archive_record};
ghost use Rattle.dl_codec.specs.declared.archive.ArchiveRecord.TheVariants as records;
ghost use Rattle.fm_archive.specs.Copies.{file_copy};
ghost use Rattle.sha2.specs.Sha256.{sha256};

use dl_base::{LinkNo, List, Memory, Owner, Text};
use dl_codec::{ArchiveRecord, FileCopy, put_archive_record};
use sha2::{Digest, Sha256};
use std::alloc::Global;
use std::marker::Model;

/// A copy that can be stored. Contracts see it as the copy; its digest is that of its bytes.
#[derive(Drop)]
pub struct CopyMade {
    copy: FileCopy,
    body: List<u8>,
}

impl Model for CopyMade {
    ghost use Rattle.std.specs.Prelude.{◌≡◌};
    ghost use Rattle.dl_codec.specs.Archive.{archive_record};
    ghost use Rattle.dl_codec.specs.declared.archive.ArchiveRecord.TheVariants as records;
    ghost use Rattle.dl_codec.specs.declared.archive.FileCopy.{FileCopy};
    ghost use Rattle.sha2.specs.Sha256.{sha256};

    ghost Value = { FileCopy };

    ghost view = { λ m. m.copy };

    ghost invariant = { λ m. (m.copy.digest ≡ sha256 m.copy.bytes) × archive_record.fits (records.Copy m.copy) × (m.body ≡ archive_record.spelling (records.Copy m.copy)) };
}

impl CopyMade {
    /// The link of which it is a copy. It takes no memory.
    pub fn link(&self) -> LinkNo
        ensures { result ≡ self.now.link }
    {
        self.copy.link
    }

    /// Its record has a spelling. The function does nothing: it carries what a copy is made with.
    pub fn is_spelled(&self)
        ensures { archive_record.fits (records.Copy self.now) }
    {
        let _link = self.copy.link;
    }

    /// The copy, and the body of its record. It takes no memory.
    pub(crate) fn parts(self) -> (FileCopy, List<u8>)
        ensures copy { result.0 ≡ self }
        ensures digest { self.digest ≡ sha256 self.bytes }
        ensures body { result.1 ≡ archive_record.spelling (records.Copy self) }
    {
        let CopyMade { copy, body } = self;
        (copy, body)
    }
}

/// The copy of a link with these bytes, for the owner that the file had before it was linked. Its digest is the SHA-256 of the bytes.
/// Bytes that no record can have, of 2^32 or more, are answered `Memory`, as is want of memory.
pub fn make(alloc: Global, link: LinkNo, owner: Owner, bytes: Text) -> Result<CopyMade, Memory>
    ensures { IfOk result (λ made. made ≡ file_copy link (record { owner = owner; bytes = bytes })) }
{
    let digest = digest(bytes.bytes());
    let record = ArchiveRecord::Copy(FileCopy {
        link,
        owner,
        digest,
        bytes,
    });
    let mut body = List::empty(alloc);
    put_archive_record(&mut body, &record)?;
    let ArchiveRecord::Copy(copy) = record;
    Ok(CopyMade { copy, body })
}

/// The SHA-256 of some bytes (FIPS 180-4). It takes no memory.
pub(crate) fn digest(bytes: &[u8]) -> [u8; 32]
    ensures { result ≡ sha256 bytes.now }
{
    Sha256::digest(bytes)
}
