// The records of the area Archive.
ghost use Rattle.std.specs.Prelude.{◌≡◌, ◌++◌, OnOk, OnErr, IfOk};
ghost use Rattle.dl_codec.specs.Archive.{archive_record};
ghost use Rattle.dl_codec.specs.Layout.{Decodes, whole};

use crate::read_fault::ReadFault;
use crate::spelled::Spelled;
use crate::whole::{get_whole, put_whole};
use dl_base::{LinkNo, List, Memory, Owner, Text};
use std::alloc::Global;

/// An archived copy of a file: the link under which it is archived, the owner that the file had before it was linked, the
/// SHA-256 of its bytes, and these.
#[derive(Drop)]
pub struct FileCopy {
    pub link: LinkNo,
    pub owner: Owner,
    pub digest: [u8; 32],
    pub bytes: Text,
}

/// A record of the area Archive.
#[derive(Drop)]
pub enum ArchiveRecord {
    Copy(FileCopy),
}

/// Appends the record's bytes. A record with a text of 2^32 bytes or more has none: it is answered `Memory`, as is want
/// of memory, and nothing is appended.
pub fn put_archive_record(into: &mut List<u8>, x: &ArchiveRecord) -> Result<(), Memory>
    ensures ok { OnOk result (archive_record.fits x.now × (into.new ≡ into.old ++ archive_record.spelling x.now)) }
    ensures err { OnErr result (into.new ≡ into.old) }
{
    put_whole(into, x)
}

/// The record that has these bytes; `None` exactly where no record has them.
#[tactic(auto, using(crate::proofs::ArchiveSound::archive_record_decodes))]
pub fn get_archive_record(alloc: Global, bytes: &[u8]) -> Result<Option<ArchiveRecord>, Memory>
    ensures exact { IfOk result (λ found. found ≡ whole archive_record bytes.now) }
    ensures decodes { IfOk result (Decodes archive_record bytes.now) }
{
    get_whole(alloc, bytes)
}

/// A digest: its bytes, with no length before them.
impl Spelled for [u8; 32] {
    ghost use Rattle.dl_codec.specs.Values.{exactly};

    ghost layout = { exactly 32 };

    fn put(&self, into: &mut List<u8>) -> Result<(), Memory> {
        into.extend(self)
    }

    fn get(_alloc: Global, bytes: &[u8]) -> Result<([u8; 32], &[u8]), ReadFault> {
        if bytes.len() < 32 {
            return Err(ReadFault::Bad);
        }
        let (front, rest) = bytes.split_at(32);
        let mut digest = [0u8; 32];
        digest.copy_from_slice(front);
        Ok((digest, rest))
    }
}

// The fields of a copy, in the order in which they lie in bytes.
type CopyFields = (LinkNo, (Owner, ([u8; 32], Text)));

#[tactic(auto, unfolding(crate::specs::Archive::file_copy))]
impl Spelled for FileCopy {
    ghost use Rattle.dl_codec.specs.Archive.{file_copy};

    ghost layout = { file_copy };

    fn put(&self, into: &mut List<u8>) -> Result<(), Memory> {
        self.link.put(into)?;
        self.owner.put(into)?;
        self.digest.put(into)?;
        self.bytes.put(into)
    }

    fn get(alloc: Global, bytes: &[u8]) -> Result<(FileCopy, &[u8]), ReadFault> {
        let ((link, (owner, last)), rest) = CopyFields::get(alloc, bytes)?;
        let (digest, content) = last;
        let copy = FileCopy {
            link,
            owner,
            digest,
            bytes: content,
        };
        Ok((copy, rest))
    }
}

#[tactic(auto, unfolding(crate::specs::Archive::archive_record))]
impl Spelled for ArchiveRecord {
    ghost use Rattle.dl_codec.specs.Archive.{archive_record as layout_of_records};

    ghost layout = { layout_of_records };

    fn put(&self, into: &mut List<u8>) -> Result<(), Memory> {
        match self {
            ArchiveRecord::Copy(copy) => {
                into.extend(&[1])?;
                copy.put(into)
            }
        }
    }

    fn get(alloc: Global, bytes: &[u8]) -> Result<(ArchiveRecord, &[u8]), ReadFault> {
        match bytes {
            [1, rest @ ..] => {
                let (copy, rest) = FileCopy::get(alloc, rest)?;
                Ok((ArchiveRecord::Copy(copy), rest))
            }
            _ => Err(ReadFault::Bad),
        }
    }
}
