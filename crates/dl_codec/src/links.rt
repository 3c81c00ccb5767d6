// The records of the area Links.
ghost use Rattle.std.specs.Prelude.{◌≡◌, ◌++◌, OnOk, OnErr, IfOk};
ghost use Rattle.dl_codec.specs.Layout.{Decodes, whole};
ghost use Rattle.dl_codec.specs.Links.{links_record};

use crate::read_fault::ReadFault;
use crate::spelled::Spelled;
use crate::whole::{get_whole, put_whole};
use dl_base::{LinkRow, List, Memory};
use std::alloc::Global;

/// A link that a transaction takes, and whether its file is to be put back from the archive.
#[derive(Drop)]
pub struct Taken {
    pub link: LinkRow,
    pub fill: bool,
}

/// How far a branch is, by the records of its transaction.
#[derive(Clone, Copy)]
pub enum BranchPhase {
    Prepared,
    Committed,
    Done,
    Aborted,
}

/// A record of the area Links.
#[derive(Drop)]
pub enum LinksRecord {
    /// How often the area was opened, from 1.
    Opening(u32),
    /// The transaction, what it gives, what it takes.
    Prepared(u64, List<LinkRow>, List<Taken>),
    Committed(u64),
    Done(u64),
    Aborted(u64),
}

/// Appends the record's bytes. A record with options that are none of the seven rows, or with a text or a list of 2^32
/// items or more, has none: it is answered `Memory`, as is want of memory, and nothing is appended.
pub fn put_links_record(into: &mut List<u8>, x: &LinksRecord) -> Result<(), Memory>
    ensures ok { OnOk result (links_record.fits x.now × (into.new ≡ into.old ++ links_record.spelling x.now)) }
    ensures err { OnErr result (into.new ≡ into.old) }
{
    put_whole(into, x)
}

/// The record that has these bytes; `None` exactly where no record has them.
#[tactic(auto, using(crate::proofs::LinksSound::links_record_decodes))]
pub fn get_links_record(alloc: Global, bytes: &[u8]) -> Result<Option<LinksRecord>, Memory>
    ensures exact { IfOk result (λ found. found ≡ whole links_record bytes.now) }
    ensures decodes { IfOk result (Decodes links_record bytes.now) }
{
    get_whole(alloc, bytes)
}

#[tactic(auto, unfolding(crate::specs::Links::taken))]
impl Spelled for Taken {
    ghost use Rattle.dl_codec.specs.Links.{taken};

    ghost layout = { taken };

    fn put(&self, into: &mut List<u8>) -> Result<(), Memory> {
        self.link.put(into)?;
        self.fill.put(into)
    }

    fn get(alloc: Global, bytes: &[u8]) -> Result<(Taken, &[u8]), ReadFault> {
        let (link, rest) = LinkRow::get(alloc, bytes)?;
        let (fill, rest) = bool::get(alloc, rest)?;
        Ok((Taken { link, fill }, rest))
    }
}

// What stands behind the tag of a Prepared.
type PreparedFields = (u64, (List<LinkRow>, List<Taken>));

#[tactic(auto, unfolding(crate::specs::Links::links_record))]
impl Spelled for LinksRecord {
    ghost use Rattle.dl_codec.specs.Links.{links_record as layout_of_records};

    ghost layout = { layout_of_records };

    fn put(&self, into: &mut List<u8>) -> Result<(), Memory> {
        match self {
            LinksRecord::Opening(number) => {
                into.extend(&[1])?;
                number.put(into)
            }
            LinksRecord::Prepared(tx, gives, takes) => {
                into.extend(&[2])?;
                tx.put(into)?;
                gives.put(into)?;
                takes.put(into)
            }
            LinksRecord::Committed(tx) => {
                into.extend(&[3])?;
                tx.put(into)
            }
            LinksRecord::Done(tx) => {
                into.extend(&[4])?;
                tx.put(into)
            }
            LinksRecord::Aborted(tx) => {
                into.extend(&[5])?;
                tx.put(into)
            }
        }
    }

    fn get(alloc: Global, bytes: &[u8]) -> Result<(LinksRecord, &[u8]), ReadFault> {
        match bytes {
            [1, rest @ ..] => {
                let (number, rest) = u32::get(alloc, rest)?;
                Ok((LinksRecord::Opening(number), rest))
            }
            [2, rest @ ..] => {
                let ((tx, (gives, takes)), rest) = PreparedFields::get(alloc, rest)?;
                Ok((LinksRecord::Prepared(tx, gives, takes), rest))
            }
            [3, rest @ ..] => {
                let (tx, rest) = u64::get(alloc, rest)?;
                Ok((LinksRecord::Committed(tx), rest))
            }
            [4, rest @ ..] => {
                let (tx, rest) = u64::get(alloc, rest)?;
                Ok((LinksRecord::Done(tx), rest))
            }
            [5, rest @ ..] => {
                let (tx, rest) = u64::get(alloc, rest)?;
                Ok((LinksRecord::Aborted(tx), rest))
            }
            _ => Err(ReadFault::Bad),
        }
    }
}
