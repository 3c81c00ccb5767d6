// The fold of the area Archive.
ghost use Rattle.std.specs.Prelude.{◌≡◌, ◌≢◌, ◌<◌, ◌^◌, ℕ, Ok, Err, IfOk, OnErr, bytes_eq, length};
ghost use Rattle.std.specs.Bool.{then_some};
ghost use Rattle.std.specs.FinMap as maps;
ghost use Rattle.dl_journal.specs.Records.{size};
ghost use Rattle.fm_archive.specs.Copies.{can_take};
ghost use Rattle.meaning_areas.specs.Areas.{copies_body, copies_of};
ghost use Rattle.meaning_areas.specs.Copies.{copies_on};
ghost use Rattle.meaning_settling.specs.Settling.{link_key};
ghost use Rattle.sha2.specs.Sha256.{sha256};

use crate::copies::CopyTable;
use crate::made::digest;
use dl_base::{BeginFault, List, Memory, Text};
use dl_codec::{ArchiveRecord, FileCopy, get_archive_record};
use std::alloc::Global;

// Whether the digest is that of the bytes. It takes no memory.
fn is_whole(copy: &FileCopy) -> bool
    ensures { result ≡ bytes_eq copy.now.digest (sha256 copy.now.bytes) }
{
    copy.digest == digest(copy.bytes.bytes())
}

// Whether the fold takes a copy. It takes no memory.
#[tactic(auto, using(crate::proofs::Entries::not_some))]
fn can_take(table: &CopyTable, copy: &FileCopy) -> bool
    ensures { result ≡ can_take table.now.copies copy.now }
{
    !table.has(copy.link) && is_whole(copy)
}

// Takes one more copy, and says whether the fold takes it.
fn take_copy(table: &mut CopyTable, copy: FileCopy) -> Result<bool, Memory>
    ensures { IfOk result (λ taken. copies_on table.old.copies copy (maps.get table.old.copies (link_key copy.link)) ≡ then_some taken table.new.copies) }
{
    if !can_take(table, &copy) {
        return Ok(false);
    }
    table.put(copy)?;
    Ok(true)
}

// Takes one more record, and says whether the fold takes it.
fn take_record(alloc: Global, table: &mut CopyTable, body: &[u8]) -> Result<bool, Memory>
    ensures { IfOk result (λ taken. copies_body table.old.copies body.now ≡ then_some taken table.new.copies) }
{
    match get_archive_record(alloc, body)? {
        Some(ArchiveRecord::Copy(copy)) => take_copy(table, copy),
        None => Ok(false),
    }
}

/// The copies that a list of bodies stands for, or the place of the first record that the fold refuses. No bodies take no memory.
pub fn fold(alloc: Global, bodies: &List<Text>) -> Result<CopyTable, BeginFault>
    requires { size bodies.now < 2 ^ 63 }
    ensures copies { IfOk result (λ table. copies_of bodies.now ≡ Ok table.copies) }
    ensures refused { (place : ℕ) → result ≡ Err (BeginFault.NotAJournal place) → copies_of bodies.now ≡ Err place }
    ensures some { OnErr result (0 < length bodies.now) }
    ensures no_device { result ≢ Err BeginFault.Device }
{
    let mut table = CopyTable::empty(alloc);
    let mut place: u64 = 0;
    for body in bodies.as_slice() {
        if !take_record(alloc, &mut table, body.bytes())? {
            return Err(BeginFault::NotAJournal(place));
        }
        place += 9 + body.len() as u64;
    }
    Ok(table)
}
