// What the records of the area Files stand for.
ghost use Rattle.std.specs.Prelude.{◌≡◌, ◌≢◌, ◌<◌, ◌≤◌, ◌+◌, ◌^◌, ℕ, Some, None, Ok, Err, IsOk, IsSome, IfOk, OnErr, OnOk, length};
ghost use Rattle.std.specs.FinMap as map;
ghost use Rattle.std.specs.Bool.{MatchBool};
ghost use Rattle.dl_journal.specs.Records.{size};
ghost use Rattle.fs_files.specs.Batch.{put_count, puts};
ghost use Rattle.meaning_areas.specs.FilesArea.{files_step, files_of};
ghost use Rattle.meaning_files.specs.Files.{with_change, with_changes};

use crate::table::FileTable;
use dl_base::{BeginFault, FileChange, FileRow, List, Memory, Text};
use dl_codec::{FilesRecord, get_files_record};
use std::alloc::Global;

/// Makes one change, and says whether the fold takes it. Where there is room for a file that it puts it takes no memory.
fn change(table: &mut FileTable, change: FileChange) -> Result<bool, Memory>
    ensures made { IfOk result (λ taken. MatchBool taken (with_change table.old.files change ≡ Some table.new.files) (with_change table.old.files change ≡ None)) }
    ensures room { put_count change ≤ table.old.spare → IsOk result }
    ensures spare { table.old.spare ≤ table.new.spare + put_count change }
{
    match change {
        FileChange::Removed(path) => Ok(table.remove(&path)),
        FileChange::Put(FileRow { path, file }) => {
            table.put(path, file)?;
            Ok(true)
        }
        FileChange::Kept(path, owner, before) => Ok(table.set_owner(&path, owner, before)),
    }
}

/// Makes changes, one after the other, and says whether the fold takes them all.
pub fn change_all(table: &mut FileTable, changes: List<FileChange>) -> Result<bool, Memory>
    ensures { IfOk result (λ taken. MatchBool taken (with_changes table.old.files changes ≡ Some table.new.files) (with_changes table.old.files changes ≡ None)) }
{
    for next in changes.into_vec() {
        if !change(table, next)? {
            return Ok(false);
        }
    }
    Ok(true)
}

/// Makes the changes of a batch, for which there is room. It takes no memory.
pub fn make_batch(table: &mut FileTable, changes: List<FileChange>)
    requires room { puts changes ≤ table.old.spare }
    requires taken { IsSome (with_changes table.old.files changes) }
    ensures files { with_changes table.old.files changes ≡ Some table.new.files }
    ensures spare { table.old.spare ≤ table.new.spare + puts changes }
{
    for next in changes.into_vec() {
        let _ = change(table, next);
    }
}

/// Takes one more record, and says whether the fold takes it.
fn take_record(alloc: Global, table: &mut FileTable, body: &[u8]) -> Result<bool, Memory>
    ensures { IfOk result (λ taken. MatchBool taken (files_step table.old.files body.now ≡ Some table.new.files) (files_step table.old.files body.now ≡ None)) }
{
    match get_files_record(alloc, body)? {
        Some(FilesRecord::Batch(_, changes)) => change_all(table, changes),
        None => Ok(false),
    }
}

/// Takes the records of a list of bodies into an empty table.
fn take_records(alloc: Global, table: &mut FileTable, bodies: &List<Text>) -> Result<(), BeginFault>
    requires size { size bodies.now < 2 ^ 63 }
    requires none { table.old.files ≡ map.empty }
    ensures files { OnOk result (files_of bodies.now ≡ Ok table.new.files) }
    ensures refused { (place : ℕ) → result ≡ Err (BeginFault.NotAJournal place) → files_of bodies.now ≡ Err place }
    ensures some { OnErr result (0 < length bodies.now) }
    ensures no_device { result ≢ Err BeginFault.Device }
{
    let mut place: u64 = 0;
    for body in bodies.as_slice() {
        if !take_record(alloc, table, body.bytes())? {
            return Err(BeginFault::NotAJournal(place));
        }
        place += 9 + body.len() as u64;
    }
    Ok(())
}

/// The files that a list of bodies stands for, or the place of the first record that the fold refuses. No bodies take no memory.
pub fn fold(alloc: Global, bodies: &List<Text>) -> Result<FileTable, BeginFault>
    requires { size bodies.now < 2 ^ 63 }
    ensures files { IfOk result (λ table. files_of bodies.now ≡ Ok table.files) }
    ensures refused { (place : ℕ) → result ≡ Err (BeginFault.NotAJournal place) → files_of bodies.now ≡ Err place }
    ensures some { OnErr result (0 < length bodies.now) }
    ensures no_device { result ≢ Err BeginFault.Device }
{
    let mut table = FileTable::empty(alloc);
    match take_records(alloc, &mut table, bodies) {
        Ok(()) => Ok(table),
        Err(fault) => {
            drop(table);
            Err(fault)
        }
    }
}
