// The fold of the area Backups.
ghost use Rattle.std.specs.Prelude.{◌≡◌, ◌≢◌, ◌<◌, ◌^◌, ℕ, Ok, Err, IfOk, OnErr, length};
ghost use Rattle.std.specs.Bool.{then_some};
ghost use Rattle.dl_codec.specs.declared.backups.BackupRecord.TheVariants as records;
ghost use Rattle.dl_journal.specs.Records.{size};
ghost use Rattle.meaning_areas.specs.Areas.{backups_body, backups_of};
ghost use Rattle.meaning_areas.specs.Copies.{backups_step};

use crate::kept::{Kept, push};
use crate::tables::tables_of;
use dl_base::{BeginFault, List, Memory, Text};
use dl_codec::{BackupRecord, TableImage, get_backup_record};
use std::alloc::Global;

// Takes one more backup, and says whether the fold takes it.
#[tactic(auto, using(crate::proofs::Building::step_other, crate::proofs::Building::step_next))]
fn take_backup(
    alloc: Global,
    backups: &mut List<Kept>,
    number: u64,
    commit: u64,
    images: List<TableImage>,
) -> Result<bool, Memory>
    ensures { IfOk result (λ taken. backups_step backups.old (records.Backup number commit images) ≡ then_some taken backups.new) }
{
    if number != backups.as_slice().len() as u64 + 1 {
        return Ok(false);
    }
    match tables_of(alloc, images)? {
        Some(tables) => {
            push(backups, commit, tables)?;
            Ok(true)
        }
        None => Ok(false),
    }
}

// Takes one more record, and says whether the fold takes it.
fn take_record(alloc: Global, backups: &mut List<Kept>, body: &[u8]) -> Result<bool, Memory>
    ensures { IfOk result (λ taken. backups_body backups.old body.now ≡ then_some taken backups.new) }
{
    match get_backup_record(alloc, body)? {
        Some(BackupRecord::Backup(number, commit, images)) => {
            take_backup(alloc, backups, number, commit, images)
        }
        None => Ok(false),
    }
}

/// The backups that a list of bodies stands for, or the place of the first record that the fold refuses. No bodies take no memory.
pub fn fold(alloc: Global, bodies: &List<Text>) -> Result<List<Kept>, BeginFault>
    requires { size bodies.now < 2 ^ 63 }
    ensures backups { IfOk result (λ backups. backups_of bodies.now ≡ Ok backups) }
    ensures refused { (place : ℕ) → result ≡ Err (BeginFault.NotAJournal place) → backups_of bodies.now ≡ Err place }
    ensures some { OnErr result (0 < length bodies.now) }
    ensures no_device { result ≢ Err BeginFault.Device }
{
    let mut backups = List::empty(alloc);
    let mut place: u64 = 0;
    for body in bodies.as_slice() {
        if !take_record(alloc, &mut backups, body.bytes())? {
            return Err(BeginFault::NotAJournal(place));
        }
        place += 9 + body.len() as u64;
    }
    Ok(backups)
}
