// The backups that are open on a bench.
ghost use Rattle.std.specs.Prelude.{◌≡◌, ◌≢◌, ◌≤◌, ◌+◌, ◌^◌, ◌∷◌, [], ℕ, List, Some, Ok, Err, IfOk, OnOk, OnErr, length};
ghost use Rattle.std.specs.Option.{option_copied, option_map};
ghost use Rattle.std.specs.Result.{result_err};
ghost use Rattle.bk_backup.specs.Images.{record_of};
ghost use Rattle.bk_backup.specs.Saved.{backup_numbered, backup_write, backups_told, extent, with_backup};
ghost use Rattle.dl_areas.specs.Opening.{IsOpened, OpensOne};
ghost use Rattle.dl_areas.specs.Writing.{EndsAlone};
ghost use Rattle.dl_base.specs.Outside.{FaultCounted};
ghost use Rattle.dl_base.specs.declared.area.Area.TheVariants as areas;
ghost use Rattle.dl_codec.specs.Backups.{backup_record};
ghost use Rattle.dl_journal.specs.Open.{IsOpen, IsUnwritten};
ghost use Rattle.meaning_areas.specs.Areas.{backups_of};
ghost use Rattle.meaning_areas.specs.Copies.{backups_step};

use crate::fold::fold;
use crate::image::body_of;
use crate::kept::{Kept, pop, push};
use crate::write::write;
use dl_areas::steps_end_so;
use dl_base::{Area, BeginFault, Bench, List, Memory, StepFault};
use dl_journal::Journal;
use sql_table::Tables;
use std::alloc::Global;
use std::marker::Model;

/// The backups, in memory and in the area Backups. Contracts see them in order, how many bytes the area's records and closing gate
/// are, and how many they may be.
#[derive(Drop)]
pub struct Backups {
    alloc: Global,
    journal: Journal,
    backups: List<Kept>,
}

impl Model for Backups {
    ghost use Rattle.std.specs.Prelude.{◌≡◌};
    ghost use Rattle.bk_backup.specs.Saved.{Saved};
    ghost use Rattle.dl_base.specs.declared.area.Area.TheVariants as areas;

    ghost Value = { Saved };

    ghost view = { λ b. record { backups = b.backups; length = b.journal.length; limit = b.journal.limit } };

    ghost invariant = { λ b. b.journal.area ≡ areas.Backups };
}

impl Backups {
    /// Opens the area Backups. The limit is the most bytes that its records and closing gate may be.
    /// `NotAJournal` has the place, from 0, of the gate of the first record that passes the area's end; where there is none, that of
    /// the first record that is none, or that the fold refuses: a backup whose number is not the next one, that has two tables of
    /// one name, or a table whose row numbers do not rise or are not below its next one. Nothing was written then, nor after
    /// `Memory`.
    pub fn begin<B: Bench>(alloc: Global, bench: &mut B, limit: u64) -> Result<Backups, BeginFault>
        requires low { 1 ≤ limit }
        requires high { limit ≤ 2 ^ 63 }

        // The backups are those that the area's list stands for, and that each crash leaves.
        ensures opened { IfOk result (λ s. (bodies : List (List ℕ)) × IsOpened areas.Backups limit (extent s) bodies (B.outside bench.old) (B.outside bench.new) × (backups_of bodies ≡ Ok s.backups)) }

        // However it ends, the area reads as the list that it was, and a crash leaves an image of before or that list.
        ensures opens { OpensOne areas.Backups (B.outside bench.old) (B.outside bench.new) }

        ensures no_backups { (place : ℕ) → result ≡ Err (BeginFault.NotAJournal place) → (told : List ℕ) → (B.outside bench.old).reads areas.Backups ≡ Some told → backups_told told ≡ Err place }
        ensures untouched { (place : ℕ) → result ≡ Err (BeginFault.NotAJournal place) → IsUnwritten areas.Backups (B.outside bench.old) (B.outside bench.new) }
        ensures memory { result ≡ Err BeginFault.Memory → IsUnwritten areas.Backups (B.outside bench.old) (B.outside bench.new) }
        ensures device { result ≡ Err BeginFault.Device → FaultCounted (B.outside bench.old) (B.outside bench.new) }
    {
        let (journal, bodies) = Journal::begin(alloc, bench, Area::Backups, limit)?;
        let backups = fold(alloc, &bodies)?;
        Ok(opened(alloc, journal, backups))
    }

    /// How many backups there are, which is the number of the last.
    pub fn len(&self) -> u64
        ensures { result ≡ length self.now.backups }
    {
        self.backups.len() as u64
    }

    /// How many bytes the records and the closing gate of its area are. It takes no memory.
    pub fn length(&self) -> u64
        ensures { result ≡ self.now.length }
    {
        self.journal.length()
    }

    /// The number of the commit after which a backup, from 1, was made; None exactly where there is no such backup. It takes no
    /// memory.
    pub fn commit_of(&self, n: u64) -> Option<u64>
        ensures { result ≡ option_map (λ b. b.commit) (backup_numbered self.now.backups n) }
    {
        match self.at(n) {
            Some(kept) => Some(kept.commit),
            None => None,
        }
    }

    /// The tables of a backup, from 1; None exactly where there is no such backup. It takes no memory.
    pub fn image(&self, n: u64) -> Option<&Tables>
        ensures { option_copied result ≡ option_map (λ b. b.tables) (backup_numbered self.now.backups n) }
    {
        match self.at(n) {
            Some(kept) => Some(&kept.tables),
            None => None,
        }
    }

    // The backup of a number, from 1.
    #[tactic(auto, using(crate::proofs::Finding::numbered_back, crate::proofs::Finding::none_numbered))]
    fn at(&self, n: u64) -> Option<&Kept>
        ensures { option_copied result ≡ backup_numbered self.now.backups n }
    {
        if n == 0 {
            return None;
        }
        self.backups.at((n - 1) as usize)
    }

    /// Writes the backup of the tables as they are after a commit, and returns its number, which is the next one. It takes its memory
    /// before it writes: for the record, and for a copy of the tables that shares their rows. The errors are `Memory`, also where the
    /// tables have no record, as with a list of 2^32 items, and then nothing was written; `Full(Area)` where the area has no room for
    /// the record; and `Device`, after which the area is to be opened again. It costs the tables' rows, as bytes.
    pub fn store<B: Bench>(
        &mut self,
        bench: &mut B,
        commit: u64,
        tables: &Tables,
    ) -> Result<u64, StepFault>
        requires { IsOpen (extent self.old) (B.outside bench.old) }
        ensures value { IfOk result (λ number. number ≡ length self.old.backups + 1) }
        ensures backups { OnOk result (self.new.backups ≡ with_backup self.old.backups commit tables.now) }

        // The fold takes the record of any tables.
        ensures taken { OnOk result (backups_step self.old.backups (record_of self.old.backups commit tables.now) ≡ Some self.new.backups) }
        ensures limit { OnOk result (self.new.limit ≡ self.old.limit) }
        ensures err { OnErr result (self.new ≡ self.old) }
        ensures memory { result ≡ Err StepFault.Memory → bench.new ≡ bench.old }
        ensures does { EndsAlone (extent self.old) (extent self.new) (backup_write self.old.backups commit tables.now ∷ []) (result_err result) (B.outside bench.old) (B.outside bench.new) }

        // Its record has a spelling, but where it ended in want of memory.
        ensures spelled { result ≢ Err StepFault.Memory → backup_record.fits (record_of self.old.backups commit tables.now) }
    {
        steps_end_so::<B>();
        let (number, body) = enter(self.alloc, &mut self.backups, commit, tables)?;
        match write(&mut self.journal, bench, body.as_slice()) {
            Ok(()) => Ok(number),
            Err(fault) => {
                pop(&mut self.backups);
                Err(StepFault::from(fault))
            }
        }
    }
}

// Puts a backup of these tables at the end, and makes the body of its record, which has the number that is given back.
#[tactic(auto, using(crate::proofs::Building::step_takes))]
fn enter(
    alloc: Global,
    backups: &mut List<Kept>,
    commit: u64,
    tables: &Tables,
) -> Result<(u64, List<u8>), Memory>
    ensures number { IfOk result (λ made. made.0 ≡ length backups.old + 1) }
    ensures body { IfOk result (λ made. made.1 ≡ backup_record.spelling (record_of backups.old commit tables.now)) }
    ensures fits { OnOk result (backup_record.fits (record_of backups.old commit tables.now)) }
    ensures ok { OnOk result (backups.new ≡ with_backup backups.old commit tables.now) }
    ensures taken { OnOk result (backups_step backups.old (record_of backups.old commit tables.now) ≡ Some (with_backup backups.old commit tables.now)) }
    ensures err { OnErr result (backups.new ≡ backups.old) }
{
    let number = backups.as_slice().len() as u64 + 1;
    let body = body_of(alloc, number, commit, tables)?;
    keep(backups, commit, tables)?;
    Ok((number, body))
}

// Puts a backup of a copy of these tables at the end.
fn keep(backups: &mut List<Kept>, commit: u64, tables: &Tables) -> Result<(), Memory>
    ensures ok { OnOk result (backups.new ≡ with_backup backups.old commit tables.now) }
    ensures err { OnErr result (backups.new ≡ backups.old) }
{
    push(backups, commit, tables.copy()?)
}

// Backups that are open, of these.
fn opened(alloc: Global, journal: Journal, backups: List<Kept>) -> Backups
    requires { journal.area ≡ areas.Backups }
    ensures backups { result.backups ≡ backups }
    ensures extent { extent result ≡ journal }
{
    Backups {
        alloc,
        journal,
        backups,
    }
}
