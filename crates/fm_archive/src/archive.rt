// The archive that is open on a bench.
ghost use Rattle.std.specs.Prelude.{◌≡◌, ◌≤◌, ◌+◌, ◌^◌, ◌∷◌, [], ℕ, List, Some, None, Ok, Err, IfOk, OnOk, OnErr, map};
ghost use Rattle.std.specs.FinMap as maps;
ghost use Rattle.std.specs.Option.{option_copied, option_map};
ghost use Rattle.std.specs.Result.{result_err};
ghost use Rattle.dl_areas.specs.Opening.{IsOpened, OpensOne};
ghost use Rattle.dl_areas.specs.Writing.{DoesAlone};
ghost use Rattle.dl_base.specs.Outside.{FaultCounted};
ghost use Rattle.dl_base.specs.declared.area.Area.TheVariants as areas;
ghost use Rattle.dl_codec.specs.declared.archive.ArchiveRecord.TheVariants as records;
ghost use Rattle.dl_journal.specs.Open.{IsOpen, IsUnwritten};
ghost use Rattle.fm_archive.specs.Copies.{file_copy, pending};
ghost use Rattle.fm_archive.specs.Stock.{copies_told, copy_write, extent};
ghost use Rattle.meaning_areas.specs.Areas.{copies_of};
ghost use Rattle.meaning_areas.specs.Copies.{copies_step};
ghost use Rattle.meaning_settling.specs.Settling.{link_key};
ghost use Rattle.sha2.specs.Sha256.{sha256};

use crate::copies::CopyTable;
use crate::fold::fold;
use crate::made::CopyMade;
use crate::write::write;
use dl_base::{AppendFault, Area, BeginFault, Bench, LinkNo, LinkRow, List, Memory};
use dl_codec::FileCopy;
use dl_journal::Journal;
use std::alloc::Global;
use std::marker::Model;

/// The archived copies, in memory and in the area Archive. Contracts see the copies in the order of their link numbers, for how many
/// more there is room, how many bytes the area's records and closing gate are, and how many they may be.
#[derive(Drop)]
pub struct Archive {
    alloc: Global,
    journal: Journal,
    table: CopyTable,
}

impl Model for Archive {
    ghost use Rattle.std.specs.Prelude.{◌≡◌};
    ghost use Rattle.dl_base.specs.declared.area.Area.TheVariants as areas;
    ghost use Rattle.fm_archive.specs.Stock.{Stock, stock_code};

    ghost Value = { Stock };

    ghost coded = { stock_code };

    ghost view = { λ a. record { copies = a.table.copies; spare = a.table.spare; length = a.journal.length; limit = a.journal.limit } };

    ghost invariant = { λ a. a.journal.area ≡ areas.Archive };
}

impl Archive {
    /// Opens the area Archive. The limit is the most bytes that its records and closing gate may be.
    /// `NotAJournal` has the place, from 0, of the gate of the first record that passes the area's end; where there is none, that of
    /// the first record that is none, or that the fold refuses: a second copy of a link, or one whose digest is not the SHA-256 of
    /// its bytes. Then nothing was written.
    pub fn begin<B: Bench>(alloc: Global, bench: &mut B, limit: u64) -> Result<Archive, BeginFault>
        requires low { 1 ≤ limit }
        requires high { limit ≤ 2 ^ 63 }

        // The copies are those that the area's list stands for, and that each crash leaves.
        ensures opened { IfOk result (λ s. (bodies : List (List ℕ)) × IsOpened areas.Archive limit (extent s) bodies (B.outside bench.old) (B.outside bench.new) × (copies_of bodies ≡ Ok s.copies)) }

        // However it ends, the area reads as the list that it was, and a crash leaves an image of before or that list.
        ensures opens { OpensOne areas.Archive (B.outside bench.old) (B.outside bench.new) }

        ensures no_copies { (place : ℕ) → result ≡ Err (BeginFault.NotAJournal place) → (told : List ℕ) → (B.outside bench.old).reads areas.Archive ≡ Some told → copies_told told ≡ Err place }
        ensures untouched { (place : ℕ) → result ≡ Err (BeginFault.NotAJournal place) → IsUnwritten areas.Archive (B.outside bench.old) (B.outside bench.new) }
        ensures memory { result ≡ Err BeginFault.Memory → IsUnwritten areas.Archive (B.outside bench.old) (B.outside bench.new) }
        ensures device { result ≡ Err BeginFault.Device → FaultCounted (B.outside bench.old) (B.outside bench.new) }
    {
        let (journal, bodies) = Journal::begin(alloc, bench, Area::Archive, limit)?;
        let table = fold(alloc, &bodies)?;
        Ok(opened(alloc, journal, table))
    }

    /// The links with RECOVERY YES that have no copy, in their order. The error is want of memory, and changes nothing. It costs a
    /// look-up a link.
    pub fn pending(&self, links: &List<LinkRow>) -> Result<List<LinkNo>, Memory>
        ensures { IfOk result (λ waiting. waiting ≡ pending self.now.copies links.now) }
    {
        let mut waiting = List::empty(self.alloc);
        for row in links.as_slice() {
            if self.table.awaits(row) {
                waiting.push(row.link)?;
            }
        }
        Ok(waiting)
    }

    /// The links that have a copy, in the order of their numbers. The error is want of memory, and changes nothing. It costs n log n.
    pub fn stored(&self) -> Result<List<LinkNo>, Memory>
        ensures { IfOk result (λ links. map link_key links ≡ maps.keys self.now.copies) }
    {
        self.table.links(self.alloc)
    }

    /// The copy of a link, with the digest of its bytes; None exactly where there is none. It takes no memory.
    pub fn copy(&self, link: LinkNo) -> Option<&FileCopy>
        ensures { option_copied result ≡ option_map (file_copy link) (maps.get self.now.copies (link_key link)) }
    {
        self.table.get(link)
    }

    /// How many bytes the records and the closing gate of its area are. It takes no memory.
    pub fn length(&self) -> u64
        ensures { result ≡ self.now.length }
    {
        self.journal.length()
    }

    /// Makes room for so many more copies; want of memory leaves what room there was.
    pub fn make_room(&mut self, copies: u64) -> Result<(), Memory>
        ensures same { self.new ≡ record self.old { spare = self.new.spare } }
        ensures room { OnOk result (copies ≤ self.new.spare) }
        ensures spare { self.old.spare ≤ self.new.spare }
    {
        self.table.make_room(copies as usize)
    }

    /// Writes a copy of a link that has none, for which there has to be room. The errors are `Full(Area)` where the area has no room
    /// for the record, and `Device`, after which the area is to be opened again. It takes no memory.
    pub fn store<B: Bench>(&mut self, bench: &mut B, made: CopyMade) -> Result<(), AppendFault>
        requires ready { IsOpen (extent self.old) (B.outside bench.old) }
        requires room { 1 ≤ self.old.spare }
        requires new { maps.get self.old.copies (link_key made.link) ≡ None }
        ensures copies { OnOk result (copies_step self.old.copies (records.Copy made) ≡ Some self.new.copies) }
        ensures spare { OnOk result (self.old.spare ≤ self.new.spare + 1) }
        ensures limit { OnOk result (self.new.limit ≡ self.old.limit) }
        ensures err { OnErr result (self.new ≡ self.old) }
        ensures does { DoesAlone (extent self.old) (extent self.new) (copy_write made ∷ []) (result_err result) (B.outside bench.old) (B.outside bench.new) }
    {
        let (copy, body) = made.parts();
        match write(&mut self.journal, bench, body.as_slice()) {
            Ok(()) => {
                put(&mut self.table, copy);
                Ok(())
            }
            Err(fault) => Err(fault),
        }
    }
}

// Puts in the copy of a link that has none, where there is room. It takes no memory.
#[tactic(auto, using(crate::proofs::Entries::step_takes))]
fn put(table: &mut CopyTable, copy: FileCopy)
    requires room { 1 ≤ table.old.spare }
    requires new { maps.get table.old.copies (link_key copy.link) ≡ None }
    requires digest { copy.digest ≡ sha256 copy.bytes }
    ensures copies { copies_step table.old.copies (records.Copy copy) ≡ Some table.new.copies }
    ensures spare { table.old.spare ≤ table.new.spare + 1 }
{
    let _ = table.put(copy);
}

// An archive of these copies.
fn opened(alloc: Global, journal: Journal, table: CopyTable) -> Archive
    requires { journal.area ≡ areas.Archive }
    ensures copies { result.copies ≡ table.copies }
    ensures extent { extent result ≡ journal }
{
    Archive {
        alloc,
        journal,
        table,
    }
}
