// The branches that are open on a bench.
ghost use Rattle.std.specs.Prelude.{◌≡◌, ◌≢◌, ◌≤◌, ◌^◌, ◌++◌, ◌∷◌, [], ℕ, List, Some, Ok, Err, IfOk, OnOk, OnErr};
ghost use Rattle.std.specs.Cmp.Lexicographic.{slice_cmp};
ghost use Rattle.std.specs.FinMap as maps;
ghost use Rattle.std.specs.List.Sorted.{IsPermutation, IsSortedByKey};
ghost use Rattle.std.specs.Option.{option_map};
ghost use Rattle.std.specs.Ordering.{nat_cmp};
ghost use Rattle.std.specs.Result.{result_err};
ghost use Rattle.dl_areas.specs.Opening.{IsOpened, OpensOne};
ghost use Rattle.dl_areas.specs.Writing.{DoesAlone, EndsAlone};
ghost use Rattle.dl_base.specs.Outside.{FaultCounted};
ghost use Rattle.dl_base.specs.declared.area.Area.TheVariants as areas;
ghost use Rattle.dl_codec.specs.Links.{links_record};
ghost use Rattle.dl_codec.specs.declared.links.LinksRecord.TheVariants as records;
ghost use Rattle.dl_journal.specs.Open.{IsOpen, IsUnwritten};
ghost use Rattle.fm_branch.specs.Held.{row_on};
ghost use Rattle.fm_branch.specs.Linked.{IsTaken, extent, links_in, opening_write, prepared_in, reopened, write_for};
ghost use Rattle.fm_branch.specs.Shown.{shown};
ghost use Rattle.fm_branch.specs.Table.{HaveBranches, in_doubt};
ghost use Rattle.meaning_areas.specs.Areas.{branches_of};
ghost use Rattle.meaning_areas.specs.Branches.{links_step};
ghost use Rattle.meaning_settling.specs.Settling.{link_key};

use crate::entry::Branch;
use crate::fold::fold;
use crate::held::Holding;
use crate::history::History;
use crate::vote::parts_of;
use crate::write::{aborted_body, committed_body, done_body, opening_body, write};
use dl_areas::{an_append_writes_one_record, steps_end_so};
use dl_base::limits::MOST_NUMBERS;
use dl_base::{AppendFault, Area, BeginFault, Bench, Full, LinkRow, List, Memory, Path, StepFault};
use dl_codec::Taken;
use dl_journal::Journal;
use std::alloc::Global;
use std::marker::Model;

/// The branches of transactions and the links that are held, in memory and in the area Links. Contracts see what the records of the
/// area stand for, the transaction of each Prepared in the order of the records, how many bytes the area's records and closing gate
/// are, and how many they may be.
#[derive(Drop)]
pub struct Branches {
    alloc: Global,
    journal: Journal,
    history: History,
}

impl Model for Branches {
    ghost use Rattle.std.specs.Prelude.{◌≡◌};
    ghost use Rattle.dl_base.specs.declared.area.Area.TheVariants as areas;
    ghost use Rattle.fm_branch.specs.Linked.{Linked, linked_code};

    ghost Value = { Linked };

    ghost coded = { linked_code };

    ghost view = { λ b. record { links = b.history.links; prepared = b.history.prepared; length = b.journal.length; limit = b.journal.limit } };

    ghost invariant = { λ b. b.journal.area ≡ areas.Links };
}

impl Branches {
    /// Opens the area Links. The limit is the most bytes that its records and closing gate may be.
    /// `NotAJournal` has the place, from 0, of the gate of the first record that passes the area's end; where there is none, that of
    /// the first record that is none, or that the fold refuses: an opening that is not the next one; a Prepared of a transaction that
    /// was prepared before, that gives a link which is not held, takes a path on which one is held that it does not give, or fills
    /// otherwise than all takes with RECOVERY YES or none; a Committed or an Aborted of a branch that is not Prepared, a Done of one
    /// that is not Committed.
    pub fn begin<B: Bench>(alloc: Global, bench: &mut B, limit: u64) -> Result<Branches, BeginFault>
        requires low { 1 ≤ limit }
        requires high { limit ≤ 2 ^ 63 }

        // The branches are those that the area's list stands for, and that each crash leaves.
        ensures opened { IfOk result (λ s. (bodies : List (List ℕ)) × IsOpened areas.Links limit (extent s) bodies (B.outside bench.old) (B.outside bench.new) × (branches_of bodies ≡ Ok s.links) × (prepared_in bodies ≡ s.prepared)) }

        // However it ends, the area reads as the list that it was, and a crash leaves an image of before or that list.
        ensures opens { OpensOne areas.Links (B.outside bench.old) (B.outside bench.new) }

        ensures no_links { (place : ℕ) → result ≡ Err (BeginFault.NotAJournal place) → (told : List ℕ) → (B.outside bench.old).reads areas.Links ≡ Some told → links_in told ≡ Err place }
        ensures untouched { (place : ℕ) → result ≡ Err (BeginFault.NotAJournal place) → IsUnwritten areas.Links (B.outside bench.old) (B.outside bench.new) }
        ensures memory { result ≡ Err BeginFault.Memory → IsUnwritten areas.Links (B.outside bench.old) (B.outside bench.new) }
        ensures device { result ≡ Err BeginFault.Device → FaultCounted (B.outside bench.old) (B.outside bench.new) }
    {
        let (journal, bodies) = Journal::begin(alloc, bench, Area::Links, limit)?;
        let history = fold(alloc, &bodies)?;
        Ok(Branches {
            alloc,
            journal,
            history,
        })
    }

    /// Writes the next opening: once after `begin`. The errors are `Full(Openings)` with the last opening's number, `Full(Area)` where
    /// the area has no room for the record, and `Device`, after which the area is to be opened again. It takes no memory.
    pub fn announce<B: Bench>(&mut self, bench: &mut B) -> Result<(), AppendFault>
        requires { IsOpen (extent self.old) (B.outside bench.old) }
        ensures ok { OnOk result (self.new ≡ record self.old { links = reopened self.old.links; length = self.new.length }) }
        ensures err { OnErr result (self.new ≡ self.old) }
        ensures does { DoesAlone (extent self.old) (extent self.new) (opening_write self.old.links ∷ []) (result_err result) (B.outside bench.old) (B.outside bench.new) }
    {
        an_append_writes_one_record::<B>();
        let last = self.history.opening();
        if last >= MOST_NUMBERS {
            return Err(AppendFault::Full(Full::Openings(last)));
        }
        let next = last + 1;
        match write(&mut self.journal, bench, &opening_body(next)) {
            Ok(()) => {
                let _ = self.history.opens(next);
                Ok(())
            }
            Err(fault) => Err(fault),
        }
    }

    /// Writes the Prepared of a transaction that has none: it gives these links, which are held, and takes these on paths that are
    /// free or given. It takes its memory before it writes. The errors are `Memory`, also where the record has no spelling: a text or a list
    /// of 2^32 items, or options that are none of the seven rows; `Full(Area)` where the area has no room for the record; and `Device`,
    /// after which the area is to be opened again. It costs the links, and a logarithm of the held ones for each take.
    pub fn prepare<B: Bench>(
        &mut self,
        bench: &mut B,
        tx: u64,
        gives: List<LinkRow>,
        takes: List<Taken>,
    ) -> Result<(), StepFault>
        requires ready { IsOpen (extent self.old) (B.outside bench.old) }
        requires taken { IsTaken self.old.links (records.Prepared tx gives takes) }
        ensures links { OnOk result (links_step self.old.links (records.Prepared tx gives takes) ≡ Some self.new.links) }
        ensures prepared { OnOk result (self.new.prepared ≡ self.old.prepared ++ tx ∷ []) }
        ensures limit { self.new.limit ≡ self.old.limit }
        ensures err { OnErr result (self.new ≡ self.old) }
        ensures ends { EndsAlone (extent self.old) (extent self.new) (write_for (records.Prepared tx gives takes) ∷ []) (result_err result) (B.outside bench.old) (B.outside bench.new) }
        ensures spelled { result ≢ Err StepFault.Memory → links_record.fits (records.Prepared tx gives takes) }
    {
        steps_end_so::<B>();
        let (body, entry) = parts_of(self.alloc, tx, gives, takes)?;
        self.history.enter(tx, entry)?;
        match write(&mut self.journal, bench, body.as_slice()) {
            Ok(()) => Ok(()),
            Err(fault) => {
                self.history.take_back();
                Err(StepFault::from(fault))
            }
        }
    }

    /// Writes the Committed of a branch that is Prepared. The errors are `Full(Area)` where the area has no room for the record, and
    /// `Device`, after which the area is to be opened again. It takes no memory.
    pub fn commit<B: Bench>(&mut self, bench: &mut B, tx: u64) -> Result<(), AppendFault>
        requires ready { IsOpen (extent self.old) (B.outside bench.old) }
        requires taken { IsTaken self.old.links (records.Committed tx) }
        ensures links { OnOk result (links_step self.old.links (records.Committed tx) ≡ Some self.new.links) }
        ensures same { OnOk result (self.new ≡ record self.old { links = self.new.links; length = self.new.length }) }
        ensures err { OnErr result (self.new ≡ self.old) }
        ensures does { DoesAlone (extent self.old) (extent self.new) (write_for (records.Committed tx) ∷ []) (result_err result) (B.outside bench.old) (B.outside bench.new) }
    {
        match write(&mut self.journal, bench, &committed_body(tx)) {
            Ok(()) => {
                let _ = self.history.commits(tx);
                Ok(())
            }
            Err(fault) => Err(fault),
        }
    }

    /// Writes the Done of a branch that is Committed: the links that it gives are held no more, and those that it takes are. The errors
    /// are those of `commit`. It takes no memory, since a take has its place from the Prepared on.
    pub fn done<B: Bench>(&mut self, bench: &mut B, tx: u64) -> Result<(), AppendFault>
        requires ready { IsOpen (extent self.old) (B.outside bench.old) }
        requires taken { IsTaken self.old.links (records.Done tx) }
        ensures links { OnOk result (links_step self.old.links (records.Done tx) ≡ Some self.new.links) }
        ensures same { OnOk result (self.new ≡ record self.old { links = self.new.links; length = self.new.length }) }
        ensures err { OnErr result (self.new ≡ self.old) }
        ensures does { DoesAlone (extent self.old) (extent self.new) (write_for (records.Done tx) ∷ []) (result_err result) (B.outside bench.old) (B.outside bench.new) }
    {
        match write(&mut self.journal, bench, &done_body(tx)) {
            Ok(()) => {
                let _ = self.history.ends(tx);
                Ok(())
            }
            Err(fault) => Err(fault),
        }
    }

    /// Writes the Aborted of a branch that is Prepared. The errors are those of `commit`. It takes no memory.
    pub fn abort<B: Bench>(&mut self, bench: &mut B, tx: u64) -> Result<(), AppendFault>
        requires ready { IsOpen (extent self.old) (B.outside bench.old) }
        requires taken { IsTaken self.old.links (records.Aborted tx) }
        ensures links { OnOk result (links_step self.old.links (records.Aborted tx) ≡ Some self.new.links) }
        ensures same { OnOk result (self.new ≡ record self.old { links = self.new.links; length = self.new.length }) }
        ensures err { OnErr result (self.new ≡ self.old) }
        ensures does { DoesAlone (extent self.old) (extent self.new) (write_for (records.Aborted tx) ∷ []) (result_err result) (B.outside bench.old) (B.outside bench.new) }
    {
        match write(&mut self.journal, bench, &aborted_body(tx)) {
            Ok(()) => {
                let _ = self.history.aborts(tx);
                Ok(())
            }
            Err(fault) => Err(fault),
        }
    }

    /// The number of the last opening; 0 where there was none.
    pub fn opening(&self) -> u32
        ensures { result ≡ self.now.links.opening }
    {
        self.history.opening()
    }

    /// How many bytes the records and the closing gate of its area are. It takes no memory.
    pub fn length(&self) -> u64
        ensures { result ≡ self.now.length }
    {
        self.journal.length()
    }

    /// The transaction of each Prepared, in the order of the records: exactly those that have a branch. The error is want of memory, and
    /// changes nothing.
    pub fn branches(&self) -> Result<List<u64>, Memory>
        ensures prepared { IfOk result (λ txs. txs ≡ self.now.prepared) }
        ensures named { HaveBranches self.now.prepared self.now.links.table }
    {
        self.history.prepared(self.alloc)
    }

    /// The branch of a transaction; None exactly where there is no Prepared of it. It takes no memory.
    pub fn branch(&self, tx: u64) -> Option<Branch<'_>>
        ensures { option_map shown result ≡ maps.get self.now.links.table tx }
    {
        match self.history.branch(tx) {
            Some(entry) => Some(entry.lend()),
            None => None,
        }
    }

    /// The transactions of the branches that are neither done nor aborted, in the order of their numbers. The error is want of memory,
    /// and changes nothing.
    pub fn in_doubt(&self) -> Result<List<u64>, Memory>
        ensures { IfOk result (λ txs. txs ≡ in_doubt self.now.links.table) }
    {
        self.history.in_doubt(self.alloc)
    }

    /// The link that is held on a path, beside it; None exactly where there is none. It takes no memory.
    pub fn held_on(&self, path: &Path) -> Option<Holding>
        ensures { row_on path.now result ≡ maps.get self.now.links.held path.now }
    {
        self.history.held_on(path)
    }

    /// The links that are held, each once, in the order of their numbers. The cost is n log n of them; the error is want of memory, and
    /// changes nothing.
    pub fn held(&self) -> Result<List<LinkRow>, Memory>
        ensures all { IfOk result (λ rows. IsPermutation (maps.values self.now.links.held) rows) }
        ensures sorted { IfOk result (λ rows. IsSortedByKey (λ r. link_key r.link) (slice_cmp nat_cmp) rows) }
    {
        self.history.held(self.alloc)
    }
}
