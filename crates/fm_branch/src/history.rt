// What the records of the area Links stand for, so far.
ghost use Rattle.std.specs.Prelude.{◌≡◌, ◌++◌, ◌∷◌, [], ℕ, None, IfOk, OnOk, OnErr, true};
ghost use Rattle.std.specs.Bool.{then_some};
ghost use Rattle.std.specs.FinMap as maps;
ghost use Rattle.std.specs.List.Sorted.{IsPermutation, IsSortedByKey};
ghost use Rattle.std.specs.Option.{option_copied};
ghost use Rattle.std.specs.Cmp.Lexicographic.{slice_cmp};
ghost use Rattle.std.specs.Ordering.{nat_cmp};
ghost use Rattle.dl_codec.specs.declared.links.BranchPhase.TheVariants as phases;
ghost use Rattle.fm_branch.specs.Held.{row_on};
ghost use Rattle.fm_branch.specs.Linked.{Recorded, with_prepared};
ghost use Rattle.fm_branch.specs.Table.{HaveBranches, in_doubt};
ghost use Rattle.meaning_areas.specs.Branches.{Branch, branch, done_on, moved_by, moves_on, no_branches, opens_on, prepares_on, with_branch};
ghost use Rattle.meaning_settling.specs.Settling.{link_key};

use crate::entry::Entry;
use crate::held::{HeldLinks, Holding};
use crate::settle::{make_places, settle};
use crate::table::BranchTable;
use crate::vote::{branch_of, may_prepare};
use dl_base::{LinkRow, List, Memory, Path};
use dl_codec::{BranchPhase, Taken};
use std::alloc::Global;
use std::marker::Model;

/// The branches so far, and the links that are held. Contracts see what the records stand for, and the transaction of each Prepared.
#[derive(Drop)]
pub struct History {
    opening: u32,
    table: BranchTable,
    held: HeldLinks,
}

impl Model for History {
    ghost use Rattle.fm_branch.specs.Held.{held_in};
    ghost use Rattle.fm_branch.specs.Linked.{HavePlaces, Recorded, recorded_code};

    ghost Value = { Recorded };

    ghost coded = { recorded_code };

    ghost view = { λ h. record { links = record { opening = h.opening; table = h.table.table; held = held_in h.held }; prepared = h.table.prepared } };

    ghost invariant = { λ h. HavePlaces h.table.table h.held };
}

impl History {
    /// No records. It takes no memory.
    pub fn empty(alloc: Global) -> History
        ensures { result ≡ record { links = no_branches; prepared = [] } }
    {
        History {
            opening: 0,
            table: BranchTable::empty(alloc),
            held: HeldLinks::empty(alloc),
        }
    }

    /// Takes an opening, and says whether it is the next one. It takes no memory.
    pub fn opens(&mut self, number: u32) -> bool
        ensures links { opens_on self.old.links number ≡ then_some result self.new.links }
        ensures prepared { self.new.prepared ≡ self.old.prepared }
    {
        if u64::from(number) != u64::from(self.opening) + 1 {
            return false;
        }
        self.opening = number;
        true
    }

    /// Takes a Prepared, and says whether it is of a transaction that has none, gives links that are held, takes paths that are free or
    /// given, and fills as one may.
    pub fn prepares(
        &mut self,
        alloc: Global,
        tx: u64,
        gives: List<LinkRow>,
        takes: List<Taken>,
    ) -> Result<bool, Memory>
        ensures links { IfOk result (λ taken. prepares_on self.old.links tx gives takes (maps.get self.old.links.table tx) ≡ then_some taken self.new.links) }
        ensures prepared { IfOk result (λ taken. taken ≡ true → self.new.prepared ≡ self.old.prepared ++ tx ∷ []) }
    {
        if !self.may_prepare(alloc, tx, &gives, &takes)? {
            drop(gives);
            drop(takes);
            return Ok(false);
        }
        let entry = branch_of(alloc, gives, takes)?;
        self.enter(tx, entry)?;
        Ok(true)
    }

    // Whether the fold takes a Prepared.
    fn may_prepare(
        &self,
        alloc: Global,
        tx: u64,
        gives: &List<LinkRow>,
        takes: &List<Taken>,
    ) -> Result<bool, Memory>
        ensures step { IfOk result (λ may. prepares_on self.now.links tx gives.now takes.now (maps.get self.now.links.table tx) ≡ then_some may (with_branch self.now.links tx (branch (moved_by gives.now takes.now) phases.Prepared))) }
        ensures new { IfOk result (λ may. may ≡ true → maps.get self.now.links.table tx ≡ None) }
    {
        match self.table.get(tx) {
            Some(_) => Ok(false),
            None => may_prepare(alloc, &self.held, gives, takes),
        }
    }

    /// Puts the branch of a transaction in that has none, with places for its takes; want of memory changes nothing, though places may
    /// stay.
    pub fn enter(&mut self, tx: u64, entry: Entry) -> Result<(), Memory>
        requires { maps.get self.old.links.table tx ≡ None }
        ensures ok { OnOk result (self.new ≡ with_prepared self.old tx entry) }
        ensures err { OnErr result (self.new ≡ self.old) }
    {
        make_places(&mut self.held, &entry)?;
        self.table.put(tx, entry)?;
        Ok(())
    }

    /// Takes the branch that was put in last out again, if there is one. It takes no memory.
    pub fn take_back(&mut self)
        ensures { (before : Recorded) (tx : ℕ) (b : Branch) → maps.get before.links.table tx ≡ None → self.old ≡ with_prepared before tx b → self.new ≡ before }
    {
        self.table.take_back();
    }

    /// Takes a Committed, and says whether it is of a branch that is Prepared. It takes no memory.
    pub fn commits(&mut self, tx: u64) -> bool
        ensures links { moves_on phases.Prepared phases.Committed self.old.links tx (maps.get self.old.links.table tx) ≡ then_some result self.new.links }
        ensures prepared { self.new.prepared ≡ self.old.prepared }
    {
        self.moves(tx, BranchPhase::Committed)
    }

    /// Takes an Aborted, and says whether it is of a branch that is Prepared. It takes no memory.
    pub fn aborts(&mut self, tx: u64) -> bool
        ensures links { moves_on phases.Prepared phases.Aborted self.old.links tx (maps.get self.old.links.table tx) ≡ then_some result self.new.links }
        ensures prepared { self.new.prepared ≡ self.old.prepared }
    {
        self.moves(tx, BranchPhase::Aborted)
    }

    // Takes a branch that is Prepared to another phase, and says whether it is.
    fn moves(&mut self, tx: u64, to: BranchPhase) -> bool
        ensures links { moves_on phases.Prepared to self.old.links tx (maps.get self.old.links.table tx) ≡ then_some result self.new.links }
        ensures prepared { self.new.prepared ≡ self.old.prepared }
    {
        if !self.table.is_at(tx, BranchPhase::Prepared) {
            return false;
        }
        self.table.set_phase(tx, to);
        true
    }

    /// Takes a Done, and says whether it is of a branch that is Committed: the links that this gives are held no more, and those that it
    /// takes are. It takes no memory.
    pub fn ends(&mut self, tx: u64) -> bool
        ensures links { done_on self.old.links tx (maps.get self.old.links.table tx) ≡ then_some result self.new.links }
        ensures prepared { self.new.prepared ≡ self.old.prepared }
    {
        if !self.table.is_at(tx, BranchPhase::Committed) {
            return false;
        }
        settle(&mut self.held, &self.table, tx);
        self.table.set_phase(tx, BranchPhase::Done);
        true
    }

    /// The number of the last opening; 0 where there was none.
    pub fn opening(&self) -> u32
        ensures { result ≡ self.now.links.opening }
    {
        self.opening
    }

    /// The branch of a transaction. It takes no memory.
    pub fn branch(&self, tx: u64) -> Option<&Entry>
        ensures { option_copied result ≡ maps.get self.now.links.table tx }
    {
        self.table.get(tx)
    }

    /// The transaction of each Prepared, in the order of the records.
    pub fn prepared(&self, alloc: Global) -> Result<List<u64>, Memory>
        ensures prepared { IfOk result (λ txs. txs ≡ self.now.prepared) }
        ensures named { HaveBranches self.now.prepared self.now.links.table }
    {
        self.table.prepared(alloc)
    }

    /// The transactions of the branches in doubt, in the order of their numbers.
    pub fn in_doubt(&self, alloc: Global) -> Result<List<u64>, Memory>
        ensures { IfOk result (λ txs. txs ≡ in_doubt self.now.links.table) }
    {
        self.table.in_doubt(alloc)
    }

    /// The link that is held on a path, beside it. It takes no memory.
    pub fn held_on(&self, path: &Path) -> Option<Holding>
        ensures { row_on path.now result ≡ maps.get self.now.links.held path.now }
    {
        self.held.at(path)
    }

    /// The links that are held, in the order of their numbers.
    pub fn held(&self, alloc: Global) -> Result<List<LinkRow>, Memory>
        ensures all { IfOk result (λ rows. IsPermutation (maps.values self.now.links.held) rows) }
        ensures sorted { IfOk result (λ rows. IsSortedByKey (λ r. link_key r.link) (slice_cmp nat_cmp) rows) }
    {
        self.held.list(alloc)
    }
}
