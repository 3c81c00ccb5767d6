// The branches in memory, by the numbers of their transactions.
ghost use Rattle.std.specs.Prelude.{◌≡◌, ◌++◌, ◌∷◌, ◌<◌, [], ℕ, Some, None, IfOk, OnOk, OnErr, false, vec_len};
ghost use Rattle.std.specs.Vec.{vec_capacity};
ghost use Rattle.std.specs.BTreeMap.{IsOrdered, get};
ghost use Rattle.std.specs.FinMap as maps;
ghost use Rattle.std.specs.Option.{option_copied, option_map};
ghost use Rattle.std.specs.Ordering.{is_eq, nat_cmp};
ghost use Rattle.fm_branch.specs.Table.{HaveBranches, Numbered, doubtful, in_doubt, is_branch_at, with_last, with_phase};
ghost use Rattle.meaning_areas.specs.Branches.{Branch, branch};

use crate::entry::Entry;
use dl_base::{List, Memory};
use dl_codec::BranchPhase;
use std::alloc::Global;
use std::collections::BTreeMap;
use std::marker::Model;

/// Branches by the numbers of their transactions, in the order of these, and the order in which they were prepared. Contracts see a
/// finite map, and the numbers in that order.
#[derive(Drop)]
pub struct BranchTable {
    entries: BTreeMap<u64, Entry>,
    prepared: Vec<u64>,
}

impl Model for BranchTable {
    ghost use Rattle.std.specs.Prelude.{◌≡◌, true};
    ghost use Rattle.std.specs.FinMap.{from_entries};
    ghost use Rattle.fm_branch.specs.Table.{HaveBranches, Numbered, are_once, numbered_code};

    ghost Value = { Numbered };

    ghost coded = { numbered_code };

    ghost view = { λ t. record { table = from_entries t.entries.entries; prepared = t.prepared.items } };

    ghost invariant = { λ t. HaveBranches t.prepared.items (from_entries t.entries.entries) × (are_once t.prepared.items ≡ true) };
}

impl BranchTable {
    /// No branches. It takes no memory.
    pub fn empty(alloc: Global) -> BranchTable
        ensures { result ≡ record { table = maps.empty; prepared = [] } }
    {
        BranchTable {
            entries: BTreeMap::new(alloc),
            prepared: Vec::new(alloc),
        }
    }

    /// The branch of a transaction. It takes no memory.
    pub fn get(&self, tx: u64) -> Option<&Entry>
        ensures { option_copied result ≡ maps.get self.now.table tx }
    {
        self.entries.get(&tx)
    }

    /// The transactions of the branches, in the order in which they were prepared.
    pub fn prepared(&self, alloc: Global) -> Result<List<u64>, Memory>
        ensures prepared { IfOk result (λ txs. txs ≡ self.now.prepared) }
        ensures named { HaveBranches self.now.prepared self.now.table }
    {
        let txs = Vec::from_slice(alloc, self.prepared.as_slice())?;
        Ok(List::from_vec(txs))
    }

    /// Puts the branch of a transaction in that has none; want of memory changes nothing.
    pub fn put(&mut self, tx: u64, entry: Entry) -> Result<(), Memory>
        requires { maps.get self.old.table tx ≡ None }
        ensures ok { OnOk result (self.new ≡ with_last self.old tx entry) }
        ensures err { OnErr result (self.new ≡ self.old) }
    {
        self.prepared.reserve(1)?;
        insert(&mut self.entries, tx, entry)?;
        push(&mut self.prepared, tx);
        Ok(())
    }

    /// Takes the branch that was put in last out again, if there is one. It takes no memory.
    pub fn take_back(&mut self)
        ensures back { (before : Numbered) (tx : ℕ) (b : Branch) → maps.get before.table tx ≡ None → self.old ≡ with_last before tx b → self.new ≡ before }
        ensures fewer { (tx : ℕ) (b : Branch) → maps.get self.new.table tx ≡ Some b → maps.get self.old.table tx ≡ Some b }
    {
        let Some(tx) = self.prepared.pop() else {
            return;
        };
        remove(&mut self.entries, tx);
    }

    /// Whether a transaction has a branch in this phase. It takes no memory.
    pub fn is_at(&self, tx: u64, phase: BranchPhase) -> bool
        ensures { result ≡ is_branch_at phase (maps.get self.now.table tx) }
    {
        match self.get(tx) {
            Some(entry) => entry.is_at(phase),
            None => false,
        }
    }

    /// Gives the branch of a transaction another phase, if there is one. It takes no memory.
    pub fn set_phase(&mut self, tx: u64, phase: BranchPhase)
        ensures { self.new ≡ record self.old { table = with_phase self.old.table tx phase (maps.get self.old.table tx) } }
    {
        renew(&mut self.entries, tx, phase);
    }

    /// The transactions of the branches in doubt, in the order of their numbers.
    pub fn in_doubt(&self, alloc: Global) -> Result<List<u64>, Memory>
        ensures { IfOk result (λ txs. txs ≡ in_doubt self.now.table) }
    {
        doubtful(alloc, &self.entries)
    }
}

// One branch more, in place of any other of its transaction.
fn insert(entries: &mut BTreeMap<u64, Entry>, tx: u64, entry: Entry) -> Result<(), Memory>
    ensures ok { OnOk result (maps.from_entries {R = nat_cmp} entries.new.entries ≡ maps.insert (maps.from_entries entries.old.entries) tx entry) }
    ensures err { OnErr result (entries.new.entries ≡ entries.old.entries) }
{
    entries.insert(tx, entry)?;
    Ok(())
}

// The branches without that of a transaction.
fn remove(entries: &mut BTreeMap<u64, Entry>, tx: u64)
    ensures { maps.from_entries {R = nat_cmp} entries.new.entries ≡ maps.remove (maps.from_entries entries.old.entries) tx }
{
    let _ = entries.remove(&tx);
}

// One number more, for which there is room.
fn push(txs: &mut Vec<u64>, tx: u64)
    requires { vec_len txs.old < vec_capacity txs.old }
    ensures { txs.new.items ≡ txs.old.items ++ tx ∷ [] }
{
    let _ = txs.push(tx);
}

// The transactions of those branches that are in doubt, in order.
fn doubtful(alloc: Global, entries: &BTreeMap<u64, Entry>) -> Result<List<u64>, Memory>
    ensures txs { IfOk result (λ txs. txs ≡ doubtful entries.now.entries) }
    ensures ordered { IsOrdered nat_cmp entries.now }
{
    let mut txs = List::empty(alloc);
    for (tx, entry) in entries.iter() {
        if entry.is_in_doubt() {
            txs.push(*tx)?;
        }
    }
    Ok(txs)
}

// Another phase for the branch of a transaction.
fn renew(entries: &mut BTreeMap<u64, Entry>, tx: u64, phase: BranchPhase)
    ensures entry { get nat_cmp entries.new tx ≡ option_map (λ b. branch b.moved phase) (get nat_cmp entries.old tx) }
    ensures others { (q : ℕ) → is_eq (nat_cmp tx q) ≡ false → get nat_cmp entries.new q ≡ get nat_cmp entries.old q }
{
    match entries.get_mut(&tx) {
        Some(entry) => entry.phase = phase,
        None => {}
    }
}
