// The numbers of the rows that a transaction's statements touched.
ghost use Rattle.std.specs.Prelude.{◌≡◌, ℕ, ◌==◌, ◌<◌, ◌≤◌, ◌++◌, ◌∷◌, List, [], IfOk, MatchResult, OnOk, OnErr, Some, bytes_eq, if◌then◌else◌, length};
ghost use Rattle.std.specs.Cmp.Lexicographic.{pointwise, slice_cmp};
ghost use Rattle.std.specs.List.{HoldsAt, insert};
ghost use Rattle.std.specs.List.Sorted.{IsPartitionPoint, IsStrictlySortedBy};
ghost use Rattle.std.specs.Map.{lookup};
ghost use Rattle.std.specs.Option.{option_copied};
ghost use Rattle.std.specs.Ordering.{nat_cmp};
ghost use Rattle.std.specs.declared.cmp.Ordering.TheVariants.{Less, Greater};
ghost use Rattle.db_changes.specs.Touched.{Adds, AddsNumbers, numbers_of};

use dl_base::{Memory, Name};
use dl_pages::{Pages, with_member};
use std::alloc::Global;
use std::marker::Model;

/// The numbers of the rows that a transaction's statements touched, by the names of their tables. Contracts see names, each with
/// numbers that rise.
#[derive(Drop)]
pub struct TouchedRows {
    // In the order of the names' bytes.
    entries: Vec<(Name, Pages<u64>)>,
}

impl Model for TouchedRows {
    ghost use Rattle.db_changes.specs.Touched.{Touched};

    ghost Value = { Touched };

    ghost view = { λ t. t.entries.items };

    ghost use Rattle.std.specs.Cmp.Lexicographic.{slice_cmp};
    ghost use Rattle.std.specs.List.Sorted.{IsStrictlySortedBy};
    ghost use Rattle.std.specs.Ordering.{nat_cmp};
    ghost use Rattle.db_changes.specs.Touched.{AllRise};

    ghost invariant = { λ t. AllRise t.entries.items × IsStrictlySortedBy (λ e f. slice_cmp nat_cmp e.0 f.0) t.entries.items };
}

impl TouchedRows {
    /// No rows. It takes no memory.
    pub fn empty(alloc: Global) -> TouchedRows
        ensures { result ≡ [] }
    {
        TouchedRows {
            entries: Vec::new(alloc),
        }
    }

    /// Adds numbers of rows of the table of a name; numbers that are there stay. After an `Err`, which is want of memory, all is as
    /// it was. It costs the logarithm of how many names there are, and for each number that of how many numbers there are; a new name
    /// moves those behind it.
    pub fn add(&mut self, alloc: Global, name: &Name, numbers: &[u64]) -> Result<(), Memory>
        ensures ok { OnOk result (Adds name.now numbers.now self.old self.new) }
        ensures err { OnErr result (self.new ≡ self.old) }
    {
        let made = self.with_numbers(alloc, name, numbers)?;
        self.put(name, made)
    }

    // Puts numbers under a name, in place of those that are there.
    fn put(&mut self, name: &Name, numbers: Pages<u64>) -> Result<(), Memory>
        requires { IsStrictlySortedBy nat_cmp numbers }
        ensures ok { OnOk result ((q : List ℕ) → lookup (pointwise ◌==◌ q) self.new ≡ (if bytes_eq name.now q then Some numbers else lookup (pointwise ◌==◌ q) self.old)) }
        ensures err { OnErr result (self.new ≡ self.old) }
    {
        match self.place(name) {
            Ok(index) => {
                self.entries[index].1 = numbers;
                Ok(())
            }
            Err(index) => self.insert(index, name, numbers),
        }
    }

    // Puts numbers under a name that is not there, at its place.
    fn insert(&mut self, index: usize, name: &Name, numbers: Pages<u64>) -> Result<(), Memory>
        requires within { index ≤ length self.old }
        requires place { IsPartitionPoint (λ e. slice_cmp nat_cmp e.0 name.now ≡ Less) (λ e. slice_cmp nat_cmp e.0 name.now ≡ Greater) self.old index }
        requires rise { IsStrictlySortedBy nat_cmp numbers }
        ensures ok { OnOk result (self.new ≡ insert self.old index (name.now, numbers)) }
        ensures err { OnErr result (self.new ≡ self.old) }
    {
        self.entries.insert(index, (name.copy()?, numbers))?;
        Ok(())
    }

    // The numbers under a name, with some more.
    fn with_numbers(
        &self,
        alloc: Global,
        name: &Name,
        numbers: &[u64],
    ) -> Result<Pages<u64>, Memory>
        ensures rise { IfOk result (λ made. IsStrictlySortedBy nat_cmp made) }
        ensures added { IfOk result (λ made. AddsNumbers numbers.now (numbers_of self.now name.now) made) }
    {
        match self.of(name) {
            Some(held) => added(alloc, held.share()?, numbers),
            None => added(alloc, Pages::empty(), numbers),
        }
    }

    /// The numbers of the touched rows of the table of a name, which rise; None where it has no entry. It takes no memory. The
    /// cost is the logarithm of how many names there are.
    pub fn of(&self, name: &Name) -> Option<&Pages<u64>>
        ensures value { option_copied result ≡ lookup (pointwise ◌==◌ name.now) self.now }
        ensures rise { IsStrictlySortedBy nat_cmp (numbers_of self.now name.now) }
    {
        match self.place(name) {
            Ok(index) => Some(&self.entries[index].1),
            Err(_) => None,
        }
    }

    // Where the entry of a name stands, or where it would.
    fn place(&self, name: &Name) -> Result<usize, usize>
        ensures { MatchResult result (λ i. (i < length self.now) × HoldsAt (λ e. e.0 ≡ name.now) self.now i) (λ i. (i ≤ length self.now) × IsPartitionPoint (λ e. slice_cmp nat_cmp e.0 name.now ≡ Less) (λ e. slice_cmp nat_cmp e.0 name.now ≡ Greater) self.now i) }
    {
        self.entries
            .binary_search_by(|entry| entry.0.bytes().cmp(name.bytes()))
    }

    /// The same numbers once more. They are shared, so the cost grows with the names alone. The error is want of memory.
    pub fn share(&self) -> Result<TouchedRows, Memory>
        ensures { IfOk result (λ made. made ≡ self.now) }
    {
        let mut entries = Vec::with_capacity(*self.entries.allocator(), self.entries.len())?;
        for entry in &self.entries {
            push_shared(&mut entries, &entry.0, &entry.1)?;
        }
        Ok(TouchedRows { entries })
    }
}

// Puts a copy of a name with shared numbers at the end.
fn push_shared(
    entries: &mut Vec<(Name, Pages<u64>)>,
    name: &Name,
    numbers: &Pages<u64>,
) -> Result<(), Memory>
    ensures { OnOk result (entries.new.items ≡ entries.old.items ++ (name.now, numbers.now) ∷ []) }
{
    entries.push((name.copy()?, numbers.share()?))?;
    Ok(())
}

// A set of numbers with some more.
fn added(alloc: Global, set: Pages<u64>, numbers: &[u64]) -> Result<Pages<u64>, Memory>
    requires { IsStrictlySortedBy nat_cmp set }
    ensures rise { IfOk result (λ made. IsStrictlySortedBy nat_cmp made) }
    ensures added { IfOk result (λ made. AddsNumbers numbers.now set made) }
{
    let mut made = set;
    for number in numbers {
        made = with_member(alloc, &made, *number)?;
    }
    Ok(made)
}
