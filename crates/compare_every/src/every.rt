// The links of all commits, by their numbers.
ghost use Rattle.std.specs.Prelude.{◌≡◌, ℕ, List, IfOk, OnOk, Some, if◌then◌else◌, length, slice_get};
ghost use Rattle.std.specs.BTreeMap.{IsOrdered, get};
ghost use Rattle.std.specs.Cmp.Lexicographic.{slice_cmp};
ghost use Rattle.std.specs.FinMap as maps;
ghost use Rattle.std.specs.Map.{keys_of};
ghost use Rattle.std.specs.Option.{option_copied};
ghost use Rattle.std.specs.Ordering.{nat_cmp};
ghost use Rattle.compare_every.specs.Every.{first_row};
ghost use Rattle.meaning_settling.specs.Keyed.{is_at};
ghost use Rattle.meaning_settling.specs.Settling.{link_key, numbered};

use dl_base::{Copied, LinkNo, LinkRow, List, Memory};
use std::alloc::Global;
use std::collections::BTreeMap;
use std::marker::Model;

/// The links of all commits, each once, in the order of their numbers. Contracts see a map of numbers to links.
#[derive(Drop)]
pub struct EveryLink {
    rows: BTreeMap<[u64; 2], LinkRow>,
    // the numbers in order
    numbers: List<[u64; 2]>,
}

impl Model for EveryLink {
    ghost use Rattle.std.specs.Prelude.{◌≡◌};
    ghost use Rattle.std.specs.BTreeMap.{IsOrdered};
    ghost use Rattle.std.specs.Cmp.Lexicographic.{slice_cmp};
    ghost use Rattle.std.specs.FinMap.{from_entries};
    ghost use Rattle.std.specs.Map.{keys_of};
    ghost use Rattle.std.specs.Ordering.{nat_cmp};
    ghost use Rattle.dl_base.specs.declared.value.LinkRow.{LinkRow};
    ghost use Rattle.fm_branch.specs.Codes.{links_code};
    ghost use Rattle.meaning_settling.specs.Keyed.{Keyed};

    ghost Value = { Keyed LinkRow };

    ghost coded = { links_code };

    ghost view = { λ e. from_entries e.rows.entries };

    ghost invariant = { λ e. (e.numbers ≡ keys_of e.rows.entries) × IsOrdered (slice_cmp nat_cmp) e.rows };
}

impl EveryLink {
    /// The link of a number; None exactly where no commit has it. It takes no memory.
    pub fn get(&self, link: LinkNo) -> Option<&LinkRow>
        ensures { option_copied result ≡ maps.get self.now (link_key link) }
    {
        self.rows.get(&number_of(link))
    }

    /// How many links there are.
    pub fn len(&self) -> usize
        ensures { result ≡ length (maps.values self.now) }
    {
        self.numbers.len()
    }

    /// The link at a place from 0, in the order of the numbers; None past the last. It costs a look-up, and takes no memory.
    pub fn at(&self, index: usize) -> Option<&LinkRow>
        ensures { option_copied result ≡ slice_get (maps.values self.now) index }
    {
        match self.numbers.at(index) {
            Some(number) => self.rows.get(number),
            None => None,
        }
    }
}

/// Puts links among others by their numbers; under a number that is there the link stays. It costs a logarithm for each link.
pub fn put_rows(rows: &mut BTreeMap<[u64; 2], LinkRow>, links: &List<LinkRow>) -> Result<(), Memory>
    ensures { OnOk result ((n : List ℕ) → get (slice_cmp nat_cmp) rows.new n ≡ first_row (get (slice_cmp nat_cmp) rows.old n) (numbered links.now n)) }
{
    for link in links.as_slice() {
        put_row(rows, link)?;
    }
    Ok(())
}

fn put_row(rows: &mut BTreeMap<[u64; 2], LinkRow>, link: &LinkRow) -> Result<(), Memory>
    ensures { OnOk result ((n : List ℕ) → get (slice_cmp nat_cmp) rows.new n ≡ (if is_at n (link_key link.now.link) then first_row (get (slice_cmp nat_cmp) rows.old (link_key link.now.link)) (Some link.now) else get (slice_cmp nat_cmp) rows.old n)) }
{
    match rows.get(&number_of(link.link)) {
        Some(_) => Ok(()),
        None => put_copy(rows, link),
    }
}

fn put_copy(rows: &mut BTreeMap<[u64; 2], LinkRow>, link: &LinkRow) -> Result<(), Memory>
    ensures { OnOk result ((n : List ℕ) → get (slice_cmp nat_cmp) rows.new n ≡ (if is_at n (link_key link.now.link) then Some link.now else get (slice_cmp nat_cmp) rows.old n)) }
{
    let row = link.copy()?;
    rows.insert(number_of(link.link), row)?;
    Ok(())
}

/// The number of a link as a key: by transaction, and then by count.
pub fn number_of(link: LinkNo) -> [u64; 2]
    ensures { result ≡ link_key link }
{
    [link.tx, u64::from(link.k)]
}

/// The rows with the list of their numbers.
pub fn listed(alloc: Global, rows: BTreeMap<[u64; 2], LinkRow>) -> Result<EveryLink, Memory>
    ensures { IfOk result (λ every. every ≡ maps.from_entries {R = slice_cmp nat_cmp} rows.entries) }
{
    let numbers = numbers_of(alloc, &rows)?;
    Ok(EveryLink { rows, numbers })
}

// The numbers of rows, in order.
fn numbers_of(alloc: Global, rows: &BTreeMap<[u64; 2], LinkRow>) -> Result<List<[u64; 2]>, Memory>
    ensures numbers { IfOk result (λ numbers. numbers ≡ keys_of rows.now.entries) }
    ensures ordered { IsOrdered (slice_cmp nat_cmp) rows.now }
{
    let mut numbers = List::empty(alloc);
    for (number, _row) in rows.iter() {
        numbers.push(*number)?;
    }
    Ok(numbers)
}
