// The transactions that have not ended.
ghost use Rattle.std.specs.Prelude.{◌≡◌, ◌≤◌, ◌^◌, ℕ, IfNone, IfSome, OnOk, OnErr, false};
ghost use Rattle.std.specs.BTreeMap.{IsOrdered, get};
ghost use Rattle.std.specs.FinMap as maps;
ghost use Rattle.std.specs.Option.{option_copied, option_map};
ghost use Rattle.std.specs.Ordering.{is_eq, nat_cmp};
ghost use Rattle.meaning_system.specs.State.{is_active};
ghost use Rattle.sys_seats.specs.Seats.{all_of, first_bound, gives_of, phase_of, phases_in, sum_of, unfinished_of, votes_of, with_claim, with_stage};
ghost use Rattle.sys_seats.specs.declared.seat.Seat as kept;

use crate::seat::{Seat, SeatClaim, Stage};
use dl_base::Memory;
use std::alloc::Global;
use std::collections::BTreeMap;
use std::marker::Model;
use std::mem;

/// The transactions that have not ended, by their numbers.
#[derive(Drop)]
pub struct Seats {
    entries: BTreeMap<u64, Seat>,
}

impl Model for Seats {
    ghost use Rattle.std.specs.Coded.{coded_ℕ};
    ghost use Rattle.std.specs.FinMap as maps;
    ghost use Rattle.sys_seats.specs.Seats.{Seated};
    ghost use Rattle.sys_seats.specs.contracts.seat.Seat.{the_row};

    ghost Value = { Seated };

    ghost coded = { maps.code coded_ℕ the_row.coded };

    ghost view = { λ s. maps.from_entries s.entries.entries };
}

impl Seats {
    /// No transaction. It takes no memory.
    pub fn empty(alloc: Global) -> Seats
        ensures { result ≡ maps.empty }
    {
        Seats {
            entries: BTreeMap::new(alloc),
        }
    }

    /// What is kept of a transaction; None where that has ended. It takes no memory.
    pub fn get(&self, tx: u64) -> Option<&Seat>
        ensures { option_copied result ≡ maps.get self.now tx }
    {
        self.entries.get(&tx)
    }

    /// Puts a transaction in, in place of what is kept of it. After an `Err`, which is want of memory, all is as it was.
    pub fn put(&mut self, tx: u64, seat: Seat) -> Result<(), Memory>
        ensures ok { OnOk result (self.new ≡ maps.insert self.old tx seat) }
        ensures err { OnErr result (self.new ≡ self.old) }
    {
        insert(&mut self.entries, tx, seat)?;
        Ok(())
    }

    /// Takes what is kept of a transaction out, if there is something. It takes no memory.
    pub fn take(&mut self, tx: u64) -> Option<Seat>
        ensures value { result ≡ maps.get self.old tx }
        ensures seats { self.new ≡ maps.remove self.old tx }
    {
        remove(&mut self.entries, tx)
    }

    /// Puts a stage in the place of a transaction's own, which it gives back; nothing where the transaction has ended. It takes no
    /// memory.
    pub fn change_stage(&mut self, tx: u64, stage: Stage) -> Option<Stage>
        ensures value { result ≡ option_map (λ s. s.stage) (maps.get self.old tx) }
        ensures seats { self.new ≡ with_stage self.old tx stage (maps.get self.old tx) }
    {
        set_stage(&mut self.entries, tx, stage)
    }

    /// Puts a claim in the place of a transaction's own; nothing where the transaction has ended. It takes no memory.
    pub fn change_claim(&mut self, tx: u64, claim: SeatClaim)
        ensures { self.new ≡ with_claim self.old tx claim (maps.get self.old tx) }
    {
        set_claim(&mut self.entries, tx, claim);
    }

    /// How many commits the prepared ones may make; None past 2^64 - 1. It costs a look at each transaction.
    pub fn votes(&self) -> Option<u64>
        ensures sum { IfSome result (λ n. n ≡ all_of votes_of self.now) }
        ensures past { IfNone result (2 ^ 64 ≤ all_of votes_of self.now) }
    {
        votes_in(&self.entries)
    }

    /// How many links the prepared and decided ones give, each of which may want a copy; None past 2^64 - 1. It costs a look at each
    /// transaction.
    pub fn gives(&self) -> Option<u64>
        ensures sum { IfSome result (λ n. n ≡ all_of gives_of self.now) }
        ensures past { IfNone result (2 ^ 64 ≤ all_of gives_of self.now) }
    {
        gives_in(&self.entries)
    }

    /// The least number of a transaction that is prepared or decided; None where each one is active. It takes no memory, and costs a look
    /// at each transaction.
    pub fn unfinished(&self) -> Option<u64>
        ensures { result ≡ unfinished_of self.now }
    {
        first_unfinished(&self.entries)
    }
}

// One transaction more, in place of what is kept of it.
fn insert(entries: &mut BTreeMap<u64, Seat>, tx: u64, seat: Seat) -> Result<(), Memory>
    ensures ok { OnOk result (maps.from_entries {R = nat_cmp} entries.new.entries ≡ maps.insert (maps.from_entries entries.old.entries) tx seat) }
    ensures err { OnErr result (entries.new.entries ≡ entries.old.entries) }
{
    entries.insert(tx, seat)?;
    Ok(())
}

// The entries without that of a transaction, which it gives back.
fn remove(entries: &mut BTreeMap<u64, Seat>, tx: u64) -> Option<Seat>
    ensures value { result ≡ maps.get (maps.from_entries {R = nat_cmp} entries.old.entries) tx }
    ensures rest { maps.from_entries {R = nat_cmp} entries.new.entries ≡ maps.remove (maps.from_entries entries.old.entries) tx }
{
    entries.remove(&tx)
}

// Another stage of a transaction, if it is there; it gives back the one before.
fn set_stage(entries: &mut BTreeMap<u64, Seat>, tx: u64, stage: Stage) -> Option<Stage>
    ensures value { result ≡ option_map (λ (s : kept.Seat). s.stage) (get nat_cmp entries.old tx) }
    ensures entry { get nat_cmp entries.new tx ≡ option_map (λ (s : kept.Seat). record { claim = s.claim; stage = stage }) (get nat_cmp entries.old tx) }
    ensures others { (q : ℕ) → is_eq (nat_cmp tx q) ≡ false → get nat_cmp entries.new q ≡ get nat_cmp entries.old q }
{
    match entries.get_mut(&tx) {
        Some(seat) => Some(mem::replace(&mut seat.stage, stage)),
        None => None,
    }
}

// Another claim of a transaction, if it is there.
fn set_claim(entries: &mut BTreeMap<u64, Seat>, tx: u64, claim: SeatClaim)
    ensures entry { get nat_cmp entries.new tx ≡ option_map (λ (s : kept.Seat). record { claim = claim; stage = s.stage }) (get nat_cmp entries.old tx) }
    ensures others { (q : ℕ) → is_eq (nat_cmp tx q) ≡ false → get nat_cmp entries.new q ≡ get nat_cmp entries.old q }
{
    match entries.get_mut(&tx) {
        Some(seat) => seat.claim = claim,
        None => {}
    }
}

// How many commits may be made; None past 2^64 - 1.
fn votes_in(entries: &BTreeMap<u64, Seat>) -> Option<u64>
    ensures sum { IfSome result (λ n. n ≡ sum_of votes_of entries.now.entries) }
    ensures past { IfNone result (2 ^ 64 ≤ sum_of votes_of entries.now.entries) }
    ensures ordered { IsOrdered nat_cmp entries.now }
{
    let mut sum: u64 = 0;
    for (_, seat) in entries.iter() {
        sum = sum.checked_add(voted_by(seat))?;
    }
    Some(sum)
}

// How many commits a transaction may make.
fn voted_by(seat: &Seat) -> u64
    ensures { result ≡ votes_of seat.now }
{
    match &seat.stage {
        Stage::Prepared(_) => 1,
        Stage::Active | Stage::Decided(_) => 0,
    }
}

// How many links are given; None past 2^64 - 1.
fn gives_in(entries: &BTreeMap<u64, Seat>) -> Option<u64>
    ensures sum { IfSome result (λ n. n ≡ sum_of gives_of entries.now.entries) }
    ensures past { IfNone result (2 ^ 64 ≤ sum_of gives_of entries.now.entries) }
    ensures ordered { IsOrdered nat_cmp entries.now }
{
    let mut sum: u64 = 0;
    for (_, seat) in entries.iter() {
        sum = sum.checked_add(given_by(seat))?;
    }
    Some(sum)
}

// How many links a transaction gives, once it is prepared.
fn given_by(seat: &Seat) -> u64
    ensures { result ≡ gives_of seat.now }
{
    match &seat.stage {
        Stage::Active => 0,
        Stage::Prepared(_) | Stage::Decided(_) => seat.claim.gives.len() as u64,
    }
}

// The number of the first transaction that is not active.
fn first_unfinished(entries: &BTreeMap<u64, Seat>) -> Option<u64>
    ensures first { result ≡ first_bound (phases_in entries.now.entries) }
    ensures ordered { IsOrdered nat_cmp entries.now }
{
    for (tx, seat) in entries.iter() {
        if !is_active(seat) {
            return Some(*tx);
        }
    }
    None
}

fn is_active(seat: &Seat) -> bool
    ensures { result ≡ is_active (phase_of seat.now.stage) }
{
    match &seat.stage {
        Stage::Active => true,
        Stage::Prepared(_) | Stage::Decided(_) => false,
    }
}
