// The claim of a statement.
ghost use Rattle.std.specs.Prelude.{◌≡◌, IfOk, OnErr, OnOk};
ghost use Rattle.std.specs.Cmp.Lexicographic.{pointwise};
ghost use Rattle.std.specs.FinMap as maps;
ghost use Rattle.fm_links.specs.Claims.{moved};
ghost use Rattle.meaning_areas.specs.Same.{same_link};
ghost use Rattle.meaning_system.specs.Claims.{first_seen};
ghost use Rattle.sys_core.specs.Claiming.{EndsClaim, HasClaimed, HasSameClaims, claims_same, claims_with, leaves_tables, left_tables, opening_in, seen_at};

use crate::engine::Engine;
use db_txn::Txn;
use dl_base::{LinkRow, List, Memory, Refusal, Same};
use fm_links::Claims;
use sql_run::Outcome;
use sys_seats::{SeatClaim, Seats};

impl Engine {
    // Claims what a transaction gives and takes after its last evaluation, in the place of what it has claimed, and tells why it may not.
    // Nothing is asked where the evaluation left the tables as they were, or where the transaction claims the same links already. The
    // error is want of memory, after which the claims are as they were. Where the evaluation changed the tables it costs what `moved` of
    // `Txn` does, n log n of the links named, and nothing of the claims of others.
    pub(crate) fn claim(&mut self, txn: &Txn, tx: u64) -> Result<Option<Refusal>, Memory>
        ensures ends { IfOk result (EndsClaim self.old self.new tx txn.now) }
        ensures memory { OnErr result (HasSameClaims self.old self.new) }
    {
        if left_tables(txn) {
            return Ok(None);
        }
        let (gives, takes) = txn.moved()?;
        if self.has_claimed(tx, &gives, &takes) {
            return Ok(None);
        }
        if let Some(refusal) = self.claim_refusal(txn, tx, &gives, &takes)? {
            return Ok(Some(refusal));
        }
        self.put_claim(tx, gives, takes)?;
        Ok(None)
    }

    // Whether a transaction claims these links already, link by link.
    fn has_claimed(&self, tx: u64, gives: &List<LinkRow>, takes: &List<LinkRow>) -> bool
        ensures { result ≡ claims_same gives.now takes.now (maps.get self.now.seats tx) }
    {
        match self.seats.get(tx) {
            Some(seat) => {
                are_same(&seat.claim.gives, gives) && are_same(&seat.claim.takes, takes)
            }
            None => false,
        }
    }

    // Puts the claim of a transaction in the place of the one that it had.
    fn put_claim(
        &mut self,
        tx: u64,
        gives: List<LinkRow>,
        takes: List<LinkRow>,
    ) -> Result<(), Memory>
        ensures ok { OnOk result (HasClaimed self.old self.new tx gives takes) }
        ensures err { OnErr result (HasSameClaims self.old self.new) }
    {
        let seen = self.seen(tx);
        replace(&mut self.claims, &self.seats, tx, &gives, &takes)?;
        self.seats
            .change_claim(tx, SeatClaim { seen, gives, takes });
        Ok(())
    }

    // The opening of Links at the first claim of a transaction, which may be this one.
    fn seen(&self, tx: u64) -> Option<u32>
        ensures { result ≡ seen_at (opening_in self.now) (maps.get self.now.seats tx) }
    {
        match self.seats.get(tx) {
            Some(seat) => {
                let opening = self.owners.manager.branches().opening();
                first_seen(seat.claim.seen, opening)
            }
            None => None,
        }
    }
}

// Puts the claims of a transaction in the place of those that its seat has.
fn replace(
    claims: &mut Claims,
    seats: &Seats,
    tx: u64,
    gives: &List<LinkRow>,
    takes: &List<LinkRow>,
) -> Result<(), Memory>
    ensures ok { OnOk result (claims.new.claims ≡ claims_with tx (moved gives.now takes.now) (maps.get seats.now tx) claims.old.claims) }
    ensures err { OnErr result (claims.new.claims ≡ claims.old.claims) }
{
    match seats.get(tx) {
        Some(seat) => claims.replace(tx, &seat.claim.gives, &seat.claim.takes, gives, takes),
        None => Ok(()),
    }
}

fn first_seen(seen: Option<u32>, opening: u32) -> Option<u32>
    ensures { result ≡ first_seen seen opening }
{
    match seen {
        Some(seen) => Some(seen),
        None => Some(opening),
    }
}

// Whether some links are the same, link by link.
fn are_same(some: &List<LinkRow>, others: &List<LinkRow>) -> bool
    ensures { result ≡ pointwise same_link some.now others.now }
{
    some.same(others)
}

// Whether the last evaluation of a transaction left its tables as they were.
fn left_tables(txn: &Txn) -> bool
    ensures { result ≡ left_tables txn.now.kept }
{
    match txn.outcome() {
        Some(outcome) => leaves_tables(outcome),
        None => false,
    }
}

fn leaves_tables(outcome: &Outcome) -> bool
    ensures { result ≡ leaves_tables outcome.now }
{
    match outcome {
        Outcome::Changed(_) => false,
        Outcome::Rows(_) => true,
        Outcome::Done => false,
        Outcome::Refused(_) => true,
    }
}
