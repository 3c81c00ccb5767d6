// What is made for a vote.
ghost use Rattle.std.specs.Prelude.{◌≡◌, ◌+◌, ◌≤◌, IfOk, OnOk, length};
ghost use Rattle.fm_links.specs.Claims.{moved};
ghost use Rattle.fm_manager.specs.Managed.{Roomier};
ghost use Rattle.fm_pieces.specs.Keeping.{AreThere, HasPieces};
ghost use Rattle.meaning_system.specs.State.{State, Txn, has_links, moved_of};
ghost use Rattle.sys_records.specs.Room.{HaveMoreRoom};
ghost use Rattle.sys_seats.specs.Seats.{all_of, gives_of, votes_of};

use crate::branch::moves_links;
use crate::room::make_room;
use db_changes::Made;
use dl_base::{Copied, List, Memory, Name};
use fm_manager::{Manager, Pieces};
use fm_pieces::pieces_as_they_are_made;
use sys_owners::Owners;
use sys_seats::{SeatClaim, Seats, Vote};

/// Whether a transaction gives or takes a link. It takes no memory.
pub fn has_links(claim: &SeatClaim) -> bool
    ensures { result ≡ has_links (moved claim.now.gives claim.now.takes) }
{
    moves_links(&claim.gives, &claim.takes)
}

/// What is made for the vote on a transaction that has claimed this, whose statements named these tables and which has made this. Behind
/// it there is room for the commit, and for copies of the links that are given. The error is want of memory, also where a file that is
/// to be copied has 2^32 bytes or more; it leaves all as it was but for room. It costs the names, a look at each transaction, n log n
/// for n links, and the bytes of the files that are copied.
pub fn vote_of(
    owners: &mut Owners,
    seats: &Seats,
    tx: u64,
    claim: &SeatClaim,
    names: &List<Name>,
    made: Made,
) -> Result<Vote, Memory>
    ensures made { IfOk result (λ vote. vote.made ≡ made) }
    ensures names { IfOk result (λ vote. vote.names ≡ names.now) }
    ensures pieces { (s : State) (t : Txn) → s.files ≡ owners.old.manager.files.files → s.copies ≡ owners.old.manager.archive.copies → claim.now.gives ≡ (moved_of t).gives → claim.now.takes ≡ (moved_of t).takes
        → AreThere s.files (moved_of t) → IfOk result (λ vote. HasPieces s tx t vote.pieces) }
    ensures same { HaveMoreRoom owners.old owners.new }
    ensures commits { OnOk result (all_of votes_of seats.now + 1 ≤ owners.new.store.spare) }
    ensures copies { OnOk result (all_of gives_of seats.now + length claim.now.gives ≤ owners.new.manager.archive.spare) }
{
    match names_and_pieces(owners, seats, tx, claim, names) {
        Ok((names, pieces)) => Ok(Vote {
            made,
            names,
            pieces,
        }),
        Err(Memory) => {
            drop(made);
            Err(Memory)
        }
    }
}

// A copy of the names of a vote, and its pieces. Behind it there is the room that the vote wants.
fn names_and_pieces(
    owners: &mut Owners,
    seats: &Seats,
    tx: u64,
    claim: &SeatClaim,
    names: &List<Name>,
) -> Result<(List<Name>, Option<Pieces>), Memory>
    ensures names { IfOk result (λ both. both.0 ≡ names.now) }
    ensures pieces { (s : State) (t : Txn) → s.files ≡ owners.old.manager.files.files → s.copies ≡ owners.old.manager.archive.copies → claim.now.gives ≡ (moved_of t).gives → claim.now.takes ≡ (moved_of t).takes
        → AreThere s.files (moved_of t) → IfOk result (λ both. HasPieces s tx t both.1) }
    ensures same { HaveMoreRoom owners.old owners.new }
    ensures commits { OnOk result (all_of votes_of seats.now + 1 ≤ owners.new.store.spare) }
    ensures copies { OnOk result (all_of gives_of seats.now + length claim.now.gives ≤ owners.new.manager.archive.spare) }
{
    let names = names.copy()?;
    match pieces_with_room(owners, seats, tx, claim) {
        Ok(pieces) => Ok((names, pieces)),
        Err(Memory) => {
            drop(names);
            Err(Memory)
        }
    }
}

// The pieces of a vote, and then the room that it wants.
fn pieces_with_room(
    owners: &mut Owners,
    seats: &Seats,
    tx: u64,
    claim: &SeatClaim,
) -> Result<Option<Pieces>, Memory>
    ensures pieces { (s : State) (t : Txn) → s.files ≡ owners.old.manager.files.files → s.copies ≡ owners.old.manager.archive.copies → claim.now.gives ≡ (moved_of t).gives → claim.now.takes ≡ (moved_of t).takes
        → AreThere s.files (moved_of t) → IfOk result (HasPieces s tx t) }
    ensures same { HaveMoreRoom owners.old owners.new }
    ensures commits { OnOk result (all_of votes_of seats.now + 1 ≤ owners.new.store.spare) }
    ensures copies { OnOk result (all_of gives_of seats.now + length claim.now.gives ≤ owners.new.manager.archive.spare) }
{
    let pieces = pieces_of(&mut owners.manager, tx, claim)?;
    match make_room(owners, seats, 1, claim.gives.len()) {
        Ok(()) => Ok(pieces),
        Err(Memory) => {
            drop(pieces);
            Err(Memory)
        }
    }
}

// The pieces of the Finish of a transaction, where it gives or takes a link.
fn pieces_of(manager: &mut Manager, tx: u64, claim: &SeatClaim) -> Result<Option<Pieces>, Memory>
    ensures pieces { (s : State) (t : Txn) → s.files ≡ manager.old.files.files → s.copies ≡ manager.old.archive.copies → claim.now.gives ≡ (moved_of t).gives → claim.now.takes ≡ (moved_of t).takes
        → AreThere s.files (moved_of t) → IfOk result (HasPieces s tx t) }
    ensures same { Roomier manager.old manager.new }
{
    pieces_as_they_are_made();
    if !has_links(claim) {
        return Ok(None);
    }
    let pieces = manager.pieces(tx, &claim.gives, &claim.takes, false)?;
    Ok(Some(pieces))
}
