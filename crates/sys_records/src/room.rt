// Room for what is written later without memory.
ghost use Rattle.std.specs.Prelude.{◌≡◌, ◌+◌, ◌^◌, ◌≤◌, IfOk, OnErr, OnOk};
ghost use Rattle.sys_records.specs.Room.{HaveMoreRoom};
ghost use Rattle.sys_seats.specs.Seats.{all_of, gives_of, votes_of};

use dl_base::Memory;
use sys_owners::Owners;
use sys_seats::Seats;

// Makes room for so many more commits beside those that are voted for, and for copies of so many more links that are given.
pub(crate) fn make_room(
    owners: &mut Owners,
    seats: &Seats,
    commits: usize,
    gives: usize,
) -> Result<(), Memory>
    ensures same { HaveMoreRoom owners.old owners.new }
    ensures commits { OnOk result (all_of votes_of seats.now + commits ≤ owners.new.store.spare) }
    ensures copies { OnOk result (all_of gives_of seats.now + gives ≤ owners.new.manager.archive.spare) }
{
    let commits = votes_with(seats, commits)?;
    let copies = gives_with(seats, gives)?;
    owners.store.make_room(commits)?;
    owners.manager.make_room(copies)
}

fn votes_with(seats: &Seats, more: usize) -> Result<u64, Memory>
    ensures sum { IfOk result (λ n. n ≡ all_of votes_of seats.now + more) }
    ensures past { OnErr result (2 ^ 64 ≤ all_of votes_of seats.now + more) }
{
    let Some(votes) = seats.votes() else {
        return Err(Memory);
    };
    match votes.checked_add(more as u64) {
        Some(sum) => Ok(sum),
        None => Err(Memory),
    }
}

/// How many links the prepared and decided transactions give, together with so many more, each of which may want a copy. The error, where
/// that is past 2^64 - 1, counts as want of memory. It takes no memory, and costs a look at each transaction.
pub fn gives_with(seats: &Seats, more: usize) -> Result<u64, Memory>
    ensures sum { IfOk result (λ n. n ≡ all_of gives_of seats.now + more) }
    ensures past { OnErr result (2 ^ 64 ≤ all_of gives_of seats.now + more) }
{
    let Some(gives) = seats.gives() else {
        return Err(Memory);
    };
    match gives.checked_add(more as u64) {
        Some(sum) => Ok(sum),
        None => Err(Memory),
    }
}
