// The branches that have ended.
ghost use Rattle.std.specs.Prelude.{◌≡◌, ◌+◌, ◌<◌, ◌≤◌, ◌++◌, ◌∷◌, [], OnOk, false, nat_eq, true};
ghost use Rattle.std.specs.HashSet.{Updates, spare as room};
ghost use Rattle.meaning_areas.specs.Commits.{has_number};

use dl_base::Memory;
use std::alloc::Global;
use std::collections::HashSet;
use std::marker::Model;

/// Transactions whose branches have ended: the list in the order of their ends, and the set of them. Contracts see the list, and for
/// how many more there is room.
#[derive(Drop)]
pub struct Ended {
    numbers: Vec<u64>,
    known: HashSet<u64>,
}

impl Model for Ended {
    ghost use Rattle.std.specs.Prelude.{◌-◌, min};
    ghost use Rattle.std.specs.HashSet.{spare as room};
    ghost use Rattle.std.specs.Vec.{vec_capacity, vec_len};
    ghost use Rattle.db_store.specs.Log.{Ended as Kept, KnowsNumbers};

    ghost Value = { Kept };

    ghost view = { λ e. record { numbers = e.numbers.items; spare = min (vec_capacity e.numbers - vec_len e.numbers) (room e.known) } };

    ghost invariant = { λ e. KnowsNumbers e.known e.numbers.items };
}

impl Ended {
    /// None. It takes no memory.
    pub fn empty(alloc: Global) -> Ended
        ensures { result.numbers ≡ [] }
    {
        Ended {
            numbers: Vec::new(alloc),
            known: HashSet::new(alloc),
        }
    }

    /// Whether the branch of a transaction has ended. It takes no memory.
    pub fn has(&self, tx: u64) -> bool
        ensures { result ≡ has_number tx self.now.numbers }
    {
        self.known.contains(&tx)
    }

    /// Makes room for so many more.
    pub fn make_room(&mut self, count: usize) -> Result<(), Memory>
        ensures numbers { self.new.numbers ≡ self.old.numbers }
        ensures room { OnOk result (count ≤ self.new.spare) }
        ensures spare { self.old.spare ≤ self.new.spare }
    {
        self.numbers.reserve(count)?;
        self.known.reserve(count)?;
        Ok(())
    }

    /// Puts a transaction at the end, for which there is room. It takes no memory.
    pub fn put(&mut self, tx: u64)
        requires new { has_number tx self.old.numbers ≡ false }
        requires room { 0 < self.old.spare }
        ensures numbers { self.new.numbers ≡ self.old.numbers ++ tx ∷ [] }
        ensures spare { self.old.spare ≤ self.new.spare + 1 }
    {
        know(&mut self.known, tx);
        self.numbers.push_reserved(tx);
    }
}

// Puts a number into the set, for which there is room. It takes no memory.
fn know(known: &mut HashSet<u64>, tx: u64)
    requires { 0 < room known.old }
    ensures known { Updates nat_eq known.old known.new tx true }
    ensures spare { room known.old ≤ room known.new + 1 }
{
    let _ = known.insert(tx);
}
