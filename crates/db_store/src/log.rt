// The commits in memory, by transaction number.
ghost use Rattle.std.specs.Prelude.{◌≡◌, ◌+◌, ◌<◌, ◌≤◌, ◌^◌, ◌++◌, ◌∷◌, [], None, Some, OnOk, MatchOption, drop, is_none, is_some, length, nat_eq, slice_get};
ghost use Rattle.std.specs.HashMap.{Updates, spare as room};
ghost use Rattle.std.specs.Map.{lookup};
ghost use Rattle.std.specs.Option.{option_map};
ghost use Rattle.db_store.specs.Log.{commit_numbered, commits_from, has_branch};
ghost use Rattle.meaning_areas.specs.Commits.{commit_of};

use dl_base::{Memory, Text};
use std::alloc::Global;
use std::collections::HashMap;
use std::marker::Model;

/// A commit: whether its transaction has a branch, and the bytes of its record.
#[derive(Drop)]
pub struct Entry {
    pub branch: bool,
    pub body: Text,
}

/// Commits by transaction number: the list of them in order, and by number whether a transaction has a branch. Contracts see the
/// list, and for how many more there is room.
#[derive(Drop)]
pub struct Log {
    entries: Vec<(u64, Entry)>,
    branches: HashMap<u64, bool>,
}

impl Model for Log {
    ghost use Rattle.std.specs.Prelude.{◌-◌, min};
    ghost use Rattle.std.specs.HashMap.{spare as room};
    ghost use Rattle.std.specs.Vec.{vec_capacity, vec_len};
    ghost use Rattle.db_store.specs.Log.{KnowsBranches, Log as Kept};

    ghost Value = { Kept };

    ghost view = { λ l. record { entries = l.entries.items; spare = min (vec_capacity l.entries - vec_len l.entries) (room l.branches) } };

    ghost invariant = { λ l. KnowsBranches l.branches l.entries.items };
}

impl Log {
    /// No commits. It takes no memory.
    pub fn empty(alloc: Global) -> Log
        ensures { result.entries ≡ [] }
    {
        Log {
            entries: Vec::new(alloc),
            branches: HashMap::new(alloc),
        }
    }

    /// How many commits there are.
    pub fn len(&self) -> usize
        ensures value { result ≡ length self.now.entries }
        ensures commits { result ≡ length (commits_from 1 [] self.now.entries) }
        ensures small { result < 2 ^ 63 }
    {
        self.entries.len()
    }

    /// The commit at a place from 0, with its transaction number; None past the last.
    pub fn at(&self, index: usize) -> Option<(&u64, &Entry)>
        ensures value { option_map (λ e. (e.0.now, e.1.now)) result ≡ slice_get self.now.entries index }
        ensures left { MatchOption result (drop index self.now.entries ≡ []) (λ e. drop index self.now.entries ≡ (e.0.now, e.1.now) ∷ drop (index + 1) self.now.entries) }
    {
        match self.entries.get(index) {
            Some((tx, entry)) => Some((tx, entry)),
            None => None,
        }
    }

    /// Whether a transaction has a commit. It takes no memory.
    pub fn has(&self, tx: u64) -> bool
        ensures entry { result ≡ is_some (lookup (λ k. nat_eq tx k) self.now.entries) }
        ensures commit { result ≡ is_some (commit_of tx (commits_from 1 [] self.now.entries)) }
    {
        self.branches.contains_key(&tx)
    }

    /// Whether a transaction has no commit. It takes no memory.
    pub fn lacks(&self, tx: u64) -> bool
        ensures { result ≡ is_none (commit_of tx (commits_from 1 [] self.now.entries)) }
    {
        !self.has(tx)
    }

    /// Whether a transaction has a commit with a branch. It takes no memory.
    pub fn has_branch(&self, tx: u64) -> bool
        ensures { result ≡ has_branch (commit_of tx (commits_from 1 [] self.now.entries)) }
    {
        match self.branches.get(&tx) {
            Some(branch) => *branch,
            None => false,
        }
    }

    /// The transaction of a commit, from 1, and whether that has a branch; None exactly where there is no such commit. It takes no
    /// memory.
    #[tactic(auto, using(crate::proofs::LogLaws::at_back))]
    pub fn commit_at(&self, commit: u64) -> Option<(u64, bool)>
        ensures { result ≡ option_map (λ c. (c.tx, c.branch)) (commit_numbered (commits_from 1 [] self.now.entries) commit) }
    {
        if commit == 0 {
            return None;
        }
        match self.at((commit - 1) as usize) {
            Some((tx, entry)) => Some((*tx, entry.branch)),
            None => None,
        }
    }

    /// Makes room for so many more commits.
    pub fn make_room(&mut self, count: usize) -> Result<(), Memory>
        ensures entries { self.new.entries ≡ self.old.entries }
        ensures room { OnOk result (count ≤ self.new.spare) }
        ensures spare { self.old.spare ≤ self.new.spare }
    {
        self.entries.reserve(count)?;
        self.branches.reserve(count)?;
        Ok(())
    }

    /// Puts a commit at the end, for which there is room. It takes no memory.
    pub fn push(&mut self, tx: u64, entry: Entry)
        requires new { lookup (λ k. nat_eq tx k) self.old.entries ≡ None }
        requires room { 0 < self.old.spare }
        ensures entries { self.new.entries ≡ self.old.entries ++ (tx, entry) ∷ [] }
        ensures spare { self.old.spare ≤ self.new.spare + 1 }
    {
        know(&mut self.branches, tx, entry.branch);
        self.entries.push_reserved((tx, entry));
    }
}

// Puts into the map whether a transaction has a branch, for which there is room. It takes no memory.
fn know(branches: &mut HashMap<u64, bool>, tx: u64, branch: bool)
    requires { 0 < room branches.old }
    ensures branches { Updates nat_eq branches.old branches.new tx (Some branch) }
    ensures spare { room branches.old ≤ room branches.new + 1 }
{
    let _ = branches.insert(tx, branch);
}
