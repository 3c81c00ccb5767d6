// What the records of the area Rows stand for so far, at an opening.
ghost use Rattle.std.specs.Prelude.{◌≡◌, ◌+◌, ◌/◌, ◌^◌, ◌≤◌, ◌==◌, ◌&&◌, [], List, IfOk, is_none, length, not};
ghost use Rattle.std.specs.Bool.{then_some};
ghost use Rattle.db_changes.specs.Made.{changes_in};
ghost use Rattle.db_store.specs.Log.{AllCommitted, commits_from, has_branch, open_branches};
ghost use Rattle.meaning_areas.specs.Commits.{commit_of, has_number, commits_on, ends_on, no_commits, opens_on, tables_after};

use crate::ended::Ended;
use crate::log::{Entry, Log};
use db_replay::replay;
use dl_base::{List, Memory, Text};
use dl_codec::TableChange;
use sql_table::Tables;
use std::alloc::Global;
use std::marker::Model;

/// The commits so far, with the tables behind the last. Contracts see what the records stand for.
#[derive(Drop)]
pub struct History {
    tables: Tables,
    log: Log,
    opening: u32,
    ended: Ended,
}

impl Model for History {
    ghost use Rattle.std.specs.Prelude.{◌≡◌, ◌≤◌, []};
    ghost use Rattle.db_replay.specs.Replaying.{ColumnsStand};
    ghost use Rattle.db_store.specs.Log.{AllCommitted, commits_from, open_branches};
    ghost use Rattle.meaning_areas.specs.Commits.{Commits, tables_after};
    ghost use Rattle.meaning_tables.specs.Fits.{Fits};

    ghost Value = { Commits };

    ghost view = { λ h. record { opening = h.opening; commits = commits_from 1 [] h.log.entries; ended = h.ended.numbers } };

    ghost invariant = { λ h. (h.tables ≡ tables_after [] (commits_from 1 [] h.log.entries)) × Fits h.tables × ColumnsStand h.tables × AllCommitted (commits_from 1 [] h.log.entries) × (open_branches h.ended.numbers (commits_from 1 [] h.log.entries) ≤ h.ended.spare) };
}

impl History {
    /// No records. It takes no memory.
    pub fn empty(alloc: Global) -> History
        ensures { result ≡ no_commits }
    {
        History {
            tables: Tables::empty(alloc),
            log: Log::empty(alloc),
            opening: 0,
            ended: Ended::empty(alloc),
        }
    }

    /// Takes an opening, and says whether it is the next one. Where it is refused, all is as before.
    #[tactic(auto, using(crate::proofs::HistoryLaws::opens_next, crate::proofs::HistoryLaws::opens_none))]
    pub fn opens(&mut self, number: u32) -> bool
        ensures { opens_on self.old number ≡ then_some result self.new }
    {
        if u64::from(number) != u64::from(self.opening) + 1 {
            return false;
        }
        self.opening = number;
        true
    }

    // Whether a transaction has a commit with a branch that has not ended.
    fn can_end(&self, tx: u64) -> bool
        ensures { result ≡ (has_branch (commit_of tx self.now.commits) && not (has_number tx self.now.ended)) }
    {
        self.log.has_branch(tx) && !self.ended.has(tx)
    }

    /// Takes the end of a branch, and says whether the branch is one of a commit, and has not ended yet. Where it is refused, all is
    /// as before. It takes no memory.
    #[tactic(auto, using(crate::proofs::HistoryLaws::ends_yes, crate::proofs::HistoryLaws::ends_no))]
    pub fn ends(&mut self, tx: u64) -> bool
        ensures { ends_on self.old tx (commit_of tx self.old.commits) ≡ then_some result self.new }
    {
        if !self.can_end(tx) {
            return false;
        }
        self.ended.put(tx);
        true
    }

    // Whether the next commit has this number, and may be one of this transaction.
    fn is_next(&self, tx: u64, number: u64) -> bool
        ensures { result ≡ ((number == length self.now.commits + 1) && is_none (commit_of tx self.now.commits) && (tx / 2 ^ 32 == self.now.opening)) }
    {
        number == self.log.len() as u64 + 1
            && self.log.lacks(tx)
            && tx / 4_294_967_296 == u64::from(self.opening)
    }

    /// Takes a commit, whose record has these bytes, and says whether the tables after its changes fit, and it is the next one.
    #[tactic(auto, using(crate::proofs::HistoryLaws::commits_none, crate::proofs::HistoryLaws::commits_unfit, crate::proofs::HistoryLaws::commits_fit, crate::proofs::HistoryLaws::none_open, crate::proofs::HistoryLaws::after_all))]
    pub fn commits(
        &mut self,
        alloc: Global,
        tx: u64,
        number: u64,
        branch: bool,
        changes: &List<TableChange>,
        body: Text,
    ) -> Result<bool, Memory>
        requires { changes_in body ≡ changes.now }
        ensures { IfOk result (λ taken. commits_on self.old tx number branch changes.now ≡ then_some taken self.new) }
    {
        if !self.is_next(tx, number) {
            return Ok(false);
        }
        self.log.make_room(1)?;
        self.ended.make_room(self.log.len() + 1)?;
        match replay(alloc, &self.tables, number, changes)? {
            Some(tables) => {
                self.tables = tables;
                self.log.push(tx, Entry { branch, body });
                Ok(true)
            }
            None => Ok(false),
        }
    }

    /// The tables behind the last commit, the commits, the last opening, and the ended branches, with room for those that have not
    /// ended. It takes no memory.
    pub fn into_parts(self) -> (Tables, Log, u32, Ended)
        ensures parts { self ≡ record { opening = result.2; commits = commits_from 1 [] result.1.entries; ended = result.3.numbers } }
        ensures tables { result.0 ≡ tables_after [] self.commits }
        ensures committed { AllCommitted self.commits }
        ensures room { open_branches result.3.numbers self.commits ≤ result.3.spare }
    {
        let History {
            tables,
            log,
            opening,
            ended,
        } = self;
        (tables, log, opening, ended)
    }
}
