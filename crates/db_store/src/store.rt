// The commits that are open on a bench.
ghost use Rattle.std.specs.Prelude.{◌≡◌, ◌+◌, ◌-◌, ◌≤◌, ◌^◌, ◌∷◌, [], ℕ, List, Some, Ok, Err, IfOk, IfSome, OnOk, OnErr, is_some, length};
ghost use Rattle.std.specs.Option.{option_map};
ghost use Rattle.std.specs.Result.{result_err};
ghost use Rattle.dl_areas.specs.Opening.{IsOpened, OpensOne};
ghost use Rattle.dl_areas.specs.Writing.{DoesAlone};
ghost use Rattle.dl_base.specs.Outside.{FaultCounted};
ghost use Rattle.dl_base.specs.declared.area.Area.TheVariants as areas;
ghost use Rattle.dl_base.specs.declared.fault.AppendFault.TheVariants as appends;
ghost use Rattle.dl_codec.specs.Rows.{rows_record};
ghost use Rattle.dl_codec.specs.declared.rows.RowsRecord.TheVariants as records;
ghost use Rattle.dl_journal.specs.Open.{IsOpen, IsUnwritten};
ghost use Rattle.meaning_areas.specs.Areas.{rows_of};
ghost use Rattle.meaning_areas.specs.Commits.{commit_of, has_number, tables_after, with_ended};
ghost use Rattle.dl_base.specs.Limits.{most_numbers};
ghost use Rattle.meaning_areas.specs.Full.{draw_full};
ghost use Rattle.meaning_areas.specs.Stands.{past};
ghost use Rattle.db_changes.specs.Made.{record_of};
ghost use Rattle.db_changes.specs.Touched.{AreCommitted, Covers};
ghost use Rattle.db_store.specs.Log.{AllCommitted, commit_numbered, open_branches};
ghost use Rattle.db_store.specs.Store.{CanEnd, IsTaken, commit_write, committed_with, drawn_next, ended_write, extent, opening_write, reopened, rows_in};

use crate::earlier::{next_beside, next_tables, past_tables};
use crate::ended::Ended;
use crate::enter::{enter, make_room};
use crate::fold::fold;
use crate::history::History;
use crate::log::Log;
use crate::write::write;
use db_changes::{Made, TouchedRows};
use dl_areas::an_append_writes_one_record;
use dl_base::limits::MOST_NUMBERS;
use dl_base::{AppendFault, Area, BeginFault, Bench, Full, Memory};
use dl_journal::Journal;
use sql_table::{RoomyTables, Tables};
use std::alloc::Global;
use std::marker::Model;

/// The commits of the database, in memory and in the area Rows. Contracts see what the records of the area stand for, how many
/// transaction numbers of the last opening are drawn, for how many more commits there is room, how many bytes the area's records and
/// closing gate are, and how many they may be. Of an opening that was found, and not announced, all numbers count as drawn.
#[derive(Drop)]
pub struct Store {
    alloc: Global,
    journal: Journal,
    tables: RoomyTables,
    log: Log,
    opening: u32,
    // with room for the branches that have not ended
    ended: Ended,
    drawn: u32,
}

/// The tables after a commit, and the rows beside which they have the rows of those before.
#[derive(Drop)]
pub struct NextCommit {
    pub tables: Tables,
    pub touched: TouchedRows,
}

impl Model for Store {
    ghost use Rattle.std.specs.Prelude.{◌≡◌, ◌≤◌, ◌-◌, ◌/◌, [], min};
    ghost use Rattle.dl_base.specs.Limits.{most_tables};
    ghost use Rattle.dl_base.specs.declared.area.Area.TheVariants as areas;
    ghost use Rattle.db_store.specs.Log.{AllCommitted, commits_from, open_branches};
    ghost use Rattle.db_store.specs.Store.{Database};
    ghost use Rattle.meaning_areas.specs.Commits.{tables_after};

    ghost Value = { Database };

    ghost view = { λ s. record {
      rows = record { opening = s.opening; commits = commits_from 1 [] s.log.entries; ended = s.ended.numbers };
      drawn = s.drawn;
      spare = min (min s.log.spare (s.tables.spare / most_tables)) (s.ended.spare - open_branches s.ended.numbers (commits_from 1 [] s.log.entries));
      length = s.journal.length;
      limit = s.journal.limit;
    } };

    ghost invariant = { λ s. (s.journal.area ≡ areas.Rows) × (s.tables.tables ≡ tables_after [] (commits_from 1 [] s.log.entries)) × AllCommitted (commits_from 1 [] s.log.entries) × (open_branches s.ended.numbers (commits_from 1 [] s.log.entries) ≤ s.ended.spare) };
}

impl Store {
    /// Opens the area Rows. The limit is the most bytes that its records and closing gate may be.
    /// `NotAJournal` has the place, from 0, of the gate of the first record that passes the area's end; where there is none, that of
    /// the first record that is none, or that the fold refuses: an opening or a commit that is not the next one, a second commit of
    /// a transaction or one of another opening, changes that do not apply or lead to tables that do not fit, an end of a branch that
    /// is none or has ended.
    pub fn begin<B: Bench>(alloc: Global, bench: &mut B, limit: u64) -> Result<Store, BeginFault>
        requires low { 1 ≤ limit }
        requires high { limit ≤ 2 ^ 63 }

        // The commits are those that the area's list stands for, and that each crash leaves.
        ensures opened { IfOk result (λ s. (bodies : List (List ℕ)) × IsOpened areas.Rows limit (extent s) bodies (B.outside bench.old) (B.outside bench.new) × (rows_of bodies ≡ Ok s.rows)) }

        // None of its numbers can be drawn before the next opening is announced.
        ensures drawn { IfOk result (λ s. s.drawn ≡ most_numbers) }

        // However it ends, the area reads as the list that it was, and a crash leaves an image of before or that list.
        ensures opens { OpensOne areas.Rows (B.outside bench.old) (B.outside bench.new) }

        ensures no_rows { (place : ℕ) → result ≡ Err (BeginFault.NotAJournal place) → (told : List ℕ) → (B.outside bench.old).reads areas.Rows ≡ Some told → rows_in told ≡ Err place }
        ensures untouched { (place : ℕ) → result ≡ Err (BeginFault.NotAJournal place) → IsUnwritten areas.Rows (B.outside bench.old) (B.outside bench.new) }
        ensures memory { result ≡ Err BeginFault.Memory → IsUnwritten areas.Rows (B.outside bench.old) (B.outside bench.new) }
        ensures device { result ≡ Err BeginFault.Device → FaultCounted (B.outside bench.old) (B.outside bench.new) }
    {
        let (journal, bodies) = Journal::begin(alloc, bench, Area::Rows, limit)?;
        let history = fold(alloc, bodies)?;
        Ok(opened(alloc, journal, history))
    }

    /// Writes the next opening, from which on transaction numbers begin again: once after `begin`, before the first `draw`, which
    /// has none before. The errors are `Full(Openings)` with the last opening's number, `Full(Area)` where the area has no room for
    /// the record, and `Device`, after which the area is to be opened again. It takes no memory.
    pub fn announce<B: Bench>(&mut self, bench: &mut B) -> Result<(), AppendFault>
        requires { IsOpen (extent self.old) (B.outside bench.old) }
        ensures ok { OnOk result (self.new ≡ reopened self.old self.new.length) }
        ensures err { OnErr result (self.new ≡ self.old) }
        ensures does { DoesAlone (extent self.old) (extent self.new) (opening_write self.old.rows ∷ []) (result_err result) (B.outside bench.old) (B.outside bench.new) }
    {
        an_append_writes_one_record::<B>();
        if self.opening >= MOST_NUMBERS {
            return Err(AppendFault::Full(Full::Openings(self.opening)));
        }
        let next = self.opening + 1;
        match write(&mut self.journal, bench, &opening_body(next)) {
            Ok(()) => {
                self.opening = next;
                self.drawn = 0;
                Ok(())
            }
            Err(fault) => Err(fault),
        }
    }

    /// The tables after the last commit; none before the first. It takes no memory.
    pub fn committed(&self) -> &RoomyTables
        ensures tables { result.now.tables ≡ tables_after [] self.now.rows.commits }
        ensures committed { AreCommitted result.now.tables }
    {
        &self.tables
    }

    /// The tables after a commit, none after commit 0; None exactly where there is no such commit. They are made again from the records
    /// of the commits up to it: it takes the time and the memory that these take at an opening. The error is want of memory, and
    /// changes nothing.
    pub fn past(&self, commit: u64) -> Result<Option<Tables>, Memory>
        ensures tables { IfOk result (λ tables. tables ≡ past [] self.now.rows.commits commit) }
        ensures committed { IfOk result (λ tables. IfSome tables AreCommitted) }
    {
        past_tables(self.alloc, &self.log, commit)
    }

    /// The tables after a commit, from 1, from those before it; None exactly where there is no such commit. So going through all
    /// commits does the changes of each once. They share what they have with those before; the cost grows with the bytes of this
    /// commit's record, and with the number of tables. The error is want of memory, and changes nothing.
    pub fn next(&self, commit: u64, before: Tables) -> Result<Option<Tables>, Memory>
        requires first { 1 ≤ commit }
        requires before { past [] self.now.rows.commits (commit - 1) ≡ Some before }
        ensures tables { IfOk result (λ tables. tables ≡ past [] self.now.rows.commits commit) }
        ensures committed { IfOk result (λ tables. IfSome tables AreCommitted) }
    {
        let later = next_tables(self.alloc, &self.log, commit, &before);
        drop(before);
        later
    }

    /// The same from tables that stay, and the rows beside which those after the commit have the rows of those before it: the rows that
    /// its record names, and all that a table had which it drops. The cost is that of `next`.
    pub fn next_beside(&self, commit: u64, before: &Tables) -> Result<Option<NextCommit>, Memory>
        requires first { 1 ≤ commit }
        requires before { past [] self.now.rows.commits (commit - 1) ≡ Some before.now }
        ensures tables { IfOk result (λ made. option_map (λ m. m.tables) made ≡ past [] self.now.rows.commits commit) }
        ensures committed { IfOk result (λ made. IfSome made (λ m. AreCommitted m.tables)) }
        ensures covers { IfOk result (λ made. IfSome made (λ m. Covers m.touched before.now m.tables)) }
    {
        match next_beside(self.alloc, &self.log, commit, before)? {
            Some((tables, touched)) => Ok(Some(NextCommit { tables, touched })),
            None => Ok(None),
        }
    }

    /// How many commits there are.
    pub fn commits(&self) -> u64
        ensures { result ≡ length self.now.rows.commits }
    {
        self.log.len() as u64
    }

    /// The transaction of a commit, from 1, and whether that has a branch; None exactly where there is no such commit. It takes no
    /// memory.
    pub fn commit_at(&self, commit: u64) -> Option<(u64, bool)>
        ensures { result ≡ option_map (λ c. (c.tx, c.branch)) (commit_numbered self.now.rows.commits commit) }
    {
        self.log.commit_at(commit)
    }

    /// How many bytes the records and the closing gate of its area are. It takes no memory.
    pub fn length(&self) -> u64
        ensures { result ≡ self.now.length }
    {
        self.journal.length()
    }

    /// The number of the last opening; 0 where there was none.
    pub fn opening(&self) -> u32
        ensures { result ≡ self.now.rows.opening }
    {
        self.opening
    }

    /// Whether a transaction has a commit. It takes no memory.
    pub fn decided(&self, tx: u64) -> bool
        ensures { result ≡ is_some (commit_of tx self.now.rows.commits) }
    {
        self.log.has(tx)
    }

    /// The number that the next `draw` gives, or why it gives none. It takes no memory, and draws nothing.
    #[tactic(auto, using(crate::proofs::Numbers::draw_fits, crate::proofs::Numbers::draw_ends))]
    pub fn coming(&self) -> Result<u64, AppendFault>
        ensures value { IfOk result (λ tx. tx ≡ drawn_next self.now) }
        ensures full { result_err result ≡ option_map (λ f. appends.Full f) (draw_full (self.now.drawn + 1)) }
    {
        if self.drawn >= MOST_NUMBERS {
            return Err(AppendFault::Full(Full::Transactions(self.drawn)));
        }
        Ok(u64::from(self.opening) * 4_294_967_296 + u64::from(self.drawn) + 1)
    }

    /// The next transaction number: the opening's 32 bits, and behind them how many were drawn in it. The only error is that an
    /// opening has no more, as one that was found and not announced: so no number is drawn again after a crash. It takes no memory.
    #[tactic(auto, using(crate::proofs::Numbers::draw_fits, crate::proofs::Numbers::draw_ends))]
    pub fn draw(&mut self) -> Result<u64, AppendFault>
        ensures value { IfOk result (λ tx. tx ≡ drawn_next self.old) }
        ensures ok { OnOk result (self.new ≡ record self.old { drawn = self.old.drawn + 1 }) }
        ensures err { OnErr result (self.new ≡ self.old) }
        ensures full { result_err result ≡ option_map (λ f. appends.Full f) (draw_full (self.old.drawn + 1)) }
    {
        if self.drawn >= MOST_NUMBERS {
            return Err(AppendFault::Full(Full::Transactions(self.drawn)));
        }
        self.drawn += 1;
        Ok(u64::from(self.opening) * 4_294_967_296 + u64::from(self.drawn))
    }

    /// Whether the branch of a transaction has ended. It takes no memory.
    pub fn is_ended(&self, tx: u64) -> bool
        ensures { result ≡ has_number tx self.now.rows.ended }
    {
        self.ended.has(tx)
    }

    /// Writes the commit of what a transaction has made, and returns its number, from 1. There has to be room for as many commits as it
    /// takes the room of, and its record leads from the committed tables to those with its handles put in; where these are of what a copy
    /// makes of its base, they are the merged ones, as `handles_lead_to_merged_tables` says. The errors are `Full(Area)` where the area
    /// has no room for the record, and `Device`, after which the area is to be opened again. It takes no memory, and costs its touched
    /// rows as bytes, and its tables.
    pub fn commit<B: Bench>(&mut self, bench: &mut B, made: Made) -> Result<u64, AppendFault>
        requires ready { IsOpen (extent self.old) (B.outside bench.old) }
        requires room { made.rooms ≤ self.old.spare }
        requires taken { IsTaken self.old.rows made }
        ensures value { IfOk result (λ number. number ≡ length self.old.rows.commits + 1) }
        ensures rows { OnOk result (self.new.rows ≡ committed_with self.old.rows made) }
        ensures spare { OnOk result (self.old.spare ≤ self.new.spare + made.rooms) }
        ensures same { OnOk result ((self.new.drawn ≡ self.old.drawn) × (self.new.limit ≡ self.old.limit)) }
        ensures err { OnErr result (self.new ≡ self.old) }
        ensures does { DoesAlone (extent self.old) (extent self.new) (commit_write self.old.rows made ∷ []) (result_err result) (B.outside bench.old) (B.outside bench.new) }

        // What it writes has a spelling, so it is read as what it was.
        ensures spelled { rows_record.fits (record_of made (length self.old.rows.commits + 1)) }
    {
        let tx = made.tx();
        let branch = made.branch();
        let number = self.log.len() as u64 + 1;
        let (body, changes) = made.parts(number);
        match write(&mut self.journal, bench, body.as_slice()) {
            Ok(()) => {
                enter(&mut self.tables, &mut self.log, tx, branch, changes, body);
                Ok(number)
            }
            Err(fault) => Err(fault),
        }
    }

    /// Writes the end of the branch of a transaction, whose commit has a branch that has not ended. The errors are `Full(Area)` where
    /// the area has no room for the record, and `Device`, after which the area is to be opened again. It takes no memory: `make_room`
    /// made room for it with that for the commit, and `begin` for the branches that it found.
    pub fn ended<B: Bench>(&mut self, bench: &mut B, tx: u64) -> Result<(), AppendFault>
        requires ready { IsOpen (extent self.old) (B.outside bench.old) }
        requires taken { CanEnd self.old.rows tx }
        ensures rows { OnOk result (self.new.rows ≡ with_ended self.old.rows tx) }
        ensures spare { OnOk result (self.old.spare ≤ self.new.spare) }
        ensures same { OnOk result ((self.new.drawn ≡ self.old.drawn) × (self.new.limit ≡ self.old.limit)) }
        ensures err { OnErr result (self.new ≡ self.old) }
        ensures does { DoesAlone (extent self.old) (extent self.new) (ended_write tx ∷ []) (result_err result) (B.outside bench.old) (B.outside bench.new) }
    {
        match write(&mut self.journal, bench, &ended_body(tx)) {
            Ok(()) => {
                self.ended.put(tx);
                Ok(())
            }
            Err(fault) => Err(fault),
        }
    }

    /// Makes room for so many more commits, of at most 256 new tables each, and for the ends of their branches; want of memory, which
    /// more than 2^32 commits count as, leaves what room there was.
    pub fn make_room(&mut self, commits: u64) -> Result<(), Memory>
        ensures same { self.new ≡ record self.old { spare = self.new.spare } }
        ensures room { OnOk result (commits ≤ self.new.spare) }
        ensures spare { self.old.spare ≤ self.new.spare }
    {
        if commits > 4_294_967_296 {
            return Err(Memory);
        }
        make_room(
            &mut self.tables,
            &mut self.log,
            &mut self.ended,
            commits as usize,
        )
    }
}

// A store of what the records stand for.
fn opened(alloc: Global, journal: Journal, history: History) -> Store
    requires { journal.area ≡ areas.Rows }
    ensures rows { result.rows ≡ history }
    ensures drawn { result.drawn ≡ most_numbers }
    ensures extent { extent result ≡ journal }
{
    let (tables, log, opening, ended) = history.into_parts();
    Store {
        alloc,
        journal,
        tables: RoomyTables::of(tables),
        log,
        opening,
        ended,
        drawn: MOST_NUMBERS,
    }
}

// The body of an opening's record.
fn opening_body(number: u32) -> [u8; 5]
    ensures { result ≡ rows_record.spelling (records.Opening number) }
{
    let bytes = number.to_be_bytes();
    [1, bytes[0], bytes[1], bytes[2], bytes[3]]
}

// The body of the record of a branch's end.
fn ended_body(tx: u64) -> [u8; 9]
    ensures { result ≡ rows_record.spelling (records.Ended tx) }
{
    let bytes = tx.to_be_bytes();
    [
        3, bytes[0], bytes[1], bytes[2], bytes[3], bytes[4], bytes[5], bytes[6], bytes[7],
    ]
}
