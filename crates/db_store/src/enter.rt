// One more commit in memory: in the log, and in tables with room for more; and that room.
ghost use Rattle.std.specs.Prelude.{◌≡◌, ◌+◌, ◌*◌, ◌^◌, ◌≤◌, ◌++◌, ◌∷◌, [], IsTrue, None, OnOk, Some, length};
ghost use Rattle.dl_base.specs.Limits.{most_tables};
ghost use Rattle.db_changes.specs.Made.{changes_in};
ghost use Rattle.db_replay.specs.Applying.{AreNew, is_new, new_by, new_in};
ghost use Rattle.db_replay.specs.Changes.{apply, applied};
ghost use Rattle.db_store.specs.Log.{commits_from};
ghost use Rattle.meaning_areas.specs.Commits.{commit_of, commit_to, tables_after, with_table_changes};

use crate::ended::Ended;
use crate::log::{Entry, Log};
use db_replay::Change;
use dl_base::limits::MOST_TABLES;
use dl_base::{List, Memory, Text};
use sql_table::RoomyTables;

/// Puts a commit at the end of the log, with the bytes of its record, and what it made into the tables, where there is room for both.
/// It takes no memory.
pub fn enter(
    tables: &mut RoomyTables,
    log: &mut Log,
    tx: u64,
    branch: bool,
    changes: List<Change>,
    body: List<u8>,
)
    requires body { with_table_changes (length log.old.entries + 1) tables.old.tables (changes_in body) ≡ Some (applied tables.old.tables changes) }
    requires at { tables.old.tables ≡ tables_after [] (commits_from 1 [] log.old.entries) }
    requires new { AreNew tables.old.tables changes }
    requires none { commit_of tx (commits_from 1 [] log.old.entries) ≡ None }
    requires room_tables { new_in changes ≤ tables.old.spare }
    requires room_log { 1 ≤ log.old.spare }
    ensures commits { commits_from 1 [] log.new.entries ≡ commits_from 1 [] log.old.entries ++ commit_to (commits_from 1 [] log.old.entries) tx branch (applied tables.old.tables changes) ∷ [] }
    ensures at { tables.new.tables ≡ tables_after [] (commits_from 1 [] log.new.entries) }
    ensures spare_tables { tables.old.spare ≤ tables.new.spare + new_in changes }
    ensures spare_log { log.old.spare ≤ log.new.spare + 1 }
{
    apply_all(tables, changes);
    let entry = Entry {
        branch,
        body: Text::from_vec(body.into_vec()),
    };
    log.push(tx, entry);
}

/// Makes room for so many more commits of at most 256 new tables each, and for the ends of as many branches as there are commits
/// then. Want of memory leaves what room there was.
pub fn make_room(
    tables: &mut RoomyTables,
    log: &mut Log,
    ended: &mut Ended,
    count: usize,
) -> Result<(), Memory>
    requires { count ≤ 2 ^ 32 }
    ensures tables { tables.new.tables ≡ tables.old.tables }
    ensures log { log.new.entries ≡ log.old.entries }
    ensures ended { ended.new.numbers ≡ ended.old.numbers }
    ensures room_tables { OnOk result (count * most_tables ≤ tables.new.spare) }
    ensures room_log { OnOk result (count ≤ log.new.spare) }
    ensures room_ended { OnOk result (length log.old.entries + count ≤ ended.new.spare) }
    ensures spare_tables { tables.old.spare ≤ tables.new.spare }
    ensures spare_log { log.old.spare ≤ log.new.spare }
    ensures spare_ended { ended.old.spare ≤ ended.new.spare }
{
    let commits = log.len();
    tables.make_room(count * MOST_TABLES)?;
    log.make_room(count)?;
    ended.make_room(commits + count)
}

// Does changes, for whose new tables there is room.
fn apply_all(tables: &mut RoomyTables, changes: List<Change>)
    requires new { AreNew tables.old.tables changes }
    requires room { new_in changes ≤ tables.old.spare }
    ensures tables { tables.new.tables ≡ applied tables.old.tables changes }
    ensures spare { tables.old.spare ≤ tables.new.spare + new_in changes }
{
    for change in changes.into_vec() {
        apply_one(tables, change);
    }
}

#[tactic(auto, using(crate::proofs::LogLaws::none_there))]
fn apply_one(tables: &mut RoomyTables, change: Change)
    requires new { IsTrue (is_new tables.old.tables change) }
    requires room { new_by change ≤ tables.old.spare }
    ensures tables { tables.new.tables ≡ apply tables.old.tables change }
    ensures spare { tables.old.spare ≤ tables.new.spare + new_by change }
{
    match change {
        Change::Dropped(name) => tables.discard(&name),
        Change::Kept(name, table) => tables.put(&name, table),
        Change::New(name, table) => tables.add(name, table),
    }
}
