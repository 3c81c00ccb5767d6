// The commits, one after another.
ghost use Rattle.std.specs.Prelude.{◌≡◌, ◌+◌, ◌<◌, ◌^◌, [], IfOk, Some, length, slice_get};
ghost use Rattle.std.specs.Option.{option_map};
ghost use Rattle.db_changes.specs.Touched.{AreCommitted, Covers};
ghost use Rattle.db_store.specs.Log.{commit_between};
ghost use Rattle.meaning_areas.specs.Commits.{HaveMoved};
ghost use Rattle.meaning_areas.specs.Stands.{past, txs_of};

use db_changes::TouchedRows;
use db_store::{NextCommit, Store};
use dl_base::Memory;
use sql_table::Tables;

/// A commit: its transaction, whether that has a branch, the tables after it, and the rows that it touched.
#[derive(Drop)]
pub struct Passed {
    pub tx: u64,
    pub branch: bool,
    pub tables: Tables,
    pub touched: TouchedRows,
}

/// The commit at a place from 0, from the tables before it. The cost grows with the number of its changes, and with the number of
/// tables.
pub fn commit_after(store: &Store, index: u64, before: &Tables) -> Result<Passed, Memory>
    requires within { index < length store.now.rows.commits }
    requires fits { index + 1 < 2 ^ 64 }
    requires before { past [] store.now.rows.commits index ≡ Some before.now }
    requires moved { HaveMoved [] store.now.rows.commits }
    ensures commit { IfOk result (λ p. slice_get store.now.rows.commits index ≡ Some (commit_between before.now p.tx p.branch p.tables)) }
    ensures past { IfOk result (λ p. past [] store.now.rows.commits (index + 1) ≡ Some p.tables) }
    ensures committed { IfOk result (λ p. AreCommitted p.tables) }
    ensures covers { IfOk result (λ p. Covers p.touched before.now p.tables) }
{
    match store.next_beside(index + 1, before)? {
        Some(next) => {
            let NextCommit { tables, touched } = next;
            let (tx, branch) = named(store, index);
            Ok(Passed {
                tx,
                branch,
                tables,
                touched,
            })
        }
        None => unreachable!(),
    }
}

// The transaction of the commit at a place from 0, and whether that has a branch.
fn named(store: &Store, index: u64) -> (u64, bool)
    requires within { index < length store.now.rows.commits }
    requires fits { index + 1 < 2 ^ 64 }
    ensures { option_map (λ c. (c.tx, c.branch)) (slice_get store.now.rows.commits index) ≡ Some result }
{
    match store.commit_at(index + 1) {
        Some(named) => named,
        None => unreachable!(),
    }
}

/// The transaction of the commit at a place from 0. It takes no memory.
pub fn transaction(store: &Store, index: u64) -> u64
    requires within { index < length store.now.rows.commits }
    requires fits { index + 1 < 2 ^ 64 }
    ensures { slice_get (txs_of store.now.rows.commits) index ≡ Some result }
{
    let (tx, _) = named(store, index);
    tx
}
