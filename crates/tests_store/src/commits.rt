// A commit behind no commits, of a transaction that changed nothing, and the end of its branch.
ghost use Rattle.std.specs.Prelude.{◌≡◌, [], IfSome, true};
ghost use Rattle.dl_bench.specs.Traces.{seen};
ghost use Rattle.dl_journal.specs.Open.{IsOpen};
ghost use Rattle.db_store.specs.Store.{extent};

use crate::bench::with_area;
use db_changes::{Made, TouchedRows, nothing_touched_covers};
use db_store::Store;
use dl_base::Area;
use dl_bench::MemoryBench;
use sql_table::Tables;
use std::alloc::Global;

// What a transaction with a branch has made that changed nothing.
fn nothing_made(alloc: Global, tx: u64) -> Option<Made>
    ensures { IfSome result (λ made. made ≡ record { tx = tx; branch = true; changes = []; handles = []; rooms = 1 }) }
{
    nothing_touched_covers();
    let tables = Tables::empty(alloc);
    let touched = TouchedRows::empty(alloc);
    Made::new(alloc, tx, true, &tables, &tables, &touched).ok()
}

// The number of its commit, and whether its branch has ended.
#[tactic(auto, using(crate::proofs::Nothing::first_number, crate::proofs::Nothing::nothing_taken, crate::proofs::Nothing::nothing_ends))]
fn commit(alloc: Global, bench: &mut MemoryBench, store: &mut Store) -> Option<(u64, bool)>
    requires ready { IsOpen (extent store.old) (seen bench.old) }
    requires none { store.old.rows.commits ≡ [] }
    requires new { store.old.drawn ≡ 0 }
{
    let tx = store.draw().ok()?;
    store.make_room(1).ok()?;
    if store.is_ended(tx) {
        return None;
    }
    let made = nothing_made(alloc, tx)?;
    let number = store.commit(bench, made).ok()?;
    store.ended(bench, tx).ok()?;
    Some((number, store.is_ended(tx)))
}

// The same of the first commit of an area.
fn commit_first(alloc: Global, bench: &mut MemoryBench) -> Option<(u64, bool)> {
    let mut store = Store::begin(alloc, bench, 1_000).ok()?;
    store.announce(bench).ok()?;
    if store.commits() != 0 {
        return None;
    }
    commit(alloc, bench, &mut store)
}

// How many tables there are after a commit.
fn tables_after(alloc: Global, bench: &mut MemoryBench, commit: u64) -> Option<usize> {
    let store = Store::begin(alloc, bench, 1_000).ok()?;
    let tables = store.past(commit).ok()??;
    Some(tables.len())
}

// The number of the first commit of an empty area, whether its branch has ended, and how many tables there are after another.
fn first_commit(alloc: Global, other: u64) -> Option<(u64, bool, Option<usize>)> {
    let mut bench = with_area(alloc, Area::Rows, b"")?;
    let (number, ended) = commit_first(alloc, &mut bench)?;
    Some((number, ended, tables_after(alloc, &mut bench, other)))
}

#[test]
fn a_commit_and_its_end(rt: HostRuntime) {
    let alloc = rt.alloc();
    assert_eq!(rt; first_commit(alloc, 1), Some((1, true, Some(0))));
    assert_eq!(rt; first_commit(alloc, 2), Some((1, true, None)));
}
