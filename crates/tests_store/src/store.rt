// Calls that read commits, once each, with ample memory, over an area whose bytes are written by the format; and transaction numbers.
use db_store::Store;
use dl_base::{Area, BeginFault, List};
use dl_bench::MemoryBench;
use sql_table::Tables;
use std::alloc::Global;

// The bytes stand in functions without a clause, which keeps them out of the goals.

/// Opening 1; a commit with a branch, which makes a table `t` of one row; one without, which puts a second row; the branch's end.
fn two_commits() -> &'static [u8] {
    b"\x01\0\0\0\0\0\0\0\x05\x01\0\0\0\x01\
      \x01\0\0\0\0\0\0\0\x49\x02\0\0\0\x01\0\0\0\x01\0\0\0\0\0\0\0\x01\x01\0\0\0\x01\0\0\0\x01t\x01\
      \0\0\0\x01\0\0\0\x01n\x01\0\0\0\0\0\0\0\0\x02\0\0\0\x01\0\0\0\0\0\0\0\x01\x01\0\0\0\x01\x01\0\0\0\0\0\0\0\x07\
      \x01\0\0\0\0\0\0\0\x3e\x02\0\0\0\x01\0\0\0\x02\0\0\0\0\0\0\0\x02\0\0\0\0\x01\0\0\0\x01t\x02\
      \0\0\0\0\0\0\0\x03\0\0\0\x01\0\0\0\0\0\0\0\x02\x01\0\0\0\x01\x01\0\0\0\0\0\0\0\x08\
      \x01\0\0\0\0\0\0\0\x09\x03\0\0\0\x01\0\0\0\x01\0"
}

/// Opening 1, and a commit of a transaction of opening 2.
fn of_another_opening() -> &'static [u8] {
    b"\x01\0\0\0\0\0\0\0\x05\x01\0\0\0\x01\
      \x01\0\0\0\0\0\0\0\x49\x02\0\0\0\x02\0\0\0\x01\0\0\0\0\0\0\0\x01\x01\0\0\0\x01\0\0\0\x01t\x01\
      \0\0\0\x01\0\0\0\x01n\x01\0\0\0\0\0\0\0\0\x02\0\0\0\x01\0\0\0\0\0\0\0\x01\x01\0\0\0\x01\x01\0\0\0\0\0\0\0\x07\0"
}

fn area(alloc: Global, bytes: &[u8]) -> Option<MemoryBench> {
    let mut bench = MemoryBench::new(alloc, List::empty(alloc), None).ok()?;
    bench.put(Area::Rows, bytes).ok()?;
    Some(bench)
}

fn opened(alloc: Global, bytes: &[u8]) -> Option<Result<Store, BeginFault>> {
    let mut bench = area(alloc, bytes)?;
    Some(Store::begin(alloc, &mut bench, 1_000))
}

// How many tables there are, and how many rows the first has.
fn counts(tables: &Tables) -> (usize, usize) {
    match tables.at(0) {
        Some((_, table)) => (tables.len(), table.len()),
        None => (tables.len(), 0),
    }
}

// The same of the tables after a commit.
fn counts_after(store: &Store, commit: u64) -> Option<(usize, usize)> {
    match store.past(commit) {
        Ok(Some(tables)) => Some(counts(&tables)),
        _ => None,
    }
}

fn commits_are_told(store: &Store) -> bool {
    store.opening() == 1
        && store.commits() == 2
        && store.commit_at(0) == None
        && store.commit_at(1) == Some((4_294_967_297, true))
        && store.commit_at(2) == Some((4_294_967_298, false))
        && store.commit_at(3) == None
        && store.decided(4_294_967_298)
        && !store.decided(4_294_967_299)
        && store.is_ended(4_294_967_297)
        && !store.is_ended(4_294_967_298)
}

fn past_is_told(store: &Store) -> bool {
    store.committed().len() == 1
        && counts_after(store, 0) == Some((0, 0))
        && counts_after(store, 1) == Some((1, 1))
        && counts_after(store, 2) == Some((1, 2))
        && counts_after(store, 3) == None
}

// Whether a number is drawn before the next opening is announced, two behind that, and the length of the area then.
fn numbers(alloc: Global) -> Option<(bool, u64, u64, usize)> {
    let mut bench = area(alloc, two_commits())?;
    match Store::begin(alloc, &mut bench, 1_000) {
        Ok(mut store) => {
            let early = store.draw().is_ok();
            store.announce(&mut bench).ok()?;
            let first = store.draw().ok()?;
            let second = store.draw().ok()?;
            Some((early, first, second, bench.area(Area::Rows).len()))
        }
        Err(_) => None,
    }
}

fn takes_room(store: Store) -> bool {
    let mut store = store;
    store.make_room(2).is_ok()
}

#[test]
fn two_commits_of_an_opening(rt: HostRuntime) {
    let holds = match opened(rt.alloc(), two_commits()) {
        Some(Ok(store)) => commits_are_told(&store) && past_is_told(&store) && takes_room(store),
        _ => false,
    };
    assert!(rt; holds);
}

#[test]
fn a_commit_of_another_opening(rt: HostRuntime) {
    let place = match opened(rt.alloc(), of_another_opening()) {
        Some(Err(BeginFault::NotAJournal(place))) => place,
        _ => 0,
    };
    assert_eq!(rt; place, 14);
}

#[test]
fn numbers_of_transactions(rt: HostRuntime) {
    assert_eq!(rt;
        numbers(rt.alloc()),
        Some((
            false,
            8_589_934_593,
            8_589_934_594,
            two_commits().len().wrapping_add(14)
        ))
    );
}
