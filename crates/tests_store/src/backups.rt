// The calls of backups, once each, with ample memory, over areas whose bytes are written by the format.
ghost use Rattle.std.specs.Prelude.{◌≡◌, IfSome};
ghost use Rattle.meaning_tables.specs.Tables.{Rise};

use crate::bench::{name, refused_place, with_area};
use bk_backup::Backups;
use dl_base::{Area, BeginFault, Column, ColumnRule, Kind, List, Name, Row, Value};
use dl_bench::MemoryBench;
use sql_table::{RoomyTables, Table, Tables};
use std::alloc::Global;

// The bytes stand in functions without a clause, which keeps them out of the goals.

/// Backup 1, after commit 3, of a table `t` of one column and one row; and backup 2, after commit 5, of no table.
fn two_backups() -> &'static [u8] {
    b"\x01\0\0\0\0\0\0\0\x4e\x01\0\0\0\0\0\0\0\x01\0\0\0\0\0\0\0\x03\0\0\0\x01\0\0\0\x01t\0\0\0\0\0\0\0\x02\
      \0\0\0\x01\0\0\0\x01n\x01\0\0\0\0\0\0\0\0\x05\0\0\0\x01\0\0\0\0\0\0\0\x04\0\0\0\x01\x01\0\0\0\0\0\0\0\x07\
      \x01\0\0\0\0\0\0\0\x15\x01\0\0\0\0\0\0\0\x02\0\0\0\0\0\0\0\x05\0\0\0\0\0"
}

/// The first of them, with a row whose number is the next one.
fn past_the_next() -> &'static [u8] {
    b"\x01\0\0\0\0\0\0\0\x4e\x01\0\0\0\0\0\0\0\x01\0\0\0\0\0\0\0\x03\0\0\0\x01\0\0\0\x01t\0\0\0\0\0\0\0\x02\
      \0\0\0\x01\0\0\0\x01n\x01\0\0\0\0\0\0\0\0\x05\0\0\0\x01\0\0\0\0\0\0\0\x05\0\0\0\x01\x01\0\0\0\0\0\0\0\x07\0"
}

/// Backup 1 of no table, and backup 1 again.
fn numbered_again() -> &'static [u8] {
    b"\x01\0\0\0\0\0\0\0\x15\x01\0\0\0\0\0\0\0\x01\0\0\0\0\0\0\0\x05\0\0\0\0\
      \x01\0\0\0\0\0\0\0\x15\x01\0\0\0\0\0\0\0\x01\0\0\0\0\0\0\0\x05\0\0\0\0\0"
}

/// Backup 1 of two tables `t` without columns or rows.
fn one_name_twice() -> &'static [u8] {
    b"\x01\0\0\0\0\0\0\0\x4f\x01\0\0\0\0\0\0\0\x01\0\0\0\0\0\0\0\x05\0\0\0\x02\
      \0\0\0\x01t\0\0\0\0\0\0\0\x02\0\0\0\0\0\0\0\0\0\0\0\x01\0\0\0\0\
      \0\0\0\x01t\0\0\0\0\0\0\0\x02\0\0\0\0\0\0\0\0\0\0\0\x01\0\0\0\0\0"
}

fn begun(alloc: Global, bytes: &[u8]) -> Option<Result<Backups, BeginFault>> {
    let mut bench = with_area(alloc, Area::Backups, bytes)?;
    let begun = Backups::begin(alloc, &mut bench, 1_000);
    drop(bench);
    Some(begun)
}

fn opened(alloc: Global, bytes: &[u8]) -> Option<Backups> {
    begun(alloc, bytes)?.ok()
}

fn refused_at(alloc: Global, bytes: &[u8]) -> Option<u64> {
    refused_place(begun(alloc, bytes)?)
}

// The first row of the first table, with its number and the next one.
fn first_row(tables: &Tables) -> Option<(u64, i64, u64)> {
    let (_, table) = tables.at(0)?;
    let (number, row) = table.at(0)?;
    match row.values.at(0)? {
        Value::Int(z) => Some((number, *z, table.next_number())),
        _ => None,
    }
}

fn row_of(backups: &Backups, n: u64) -> Option<(u64, i64, u64)> {
    first_row(backups.image(n)?)
}

fn row_in(alloc: Global, bytes: &[u8], n: u64) -> Option<(u64, i64, u64)> {
    let backups = opened(alloc, bytes)?;
    let row = row_of(&backups, n);
    drop(backups);
    row
}

// How many backups there are; the commit of one, and how many tables it has.

fn count_in(alloc: Global, bytes: &[u8]) -> Option<u64> {
    let backups = opened(alloc, bytes)?;
    let count = backups.len();
    drop(backups);
    Some(count)
}

fn commit_in(alloc: Global, bytes: &[u8], n: u64) -> Option<u64> {
    let backups = opened(alloc, bytes)?;
    let commit = backups.commit_of(n);
    drop(backups);
    commit
}

fn tables_of(backups: &Backups, n: u64) -> Option<usize> {
    Some(backups.image(n)?.len())
}

fn tables_in(alloc: Global, bytes: &[u8], n: u64) -> Option<usize> {
    let backups = opened(alloc, bytes)?;
    let tables = tables_of(&backups, n);
    drop(backups);
    tables
}

// The table `t` of the first backup.

fn columns(alloc: Global) -> Option<List<Column>> {
    let column = Column {
        name: name(alloc, b"n")?,
        kind: Kind::Int,
        rule: ColumnRule::Plain,
    };
    let mut columns = List::empty(alloc);
    columns.push(column).ok()?;
    Some(columns)
}

fn values(alloc: Global) -> Option<List<Value>> {
    let mut values = List::empty(alloc);
    values.push(Value::Int(7)).ok()?;
    Some(values)
}

fn rows(alloc: Global) -> Option<List<(u64, Row)>>
    ensures { IfSome result (λ rows. Rise 0 5 rows) }
{
    let values = values(alloc)?;
    let mut rows = List::empty(alloc);
    rows.push((4, Row { values })).ok()?;
    Some(rows)
}

fn table(alloc: Global) -> Option<Table> {
    let columns = columns(alloc)?;
    Table::with_rows(2, columns, 5, rows(alloc)?).ok()
}

fn one_table(alloc: Global, name: Name, table: Table) -> Option<Tables> {
    let mut tables = RoomyTables::of(Tables::empty(alloc));
    if tables.make_room(1).is_ok() {
        tables.add(name, table);
        Some(tables.into_tables())
    } else {
        drop(table);
        drop(tables);
        None
    }
}

fn tables(alloc: Global) -> Option<Tables> {
    let name = name(alloc, b"t")?;
    one_table(alloc, name, table(alloc)?)
}

fn store(alloc: Global, bench: &mut MemoryBench, commit: u64, tables: &Tables) -> Option<u64> {
    let mut backups = Backups::begin(alloc, bench, 1_000).ok()?;
    let number = backups.store(bench, commit, tables).ok();
    drop(backups);
    number
}

fn store_all(alloc: Global, bench: &mut MemoryBench, commit: u64, tables: Tables) -> Option<u64> {
    let number = store(alloc, bench, commit, &tables);
    drop(tables);
    number
}

fn store_both(alloc: Global, bench: &mut MemoryBench) -> Option<(u64, u64)> {
    let first = store_all(alloc, bench, 3, tables(alloc)?)?;
    let second = store_all(alloc, bench, 5, Tables::empty(alloc))?;
    Some((first, second))
}

// The numbers of two backups, and whether they are their records.
fn stored(alloc: Global) -> Option<(Option<(u64, u64)>, bool)> {
    let mut bench = with_area(alloc, Area::Backups, b"")?;
    let numbers = store_both(alloc, &mut bench);
    let are_records = bench.area(Area::Backups) == two_backups();
    drop(bench);
    Some((numbers, are_records))
}

#[test]
fn backups_of_an_area(rt: HostRuntime) {
    let alloc = rt.alloc();
    assert_eq!(rt; count_in(alloc, two_backups()), Some(2));
    assert_eq!(rt; row_in(alloc, two_backups(), 1), Some((4, 7, 5)));
}

#[test]
fn commits_and_tables_of_backups(rt: HostRuntime) {
    let alloc = rt.alloc();
    for (n, want) in [
        (0, (None, None)),
        (1, (Some(3), Some(1))),
        (2, (Some(5), Some(0))),
        (3, (None, None)),
    ] {
        let told = (
            commit_in(alloc, two_backups(), n),
            tables_in(alloc, two_backups(), n),
        );
        assert_eq!(rt; told, want);
    }
}

#[test]
fn backups_are_stored(rt: HostRuntime) {
    assert_eq!(rt; stored(rt.alloc()), Some((Some((1, 2)), true)));
}

#[test]
fn areas_that_are_refused(rt: HostRuntime) {
    for (bytes, place) in [
        (past_the_next(), 0),
        (numbered_again(), 30),
        (one_name_twice(), 0),
    ] {
        assert_eq!(rt; refused_at(rt.alloc(), bytes), Some(place));
    }
}
