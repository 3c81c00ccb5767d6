// Copies of files, values, rows, columns and links.
use crate::made::{name, owner, path, text};
use dl_base::{
    Column, ColumnRule, Copied, Dl, File, Kind, LinkNo, LinkRow, List, OnUnlink, Options, ReadBy,
    Row, Same, Value, WriteBy,
};
use std::alloc::Global;

/// Whether a copy is the same as its value.
fn is_copied<T: Copied + Same>(value: &T) -> Option<bool> {
    let copy = value.copy().ok()?;
    Some(copy.same(value))
}

fn file(alloc: Global) -> Option<File> {
    let owner = owner(alloc, b"ann", true)?;
    let bytes = text(alloc, b"one")?;
    Some(File {
        owner,
        bytes,
        before: None,
    })
}

fn file_is_copied(alloc: Global) -> Option<bool> {
    is_copied(&file(alloc)?)
}

/// The datalink of a film.
fn datalink(alloc: Global) -> Option<Dl> {
    let location = text(alloc, b"http://fs1/a")?;
    let path = path(alloc, b"/a")?;
    let comment = text(alloc, b"reel")?;
    Some(Dl {
        location,
        path,
        comment,
        link: Some(LinkNo { tx: 5, k: 1 }),
    })
}

fn with(mut values: List<Value>, value: Value) -> Option<List<Value>> {
    values.push(value).ok()?;
    Some(values)
}

fn number_and_null(alloc: Global) -> Option<List<Value>> {
    with(with(List::empty(alloc), Value::Null)?, Value::Int(-3))
}

fn text_behind(alloc: Global, values: List<Value>) -> Option<List<Value>> {
    with(values, Value::Text(text(alloc, b"one")?))
}

fn link_behind(alloc: Global, values: List<Value>) -> Option<List<Value>> {
    with(values, Value::Link(datalink(alloc)?))
}

/// A row with a value of each kind.
fn row(alloc: Global) -> Option<Row> {
    let values = text_behind(alloc, number_and_null(alloc)?)?;
    let values = link_behind(alloc, values)?;
    Some(Row { values })
}

fn row_is_copied(alloc: Global) -> Option<bool> {
    is_copied(&row(alloc)?)
}

/// A column of whole numbers.
fn column(alloc: Global) -> Option<Column> {
    let name = name(alloc, b"x")?;
    Some(Column {
        name,
        kind: Kind::Int,
        rule: ColumnRule::Key,
    })
}

fn column_is_copied(alloc: Global) -> Option<bool> {
    is_copied(&column(alloc)?)
}

/// A link of the film.
fn link_row(alloc: Global) -> Option<LinkRow> {
    let path = path(alloc, b"/a")?;
    Some(LinkRow {
        link: LinkNo { tx: 5, k: 1 },
        path,
        options: Options {
            read: ReadBy::Db,
            write: WriteBy::Blocked,
            recovery: true,
            unlink: OnUnlink::Restore,
        },
    })
}

fn link_row_is_copied(alloc: Global) -> Option<bool> {
    is_copied(&link_row(alloc)?)
}

#[test]
fn copies(rt: HostRuntime) {
    let alloc = rt.alloc();
    assert!(rt; file_is_copied(alloc) == Some(true));
    assert!(rt; row_is_copied(alloc) == Some(true));
    assert!(rt; column_is_copied(alloc) == Some(true));
    assert!(rt; link_row_is_copied(alloc) == Some(true));
    assert!(rt; is_copied(&Some((7u8, 8u64))) == Some(true));
}
