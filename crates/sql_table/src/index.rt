// Indexes of rows: the marks of each row, which are its link numbers or its keys, with its number.
ghost use Rattle.std.specs.Prelude.{◌≡◌, ◌++◌, [], IfOk, OnOk};
ghost use Rattle.std.specs.Cmp.Lexicographic.{pointwise};
ghost use Rattle.std.specs.List.Sorted.{IsStrictlySortedBy};
ghost use Rattle.std.specs.Ordering.{is_eq};
ghost use Rattle.dl_pages.specs.Entries.{entry_order};
ghost use Rattle.dl_pages.specs.Orders.{link_order};
ghost use Rattle.meaning_tables.specs.Tables.{Rise};
ghost use Rattle.sql_table.specs.Entries.{AreEntries};
ghost use Rattle.sql_table.specs.Keys.{key_order, key_marks};
ghost use Rattle.sql_table.specs.Marks.{WithMarks, WithoutMarks, OtherMarks, IsIndex, cell_marks, link_marks};

use crate::key::{Key, row_keys};
use crate::numbered::Numbered;
use dl_base::{Column, Copied, Kind, LinkNo, List, Memory, Row, Value};
use dl_pages::{Ordered, Pages, with_member, without_member};
use std::alloc::Global;
use std::cmp::Ordering;

/// The numbers of rows by link and by key.
pub(crate) type Indexes = (Pages<(LinkNo, u64)>, Pages<(Key, u64)>);

/// The index with marks under a number.
fn with_marks<K: Ordered + Copied>(
    alloc: Global,
    index: &Pages<(K, u64)>,
    marks: List<K>,
    number: u64,
) -> Result<Pages<(K, u64)>, Memory>
    requires { IsStrictlySortedBy (entry_order K.order) index.now }
    ensures { IfOk result (λ made. WithMarks K.order marks number index.now made) }
{
    let mut made = index.share()?;
    for mark in marks.into_vec() {
        made = with_member(alloc, &made, (mark, number))?;
    }
    Ok(made)
}

/// The index without marks under a number.
fn without_marks<K: Ordered + Copied>(
    alloc: Global,
    index: &Pages<(K, u64)>,
    marks: List<K>,
    number: u64,
) -> Result<Pages<(K, u64)>, Memory>
    requires { IsStrictlySortedBy (entry_order K.order) index.now }
    ensures { IfOk result (λ made. WithoutMarks K.order marks number index.now made) }
{
    let mut made = index.share()?;
    for mark in marks.into_vec() {
        made = without_member(alloc, &made, &(mark, number))?;
    }
    Ok(made)
}

/// The index with other marks under a number. Where they are equal to those that it has there, it is the same index, and no page is
/// copied.
fn with_other_marks<K: Ordered + Copied>(
    alloc: Global,
    index: &Pages<(K, u64)>,
    before: List<K>,
    marks: List<K>,
    number: u64,
) -> Result<Pages<(K, u64)>, Memory>
    requires { IsStrictlySortedBy (entry_order K.order) index.now }
    ensures { IfOk result (λ made. OtherMarks K.order before marks number index.now made) }
{
    if are_equal(before.as_slice(), marks.as_slice()) {
        return index.share();
    }
    let left = without_marks(alloc, index, before, number)?;
    with_marks(alloc, &left, marks, number)
}

// Whether marks are equal, place by place.
fn are_equal<K: Ordered>(marks: &[K], others: &[K]) -> bool
    ensures { result ≡ pointwise (λ m o. is_eq (K.order m o)) marks.now others.now }
{
    if marks.len() != others.len() {
        return false;
    }
    for (i, mark) in marks.iter().enumerate() {
        if !is_equal(mark, &others[i]) {
            return false;
        }
    }
    true
}

fn is_equal<K: Ordered>(mark: &K, other: &K) -> bool
    ensures { result ≡ is_eq (K.order mark.now other.now) }
{
    mark.order(other) == Ordering::Equal
}

/// The index with the link numbers of a row.
fn with_row_links(
    alloc: Global,
    columns: &List<Column>,
    index: &Pages<(LinkNo, u64)>,
    row: &Row,
    number: u64,
) -> Result<Pages<(LinkNo, u64)>, Memory>
    requires { IsStrictlySortedBy (entry_order link_order) index.now }
    ensures { IfOk result (λ made. WithMarks link_order (link_marks columns.now row.now) number index.now made) }
{
    with_marks(alloc, index, row_marks(columns, row)?, number)
}

/// The index with the keys of a row.
fn with_row_keys(
    alloc: Global,
    columns: &List<Column>,
    index: &Pages<(Key, u64)>,
    row: &Row,
    number: u64,
) -> Result<Pages<(Key, u64)>, Memory>
    requires { IsStrictlySortedBy (entry_order key_order) index.now }
    ensures { IfOk result (λ made. WithMarks key_order (key_marks columns.now row.now) number index.now made) }
{
    with_marks(alloc, index, row_keys(columns, row)?, number)
}

/// The index with the link numbers of a row in the place of those of another.
fn with_other_links(
    alloc: Global,
    columns: &List<Column>,
    index: &Pages<(LinkNo, u64)>,
    before: &Row,
    row: &Row,
    number: u64,
) -> Result<Pages<(LinkNo, u64)>, Memory>
    requires { IsStrictlySortedBy (entry_order link_order) index.now }
    ensures { IfOk result (λ made. OtherMarks link_order (link_marks columns.now before.now) (link_marks columns.now row.now) number index.now made) }
{
    let old = row_marks(columns, before)?;
    with_other_marks(alloc, index, old, row_marks(columns, row)?, number)
}

/// The index with the keys of a row in the place of those of another.
fn with_other_keys(
    alloc: Global,
    columns: &List<Column>,
    index: &Pages<(Key, u64)>,
    before: &Row,
    row: &Row,
    number: u64,
) -> Result<Pages<(Key, u64)>, Memory>
    requires { IsStrictlySortedBy (entry_order key_order) index.now }
    ensures { IfOk result (λ made. OtherMarks key_order (key_marks columns.now before.now) (key_marks columns.now row.now) number index.now made) }
{
    let old = row_keys(columns, before)?;
    with_other_marks(alloc, index, old, row_keys(columns, row)?, number)
}

/// The index without the link numbers of a row.
fn without_row_links(
    alloc: Global,
    columns: &List<Column>,
    index: &Pages<(LinkNo, u64)>,
    row: &Row,
    number: u64,
) -> Result<Pages<(LinkNo, u64)>, Memory>
    requires { IsStrictlySortedBy (entry_order link_order) index.now }
    ensures { IfOk result (λ made. WithoutMarks link_order (link_marks columns.now row.now) number index.now made) }
{
    without_marks(alloc, index, row_marks(columns, row)?, number)
}

/// The index without the keys of a row.
fn without_row_keys(
    alloc: Global,
    columns: &List<Column>,
    index: &Pages<(Key, u64)>,
    row: &Row,
    number: u64,
) -> Result<Pages<(Key, u64)>, Memory>
    requires { IsStrictlySortedBy (entry_order key_order) index.now }
    ensures { IfOk result (λ made. WithoutMarks key_order (key_marks columns.now row.now) number index.now made) }
{
    without_marks(alloc, index, row_keys(columns, row)?, number)
}

/// The indexes with the link numbers and the keys of a row.
pub(crate) fn with_entries(
    alloc: Global,
    columns: &List<Column>,
    links: &Pages<(LinkNo, u64)>,
    keys: &Pages<(Key, u64)>,
    row: &Row,
    number: u64,
) -> Result<Indexes, Memory>
    requires links { IsStrictlySortedBy (entry_order link_order) links.now }
    requires keys { IsStrictlySortedBy (entry_order key_order) keys.now }
    ensures links { IfOk result (λ made. WithMarks link_order (link_marks columns.now row.now) number links.now made.0) }
    ensures keys { IfOk result (λ made. WithMarks key_order (key_marks columns.now row.now) number keys.now made.1) }
{
    let links = with_row_links(alloc, columns, links, row, number)?;
    match with_row_keys(alloc, columns, keys, row, number) {
        Ok(keys) => Ok((links, keys)),
        Err(fault) => {
            drop(links);
            Err(fault)
        }
    }
}

/// The indexes with the link numbers and the keys of a row in the place of those of another.
pub(crate) fn with_other_entries(
    alloc: Global,
    columns: &List<Column>,
    links: &Pages<(LinkNo, u64)>,
    keys: &Pages<(Key, u64)>,
    before: &Row,
    row: &Row,
    number: u64,
) -> Result<Indexes, Memory>
    requires links { IsStrictlySortedBy (entry_order link_order) links.now }
    requires keys { IsStrictlySortedBy (entry_order key_order) keys.now }
    ensures links { IfOk result (λ made. OtherMarks link_order (link_marks columns.now before.now) (link_marks columns.now row.now) number links.now made.0) }
    ensures keys { IfOk result (λ made. OtherMarks key_order (key_marks columns.now before.now) (key_marks columns.now row.now) number keys.now made.1) }
{
    let links = with_other_links(alloc, columns, links, before, row, number)?;
    match with_other_keys(alloc, columns, keys, before, row, number) {
        Ok(keys) => Ok((links, keys)),
        Err(fault) => {
            drop(links);
            Err(fault)
        }
    }
}

/// The indexes without the link numbers and the keys of a row.
pub(crate) fn without_entries(
    alloc: Global,
    columns: &List<Column>,
    links: &Pages<(LinkNo, u64)>,
    keys: &Pages<(Key, u64)>,
    row: &Row,
    number: u64,
) -> Result<Indexes, Memory>
    requires links { IsStrictlySortedBy (entry_order link_order) links.now }
    requires keys { IsStrictlySortedBy (entry_order key_order) keys.now }
    ensures links { IfOk result (λ made. WithoutMarks link_order (link_marks columns.now row.now) number links.now made.0) }
    ensures keys { IfOk result (λ made. WithoutMarks key_order (key_marks columns.now row.now) number keys.now made.1) }
{
    let links = without_row_links(alloc, columns, links, row, number)?;
    match without_row_keys(alloc, columns, keys, row, number) {
        Ok(keys) => Ok((links, keys)),
        Err(fault) => {
            drop(links);
            Err(fault)
        }
    }
}

/// What the indexes have of a row.
#[derive(Drop)]
pub(crate) enum Entries {
    /// Nothing.
    Nothing,
    /// One key, and no link number.
    Key(Key),
    /// Link numbers, or more than one key.
    More,
}

/// What the indexes have of a row.
#[tactic(auto, using(crate::proofs::Taking::none_of_length))]
pub(crate) fn entries_of(columns: &List<Column>, row: &Row) -> Result<Entries, Memory>
    ensures { IfOk result (λ made. AreEntries made (link_marks columns.now row.now) (key_marks columns.now row.now)) }
{
    let links = row_marks(columns, row)?;
    let linked = 0 < links.len();
    drop(links);
    if linked {
        return Ok(Entries::More);
    }
    Ok(entries_of_keys(row_keys(columns, row)?))
}

// What the indexes have of a row of these keys, and of no link numbers.
#[tactic(auto, using(crate::proofs::Taking::alone))]
fn entries_of_keys(keys: List<Key>) -> Entries
    ensures { AreEntries result [] keys }
{
    if 1 < keys.len() {
        drop(keys);
        return Entries::More;
    }
    let mut keys = keys;
    let last = keys.pop();
    drop(keys);
    match last {
        Some(key) => Entries::Key(key),
        None => Entries::Nothing,
    }
}

/// The link numbers of a row.
#[tactic(auto, using(crate::proofs::First::no_marks_past_the_end))]
fn row_marks(columns: &List<Column>, row: &Row) -> Result<List<LinkNo>, Memory>
    ensures { IfOk result (λ made. made ≡ link_marks columns.now row.now) }
{
    let mut made = List::empty(columns.allocator());
    let values = row.values.as_slice();
    for (i, column) in columns.as_slice().iter().enumerate() {
        if values.len() <= i {
            return Ok(made);
        }
        put_mark(&mut made, column.kind, &values[i])?;
    }
    Ok(made)
}

fn put_mark(made: &mut List<LinkNo>, kind: Kind, value: &Value) -> Result<(), Memory>
    ensures { OnOk result (made.new ≡ made.old ++ cell_marks kind value.now) }
{
    match kind {
        Kind::Linked(_) => match value {
            Value::Link(datalink) => match datalink.link {
                Some(link) => {
                    made.push(link)?;
                    Ok(())
                }
                None => Ok(()),
            },
            Value::Null => Ok(()),
            Value::Int(_) => Ok(()),
            Value::Text(_) => Ok(()),
        },
        Kind::Int => Ok(()),
        Kind::Text(_) => Ok(()),
        Kind::Free => Ok(()),
    }
}

/// The index of the links of rows.
pub(crate) fn link_index(
    alloc: Global,
    columns: &List<Column>,
    next: u64,
    rows: &Pages<Numbered>,
) -> Result<Pages<(LinkNo, u64)>, Memory>
    requires { Rise 0 next rows.now }
    ensures { IfOk result (λ made. IsIndex link_order (link_marks columns.now) rows.now made) }
{
    let mut made = Pages::empty();
    for i in 0..rows.len() {
        let item = rows.item(i);
        made = with_row_links(alloc, columns, &made, item.row(), item.number())?;
    }
    Ok(made)
}

/// The index of the keys of rows.
pub(crate) fn key_index(
    alloc: Global,
    columns: &List<Column>,
    next: u64,
    rows: &Pages<Numbered>,
) -> Result<Pages<(Key, u64)>, Memory>
    requires { Rise 0 next rows.now }
    ensures { IfOk result (λ made. IsIndex key_order (key_marks columns.now) rows.now made) }
{
    let mut made = Pages::empty();
    for i in 0..rows.len() {
        let item = rows.item(i);
        made = with_row_keys(alloc, columns, &made, item.row(), item.number())?;
    }
    Ok(made)
}
