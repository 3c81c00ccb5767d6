// What is put into the cells of a row.
ghost use Rattle.std.specs.Prelude.{◌≡◌, ◌≢◌, ◌≤◌, [], Err, IfOk, Ok, length};
ghost use Rattle.dl_base.specs.Limits.{link_numbers};
ghost use Rattle.meaning_sql.specs.Faults.{Computes};
ghost use Rattle.meaning_sql.specs.Values as values_meant;
ghost use Rattle.meaning_statements.specs.Assigning as meant;

use dl_base::limits::MOST_LINKS;
use dl_base::{
    Column, ColumnRule, Copied, Dl, Kind, Limit, LinkNo, List, Memory, Row, SqlFault, Value,
};
use dl_location::host_part;
use sql_expr::cell;
use std::alloc::Global;

// What is put into a cell, and the next link number.
#[derive(Drop)]
struct Put {
    value: Value,
    next: u32,
}

/// The cells of a row, and the next link number.
#[derive(Drop)]
pub struct PutRow {
    /// One for each column, in order.
    pub values: List<Value>,
    /// The count of the next link inside its transaction.
    pub next: u32,
}

/// The cells of a row, in order of columns, in the place of those of an old row; a row past its last value is NULL. Under link
/// control a datalink that names the same host and path as the old one keeps its link number, and each other one draws the next of
/// the transaction; elsewhere it has none. `first` is the count of the next link inside the transaction.
///
/// The first refusal is the answer: `NullKey` for NULL where the column takes none, `TooLong` for more bytes than the column has room
/// for, `Limit(Links)` where the transaction has no link number left, `TypeFault` for a datalink in a column of numbers or texts, or
/// `Memory`. Whether other values are of the column's type is not looked at. Memory is taken for a copy of the new row's values, and
/// for one value of the old row at a time. The cost grows with the bytes of both rows.
pub fn stored_row(
    alloc: Global,
    tx: u64,
    first: u32,
    columns: &List<Column>,
    old: &Row,
    new: &Row,
) -> Result<PutRow, SqlFault>
    requires { first ≤ link_numbers }
    ensures put { Computes (λ p. (p.values, p.next)) result (meant.stored_row tx first 0 columns.now old.now new.now) }
    ensures few { IfOk result (λ p. p.next ≤ link_numbers) }
    ensures wide { IfOk result (λ p. length p.values ≡ length columns.now) }
{
    let mut values = room_for(alloc, columns.len())?;
    let mut k = first;
    for (i, column) in columns.as_slice().iter().enumerate() {
        let put = stored_at(tx, k, column, i, old, new)?;
        values.push(put.value)?;
        k = put.next;
    }
    Ok(PutRow { values, next: k })
}

// A list of no values that has room for so many: a row of a table takes no more than its values do.
fn room_for(alloc: Global, count: usize) -> Result<List<Value>, Memory>
    ensures { IfOk result (λ made. made ≡ []) }
{
    Ok(List::from_vec(Vec::with_capacity(alloc, count)?))
}

fn stored_at(
    tx: u64,
    k: u32,
    column: &Column,
    place: usize,
    old: &Row,
    new: &Row,
) -> Result<Put, SqlFault>
    requires { k ≤ link_numbers }
    ensures put { Computes (λ p. (p.value, p.next)) result (meant.stored tx k column.now (values_meant.cell old.now place) (values_meant.cell new.now place)) }
    ensures few { IfOk result (λ p. p.next ≤ link_numbers) }
{
    let before = cell(old, place)?;
    let value = cell(new, place)?;
    stored(tx, k, column, &before, value)
}

#[tactic(auto, unfolding(meaning_statements::specs::Assigning::stored))]
fn stored(tx: u64, k: u32, column: &Column, old: &Value, new: Value) -> Result<Put, SqlFault>
    requires { k ≤ link_numbers }
    ensures put { Computes (λ p. (p.value, p.next)) result (meant.stored tx k column.now old.now new) }
    ensures few { IfOk result (λ p. p.next ≤ link_numbers) }
{
    match new {
        Value::Null => {
            if !is_plain(column.rule) {
                return Err(SqlFault::NullKey(column.name.copy()?));
            }
            Ok(Put {
                value: Value::Null,
                next: k,
            })
        }
        Value::Int(z) => Ok(Put {
            value: Value::Int(z),
            next: k,
        }),
        Value::Text(text) => {
            if !is_within(column.kind, text.len()) {
                return Err(SqlFault::TooLong(column.name.copy()?));
            }
            Ok(Put {
                value: Value::Text(text),
                next: k,
            })
        }
        Value::Link(link) => stored_link(tx, k, column.kind, old, link),
    }
}

fn is_plain(rule: ColumnRule) -> bool
    ensures { result ≡ meant.is_plain rule }
{
    match rule {
        ColumnRule::Plain => true,
        ColumnRule::NotNull => false,
        ColumnRule::Key => false,
    }
}

// Whether a text of so many bytes goes into a column.
fn is_within(kind: Kind, len: usize) -> bool
    ensures { (t : _) → length t ≡ len → result ≡ meant.is_within kind t }
{
    match kind {
        Kind::Text(most) => len <= most as usize,
        Kind::Int => true,
        Kind::Free => true,
        Kind::Linked(_) => true,
    }
}

fn stored_link(tx: u64, k: u32, kind: Kind, old: &Value, link: Dl) -> Result<Put, SqlFault>
    requires { k ≤ link_numbers }
    ensures put { Computes (λ p. (p.value, p.next)) result (meant.stored_link tx k kind old.now link) }
    ensures few { IfOk result (λ p. p.next ≤ link_numbers) }
    ensures never { result ≢ Err SqlFault.Memory }
{
    match kind {
        Kind::Linked(_) => {
            let own = kept_link(old, &link);
            numbered(tx, k, link, own)
        }
        Kind::Free => Ok(Put {
            value: Value::Link(with_link(link, None)),
            next: k,
        }),
        Kind::Int => Err(SqlFault::TypeFault),
        Kind::Text(_) => Err(SqlFault::TypeFault),
    }
}

// The datalink under the number that the cell keeps, else under the transaction's next one.
fn numbered(tx: u64, k: u32, link: Dl, own: Option<LinkNo>) -> Result<Put, SqlFault>
    requires { k ≤ link_numbers }
    ensures put { Computes (λ p. (p.value, p.next)) result (meant.numbered tx k link own) }
    ensures few { IfOk result (λ p. p.next ≤ link_numbers) }
    ensures never { result ≢ Err SqlFault.Memory }
{
    if own.is_some() {
        return Ok(Put {
            value: Value::Link(with_link(link, own)),
            next: k,
        });
    }
    if k > MOST_LINKS {
        return Err(SqlFault::Limit(Limit::Links));
    }
    Ok(Put {
        value: Value::Link(with_link(link, Some(LinkNo { tx, k }))),
        next: k + 1,
    })
}

fn with_link(datalink: Dl, link: Option<LinkNo>) -> Dl
    ensures { result ≡ record datalink { link = link } }
{
    let Dl {
        location,
        path,
        comment,
        link: _,
    } = datalink;
    Dl {
        location,
        path,
        comment,
        link,
    }
}

// The link number that a cell keeps: its own, where the new datalink names the same file.
fn kept_link(old: &Value, new: &Dl) -> Option<LinkNo>
    ensures { result ≡ meant.kept_link old.now new.now }
{
    match old {
        Value::Link(before) => {
            if is_same_file(before, new) {
                before.link
            } else {
                None
            }
        }
        Value::Null => None,
        Value::Int(_) => None,
        Value::Text(_) => None,
    }
}

// Whether two datalinks name the same host and path.
fn is_same_file(a: &Dl, b: &Dl) -> bool
    ensures { result ≡ meant.is_same_file a.now b.now }
{
    host_part(a.location.bytes()) == host_part(b.location.bytes())
        && a.path.bytes() == b.path.bytes()
}
