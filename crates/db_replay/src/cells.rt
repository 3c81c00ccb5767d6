// Whether one row stands among others: its cells fit their columns, its key is new, and so are its links.
ghost use Rattle.std.specs.Prelude.{◌≡◌, ◌&&◌, ◌++◌, IfOk, OnOk, is_some, map};
ghost use Rattle.std.specs.List.{list_any};
ghost use Rattle.meaning_tables.specs.First.{first_number, has_key};
ghost use Rattle.meaning_tables.specs.Fits as meant;
ghost use Rattle.meaning_tables.specs.Links.{cell_links, row_links, same_number};
ghost use Rattle.db_replay.specs.Standing as standing;

use crate::columns::is_key;
use dl_base::{Column, ColumnRule, Kind, LinkNo, List, Memory, Row, Value};
use sql_table::{Table, Tables};
use std::alloc::Global;

/// Whether a row that is in none of the tables stands in one of them: its cells fit, no row there has its key, and no cell of the
/// tables, nor a second one of its own, has a link number of it.
pub(crate) fn row_stands(
    alloc: Global,
    tables: &Tables,
    table: &Table,
    row: &Row,
) -> Result<bool, Memory>
    ensures { IfOk result (λ stands. stands ≡ standing.row_stands tables.now table.now row.now) }
{
    if !fits_columns(table.columns(), row) || !key_is_new(table, row) {
        return Ok(false);
    }
    let links = link_numbers(alloc, table.columns(), row)?;
    Ok(links_are_new(tables, &links))
}

fn fits_columns(columns: &List<Column>, row: &Row) -> bool
    ensures { result ≡ meant.fits_columns columns.now row.now.values }
{
    if columns.len() != row.values.len() {
        return false;
    }
    let values = row.values.as_slice();
    for (i, column) in columns.as_slice().iter().enumerate() {
        if !fits_column(column, &values[i]) {
            return false;
        }
    }
    true
}

fn fits_column(column: &Column, value: &Value) -> bool
    ensures { result ≡ (meant.fits_kind column.now.kind value.now && meant.fits_rule column.now.rule value.now) }
{
    fits_kind(column.kind, value) && fits_rule(column.rule, value)
}

fn fits_kind(kind: Kind, value: &Value) -> bool
    ensures { result ≡ meant.fits_kind kind value.now }
{
    match value {
        Value::Null => true,
        Value::Int(_) => match kind {
            Kind::Int => true,
            Kind::Text(_) | Kind::Free | Kind::Linked(_) => false,
        },
        Value::Text(text) => match kind {
            Kind::Text(most) => text.bytes().len() <= most as usize,
            Kind::Int | Kind::Free | Kind::Linked(_) => false,
        },
        Value::Link(datalink) => match kind {
            Kind::Free => datalink.link.is_none(),
            Kind::Linked(_) => datalink.link.is_some(),
            Kind::Int | Kind::Text(_) => false,
        },
    }
}

fn fits_rule(rule: ColumnRule, value: &Value) -> bool
    ensures { result ≡ meant.fits_rule rule value.now }
{
    match rule {
        ColumnRule::Plain => true,
        ColumnRule::NotNull | ColumnRule::Key => match value {
            Value::Null => false,
            Value::Int(_) | Value::Text(_) | Value::Link(_) => true,
        },
    }
}

// Whether no row has a value of this one in a key column.
fn key_is_new(table: &Table, row: &Row) -> bool
    ensures { result ≡ standing.key_is_new table.now.columns table.now.rows row.now.values }
{
    let values = row.values.as_slice();
    for (i, column) in table.columns().as_slice().iter().enumerate() {
        if values.len() <= i {
            return true;
        }
        if is_stood_key(table, column.rule, &values[i]) {
            return false;
        }
    }
    true
}

// Whether a value is a key that a row of the table has.
fn is_stood_key(table: &Table, rule: ColumnRule, value: &Value) -> bool
    ensures { result ≡ (meant.is_key rule && is_some (first_number (has_key table.now.columns value.now) table.now.rows)) }
{
    is_key(rule) && table.by_key(value).is_some()
}

// The link numbers of a row.
fn link_numbers(alloc: Global, columns: &List<Column>, row: &Row) -> Result<List<LinkNo>, Memory>
    ensures { IfOk result (λ made. made ≡ map (λ l. l.link) (row_links columns.now row.now.values)) }
{
    let mut made = List::empty(alloc);
    let values = row.values.as_slice();
    for (i, column) in columns.as_slice().iter().enumerate() {
        if values.len() <= i {
            return Ok(made);
        }
        put_link(&mut made, column.kind, &values[i])?;
    }
    Ok(made)
}

fn put_link(made: &mut List<LinkNo>, kind: Kind, value: &Value) -> Result<(), Memory>
    ensures { OnOk result (made.new ≡ made.old ++ map (λ l. l.link) (cell_links kind value.now)) }
{
    match kind {
        Kind::Linked(_) => match value {
            Value::Link(datalink) => match datalink.link {
                Some(link) => {
                    made.push(link)?;
                    Ok(())
                }
                None => Ok(()),
            },
            Value::Null => Ok(()),
            Value::Int(_) => Ok(()),
            Value::Text(_) => Ok(()),
        },
        Kind::Int => Ok(()),
        Kind::Text(_) => Ok(()),
        Kind::Free => Ok(()),
    }
}

// Whether link numbers differ from each other and from those of tables.
fn links_are_new(tables: &Tables, links: &List<LinkNo>) -> bool
    ensures { result ≡ standing.links_are_new tables.now links.now }
{
    let numbers = links.as_slice();
    for (i, link) in numbers.iter().enumerate() {
        let (_, later) = numbers.split_at(i + 1);
        if tables.has_link(*link) || is_among(*link, later) {
            return false;
        }
    }
    true
}

fn is_among(link: LinkNo, others: &[LinkNo]) -> bool
    ensures { result ≡ list_any (same_number link) others.now }
{
    for other in others {
        if link.tx == other.tx && link.k == other.k {
            return true;
        }
    }
    false
}
