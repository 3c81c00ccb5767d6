// The link of a number among those of tables.
ghost use Rattle.std.specs.Prelude.{◌≡◌, IfOk};
ghost use Rattle.std.specs.List.{find};
ghost use Rattle.meaning_tables.specs.Links.{cell_links, link_row, links, row_links, same_number, table_links};
ghost use Rattle.meaning_tables.specs.Tables.{row_of};
ghost use Rattle.sys_core.specs.Numbered.{numbered_in, of_number};

use dl_base::{Column, Copied, Kind, LinkNo, LinkRow, List, Memory, Options, Path, Row, Value};
use sql_table::{RoomyTables, Table};

/// The first link of tables that has a number, in the order of their links; None where none has it. It costs a look for the number in each
/// table, and the links of one row.
pub(crate) fn link_of_number(tables: &RoomyTables, link: LinkNo) -> Result<Option<LinkRow>, Memory>
    ensures { IfOk result (λ row. row ≡ find (of_number link) (links tables.now.tables)) }
{
    for i in 0..tables.len() {
        match tables.at(i) {
            Some((_, table)) => {
                if let Some(row) = link_in_table(table, link)? {
                    return Ok(Some(row));
                }
            }
            None => return Ok(None),
        }
    }
    Ok(None)
}

// That of one table, whose index tells which row has it.
fn link_in_table(table: &Table, link: LinkNo) -> Result<Option<LinkRow>, Memory>
    ensures { IfOk result (λ row. row ≡ find (of_number link) (table_links table.now)) }
{
    // it tells that row numbers rise
    let _rows = table.len();
    match table.first_link(link) {
        Some(number) => link_at(table, number, link),
        None => Ok(None),
    }
}

// That of the row of a number.
fn link_at(table: &Table, number: u64, link: LinkNo) -> Result<Option<LinkRow>, Memory>
    ensures { IfOk result (λ row. row ≡ numbered_in link table.now.columns (row_of table.now.rows number)) }
{
    match table.row(number) {
        Some(row) => link_in_row(table.columns(), row, link),
        None => Ok(None),
    }
}

#[tactic(auto, using(crate::proofs::Finding::no_values))]
fn link_in_row(columns: &List<Column>, row: &Row, link: LinkNo) -> Result<Option<LinkRow>, Memory>
    ensures { IfOk result (λ found. found ≡ find (of_number link) (row_links columns.now row.now.values)) }
{
    let values = row.values.as_slice();
    for (i, column) in columns.as_slice().iter().enumerate() {
        if values.len() <= i {
            return Ok(None);
        }
        if let Some(found) = link_in_cell(column.kind, &values[i], link)? {
            return Ok(Some(found));
        }
    }
    Ok(None)
}

fn link_in_cell(kind: Kind, value: &Value, link: LinkNo) -> Result<Option<LinkRow>, Memory>
    ensures { IfOk result (λ found. found ≡ find (of_number link) (cell_links kind value.now)) }
{
    match kind {
        Kind::Linked(options) => match value {
            Value::Link(datalink) => link_if(datalink.link, &datalink.path, options, link),
            Value::Null => Ok(None),
            Value::Int(_) => Ok(None),
            Value::Text(_) => Ok(None),
        },
        Kind::Int => Ok(None),
        Kind::Text(_) => Ok(None),
        Kind::Free => Ok(None),
    }
}

// The link of a cell, if it has one of this number.
fn link_if(
    number: Option<LinkNo>,
    path: &Path,
    options: Options,
    link: LinkNo,
) -> Result<Option<LinkRow>, Memory>
    ensures { IfOk result (λ found. found ≡ find (of_number link) (link_row options path.now number)) }
{
    match number {
        Some(number) => {
            if !same_number(link, number) {
                return Ok(None);
            }
            Ok(Some(LinkRow {
                link: number,
                path: path.copy()?,
                options,
            }))
        }
        None => Ok(None),
    }
}

fn same_number(a: LinkNo, b: LinkNo) -> bool
    ensures { result ≡ same_number a b }
{
    a.tx == b.tx && a.k == b.k
}
