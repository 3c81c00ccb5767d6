// The links of tables, and what a copy of tables gives and takes.
ghost use Rattle.std.specs.Prelude.{◌≡◌, ◌++◌, ◌∷◌, [], IfOk, OnOk};
ghost use Rattle.std.specs.List.{flat_map, list_any};
ghost use Rattle.meaning_tables.specs.Links as meant;
ghost use Rattle.sql_table.specs.Lacking.{CoversLacking, lacking_at};

use crate::{Table, Tables};
use dl_base::{Column, Copied, Kind, LinkNo, LinkRow, List, Memory, Options, Path, Row, Value};
use dl_pages::{Pages, with_member};
use std::alloc::Global;

/// The links of tables: tables in order, their rows in order and the columns of a row in order. The cost grows with the number of
/// rows.
pub fn links(alloc: Global, tables: &Tables) -> Result<List<LinkRow>, Memory>
    ensures { IfOk result (λ made. made ≡ meant.links tables.now) }
{
    let mut made = List::empty(alloc);
    for i in 0..tables.len() {
        match tables.at(i) {
            Some((_, table)) => put_table_links(&mut made, table)?,
            None => return Ok(made),
        }
    }
    Ok(made)
}

/// What a copy gives and what it takes: the links of the base whose numbers the copy lacks, and the links of the copy whose
/// numbers the base lacks, each in the order of `links`. Rows without a link cost nothing, and a link that both have costs a look
/// for its number in each table of the other side: nothing of it is copied.
pub fn gives_takes(
    alloc: Global,
    base: &Tables,
    copy: &Tables,
) -> Result<(List<LinkRow>, List<LinkRow>), Memory>
    ensures { IfOk result (λ made. (made.0 ≡ meant.gives base.now copy.now) × (made.1 ≡ meant.takes base.now copy.now)) }
{
    let gives = lacking(alloc, base, copy)?;
    let takes = lacking(alloc, copy, base)?;
    Ok((gives, takes))
}

// The links of tables whose numbers others lack.
fn lacking(alloc: Global, tables: &Tables, others: &Tables) -> Result<List<LinkRow>, Memory>
    ensures { IfOk result (λ made. made ≡ meant.lacking (meant.links tables.now) (meant.links others.now)) }
{
    let mut made = List::empty(alloc);
    for i in 0..tables.len() {
        match tables.at(i) {
            Some((_, table)) => put_lacking(&mut made, table, others)?,
            None => return Ok(made),
        }
    }
    Ok(made)
}

// Puts the links of a table whose numbers others lack. Its index tells which rows to look at, so a row without such a link costs
// nothing; the rows come in order of their numbers, since the index is in order of links.
#[tactic(auto, using(crate::proofs::Differing::all_lacking))]
fn put_lacking(made: &mut List<LinkRow>, table: &Table, others: &Tables) -> Result<(), Memory>
    ensures { OnOk result (made.new ≡ made.old ++ meant.lacking (meant.table_links table.now) (meant.links others.now)) }
{
    let numbers = lacking_rows(made.allocator(), table.link_entries(), others)?;
    put_lacking_of(made, table, &numbers, others)
}

/// Puts the links of the rows of some numbers whose numbers others lack, in the order of these numbers; a number of no row puts none. Each row
/// costs a look for it, and each of its links a look for its number in each of the others. The error is want of memory; then some of the
/// links may have been put.
pub fn put_lacking_of(
    made: &mut List<LinkRow>,
    table: &Table,
    numbers: &Pages<u64>,
    others: &Tables,
) -> Result<(), Memory>
    ensures { OnOk result (made.new ≡ made.old ++ flat_map (lacking_at (meant.links others.now) table.now) numbers.now) }
{
    for i in 0..numbers.len() {
        put_lacking_at(made, table, *numbers.item(i), others)?;
    }
    Ok(())
}

// The numbers of rows with a link whose number others lack.
fn lacking_rows(
    alloc: Global,
    entries: &Pages<(LinkNo, u64)>,
    others: &Tables,
) -> Result<Pages<u64>, Memory>
    ensures { IfOk result (λ made. CoversLacking (meant.links others.now) entries.now made) }
{
    let mut numbers = Pages::empty();
    for i in 0..entries.len() {
        let entry = entries.item(i);
        if has_number(others, entry.0) {
            continue;
        }
        numbers = with_member(alloc, &numbers, entry.1)?;
    }
    Ok(numbers)
}

// Puts the links of the row of a number whose numbers others lack.
fn put_lacking_at(
    made: &mut List<LinkRow>,
    table: &Table,
    number: u64,
    others: &Tables,
) -> Result<(), Memory>
    ensures { OnOk result (made.new ≡ made.old ++ lacking_at (meant.links others.now) table.now number) }
{
    match table.row(number) {
        Some(row) => put_row_lacking(made, table.columns(), row, others),
        None => Ok(()),
    }
}

/// Puts the links of a row, by its columns, whose numbers others lack, in the order of `links`. Each link of the row costs a look for its
/// number in each of the others. The error is want of memory; then some of the links may have been put.
pub fn put_row_lacking(
    made: &mut List<LinkRow>,
    columns: &List<Column>,
    row: &Row,
    others: &Tables,
) -> Result<(), Memory>
    ensures { OnOk result (made.new ≡ made.old ++ meant.lacking (meant.row_links columns.now row.now.values) (meant.links others.now)) }
{
    let values = row.values.as_slice();
    for (i, column) in columns.as_slice().iter().enumerate() {
        if values.len() <= i {
            return Ok(());
        }
        put_cell_lacking(made, column.kind, &values[i], others)?;
    }
    Ok(())
}

fn put_cell_lacking(
    made: &mut List<LinkRow>,
    kind: Kind,
    value: &Value,
    others: &Tables,
) -> Result<(), Memory>
    ensures { OnOk result (made.new ≡ made.old ++ meant.lacking (meant.cell_links kind value.now) (meant.links others.now)) }
{
    match kind {
        Kind::Linked(options) => match value {
            Value::Link(datalink) => match datalink.link {
                Some(link) => put_if_lacking(made, link, &datalink.path, options, others),
                None => Ok(()),
            },
            Value::Null => Ok(()),
            Value::Int(_) => Ok(()),
            Value::Text(_) => Ok(()),
        },
        Kind::Int => Ok(()),
        Kind::Text(_) => Ok(()),
        Kind::Free => Ok(()),
    }
}

// Puts a link, where others lack its number.
fn put_if_lacking(
    made: &mut List<LinkRow>,
    link: LinkNo,
    path: &Path,
    options: Options,
    others: &Tables,
) -> Result<(), Memory>
    ensures { OnOk result (made.new ≡ made.old ++ meant.lacking (record { link = link; path = path.now; options = options } ∷ []) (meant.links others.now)) }
{
    if has_number(others, link) {
        return Ok(());
    }
    made.push(LinkRow {
        link,
        path: path.copy()?,
        options,
    })?;
    Ok(())
}

/// Whether a link of tables has a number.
pub(crate) fn has_number(tables: &Tables, link: LinkNo) -> bool
    ensures { result ≡ list_any (λ y. meant.same_number link y.link) (meant.links tables.now) }
{
    for i in 0..tables.len() {
        match tables.at(i) {
            Some((_, table)) => {
                if table.first_link(link).is_some() {
                    return true;
                }
            }
            None => return false,
        }
    }
    false
}

fn put_table_links(made: &mut List<LinkRow>, table: &Table) -> Result<(), Memory>
    ensures { OnOk result (made.new ≡ made.old ++ meant.table_links table.now) }
{
    for i in 0..table.len() {
        match table.at(i) {
            Some((_, row)) => put_row_links(made, table.columns(), row)?,
            None => return Ok(()),
        }
    }
    Ok(())
}

#[tactic(auto, using(crate::proofs::RowLinks::none_past_the_end))]
fn put_row_links(made: &mut List<LinkRow>, columns: &List<Column>, row: &Row) -> Result<(), Memory>
    ensures { OnOk result (made.new ≡ made.old ++ meant.row_links columns.now row.now.values) }
{
    let values = row.values.as_slice();
    for (i, column) in columns.as_slice().iter().enumerate() {
        if values.len() <= i {
            return Ok(());
        }
        put_cell_link(made, column.kind, &values[i])?;
    }
    Ok(())
}

fn put_cell_link(made: &mut List<LinkRow>, kind: Kind, value: &Value) -> Result<(), Memory>
    ensures { OnOk result (made.new ≡ made.old ++ meant.cell_links kind value.now) }
{
    match kind {
        Kind::Linked(options) => match value {
            Value::Link(datalink) => match datalink.link {
                Some(link) => {
                    let path = datalink.path.copy()?;
                    made.push(LinkRow {
                        link,
                        path,
                        options,
                    })?;
                    Ok(())
                }
                None => Ok(()),
            },
            Value::Null => Ok(()),
            Value::Int(_) => Ok(()),
            Value::Text(_) => Ok(()),
        },
        Kind::Int => Ok(()),
        Kind::Text(_) => Ok(()),
        Kind::Free => Ok(()),
    }
}
