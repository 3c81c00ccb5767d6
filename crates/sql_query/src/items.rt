// What a query shows: the columns in order, or its items.
ghost use Rattle.std.specs.Prelude.{◌≡◌, ◌++◌, is_err, true, IfOk, OnErr, OnOk, Ok, map};
ghost use Rattle.meaning_sql.specs.Faults.{Computes, typed, try_map};
ghost use Rattle.meaning_sql.specs.Types as types_meant;
ghost use Rattle.meaning_statements.specs.Selecting as meant;
ghost use Rattle.sql_expr.specs.Binding.{bound_in};
ghost use Rattle.sql_query.specs.Items as shown;

use dl_base::{Column, Expr, Item, List, Memory, Name, Row, SqlFault, Value};
use meaning_sql::{AggregateScope, Columns, Context, SqlType};
use sql_expr::{Bound, cell, check_in, evaluate, kind_type};
use std::alloc::Global;

/// The types of what is shown, or the first breach.
pub(crate) fn item_types(
    alloc: Global,
    columns: &Columns,
    items: &Option<List<Item>>,
    scope: &AggregateScope,
) -> Result<List<SqlType>, SqlFault>
    ensures { Computes (λ t. t) result (shown.types_of columns.now scope.now items.now) }
{
    match items {
        None => star_types(alloc, columns, scope),
        Some(items) => listed_types(alloc, columns, items.as_slice(), scope),
    }
}

fn star_types(
    alloc: Global,
    columns: &Columns,
    scope: &AggregateScope,
) -> Result<List<SqlType>, SqlFault>
    ensures { Computes (λ t. t) result (try_map (shown.star_type scope.now) columns.now) }
{
    let mut made = List::empty(alloc);
    for c in columns.as_slice() {
        made.push(star_type(&c.1, scope)?)?;
    }
    Ok(made)
}

/// The type of a column under `*`, which is a breach under GROUP BY.
pub(crate) fn star_type(column: &Column, scope: &AggregateScope) -> Result<SqlType, SqlFault>
    ensures { result ≡ typed (meant.is_ungrouped scope.now) (types_meant.kind_type column.now.kind) }
{
    match scope {
        AggregateScope::Grouped(_) => Err(SqlFault::TypeFault),
        AggregateScope::Row => Ok(kind_type(column.kind)),
        AggregateScope::Item => Ok(kind_type(column.kind)),
    }
}

fn listed_types(
    alloc: Global,
    columns: &Columns,
    items: &[Item],
    scope: &AggregateScope,
) -> Result<List<SqlType>, SqlFault>
    ensures { Computes (λ t. t) result (try_map (shown.item_type columns.now scope.now) items.now) }
{
    let mut made = List::empty(alloc);
    for item in items {
        made.push(item_type(columns, item, scope)?)?;
    }
    Ok(made)
}

/// The type of an item, which is that of a cell.
pub(crate) fn item_type(
    columns: &Columns,
    item: &Item,
    scope: &AggregateScope,
) -> Result<SqlType, SqlFault>
    ensures of_type { Computes (λ t. t) result (shown.item_type columns.now scope.now item.now) }
    ensures accepted { OnErr result (is_err (shown.item_type columns.now scope.now item.now) ≡ true) }
{
    let t = check_in(&item.expr, columns, scope)?;
    if matches!(t, SqlType::Truth) {
        Err(SqlFault::TypeFault)
    } else {
        Ok(t)
    }
}

/// What is shown of a row, aggregates being over a group of rows.
pub(crate) fn answer(
    alloc: Global,
    items: &Option<List<Item>>,
    columns: &Columns,
    context: &Context,
    group: &List<Row>,
    row: &Row,
) -> Result<Row, SqlFault>
    ensures { Computes (λ r. r) result (shown.answer_of columns.now context.entry.now items.now group.now row.now) }
{
    match items {
        None => Ok(star_cells(alloc, columns, row)?),
        Some(items) => listed_cells(alloc, items.as_slice(), columns, context, group, row),
    }
}

/// The cells of a row, one a column.
pub(crate) fn star_cells(alloc: Global, columns: &Columns, row: &Row) -> Result<Row, Memory>
    ensures { IfOk result (λ made. made ≡ meant.row_of_cells (shown.cells_from row.now 0 columns.now)) }
{
    let mut values = List::empty(alloc);
    for (i, _c) in columns.as_slice().iter().enumerate() {
        values.push(cell(row, i)?)?;
    }
    Ok(Row { values })
}

/// The expressions of items with the places of their columns.
pub(crate) fn bound_items<'a>(
    alloc: Global,
    items: &'a [Item],
    columns: &'a Columns,
) -> Result<List<Bound<'a>>, Memory>
    ensures { IfOk result (λ made. made ≡ map (λ i. bound_in columns.now i.expr) items.now) }
{
    let mut made = List::empty(alloc);
    match put_bound(alloc, &mut made, items, columns) {
        Ok(()) => Ok(made),
        Err(Memory) => {
            drop(made);
            Err(Memory)
        }
    }
}

fn put_bound<'a>(
    alloc: Global,
    made: &mut List<Bound<'a>>,
    items: &'a [Item],
    columns: &'a Columns,
) -> Result<(), Memory>
    ensures { OnOk result (made.new ≡ made.old ++ map (λ i. bound_in columns.now i.expr) items.now) }
{
    for item in items {
        made.push(Bound::new(alloc, &item.expr, columns)?)?;
    }
    Ok(())
}

/// What is shown of a row by items without aggregates.
pub(crate) fn bound_cells(
    alloc: Global,
    bound: &[Bound],
    context: &Context,
    row: &Row,
) -> Result<Row, SqlFault>
    ensures { Computes (λ r. r) result (shown.bound_row context.entry.now bound.now row.now) }
{
    let mut values = List::empty(alloc);
    for one in bound {
        values.push(one.value(alloc, row, context)?)?;
    }
    Ok(Row { values })
}

fn listed_cells(
    alloc: Global,
    items: &[Item],
    columns: &Columns,
    context: &Context,
    group: &List<Row>,
    row: &Row,
) -> Result<Row, SqlFault>
    ensures { Computes (λ r. r) result (shown.listed_row columns.now context.entry.now items.now group.now row.now) }
{
    let mut values = List::empty(alloc);
    for item in items {
        values.push(evaluate(alloc, &item.expr, row, columns, context, group)?)?;
    }
    Ok(Row { values })
}
