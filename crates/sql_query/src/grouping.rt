// GROUP BY: whether a query groups, and by which places.
ghost use Rattle.std.specs.Prelude.{◌≡◌, is_err, true, IfOk, OnErr};
ghost use Rattle.std.specs.List.{list_any};
ghost use Rattle.std.specs.Option.{option_to_list};
ghost use Rattle.meaning_sql.specs.Columns as columns_meant;
ghost use Rattle.meaning_sql.specs.Faults.{Computes, try_map};
ghost use Rattle.meaning_sql.specs.Types.{kind_type};
ghost use Rattle.meaning_statements.specs.Selecting as meant;
ghost use Rattle.sql_query.specs.Grouping.{known_places, places_apart};

use crate::keys::is_key;
use dl_base::{Item, List, Memory, Ref, Select, SqlFault};
use meaning_sql::{AggregateScope, Columns, SqlType};
use sql_expr::{kind_type, place_of};
use sql_join::has_aggregate;
use std::alloc::Global;

/// Whether a query groups: it has GROUP BY, or an aggregate in an item.
pub(crate) fn is_grouped(query: &Select) -> bool
    ensures { result ≡ meant.is_grouped query.now }
{
    let by_aggregate = match &query.items {
        Some(items) => have_aggregate(items.as_slice()),
        None => false,
    };
    query.group.len() != 0 || by_aggregate
}

/// The places by which groups are told apart: none where the query does not group.
pub(crate) fn places_apart<'a>(query: &Select, places: &'a [usize]) -> &'a [usize]
    ensures { result.now ≡ places_apart (meant.is_grouped query.now) places.now }
{
    if is_grouped(query) { places } else { &[] }
}

fn have_aggregate(items: &[Item]) -> bool
    ensures { result ≡ list_any (λ i. meant.has_aggregate i.expr) items.now }
{
    items.iter().any(|item| has_aggregate(&item.expr))
}

/// Where the items of a query stand. A name of GROUP BY that means no column is left out, and is refused at its own turn.
pub(crate) fn scope_of(
    alloc: Global,
    columns: &Columns,
    query: &Select,
) -> Result<AggregateScope, Memory>
    ensures { IfOk result (λ s. s ≡ meant.scope_of columns.now query.now) }
{
    if is_grouped(query) {
        let places = known_places(alloc, columns, query.group.as_slice())?;
        Ok(AggregateScope::Grouped(places))
    } else {
        Ok(AggregateScope::Item)
    }
}

fn known_places(alloc: Global, columns: &Columns, group: &[Ref]) -> Result<List<usize>, Memory>
    ensures { IfOk result (λ made. made ≡ known_places columns.now group.now) }
{
    let mut made = List::empty(alloc);
    for r in group {
        if let Some(place) = known_place(columns, r)? {
            made.push(place)?;
        }
    }
    Ok(made)
}

fn known_place(columns: &Columns, r: &Ref) -> Result<Option<usize>, Memory>
    ensures { IfOk result (λ p. option_to_list p ≡ meant.result_list (columns_meant.place_of columns.now r.now)) }
{
    match place_of(columns, r) {
        Ok(place) => Ok(Some(place)),
        Err(SqlFault::Memory) => Err(Memory),
        Err(_) => Ok(None),
    }
}

/// The places from 0 of the columns of GROUP BY, which are INTEGER or VARCHAR; or the first refusal.
pub(crate) fn group_places(
    alloc: Global,
    columns: &Columns,
    group: &[Ref],
) -> Result<List<usize>, SqlFault>
    ensures { Computes (λ p. p) result (try_map (meant.group_place columns.now) group.now) }
{
    let mut made = List::empty(alloc);
    for r in group {
        made.push(group_place(columns, r)?)?;
    }
    Ok(made)
}

fn group_place(columns: &Columns, r: &Ref) -> Result<usize, SqlFault>
    ensures place { Computes (λ p. p) result (meant.group_place columns.now r.now) }
    ensures accepted { OnErr result (is_err (meant.group_place columns.now r.now) ≡ true) }
{
    let place = place_of(columns, r)?;
    if is_key(type_at(columns, place)) {
        Ok(place)
    } else {
        Err(SqlFault::TypeFault)
    }
}

fn type_at(columns: &Columns, place: usize) -> SqlType
    ensures { result ≡ kind_type (columns_meant.kind_at columns.now place) }
{
    match columns.at(place) {
        Some(c) => kind_type(c.1.kind),
        None => SqlType::Int,
    }
}
