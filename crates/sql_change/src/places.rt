// The columns that a statement names, and the types of what is put into them.
ghost use Rattle.std.specs.Prelude.{◌≡◌, ◌==◌, ◌≤◌, [], is_err, true, IfOk, OnErr, length, take, map, bytes_eq};
ghost use Rattle.std.specs.List.{list_any};
ghost use Rattle.dl_base.specs.declared.sql_fault.SqlFault.TheVariants as faults;
ghost use Rattle.meaning_sql.specs.Faults.{Computes, try_map, ensure};
ghost use Rattle.meaning_sql.specs.Types as types_meant;
ghost use Rattle.meaning_statements.specs.Assigning as cells_meant;
ghost use Rattle.meaning_statements.specs.Changing as meant;
ghost use Rattle.sql_change.specs.Steps.{Clears};

use dl_base::{Column, Copied, Expr, Kind, List, Memory, Name, SqlFault};
use sql_expr::{AggregateScope, Columns, SqlType, check_in};
use std::alloc::Global;

/// The columns of a table under its name.
pub(crate) fn own_columns(
    alloc: Global,
    name: &Name,
    columns: &List<Column>,
) -> Result<Columns, Memory>
    ensures { IfOk result (λ made. made ≡ map (λ c. (name.now, c)) columns.now) }
{
    let mut made = List::empty(alloc);
    for column in columns.as_slice() {
        made.push(named(name, column)?)?;
    }
    Ok(made)
}

fn named(name: &Name, column: &Column) -> Result<(Name, Column), Memory>
    ensures { IfOk result (λ made. made ≡ (name.now, column.now)) }
{
    Ok((name.copy()?, column.copy()?))
}

// The place from 0 of the first column of a name.
fn place_named(name: &Name, columns: &List<Column>) -> Result<usize, SqlFault>
    ensures place { Computes (λ i. i) result (meant.place_named name.now 0 columns.now) }
    ensures accepted { OnErr result (is_err (meant.place_named name.now 0 columns.now) ≡ true) }
{
    for (i, column) in columns.as_slice().iter().enumerate() {
        if name.bytes() == column.name.bytes() {
            return Ok(i);
        }
    }
    Err(SqlFault::NoColumn(name.copy()?))
}

/// The places from 0 of the named columns, in order: `NoColumn` where a name is none, `Ambiguous` where it stood before, or
/// `Memory`.
pub(crate) fn set_places(
    alloc: Global,
    columns: &List<Column>,
    names: &List<Name>,
) -> Result<List<usize>, SqlFault>
    ensures { Computes (λ p. p) result (meant.set_places columns.now [] names.now) }
{
    let mut places = List::empty(alloc);
    for (i, name) in names.as_slice().iter().enumerate() {
        let place = place_named(name, columns)?;
        if stood_before(name, names, i) {
            return Err(SqlFault::Ambiguous(name.copy()?));
        }
        places.push(place)?;
    }
    Ok(places)
}

// Whether a name stands before a place of the list.
fn stood_before(name: &Name, names: &List<Name>, place: usize) -> bool
    requires { place ≤ length names.now }
    ensures { result ≡ list_any (bytes_eq name.now) (take place names.now) }
{
    let (before, _) = names.as_slice().split_at(place);
    before.iter().any(|other| name.bytes() == other.bytes())
}

fn all_places(alloc: Global, columns: &List<Column>) -> Result<List<usize>, Memory>
    ensures { IfOk result (λ made. made ≡ meant.all_places 0 columns.now) }
{
    let mut made = List::empty(alloc);
    for (i, _column) in columns.as_slice().iter().enumerate() {
        made.push(i)?;
    }
    Ok(made)
}

/// The places of an INSERT's columns: those that are listed, else all in order.
pub(crate) fn target_places(
    alloc: Global,
    columns: &List<Column>,
    names: &Option<List<Name>>,
) -> Result<List<usize>, SqlFault>
    ensures { Computes (λ p. p) result (meant.target_places columns.now names.now) }
{
    match names {
        Some(listed) => set_places(alloc, columns, listed),
        None => Ok(all_places(alloc, columns)?),
    }
}

/// The names of the columns that an UPDATE sets.
pub(crate) fn set_names(alloc: Global, sets: &List<(Name, Expr)>) -> Result<List<Name>, Memory>
    ensures { IfOk result (λ made. made ≡ map (λ s. s.0) sets.now) }
{
    let mut made = List::empty(alloc);
    for set in sets.as_slice() {
        made.push(set.0.copy()?)?;
    }
    Ok(made)
}

/// Whether each tuple has a value for each of the places; `Arity` where one has not.
pub(crate) fn check_lengths(tuples: &List<List<Expr>>, places: &List<usize>) -> Result<(), SqlFault>
    ensures { Clears result (try_map (λ es. ensure (length es == length places.now) faults.Arity) tuples.now) }
{
    let count = places.len();
    for tuple in tuples.as_slice() {
        if tuple.len() != count {
            return Err(SqlFault::Arity);
        }
    }
    Ok(())
}

// The types of expressions over columns, without aggregates.
fn types_of(alloc: Global, exprs: &List<Expr>, columns: &Columns) -> Result<List<SqlType>, SqlFault>
    ensures { Computes (λ t. t) result (try_map (types_meant.type_of columns.now AggregateScope.Row) exprs.now) }
{
    let mut types = List::empty(alloc);
    for expr in exprs.as_slice() {
        types.push(check_in(expr, columns, &AggregateScope::Row)?)?;
    }
    Ok(types)
}

/// The types of the values of tuples.
pub(crate) fn tuple_types(
    alloc: Global,
    tuples: &List<List<Expr>>,
    columns: &Columns,
) -> Result<List<List<SqlType>>, SqlFault>
    ensures { Computes (λ t. t) result (try_map (try_map (types_meant.type_of columns.now AggregateScope.Row)) tuples.now) }
{
    let mut types = List::empty(alloc);
    for tuple in tuples.as_slice() {
        types.push(types_of(alloc, tuple, columns)?)?;
    }
    Ok(types)
}

/// The types of the values that an UPDATE sets.
pub(crate) fn types_of_sets(
    alloc: Global,
    sets: &List<(Name, Expr)>,
    columns: &Columns,
) -> Result<List<SqlType>, SqlFault>
    ensures { Computes (λ t. t) result (try_map (λ s. types_meant.type_of columns.now AggregateScope.Row s.1) sets.now) }
{
    let mut types = List::empty(alloc);
    for set in sets.as_slice() {
        types.push(check_in(&set.1, columns, &AggregateScope::Row)?)?;
    }
    Ok(types)
}

/// Whether values of these types may be put into the columns at these places.
pub(crate) fn check_types(
    columns: &List<Column>,
    places: &List<usize>,
    types: &List<SqlType>,
) -> Result<(), SqlFault>
    ensures { Clears result (meant.assigned columns.now places.now types.now) }
{
    let given = types.as_slice();
    for (i, place) in places.as_slice().iter().enumerate() {
        if given.len() <= i {
            return Ok(());
        }
        if !is_assignable(kind_of_column(columns, *place), given[i]) {
            return Err(SqlFault::TypeFault);
        }
    }
    Ok(())
}

/// Whether the values of all tuples may be put into the columns at these places.
#[tactic(auto, using(crate::proofs::Clearing::passing))]
pub(crate) fn check_all_types(
    columns: &List<Column>,
    places: &List<usize>,
    types: &List<List<SqlType>>,
) -> Result<(), SqlFault>
    ensures { Clears result (try_map (meant.assigned columns.now places.now) types.now) }
{
    for one in types.as_slice() {
        match check_types(columns, places, one) {
            Ok(()) => {}
            Err(fault) => return Err(fault),
        }
    }
    Ok(())
}

// Which types a column takes.
fn is_assignable(kind: Kind, t: SqlType) -> bool
    ensures { result ≡ cells_meant.is_assignable kind t }
{
    match t {
        SqlType::Null => true,
        SqlType::Truth => false,
        SqlType::Int => kind == Kind::Int,
        SqlType::Text => match kind {
            Kind::Text(_) => true,
            Kind::Int | Kind::Free | Kind::Linked(_) => false,
        },
        SqlType::Link => match kind {
            Kind::Free | Kind::Linked(_) => true,
            Kind::Int | Kind::Text(_) => false,
        },
    }
}

fn kind_of_column(columns: &List<Column>, place: usize) -> Kind
    ensures { result ≡ cells_meant.kind_of_column columns.now place }
{
    match columns.at(place) {
        Some(column) => column.kind,
        None => Kind::Int,
    }
}
