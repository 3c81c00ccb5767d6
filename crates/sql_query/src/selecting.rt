// SELECT as a whole.
ghost use Rattle.std.specs.Prelude.{◌≡◌, ◌++◌, true};
ghost use Rattle.meaning_sql.specs.Faults.{Computes, and_then, option_list};
ghost use Rattle.meaning_statements.specs.Selecting as meant;
ghost use Rattle.meaning_statements.specs.Sources as sources_meant;
ghost use Rattle.meaning_tables.specs.Fits.{RowsFit};
ghost use Rattle.sql_query.specs.Answering.{answers_of};
ghost use Rattle.sql_query.specs.Folding.{items_of};
ghost use Rattle.sql_query.specs.Planning as planning;
ghost use Rattle.sql_join.specs.Walking.{AllFit};

use crate::answering::shown;
use crate::folding::{have_operand, is_folding};
use crate::grouping::{group_places, places_apart, scope_of};
use crate::items::item_types;
use crate::keys::order_keys;
use crate::sorting::sorted;
use dl_base::{Grid, Item, Limit, List, Row, Select, SqlFault};
use meaning_sql::{Columns, Context};
use sql_conditions::condition_types;
use sql_expr::filter_type;
use sql_join::{Source, are_few, columns_of, combined, sources_of};
use sql_table::Tables;
use std::alloc::Global;

/// The rows that a query gives over tables. It is refused, in this order, by its sources (`NoTable`, `Limit`, `Ambiguous`), by the
/// types of its expressions in order of text, of GROUP BY and of ORDER BY (`NoColumn`, `Ambiguous`, `TypeFault`), by the number
/// of its combined rows (`Limit`), and by the values of its conditions, and then of its items (`Overflow`, `ZeroDivide`,
/// `BadLink`); or there is no `Memory`. A condition is asked as soon as the sources are combined whose columns it and the conditions
/// before it name, and ends what is behind them; a source whose key they ask to be a number, a text, or a cell of a source before it is
/// looked up: its cost grows with the rows combined so, with the rows that are kept, and as n log n with the answers that are sorted.
/// Of a query with GROUP BY or an aggregate, and with no aggregate but items that are one over columns, one row a group alone is kept.
/// The rows of tables fit.
pub fn select(
    alloc: Global,
    tables: &Tables,
    query: &Select,
    context: &Context,
) -> Result<Grid, SqlFault>
    requires rows { RowsFit tables.now }
    ensures { Computes (λ g. g.rows) result (meant.select tables.now query.now context.entry.now) }
{
    match over_tables(alloc, tables, query, context) {
        Ok(rows) => Ok(Grid { rows }),
        Err(fault) => Err(fault),
    }
}

fn over_tables(
    alloc: Global,
    tables: &Tables,
    query: &Select,
    context: &Context,
) -> Result<List<Row>, SqlFault>
    requires { RowsFit tables.now }
    ensures { Computes (λ r. r) result (and_then (sources_meant.sources_of tables.now query.now.from) (λ s. planning.selected s query.now context.entry.now)) }
{
    let sources = sources_of(alloc, tables, query.from.as_slice())?;
    selected(alloc, sources.as_slice(), query, context)
}

fn selected(
    alloc: Global,
    sources: &[Source],
    query: &Select,
    context: &Context,
) -> Result<List<Row>, SqlFault>
    requires { AllFit sources.now }
    ensures { Computes (λ r. r) result (planning.selected sources.now query.now context.entry.now) }
{
    let columns = columns_of(alloc, sources)?;
    over_columns(alloc, sources, &columns, query, context)
}

// The rows that a query gives over its sources, whose columns are these.
#[tactic(auto, unfolding(crate::specs::Planning::chosen))]
fn over_columns(
    alloc: Global,
    sources: &[Source],
    columns: &Columns,
    query: &Select,
    context: &Context,
) -> Result<List<Row>, SqlFault>
    requires columns { columns.now ≡ sources_meant.columns_of sources.now }
    requires fit { AllFit sources.now }
    ensures { Computes (λ r. r) result (planning.chosen columns.now sources.now query.now context.entry.now) }
{
    let plan = planned(alloc, columns, query)?;
    if !are_few(sources) {
        return Err(SqlFault::Limit(Limit::Product));
    }
    answered(alloc, sources, columns, query, context, &plan)
}

#[tactic(auto, unfolding(crate::specs::Planning::answered))]
fn answered(
    alloc: Global,
    sources: &[Source],
    columns: &Columns,
    query: &Select,
    context: &Context,
    plan: &Plan,
) -> Result<List<Row>, SqlFault>
    requires columns { columns.now ≡ sources_meant.columns_of sources.now }
    requires few { meant.are_few sources.now ≡ true }
    requires fit { AllFit sources.now }
    ensures { Computes (λ r. r) result (planning.answered columns.now sources.now query.now context.entry.now plan.now.places plan.now.keys) }
{
    let places = plan.places.as_slice();
    let made = rows_shown(alloc, sources, columns, query, context, places)?;
    Ok(sorted(alloc, made, plan.keys.as_slice())?)
}

// What is shown of the combined rows. Of a query that folds, the first one of each group alone is kept.
fn rows_shown(
    alloc: Global,
    sources: &[Source],
    columns: &Columns,
    query: &Select,
    context: &Context,
    places: &[usize],
) -> Result<List<Row>, SqlFault>
    requires columns { columns.now ≡ sources_meant.columns_of sources.now }
    requires few { meant.are_few sources.now ≡ true }
    requires fit { AllFit sources.now }
    ensures { Computes (λ r. r) result (and_then (meant.combined sources.now context.entry.now (query.now.conditions ++ option_list query.now.filter)) (answers_of columns.now context.entry.now query.now places.now)) }
{
    let folds = is_folding(query);
    let items = folded_items(query, folds);
    let apart = places_apart(query, places);
    match combined(alloc, sources, query, columns, context, items, folds, apart) {
        Ok(kept) => shown(alloc, query, columns, context, places, kept),
        Err(fault) => Err(fault),
    }
}

// The items whose aggregates are folded row by row.
fn folded_items(query: &Select, folds: bool) -> &[Item]
    ensures { result.now ≡ items_of folds query.now.items }
{
    match &query.items {
        Some(items) => {
            if folds && have_operand(items.as_slice()) {
                items.as_slice()
            } else {
                &[]
            }
        }
        None => &[],
    }
}

// What is known of a query before a row is looked at: the places of its groups, and its keys.
#[derive(Drop)]
struct Plan {
    places: List<usize>,
    keys: List<(usize, bool)>,
}

#[tactic(auto, unfolding(crate::specs::Planning::planned))]
fn planned(alloc: Global, columns: &Columns, query: &Select) -> Result<Plan, SqlFault>
    ensures { Computes (λ p. (p.places, p.keys)) result (planning.planned columns.now query.now) }
{
    let scope = scope_of(alloc, columns, query)?;
    condition_types(alloc, columns, query.conditions.as_slice())?;
    item_types(alloc, columns, &query.items, &scope)?;
    filter_type(columns, &query.filter)?;
    let places = group_places(alloc, columns, query.group.as_slice())?;
    let keys = order_keys(alloc, columns, &query.items, &scope, query.order.as_slice())?;
    Ok(Plan { places, keys })
}
