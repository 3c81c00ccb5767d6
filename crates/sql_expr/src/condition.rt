// The conditions of ON and WHERE: their types, and whether they are true of a row.
ghost use Rattle.std.specs.Prelude.{◌≡◌, is_err, true, Err, OnErr};
ghost use Rattle.meaning_sql.specs.Faults.{Computes, try_map, option_list};
ghost use Rattle.meaning_sql.specs.Conditions as meant;
ghost use Rattle.meaning_sql.specs.Types.{type_of};

use crate::bound::Bound;
use crate::checking::check_in;
use crate::types::is_truth;
use dl_base::{Expr, Memory, Row, SqlFault};
use meaning_sql::{AggregateScope, Columns, Context, SqlType};
use std::alloc::Global;

/// The type of a condition, which is a truth over columns and no aggregate: else its first breach, `NoColumn`, `Ambiguous` or
/// `TypeFault`, or `Memory` in the place of a breach inside it; that it is no truth is always told.
#[tactic(auto, using(crate::proofs::Steps::refused_first))]
pub fn condition_type(columns: &Columns, condition: &Expr) -> Result<SqlType, SqlFault>
    ensures of_type { Computes (λ t. t) result (meant.condition_type columns.now condition.now) }
    ensures accepted { OnErr result (is_err (meant.condition_type columns.now condition.now) ≡ true) }
    ensures memory { result ≡ Err SqlFault.Memory → is_err (type_of columns.now AggregateScope.Row condition.now) ≡ true }
{
    let t = check_in(condition, columns, &AggregateScope::Row)?;
    if is_truth(t) {
        Ok(t)
    } else {
        Err(SqlFault::TypeFault)
    }
}

/// The type of the condition of WHERE, where there is one, or its first breach, as `condition_type`.
#[tactic(auto, using(crate::proofs::Steps::refused_first))]
pub fn filter_type(columns: &Columns, filter: &Option<Expr>) -> Result<Option<SqlType>, SqlFault>
    ensures of_type { Computes (λ t. option_list t) result (try_map (meant.condition_type columns.now) (option_list filter.now)) }
    ensures accepted { OnErr result (is_err (try_map (meant.condition_type columns.now) (option_list filter.now)) ≡ true) }
    ensures memory { result ≡ Err SqlFault.Memory → is_err (try_map (type_of columns.now AggregateScope.Row) (option_list filter.now)) ≡ true }
{
    match filter {
        Some(condition) => Ok(Some(condition_type(columns, condition)?)),
        None => Ok(None),
    }
}

/// Whether a condition is true of a row; unknown is not true. The error is the first fault of its evaluation, or `Memory`.
pub fn holds(
    alloc: Global,
    condition: &Expr,
    row: &Row,
    columns: &Columns,
    context: &Context,
) -> Result<bool, SqlFault>
    ensures { Computes (λ b. b) result (meant.holds_one columns.now context.entry.now condition.now row.now) }
{
    match Bound::new(alloc, condition, columns) {
        Ok(bound) => {
            let holds = bound.holds(alloc, row, context);
            drop(bound);
            holds
        }
        Err(Memory) => Err(SqlFault::Memory),
    }
}

/// Whether the condition of WHERE, where there is one, is true of a row.
pub fn filter_holds(
    alloc: Global,
    filter: &Option<Expr>,
    row: &Row,
    columns: &Columns,
    context: &Context,
) -> Result<bool, SqlFault>
    ensures met { Computes (λ b. b) result (meant.filter_met columns.now context.entry.now filter.now row.now) }
    ensures all { Computes (λ b. b) result (meant.holds_all columns.now context.entry.now (option_list filter.now) row.now) }
{
    match filter {
        Some(condition) => holds(alloc, condition, row, columns, context),
        None => Ok(true),
    }
}
