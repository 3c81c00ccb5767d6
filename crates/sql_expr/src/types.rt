// What types operators take and give.
ghost use Rattle.std.specs.Prelude.{◌≡◌, ◌==◌};
ghost use Rattle.std.specs.List.{list_any};
ghost use Rattle.meaning_sql.specs.Faults as faults;
ghost use Rattle.meaning_sql.specs.Types as meaning;
ghost use Rattle.sql_expr.specs.Operands.{suits};

use dl_base::{Fold, Kind, Op, SqlFault};
use meaning_sql::{AggregateScope, SqlType};

pub(crate) fn typed(holds: bool, t: SqlType) -> Result<SqlType, SqlFault>
    ensures { result ≡ faults.typed holds t }
{
    if holds {
        Ok(t)
    } else {
        Err(SqlFault::TypeFault)
    }
}

pub(crate) fn is_int(t: SqlType) -> bool
    ensures { result ≡ meaning.is_int t }
{
    matches!(t, SqlType::Int | SqlType::Null)
}

pub(crate) fn is_text(t: SqlType) -> bool
    ensures { result ≡ meaning.is_text t }
{
    matches!(t, SqlType::Text | SqlType::Null)
}

pub(crate) fn is_link(t: SqlType) -> bool
    ensures { result ≡ meaning.is_link t }
{
    matches!(t, SqlType::Link | SqlType::Null)
}

pub(crate) fn is_truth(t: SqlType) -> bool
    ensures { result ≡ meaning.is_truth t }
{
    matches!(t, SqlType::Truth | SqlType::Null)
}

pub(crate) fn is_cell(t: SqlType) -> bool
    ensures { result ≡ meaning.is_cell t }
{
    is_int(t) || is_text(t) || is_link(t)
}

/// What an operand has to be.
#[derive(Clone, Copy)]
pub enum Operand {
    /// A truth.
    Truth,
    /// INTEGER.
    Int,
    /// VARCHAR.
    Text,
    /// DATALINK.
    Link,
    /// What a cell may be.
    Cell,
}

pub(crate) fn suits(wanted: Operand, t: SqlType) -> bool
    ensures { result ≡ suits wanted t }
{
    match wanted {
        Operand::Truth => is_truth(t),
        Operand::Int => is_int(t),
        Operand::Text => is_text(t),
        Operand::Link => is_link(t),
        Operand::Cell => is_cell(t),
    }
}

pub(crate) fn binary_type(op: Op, t: SqlType, u: SqlType) -> Result<SqlType, SqlFault>
    ensures { result ≡ meaning.binary_type op t u }
{
    match op {
        Op::Or | Op::And => typed(is_truth(t) && is_truth(u), SqlType::Truth),
        Op::Eq | Op::Ne | Op::Lt | Op::Le | Op::Gt | Op::Ge => {
            typed(are_comparable(t, u), SqlType::Truth)
        }
        Op::Add | Op::Sub | Op::Mul | Op::Div => typed(is_int(t) && is_int(u), SqlType::Int),
    }
}

fn are_comparable(t: SqlType, u: SqlType) -> bool
    ensures { result ≡ meaning.are_comparable t u }
{
    (is_int(t) && is_int(u)) || (is_text(t) && is_text(u))
}

pub(crate) fn aggregate_type(fold: Fold, t: SqlType) -> Result<SqlType, SqlFault>
    ensures { result ≡ meaning.aggregate_type fold t }
{
    match fold {
        Fold::Sum => typed(is_int(t), SqlType::Int),
        Fold::Min | Fold::Max => typed(is_int(t) || is_text(t), t),
    }
}

pub(crate) fn takes_aggregate(scope: &AggregateScope) -> bool
    ensures { result ≡ meaning.takes_aggregate scope.now }
{
    match scope {
        AggregateScope::Row => false,
        AggregateScope::Item => true,
        AggregateScope::Grouped(_) => true,
    }
}

pub(crate) fn takes_column(scope: &AggregateScope, place: usize) -> bool
    ensures { result ≡ meaning.takes_column scope.now place }
{
    match scope {
        AggregateScope::Row => true,
        AggregateScope::Item => true,
        AggregateScope::Grouped(places) => is_among(places.as_slice(), place),
    }
}

fn is_among(places: &[usize], place: usize) -> bool
    ensures { result ≡ list_any (λ j. j == place) places.now }
{
    places.iter().any(|j| *j == place)
}

/// The type of the cells of a column.
pub fn kind_type(kind: Kind) -> SqlType
    ensures { result ≡ meaning.kind_type kind }
{
    match kind {
        Kind::Int => SqlType::Int,
        Kind::Text(_) => SqlType::Text,
        Kind::Free => SqlType::Link,
        Kind::Linked(_) => SqlType::Link,
    }
}
