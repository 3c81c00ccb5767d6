// The type of an expression, or the first breach.
ghost use Rattle.std.specs.Prelude.{◌≡◌, ◌&&◌, Err, is_err, true, OnErr};
ghost use Rattle.meaning_sql.specs.Faults as faults;
ghost use Rattle.meaning_sql.specs.Faults.{Computes, ComputesAfter, and_then};
ghost use Rattle.meaning_sql.specs.Types.{type_of};
ghost use Rattle.meaning_sql.specs.Types as meaning;
ghost use Rattle.sql_expr.specs.Operands.{RefusesAs, suits};

use crate::types::{
    Operand, aggregate_type, binary_type, is_text, kind_type, suits, takes_aggregate, takes_column,
    typed,
};
use dl_base::{Expr, Fold, Op, Ref, SqlFault};
use meaning_sql::{AggregateScope, Columns, SqlType};
use sql_operators::{kind_at, place_of};

/// The type of an expression where columns and aggregates may stand. The first breach is the answer, operands from left to right
/// and each before its operator: `NoColumn`, `Ambiguous` or `TypeFault`, or `Memory` in the place of these.
pub fn check(expr: &Expr, columns: &Columns) -> Result<SqlType, SqlFault>
    ensures of_type { Computes (λ t. t) result (type_of columns.now AggregateScope.Item expr.now) }
    ensures accepted { OnErr result (is_err (type_of columns.now AggregateScope.Item expr.now) ≡ true) }
{
    check_in(expr, columns, &AggregateScope::Item)
}

/// The type of an expression at a place where that may stand, or its first breach, as `check`. An aggregate out of its place is
/// refused before its operand, and a column outside of an aggregate that is no grouping column is refused at that column.
pub fn check_in(expr: &Expr, columns: &Columns, scope: &AggregateScope) -> Result<SqlType, SqlFault>
    ensures of_type { Computes (λ t. t) result (type_of columns.now scope.now expr.now) }
    ensures accepted { OnErr result (is_err (type_of columns.now scope.now expr.now) ≡ true) }
{
    match expr {
        Expr::Number(_) => Ok(SqlType::Int),
        Expr::Literal(_) => Ok(SqlType::Text),
        Expr::Null => Ok(SqlType::Null),
        Expr::Column(column) => column_type(columns, column, scope),
        Expr::Not(inner) => {
            let t = check_in(inner.get(), columns, scope);
            one_operand(t, Operand::Truth, SqlType::Truth)
        }
        Expr::Minus(inner) => {
            let t = check_in(inner.get(), columns, scope);
            one_operand(t, Operand::Int, SqlType::Int)
        }
        Expr::Binary(op, left, right) => {
            let t = check_in(left.get(), columns, scope);
            let u = check_in(right.get(), columns, scope);
            two_operands(*op, t, u)
        }
        Expr::IsNull(inner, _) => {
            let t = check_in(inner.get(), columns, scope);
            one_operand(t, Operand::Cell, SqlType::Truth)
        }
        Expr::CountAll => typed(takes_aggregate(scope), SqlType::Int),
        Expr::Aggregate(fold, inner) => {
            let t = check_in(inner.get(), columns, &AggregateScope::Row);
            folded(takes_aggregate(scope), *fold, t)
        }
        Expr::Dlvalue1(location) => {
            let t = check_in(location.get(), columns, scope);
            one_operand(t, Operand::Text, SqlType::Link)
        }
        Expr::Dlvalue2(location, linktype) => {
            let t = check_in(location.get(), columns, scope);
            let u = check_in(linktype.get(), columns, scope);
            texts(t, u, Ok(SqlType::Null))
        }
        Expr::Dlvalue3(location, linktype, comment) => {
            let t = check_in(location.get(), columns, scope);
            let u = check_in(linktype.get(), columns, scope);
            let v = check_in(comment.get(), columns, scope);
            texts(t, u, v)
        }
        Expr::Access(_, inner) => {
            let t = check_in(inner.get(), columns, scope);
            one_operand(t, Operand::Link, SqlType::Text)
        }
    }
}

// What an operand gave is handed on whole, a refusal too: each of these takes the step of one operator on it.

fn one_operand(
    operand: Result<SqlType, SqlFault>,
    wanted: Operand,
    gives: SqlType,
) -> Result<SqlType, SqlFault>
    ensures of_type { ComputesAfter operand (λ t. faults.typed (suits wanted t) gives) result }
    ensures accepted { RefusesAs operand (λ t. faults.typed (suits wanted t) gives) result }
    ensures memory { result ≡ Err SqlFault.Memory → operand ≡ Err SqlFault.Memory }
{
    match operand {
        Ok(t) => typed(suits(wanted, t), gives),
        Err(fault) => Err(fault),
    }
}

#[tactic(auto, using(crate::proofs::Steps::refused_first, crate::proofs::Steps::refused_second))]
fn two_operands(
    op: Op,
    left: Result<SqlType, SqlFault>,
    right: Result<SqlType, SqlFault>,
) -> Result<SqlType, SqlFault>
    ensures of_type { (m n : _) → Computes (λ t. t) left m → Computes (λ u. u) right n → Computes (λ t. t) result (and_then m (λ t. and_then n (meaning.binary_type op t))) }
    ensures accepted { (m n : _) → Computes (λ t. t) left m → Computes (λ u. u) right n → OnErr left (is_err m ≡ true) → OnErr right (is_err n ≡ true) → OnErr result (is_err (and_then m (λ t. and_then n (meaning.binary_type op t))) ≡ true) }
    ensures memory { result ≡ Err SqlFault.Memory → and_then left (λ _t. right) ≡ Err SqlFault.Memory }
{
    match left {
        Ok(t) => match right {
            Ok(u) => binary_type(op, t, u),
            Err(fault) => Err(fault),
        },
        Err(fault) => {
            drop(right);
            Err(fault)
        }
    }
}

// The type of an aggregate, which may stand here or not.
fn folded(stands: bool, fold: Fold, operand: Result<SqlType, SqlFault>) -> Result<SqlType, SqlFault>
    ensures of_type { (m : _) → Computes (λ t. t) operand m → Computes (λ t. t) result (and_then (faults.typed stands AggregateScope.Row) (λ _r. and_then m (meaning.aggregate_type fold))) }
    ensures accepted { (m : _) → Computes (λ t. t) operand m → OnErr operand (is_err m ≡ true) → OnErr result (is_err (and_then (faults.typed stands AggregateScope.Row) (λ _r. and_then m (meaning.aggregate_type fold))) ≡ true) }
    ensures memory { result ≡ Err SqlFault.Memory → and_then (faults.typed stands AggregateScope.Row) (λ _r. operand) ≡ Err SqlFault.Memory }
{
    if stands {
        match operand {
            Ok(t) => aggregate_type(fold, t),
            Err(fault) => Err(fault),
        }
    } else {
        drop(operand);
        Err(SqlFault::TypeFault)
    }
}

// The operands of DLVALUE; one that is left out is NULL.
#[tactic(auto, using(crate::proofs::Steps::refused_first, crate::proofs::Steps::refused_second, crate::proofs::Steps::refused_third))]
fn texts(
    location: Result<SqlType, SqlFault>,
    linktype: Result<SqlType, SqlFault>,
    comment: Result<SqlType, SqlFault>,
) -> Result<SqlType, SqlFault>
    ensures of_type { (m n o : _) → Computes (λ t. t) location m → Computes (λ u. u) linktype n → Computes (λ v. v) comment o → Computes (λ t. t) result (and_then m (λ t. and_then n (λ u. and_then o (λ v. faults.typed (meaning.is_text t && meaning.is_text u && meaning.is_text v) SqlType.Link)))) }
    ensures accepted { (m n o : _) → Computes (λ t. t) location m → Computes (λ u. u) linktype n → Computes (λ v. v) comment o → OnErr location (is_err m ≡ true) → OnErr linktype (is_err n ≡ true) → OnErr comment (is_err o ≡ true) → OnErr result (is_err (and_then m (λ t. and_then n (λ u. and_then o (λ v. faults.typed (meaning.is_text t && meaning.is_text u && meaning.is_text v) SqlType.Link)))) ≡ true) }
    ensures memory { result ≡ Err SqlFault.Memory → and_then location (λ _t. and_then linktype (λ _u. comment)) ≡ Err SqlFault.Memory }
{
    match location {
        Ok(t) => match linktype {
            Ok(u) => match comment {
                Ok(v) => typed(is_text(t) && is_text(u) && is_text(v), SqlType::Link),
                Err(fault) => Err(fault),
            },
            Err(fault) => {
                drop(comment);
                Err(fault)
            }
        },
        Err(fault) => {
            drop(linktype);
            drop(comment);
            Err(fault)
        }
    }
}

#[tactic(auto, using(crate::proofs::Steps::refused_first))]
fn column_type(columns: &Columns, column: &Ref, scope: &AggregateScope) -> Result<SqlType, SqlFault>
    ensures of_type { Computes (λ t. t) result (meaning.column_type columns.now column.now scope.now) }
    ensures accepted { OnErr result (is_err (meaning.column_type columns.now column.now scope.now) ≡ true) }
{
    let place = place_of(columns, column)?;
    typed(
        takes_column(scope, place),
        kind_type(kind_at(columns, place)),
    )
}
