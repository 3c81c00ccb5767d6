// Aggregates in expressions.
ghost use Rattle.std.specs.Prelude.{◌≡◌};
ghost use Rattle.std.specs.Option.{option_map};
ghost use Rattle.meaning_statements.specs.Selecting as meant;
ghost use Rattle.sql_join.specs.Keeping.{with_operand, operand};

use dl_base::{Expr, Fold};

/// Whether an aggregate stands in an expression.
pub fn has_aggregate(expr: &Expr) -> bool
    ensures { result ≡ meant.has_aggregate expr.now }
{
    match expr {
        Expr::Number(_) => false,
        Expr::Literal(_) => false,
        Expr::Null => false,
        Expr::Column(_) => false,
        Expr::Not(a) => has_aggregate(a.get()),
        Expr::Minus(a) => has_aggregate(a.get()),
        Expr::Binary(_, a, b) => has_aggregate(a.get()) || has_aggregate(b.get()),
        Expr::IsNull(a, _) => has_aggregate(a.get()),
        Expr::CountAll => true,
        Expr::Aggregate(_, _) => true,
        Expr::Dlvalue1(a) => has_aggregate(a.get()),
        Expr::Dlvalue2(a, b) => has_aggregate(a.get()) || has_aggregate(b.get()),
        Expr::Dlvalue3(a, b, c) => {
            has_aggregate(a.get()) || has_aggregate(b.get()) || has_aggregate(c.get())
        }
        Expr::Access(_, a) => has_aggregate(a.get()),
    }
}

/// The aggregate that an expression is, and its operand, where no aggregate stands in the operand.
pub fn operand(expr: &Expr) -> Option<(Fold, &Expr)>
    ensures { option_map (λ p. (p.0, p.1.now)) result ≡ operand expr.now }
{
    match expr {
        Expr::Aggregate(fold, inner) => alone(*fold, inner.get()),
        Expr::CountAll => None,
        Expr::Number(_) => None,
        Expr::Literal(_) => None,
        Expr::Null => None,
        Expr::Column(_) => None,
        Expr::Not(_) => None,
        Expr::Minus(_) => None,
        Expr::Binary(_, _, _) => None,
        Expr::IsNull(_, _) => None,
        Expr::Dlvalue1(_) => None,
        Expr::Dlvalue2(_, _) => None,
        Expr::Dlvalue3(_, _, _) => None,
        Expr::Access(_, _) => None,
    }
}

fn alone(fold: Fold, inner: &Expr) -> Option<(Fold, &Expr)>
    ensures { option_map (λ p. (p.0, p.1.now)) result ≡ with_operand fold inner.now }
{
    if has_aggregate(inner) {
        None
    } else {
        Some((fold, inner))
    }
}
