// Whole numbers of 64 bits.
ghost use Rattle.std.specs.Prelude.{◌≡◌, ◌+ℤ◌, ◌-ℤ◌, ◌*ℤ◌, neg_ℤ};
ghost use Rattle.meaning_sql.specs.Operators as meaning;
ghost use Rattle.sql_operators.specs.Numbers.{int_or_overflow};

use dl_base::{SqlFault, Value};

#[tactic(auto, using(crate::proofs::Numbers::fitting))]
pub(crate) fn sum(a: i64, b: i64) -> Result<Value, SqlFault>
    ensures { result ≡ meaning.whole (a +ℤ b) }
{
    whole(a.checked_add(b))
}

#[tactic(auto, using(crate::proofs::Numbers::fitting))]
pub(crate) fn difference(a: i64, b: i64) -> Result<Value, SqlFault>
    ensures { result ≡ meaning.whole (a -ℤ b) }
{
    whole(a.checked_sub(b))
}

#[tactic(auto, using(crate::proofs::Numbers::fitting))]
pub(crate) fn product(a: i64, b: i64) -> Result<Value, SqlFault>
    ensures { result ≡ meaning.whole (a *ℤ b) }
{
    whole(a.checked_mul(b))
}

/// The quotient, cut toward zero.
#[tactic(auto, using(crate::proofs::Numbers::fitting))]
pub(crate) fn quotient(a: i64, b: i64) -> Result<Value, SqlFault>
    ensures { result ≡ meaning.quotient a b }
{
    if b == 0 {
        return Err(SqlFault::ZeroDivide);
    }
    whole(a.checked_div(b))
}

#[tactic(auto, using(crate::proofs::Numbers::fitting))]
pub(crate) fn opposite(a: i64) -> Result<Value, SqlFault>
    ensures { result ≡ meaning.whole (neg_ℤ a) }
{
    whole(a.checked_neg())
}

fn whole(number: Option<i64>) -> Result<Value, SqlFault>
    ensures { result ≡ int_or_overflow number }
{
    match number {
        Some(z) => Ok(Value::Int(z)),
        None => Err(SqlFault::Overflow),
    }
}
