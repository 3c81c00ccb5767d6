// What aggregates make of the values of rows, one after the other.
ghost use Rattle.std.specs.Prelude.{◌≡◌, false};
ghost use Rattle.std.specs.Ordering.{is_gt, is_lt};
ghost use Rattle.meaning_sql.specs.Operators as meaning;

use crate::number::sum;
use crate::operator::compared;
use crate::truth::is_null;
use dl_base::{Fold, SqlFault, Value};

/// The aggregate of the rows so far, x, and the value of one more row. It is refused (`Overflow`) where a sum passes 64 bits.
pub fn gather(fold: Fold, x: Value, y: Value) -> Result<Value, SqlFault>
    ensures { result ≡ meaning.gather fold x y }
{
    match fold {
        Fold::Sum => added(x, y),
        Fold::Min => Ok(least(x, y)),
        Fold::Max => Ok(greatest(x, y)),
    }
}

#[tactic(auto, unfolding(meaning_sql::specs::Operators::is_null))]
fn added(x: Value, y: Value) -> Result<Value, SqlFault>
    ensures { result ≡ meaning.added x y }
{
    if is_null(&x) {
        drop(x);
        return Ok(y);
    }
    if is_null(&y) {
        drop(y);
        return Ok(x);
    }
    let both = total(&x, &y);
    drop(x);
    drop(y);
    both
}

// The sum of two values neither of which is NULL.
#[tactic(auto, unfolding(meaning_sql::specs::Operators::is_null))]
fn total(x: &Value, y: &Value) -> Result<Value, SqlFault>
    requires left { meaning.is_null x.now ≡ false }
    requires right { meaning.is_null y.now ≡ false }
    ensures { result ≡ meaning.added x.now y.now }
{
    match x {
        Value::Int(a) => match y {
            Value::Int(b) => sum(*a, *b),
            Value::Text(_) => Ok(Value::Null),
            Value::Link(_) => Ok(Value::Null),
            Value::Null => Ok(Value::Null),
        },
        Value::Text(_) => Ok(Value::Null),
        Value::Link(_) => Ok(Value::Null),
        Value::Null => Ok(Value::Null),
    }
}

#[tactic(auto, unfolding(meaning_sql::specs::Operators::is_null))]
fn least(x: Value, y: Value) -> Value
    ensures { result ≡ meaning.better is_lt x y }
{
    if is_null(&x) {
        drop(x);
        return y;
    }
    let is_better = match compared(&y, &x) {
        Some(o) => o.is_lt(),
        None => false,
    };
    if is_better {
        drop(x);
        y
    } else {
        drop(y);
        x
    }
}

#[tactic(auto, unfolding(meaning_sql::specs::Operators::is_null))]
fn greatest(x: Value, y: Value) -> Value
    ensures { result ≡ meaning.better is_gt x y }
{
    if is_null(&x) {
        drop(x);
        return y;
    }
    let is_better = match compared(&y, &x) {
        Some(o) => o.is_gt(),
        None => false,
    };
    if is_better {
        drop(x);
        y
    } else {
        drop(y);
        x
    }
}
