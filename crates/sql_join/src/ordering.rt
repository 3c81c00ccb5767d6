// The order of values.
ghost use Rattle.std.specs.Prelude.{◌≡◌};
ghost use Rattle.meaning_statements.specs.Selecting as meant;

use dl_base::Value;
use std::cmp::Ordering;

/// The order of two values: NULL is the greatest.
pub fn value_order(x: &Value, y: &Value) -> Ordering
    ensures { result ≡ meant.value_order x.now y.now }
{
    match x {
        Value::Null => match y {
            Value::Null => Ordering::Equal,
            Value::Int(_) => Ordering::Greater,
            Value::Text(_) => Ordering::Greater,
            Value::Link(_) => Ordering::Greater,
        },
        Value::Int(a) => match y {
            Value::Int(b) => a.cmp(b),
            Value::Text(_) => Ordering::Less,
            Value::Link(_) => Ordering::Less,
            Value::Null => Ordering::Less,
        },
        Value::Text(a) => match y {
            Value::Int(_) => Ordering::Greater,
            Value::Text(b) => a.bytes().cmp(b.bytes()),
            Value::Link(_) => Ordering::Less,
            Value::Null => Ordering::Less,
        },
        Value::Link(_) => match y {
            Value::Int(_) => Ordering::Greater,
            Value::Text(_) => Ordering::Greater,
            Value::Link(_) => Ordering::Equal,
            Value::Null => Ordering::Less,
        },
    }
}
