// What operators make of values.
ghost use Rattle.std.specs.Prelude.{◌≡◌, ◌≢◌, Err, Ok, true};
ghost use Rattle.meaning_sql.specs.Operators as meaning;
ghost use Rattle.sql_operators.specs.Asking.{Asked, Decided, is_arithmetic};

use crate::number::{difference, opposite, product, quotient, sum};
use crate::seen::Seen;
use crate::truth::{and3, of_truth, or3, truth_of};
use dl_base::{Op, SqlFault, Value};
use std::cmp::Ordering;

/// What is known of an operator once its left side is.
#[derive(Drop)]
pub enum Ask<'a> {
    /// The left side was refused so.
    Refused(SqlFault),
    /// The operator's value, whatever the right side is.
    Decided(Value),
    /// The value of the left side: the right side is needed.
    Asks(Seen<'a>),
}

/// What is known of an operator once this is what its left side gave. Nothing is refused here that was not refused there.
#[tactic(auto, unfolding(meaning_sql::specs::Operators::binary))]
pub fn left_side<'a>(op: Op, x: Result<Seen<'a>, SqlFault>) -> Ask<'a>
    ensures { Asked op x.entry result }
{
    match x {
        Err(fault) => Ask::Refused(fault),
        Ok(x) => match decided(op, x.get()) {
            Some(v) => {
                drop(x);
                Ask::Decided(v)
            }
            None => Ask::Asks(x),
        },
    }
}

// What the left side alone decides.
#[tactic(auto, unfolding(meaning_sql::specs::Operators::binary, meaning_sql::specs::Operators::truth_of, meaning_sql::specs::Operators::of_truth))]
fn decided(op: Op, x: &Value) -> Option<Value>
    ensures { Decided op x.now result }
{
    match op {
        Op::And => match truth_of(x) {
            Some(false) => Some(Value::Int(0)),
            Some(true) => None,
            None => None,
        },
        Op::Or => match truth_of(x) {
            Some(true) => Some(Value::Int(1)),
            Some(false) => None,
            None => None,
        },
        Op::Eq | Op::Ne | Op::Lt | Op::Le | Op::Gt | Op::Ge => None,
        Op::Add | Op::Sub | Op::Mul | Op::Div => None,
    }
}

/// What an operator makes of both sides. A number is refused (`Overflow`) where it passes 64 bits, and a quotient by 0 (`ZeroDivide`).
#[tactic(auto, unfolding(meaning_sql::specs::Operators::binary))]
pub fn binary(op: Op, x: &Value, y: &Value) -> Result<Value, SqlFault>
    ensures { result ≡ meaning.binary op x.now (Ok y.now) }
{
    match op {
        Op::Or => Ok(of_truth(or3(truth_of(x), truth_of(y)))),
        Op::And => Ok(of_truth(and3(truth_of(x), truth_of(y)))),
        Op::Eq => Ok(of_truth(compared(x, y).map(|o| o.is_eq()))),
        Op::Ne => Ok(of_truth(compared(x, y).map(|o| o.is_ne()))),
        Op::Lt => Ok(of_truth(compared(x, y).map(|o| o.is_lt()))),
        Op::Le => Ok(of_truth(compared(x, y).map(|o| o.is_le()))),
        Op::Gt => Ok(of_truth(compared(x, y).map(|o| o.is_gt()))),
        Op::Ge => Ok(of_truth(compared(x, y).map(|o| o.is_ge()))),
        Op::Add | Op::Sub | Op::Mul | Op::Div => arithmetic(op, x, y),
    }
}

#[tactic(auto, unfolding(meaning_sql::specs::Operators::binary))]
fn arithmetic(op: Op, x: &Value, y: &Value) -> Result<Value, SqlFault>
    requires { is_arithmetic op ≡ true }
    ensures { result ≡ meaning.binary op x.now (Ok y.now) }
{
    let (Value::Int(a), Value::Int(b)) = (x, y) else {
        return Ok(Value::Null);
    };
    match op {
        Op::Add => sum(*a, *b),
        Op::Sub => difference(*a, *b),
        Op::Mul => product(*a, *b),
        Op::Div => quotient(*a, *b),
        _ => unreachable!(),
    }
}

#[tactic(auto, using(crate::proofs::Numbers::whole_or_overflow), unfolding(meaning_sql::specs::Operators::negated))]
pub(crate) fn negated(x: &Value) -> Result<Value, SqlFault>
    ensures value { result ≡ meaning.negated x.now }
    ensures memory { result ≢ Err SqlFault.Memory }
{
    match x {
        Value::Int(z) => opposite(*z),
        Value::Null => Ok(Value::Null),
        Value::Text(_) => Ok(Value::Null),
        Value::Link(_) => Ok(Value::Null),
    }
}

pub(crate) fn compared(x: &Value, y: &Value) -> Option<Ordering>
    ensures { result ≡ meaning.compared x.now y.now }
{
    match x {
        Value::Int(a) => match y {
            Value::Int(b) => Some(a.cmp(b)),
            Value::Text(_) => None,
            Value::Null => None,
            Value::Link(_) => None,
        },
        Value::Text(a) => match y {
            Value::Text(b) => Some(a.bytes().cmp(b.bytes())),
            Value::Int(_) => None,
            Value::Null => None,
            Value::Link(_) => None,
        },
        Value::Null => None,
        Value::Link(_) => None,
    }
}
