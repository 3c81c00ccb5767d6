// Truth: inside a value it is INTEGER 1 or 0, and unknown is NULL.
ghost use Rattle.std.specs.Prelude.{◌≡◌};
ghost use Rattle.meaning_sql.specs.Conditions.{is_true};
ghost use Rattle.meaning_sql.specs.Operators as meaning;

use dl_base::Value;

#[tactic(auto, unfolding(meaning_sql::specs::Operators::truth_of))]
pub(crate) fn truth_of(x: &Value) -> Option<bool>
    ensures { result ≡ meaning.truth_of x.now }
{
    match x {
        Value::Int(z) => Some(*z != 0),
        Value::Null => None,
        Value::Text(_) => None,
        Value::Link(_) => None,
    }
}

#[tactic(auto, unfolding(meaning_sql::specs::Operators::of_truth))]
pub(crate) fn of_truth(truth: Option<bool>) -> Value
    ensures { result ≡ meaning.of_truth truth }
{
    match truth {
        Some(true) => Value::Int(1),
        Some(false) => Value::Int(0),
        None => Value::Null,
    }
}

#[tactic(auto, unfolding(meaning_sql::specs::Operators::not3))]
pub(crate) fn not3(p: Option<bool>) -> Option<bool>
    ensures { result ≡ meaning.not3 p }
{
    match p {
        Some(b) => Some(!b),
        None => None,
    }
}

pub(crate) fn and3(p: Option<bool>, q: Option<bool>) -> Option<bool>
    ensures { result ≡ meaning.and3 p q }
{
    match p {
        Some(false) => Some(false),
        Some(true) => q,
        None => match q {
            Some(false) => Some(false),
            Some(true) => None,
            None => None,
        },
    }
}

pub(crate) fn or3(p: Option<bool>, q: Option<bool>) -> Option<bool>
    ensures { result ≡ meaning.or3 p q }
{
    match p {
        Some(true) => Some(true),
        Some(false) => q,
        None => match q {
            Some(true) => Some(true),
            Some(false) => None,
            None => None,
        },
    }
}

#[tactic(auto, unfolding(meaning_sql::specs::Operators::is_null))]
pub(crate) fn is_null(x: &Value) -> bool
    ensures { result ≡ meaning.is_null x.now }
{
    match x {
        Value::Null => true,
        Value::Int(_) => false,
        Value::Text(_) => false,
        Value::Link(_) => false,
    }
}

/// Whether a value is true; unknown is not.
#[tactic(auto, unfolding(meaning_sql::specs::Operators::truth_of))]
pub fn is_true(x: &Value) -> bool
    ensures { result ≡ is_true x.now }
{
    match x {
        Value::Int(z) => *z != 0,
        Value::Null => false,
        Value::Text(_) => false,
        Value::Link(_) => false,
    }
}
