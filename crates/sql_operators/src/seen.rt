// Values of expressions, looked at where they stand: a cell or a constant is copied only if it is kept.
ghost use Rattle.std.specs.Prelude.{◌≡◌, Err, IfOk};
ghost use Rattle.sql_operators.specs.Seeing.{IsSeen, seen};

use dl_base::{Copied, Memory, SqlFault, Value};

/// A value of an expression.
#[derive(Drop)]
pub enum Seen<'a> {
    /// One that stands in a row, or in the expression.
    There(&'a Value),
    /// One that was made.
    Made(Value),
}

impl<'a> Seen<'a> {
    /// The value, where it stands.
    pub fn get(&self) -> &Value
        ensures { result.now ≡ seen self.now }
    {
        match self {
            Seen::There(value) => *value,
            Seen::Made(value) => value,
        }
    }

    /// The value, to be kept: one that stands somewhere is copied, for which memory is taken.
    pub fn into_value(self) -> Result<Value, Memory>
        ensures { IfOk result (λ v. v ≡ seen self.entry) }
    {
        match self {
            Seen::There(value) => value.copy(),
            Seen::Made(value) => Ok(value),
        }
    }
}

/// What a call made, as a value of an expression; its refusal is handed on.
pub fn made<'a>(value: Result<Value, SqlFault>) -> Result<Seen<'a>, SqlFault>
    ensures value { IsSeen value result }
    ensures memory { result ≡ Err SqlFault.Memory → value ≡ Err SqlFault.Memory }
{
    match value {
        Ok(value) => Ok(Seen::Made(value)),
        Err(fault) => Err(fault),
    }
}
