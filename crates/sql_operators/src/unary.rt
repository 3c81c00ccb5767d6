// Operators of one operand.
ghost use Rattle.std.specs.Prelude.{◌≡◌, Err, true};
ghost use Rattle.meaning_sql.specs.Faults.{Computes};
ghost use Rattle.sql_operators.specs.Unary.{is_accessor, unary_value};

use crate::datalinks::accessed;
use crate::operator::negated;
use crate::truth::{is_null, not3, of_truth, truth_of};
use dl_base::{Options, Part, SqlFault, Value};
use meaning_sql::Context;
use std::alloc::Global;

/// An operator of one operand.
#[derive(Clone, Copy)]
pub enum Unary {
    /// NOT of a truth.
    Not,
    /// The sign before a number.
    Minus,
    /// IS NULL where it holds true, IS NOT NULL where it holds false.
    IsNull(bool),
    /// An accessor of a datalink.
    Access(Part),
}

/// What an operator makes of its one operand, which is a cell of a column under these options, if it is one. A number is refused
/// (`Overflow`) where it passes 64 bits; `Memory` comes of accessors alone.
pub fn unary_value(
    alloc: Global,
    context: &Context,
    op: Unary,
    under: Option<Options>,
    x: &Value,
) -> Result<Value, SqlFault>
    ensures value { Computes (λ v. v) result (unary_value context.entry.now under op x.now) }
    ensures memory { result ≡ Err SqlFault.Memory → is_accessor op ≡ true }
{
    match op {
        Unary::Not => Ok(of_truth(not3(truth_of(x)))),
        Unary::Minus => negated(x),
        Unary::IsNull(is) => Ok(of_truth(Some(if is { is_null(x) } else { !is_null(x) }))),
        Unary::Access(part) => accessed(alloc, context, under, part, x),
    }
}
