//! The expression at a place.

ghost use Rattle.std.specs.Prelude.{◌≡◌};
ghost use Rattle.sql_grammar.specs.Readers.{expression_at};
ghost use Rattle.sql_precedence.specs.Results.{AnswersReading};

use crate::machine::{Reading, Stack, Step, end, take};
use crate::refused::Refused;
use dl_base::Expr;
use sql_grammar::Terminal;
use std::alloc::Global;

/// The expression that begins at `from`, and the place behind it.
pub fn expression(
    alloc: Global,
    terminals: &[Terminal],
    from: usize,
) -> Result<(Expr, usize), Refused>
    ensures { AnswersReading result (expression_at terminals.now from) }
{
    let mut reading = Reading::Due(Stack {
        frames: Vec::new(alloc),
        operators: 0,
        parentheses: 0,
    });
    for at in from..terminals.len() {
        match take(alloc, reading, &terminals[at])? {
            Step::Go(next) => reading = next,
            Step::Stop(value) => return Ok((value, at)),
            Step::Refuse => return Err(Refused::Syntax(at)),
        }
    }
    let at = from.max(terminals.len());
    match end(alloc, reading)? {
        Step::Stop(value) => Ok((value, at)),
        Step::Go(more) => {
            // Cheaper to prove than what goes on being let go without a word.
            drop(more);
            Err(Refused::Syntax(at))
        }
        Step::Refuse => Err(Refused::Syntax(at)),
    }
}
