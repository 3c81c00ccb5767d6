// What is told of a line.
ghost use Rattle.std.specs.Prelude.{◌≡◌, [], IfOk, OnErr, Ok, Err};
ghost use Rattle.meaning_script.specs.Printed.{line_text};
ghost use Rattle.meaning_sql.specs.declared.Context.{Context as ContextMeant};
ghost use Rattle.meaning_tables.specs.Fits.{RowsFit};
ghost use Rattle.meaning_tables.specs.Tables.{Tables as TablesMeant};
ghost use Rattle.sql_shell.specs.Told.{Answers, IsAnswer, Tells, first_context};

use dl_base::{Answer, List, Memory, Name, Refusal, Stmt, Text};
use meaning_sql::Context;
use run_print::text;
use sql_run::{answer_of, evaluate};
use sql_syntax::{ParseFault, parse};
use sql_table::Tables;
use std::alloc::Global;

/// What statements are evaluated with: server `fs1`, a key of zeros, moment 0, tokens that are good for 60 seconds, and the number
/// before that of the first transaction, `1-1`.
#[tactic(auto, unfolding(dl_base::specs::Name::name_test))]
pub fn context(alloc: Global) -> Result<Context, Memory>
    ensures { IfOk result (λ context. context ≡ first_context) }
{
    Ok(Context {
        server: Name::of(alloc, b"fs1")?,
        key: [0; 32],
        now: 0,
        life: 60,
        tx: 4_294_967_296,
    })
}

// The answer of what is no statement. It takes no memory: the error is that of its reading.
fn answer_of_fault(fault: ParseFault) -> Result<Answer, Memory>
    ensures answer { IfOk result (λ answer. (tables : TablesMeant) (context : ContextMeant) → IsAnswer tables context (Err fault) answer tables) }
    ensures memory { OnErr result (fault ≡ ParseFault.Memory) }
{
    match fault {
        ParseFault::BadChar(place) => Ok(Answer::Refused(Refusal::BadLine(place))),
        ParseFault::Syntax(place) => Ok(Answer::Refused(Refusal::Syntax(place))),
        ParseFault::Memory => Err(Memory),
    }
}

// A statement of its own transaction, whose links count from 1.
fn run(alloc: Global, tables: &mut Tables, stmt: &Stmt, context: &Context) -> Result<Answer, Memory>
    requires { RowsFit tables.old }
    ensures exact { IfOk result (λ answer. IsAnswer tables.old context.entry.now (Ok stmt.now) answer tables.new) }
    ensures rows { RowsFit tables.new }
{
    let mut next_link = 1u32;
    let made = evaluate(alloc, tables, stmt, context, &mut next_link)?;
    Ok(answer_of(made.outcome))
}

fn answer(
    alloc: Global,
    tables: &mut Tables,
    context: &Context,
    line: &[u8],
) -> Result<Answer, Memory>
    requires { RowsFit tables.old }
    ensures exact { IfOk result (λ answer. Answers tables.old context.entry.now line.now answer tables.new) }
    ensures rows { RowsFit tables.new }
{
    match parse(alloc, line) {
        Ok(stmt) => run(alloc, tables, &stmt, context),
        Err(fault) => answer_of_fault(fault),
    }
}

/// What is told of line `number`, from 1, and the tables after it: the answer of its statement, or the place, from 1, at which it is
/// none.
pub fn told(
    alloc: Global,
    tables: &mut Tables,
    context: &Context,
    number: u64,
    line: &[u8],
) -> Result<Text, Memory>
    requires { RowsFit tables.old }
    ensures exact { IfOk result (λ told. Tells tables.old context.entry.now number line.now told tables.new) }
    ensures rows { RowsFit tables.new }
{
    let answer = answer(alloc, tables, context, line)?;
    printed(alloc, number, &answer)
}

// No answer here names a session.
fn printed(alloc: Global, number: u64, answer: &Answer) -> Result<Text, Memory>
    ensures { IfOk result (λ printed. printed ≡ line_text [] number answer.now) }
{
    let names = List::empty(alloc);
    text(alloc, number, answer, &names)
}
