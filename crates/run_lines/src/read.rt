// What a line is read as.
ghost use Rattle.std.specs.Prelude.{◌≡◌, ◌≤◌, ◌+◌, ℕ, List, length, IfOk, OnErr, Err};
ghost use Rattle.dl_base.specs.Limits.{most_line_bytes};
ghost use Rattle.run_lines.specs.Reading.{Reads, IsStatement, Shows};
ghost use Rattle.sql_syntax.specs.Parsing.{Parses};
ghost use Rattle.meaning_script.specs.Expansion.{IsRead};
ghost use Rattle.meaning_script.specs.declared.kind.Line.{Line as Meant};

use dl_base::{Memory, Name, Refusal};
use run_script::{Line, Outline, Sentence, read_outline};
use sql_syntax::{ParseFault, parse};
use std::alloc::Global;

/// What a line of a script is read as: its outline, with the statement that a session says. A text with a byte that begins no
/// lexeme is `BadLine` at that byte, any other text that is no statement `Syntax` at the first lexeme that fits none, or one past
/// the line's end. Places count the bytes of the line from 1.
pub fn read_line(alloc: Global, line: &[u8]) -> Result<Line, Memory>
    ensures exact { IfOk result (λ l. Reads line.now l) }
    ensures only { (l : Meant) → Reads line.now l → IfOk result (λ r. r ≡ l) }
    ensures placed { IfOk result IsRead }
{
    match read_outline(alloc, line)? {
        Outline::Plain(line) => Ok(line),
        Outline::Statement(name, before) => statement(alloc, name, before, &line[before..]),
    }
}

// The statement of a session, whose text stands behind so many bytes of the line.
fn statement(alloc: Global, name: Name, before: usize, text: &[u8]) -> Result<Line, Memory>
    requires { before + length text.now ≤ most_line_bytes }
    ensures exact { IfOk result (λ l. IsStatement name before text.now l) }
    ensures only { (l : Meant) → IsStatement name before text.now l → IfOk result (λ r. r ≡ l) }
    ensures placed { IfOk result IsRead }
{
    match parse(alloc, text) {
        Ok(statement) => Ok(Line::Session(name, Sentence::Sql(statement))),
        Err(fault) => no_statement(fault, before, text),
    }
}

// The line of a text that is no statement, whoever says it.
#[tactic(auto, using(crate::proofs::Places::bad_fault_place, crate::proofs::Places::syntax_fault_place))]
fn no_statement(fault: ParseFault, before: usize, text: &[u8]) -> Result<Line, Memory>
    requires within { before + length text.now ≤ most_line_bytes }
    requires fault { Parses text.now (Err fault) }
    ensures shown { (name : List ℕ) → IfOk result (Shows name before (Err fault)) }
    ensures placed { IfOk result IsRead }
    ensures memory { OnErr result (fault ≡ ParseFault.Memory) }
{
    match fault {
        ParseFault::BadChar(place) => Ok(Line::Bad(Refusal::BadLine(place + before as u64))),
        ParseFault::Syntax(place) => Ok(Line::Bad(Refusal::Syntax(place + before as u64))),
        ParseFault::Memory => Err(Memory),
    }
}
