// Statements from text.
ghost use Rattle.std.specs.Prelude.{◌≡◌, Result, ◌+◌, IfOk, length, slice_get};
ghost use Rattle.dl_base.specs.declared.statement.Stmt.{Stmt as Tree};
ghost use Rattle.sql_grammar.specs.Proper.{terminal, reserved_symbol, sign_symbol};
ghost use Rattle.sql_grammar.specs.Readers.{whole_at};
ghost use Rattle.sql_grammar.specs.Meaning.{terminals};
ghost use Rattle.sql_grammar.specs.Reading.{statement_at};
ghost use Rattle.sql_syntax.specs.declared.parser.ParseFault.{ParseFault as Fault};
ghost use Rattle.sql_syntax.specs.declared.parser.ParseFault.TheVariants as fault;
ghost use Rattle.sql_syntax.specs.Parsing.{begins_of, or_end, Parses, Agrees, AnswersParsing};
ghost use Rattle.sql_syntax.specs.Reserving.{symbol_of_nine};

use crate::sentence::whole;
use dl_base::{List, Memory, Stmt};
use sql_grammar::{Symbol, Terminal};
use sql_lex::{LexFault, LexKind, Lexeme, lex};
use sql_precedence::{Refused, same_bytes};
use std::alloc::Global;
use thiserror::Error;

/// Why a text is no statement.
#[derive(Clone, Copy, Debug, PartialEq, Eq, Error)]
pub enum ParseFault {
    /// The place, from 1, of the first byte that begins no lexeme.
    #[error("no lexeme begins at byte {0}")]
    BadChar(u64),
    /// The place, from 1, of the first lexeme with which the lexemes so far begin no statement, or one past the text's
    /// last byte.
    #[error("no statement goes on so at byte {0}")]
    Syntax(u64),
    #[error("no memory")]
    Memory,
}

impl From<Memory> for ParseFault {
    ghost from_gives = { λ _ e. e ≡ fault.Memory };

    fn from(_: Memory) -> ParseFault {
        ParseFault::Memory
    }
}

// The symbol of one of the reserved words from and to datalink.
#[tactic(auto, unfolding(crate::specs::Reserving::symbol_of_nine))]
fn and_to_datalink(word: &[u8]) -> Option<Symbol>
    ensures { result ≡ symbol_of_nine 0 word.now }
{
    if same_bytes(word, b"and") {
        Some(Symbol::And)
    } else if same_bytes(word, b"as") {
        Some(Symbol::As)
    } else if same_bytes(word, b"asc") {
        Some(Symbol::Asc)
    } else if same_bytes(word, b"begin") {
        Some(Symbol::Begin)
    } else if same_bytes(word, b"bigint") {
        Some(Symbol::Bigint)
    } else if same_bytes(word, b"by") {
        Some(Symbol::By)
    } else if same_bytes(word, b"commit") {
        Some(Symbol::Commit)
    } else if same_bytes(word, b"create") {
        Some(Symbol::Create)
    } else if same_bytes(word, b"datalink") {
        Some(Symbol::Datalink)
    } else {
        None
    }
}

// The symbol of one of the reserved words from delete to into.
#[tactic(auto, unfolding(crate::specs::Reserving::symbol_of_nine))]
fn delete_to_into(word: &[u8]) -> Option<Symbol>
    ensures { result ≡ symbol_of_nine 9 word.now }
{
    if same_bytes(word, b"delete") {
        Some(Symbol::Delete)
    } else if same_bytes(word, b"desc") {
        Some(Symbol::Desc)
    } else if same_bytes(word, b"drop") {
        Some(Symbol::Drop)
    } else if same_bytes(word, b"from") {
        Some(Symbol::From)
    } else if same_bytes(word, b"group") {
        Some(Symbol::Group)
    } else if same_bytes(word, b"inner") {
        Some(Symbol::Inner)
    } else if same_bytes(word, b"insert") {
        Some(Symbol::Insert)
    } else if same_bytes(word, b"integer") {
        Some(Symbol::Integer)
    } else if same_bytes(word, b"into") {
        Some(Symbol::Into)
    } else {
        None
    }
}

// The symbol of one of the reserved words from is to primary.
#[tactic(auto, unfolding(crate::specs::Reserving::symbol_of_nine))]
fn is_to_primary(word: &[u8]) -> Option<Symbol>
    ensures { result ≡ symbol_of_nine 18 word.now }
{
    if same_bytes(word, b"is") {
        Some(Symbol::Is)
    } else if same_bytes(word, b"join") {
        Some(Symbol::Join)
    } else if same_bytes(word, b"key") {
        Some(Symbol::Key)
    } else if same_bytes(word, b"not") {
        Some(Symbol::Not)
    } else if same_bytes(word, b"null") {
        Some(Symbol::Null)
    } else if same_bytes(word, b"on") {
        Some(Symbol::On)
    } else if same_bytes(word, b"or") {
        Some(Symbol::Or)
    } else if same_bytes(word, b"order") {
        Some(Symbol::Order)
    } else if same_bytes(word, b"primary") {
        Some(Symbol::Primary)
    } else {
        None
    }
}

// The symbol of one of the reserved words from rollback to where.
#[tactic(auto, unfolding(crate::specs::Reserving::symbol_of_nine))]
fn rollback_to_where(word: &[u8]) -> Option<Symbol>
    ensures { result ≡ symbol_of_nine 27 word.now }
{
    if same_bytes(word, b"rollback") {
        Some(Symbol::Rollback)
    } else if same_bytes(word, b"select") {
        Some(Symbol::Select)
    } else if same_bytes(word, b"set") {
        Some(Symbol::Set)
    } else if same_bytes(word, b"table") {
        Some(Symbol::Table)
    } else if same_bytes(word, b"update") {
        Some(Symbol::Update)
    } else if same_bytes(word, b"values") {
        Some(Symbol::Values)
    } else if same_bytes(word, b"varchar") {
        Some(Symbol::Varchar)
    } else if same_bytes(word, b"where") {
        Some(Symbol::Where)
    } else {
        None
    }
}

// The symbol of a reserved word.
#[tactic(auto, using(crate::proofs::Reserving::by_nines))]
fn reserved(word: &[u8]) -> Option<Symbol>
    ensures { result ≡ reserved_symbol word.now }
{
    match and_to_datalink(word) {
        Some(symbol) => Some(symbol),
        None => match delete_to_into(word) {
            Some(symbol) => Some(symbol),
            None => match is_to_primary(word) {
                Some(symbol) => Some(symbol),
                None => rollback_to_where(word),
            },
        },
    }
}

// The symbol of a sign, by its place in the lexer's list.
fn sign(place: u8) -> Symbol
    ensures { result ≡ sign_symbol place }
{
    match place {
        0 => Symbol::Open,
        1 => Symbol::Close,
        2 => Symbol::Comma,
        3 => Symbol::Dot,
        4 => Symbol::Semicolon,
        5 => Symbol::Star,
        6 => Symbol::Plus,
        7 => Symbol::Minus,
        8 => Symbol::Slash,
        9 => Symbol::Equal,
        10 => Symbol::Unequal,
        11 => Symbol::Less,
        12 => Symbol::LessEqual,
        13 => Symbol::Greater,
        _ => Symbol::GreaterEqual,
    }
}

// A lexeme as the grammar sees it.
fn terminal(kind: LexKind) -> Terminal
    ensures { result ≡ terminal kind }
{
    match kind {
        LexKind::Word(word) => match reserved(word.bytes()) {
            Some(symbol) => Terminal::Fixed(symbol),
            None => Terminal::Word(word),
        },
        LexKind::Number(n) => Terminal::Number(n),
        LexKind::Literal(text) => Terminal::Literal(text),
        LexKind::Sign(place) => Terminal::Fixed(sign(place)),
    }
}

// Lexemes as the grammar sees them, and where each begins. The lexemes are let go, and their words and literals kept.
fn terminals(alloc: Global, lexemes: List<Lexeme>) -> Result<(List<Terminal>, List<u64>), Memory>
    ensures { IfOk result (λ r. (r.0 ≡ terminals lexemes) × (r.1 ≡ begins_of lexemes)) }
{
    let mut list = List::empty(alloc);
    let mut begins = List::empty(alloc);
    'lexemes: for lexeme in lexemes.into_vec() {
        let Lexeme { kind, begin, .. } = lexeme;
        list.push(terminal(kind))?;
        begins.push(begin)?;
    }
    Ok((list, begins))
}

// Where a lexeme begins, or one past the text's last byte.
fn place(text: &[u8], begins: &[u64], number: usize) -> u64
    ensures { result ≡ or_end (slice_get begins.now number) (length text.now + 1) }
{
    match begins.get(number) {
        Some(begin) => *begin,
        None => text.len() as u64 + 1,
    }
}

// The statement of the lexemes of a text.
#[tactic(auto, using(crate::proofs::Places::place_of))]
fn read(alloc: Global, text: &[u8], lexemes: List<Lexeme>) -> Result<Stmt, ParseFault>
    ensures { AnswersParsing text.now lexemes result (whole_at statement_at (terminals lexemes)) }
{
    let (terminals, begins) = terminals(alloc, lexemes)?;
    match whole(alloc, terminals.as_slice()) {
        Ok(stmt) => Ok(stmt),
        Err(Refused::Syntax(number)) => {
            Err(ParseFault::Syntax(place(text, begins.as_slice(), number)))
        }
        Err(Refused::Memory) => Err(ParseFault::Memory),
    }
}

/// The statement that a text is. Its lexemes are asked first: a `BadChar` comes before any `Syntax`.
pub fn parse(alloc: Global, text: &[u8]) -> Result<Stmt, ParseFault>
    // It answers what the grammar does.
    ensures exact { Parses text.now result }
    // And nothing else is what the grammar answers, unless memory runs out.
    ensures only { (r : Result Tree Fault) → Parses text.now r → Agrees result r }
{
    match lex(alloc, text) {
        Ok(lexemes) => read(alloc, text, lexemes),
        Err(LexFault::BadChar(place)) => Err(ParseFault::BadChar(place)),
        Err(LexFault::Memory) => Err(ParseFault::Memory),
    }
}
