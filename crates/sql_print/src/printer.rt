// Statements as text.
ghost use Rattle.std.specs.Prelude.{◌≡◌, IfOk, List as Items, ℕ};
ghost use Rattle.dl_base.specs.declared.statement.Stmt.{Stmt as Tree};
ghost use Rattle.sql_lex.specs.Joined as pieces;
ghost use Rattle.sql_grammar.specs.Meaning.{Means};
ghost use Rattle.sql_print.specs.Writing.{symbol_kind, print_token_kind, joined_tokens, text_of};

use crate::printing::put_statement;
use crate::writing::{put_gap, put_token};
use dl_base::{List, Memory, Stmt, Text};
use sql_grammar::{PrintToken, Symbol};
use sql_lex::{joined_again, written_again};
use std::alloc::Global;

fn is_dot(token: &PrintToken) -> bool
    ensures { result ≡ pieces.is_dot (print_token_kind token.now) }
{
    match token {
        PrintToken::Symbol(symbol) => is_dot_symbol(*symbol),
        PrintToken::Link(_) => false,
        PrintToken::Function(_) => false,
        PrintToken::Name(_) => false,
        PrintToken::Number(_) => false,
        PrintToken::Literal(_) => false,
    }
}

fn is_dot_symbol(symbol: Symbol) -> bool
    ensures { result ≡ pieces.is_dot (symbol_kind symbol) }
{
    match symbol {
        Symbol::Dot => true,
        Symbol::And
        | Symbol::As
        | Symbol::Asc
        | Symbol::Begin
        | Symbol::Bigint
        | Symbol::By
        | Symbol::Commit
        | Symbol::Create => false,
        Symbol::Datalink
        | Symbol::Delete
        | Symbol::Desc
        | Symbol::Drop
        | Symbol::From
        | Symbol::Group
        | Symbol::Inner
        | Symbol::Insert => false,
        Symbol::Integer
        | Symbol::Into
        | Symbol::Is
        | Symbol::Join
        | Symbol::Key
        | Symbol::Not
        | Symbol::Null
        | Symbol::On => false,
        Symbol::Or
        | Symbol::Order
        | Symbol::Primary
        | Symbol::Rollback
        | Symbol::Select
        | Symbol::Set
        | Symbol::Table
        | Symbol::Update => false,
        Symbol::Values
        | Symbol::Varchar
        | Symbol::Where
        | Symbol::Open
        | Symbol::Close
        | Symbol::Comma
        | Symbol::Semicolon
        | Symbol::Star => false,
        Symbol::Plus
        | Symbol::Minus
        | Symbol::Slash
        | Symbol::Equal
        | Symbol::Unequal
        | Symbol::Less
        | Symbol::LessEqual
        | Symbol::Greater => false,
        Symbol::GreaterEqual => false,
    }
}

// One blank between lexemes, and none round a dot.
fn joined(alloc: Global, tokens: &[PrintToken]) -> Result<List<u8>, Memory>
    ensures { IfOk result (λ bytes. bytes ≡ joined_tokens tokens.now) }
{
    let mut out = List::empty(alloc);
    let mut tight = true;
    'tokens: for token in tokens {
        let dot = is_dot(token);
        put_gap(&mut out, tight, dot)?;
        put_token(&mut out, token)?;
        tight = dot;
    }
    Ok(out)
}

/// The one text that is printed of a statement: words in capitals, names as they are, one blank between lexemes and
/// none round a dot, parentheses round an operator that is an operand of an operator. BIGINT is printed as INTEGER, a
/// source's alias with AS, no ASC, ON UNLINK always, and joins as commas with their conditions on the last sources.
pub fn print(alloc: Global, stmt: &Stmt) -> Result<Text, Memory>
    ensures { IfOk result (λ text. text ≡ text_of stmt.now) }
{
    let mut tokens = List::empty(alloc);
    put_statement(&mut tokens, stmt)?;
    let bytes = joined(alloc, tokens.as_slice())?;
    Ok(Text::from_vec(bytes.into_vec()))
}

/// What is printed of the statement of a text is read as that statement.
pub fn print_again()
    ensures { (text : Items ℕ) (s : Tree) → Means text s → Means (text_of s) s }
{
    joined_again();
    written_again();
}
