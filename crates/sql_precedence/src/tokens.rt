// Single terminals at a place.
ghost use Rattle.std.specs.Prelude.{◌≡◌, ◌<◌, IsTrue, length, slice_get};
ghost use Rattle.sql_grammar.specs.Words.{bytes_of};
ghost use Rattle.sql_grammar.specs.Readers.{is_token, token_at, one_at, maybe_one_at};
ghost use Rattle.sql_grammar.specs.declared.token.Token.TheVariants as token;
ghost use Rattle.sql_grammar.specs.Statements.{name_of, number_of};
ghost use Rattle.sql_grammar.specs.Reading.{name_at};
ghost use Rattle.sql_precedence.specs.Results.{AnswersReading, SettlesReading};

use crate::refused::Refused;
use crate::word::same_bytes;
use dl_base::Name;
use sql_grammar::{LinkWord, Symbol, Terminal};

/// Whether the symbol stands at the place.
pub fn stands(terminals: &[Terminal], at: usize, symbol: Symbol) -> bool
    ensures stands { result ≡ is_token (token.Symbol symbol) (slice_get terminals.now at) }
    ensures within { IsTrue result → at < length terminals.now }
{
    match terminals.get(at) {
        Some(Terminal::Fixed(other)) => *other == symbol,
        _ => false,
    }
}

/// The place behind a symbol that has to stand there.
#[tactic(auto, unfolding(sql_grammar::specs::Readers::token_at))]
pub fn expect(terminals: &[Terminal], at: usize, symbol: Symbol) -> Result<usize, Refused>
    ensures { SettlesReading result (token_at (token.Symbol symbol) terminals.now at) }
{
    if stands(terminals, at, symbol) {
        Ok(at + 1)
    } else {
        Err(Refused::Syntax(at))
    }
}

fn bytes_of(word: LinkWord) -> &'static [u8]
    ensures { result.now ≡ bytes_of word }
{
    match word {
        LinkWord::Linktype => b"linktype",
        LinkWord::Url => b"url",
        LinkWord::No => b"no",
        LinkWord::Link => b"link",
        LinkWord::Control => b"control",
        LinkWord::File => b"file",
        LinkWord::Mode => b"mode",
        LinkWord::Db2options => b"db2options",
        LinkWord::Integrity => b"integrity",
        LinkWord::All => b"all",
        LinkWord::Selective => b"selective",
        LinkWord::None => b"none",
        LinkWord::Read => b"read",
        LinkWord::Permission => b"permission",
        LinkWord::Fs => b"fs",
        LinkWord::Db => b"db",
        LinkWord::Write => b"write",
        LinkWord::Blocked => b"blocked",
        LinkWord::Admin => b"admin",
        LinkWord::Recovery => b"recovery",
        LinkWord::Yes => b"yes",
        LinkWord::Unlink => b"unlink",
        LinkWord::Restore => b"restore",
    }
}

/// Whether the word of link options stands at the place.
pub fn says(terminals: &[Terminal], at: usize, word: LinkWord) -> bool
    ensures says { result ≡ is_token (token.Word word) (slice_get terminals.now at) }
    ensures within { IsTrue result → at < length terminals.now }
{
    match terminals.get(at) {
        Some(Terminal::Word(name)) => same_bytes(name.bytes(), bytes_of(word)),
        _ => false,
    }
}

/// The place behind a word of link options that has to stand there.
#[tactic(auto, unfolding(sql_grammar::specs::Readers::token_at))]
pub fn expect_word(terminals: &[Terminal], at: usize, word: LinkWord) -> Result<usize, Refused>
    ensures { SettlesReading result (token_at (token.Word word) terminals.now at) }
{
    if says(terminals, at, word) {
        Ok(at + 1)
    } else {
        Err(Refused::Syntax(at))
    }
}

/// The name at the place.
pub fn name(terminals: &[Terminal], at: usize) -> Result<(Name, usize), Refused>
    ensures { AnswersReading result (name_at terminals.now at) }
{
    match terminals.get(at) {
        Some(Terminal::Word(name)) => Ok((name.copy()?, at + 1)),
        _ => Err(Refused::Syntax(at)),
    }
}

/// The name at the place, where one stands there.
pub fn maybe_name(terminals: &[Terminal], at: usize) -> Result<(Option<Name>, usize), Refused>
    ensures { AnswersReading result (maybe_one_at name_of terminals.now at) }
{
    match terminals.get(at) {
        Some(Terminal::Word(name)) => Ok((Some(name.copy()?), at + 1)),
        _ => Ok((None, at)),
    }
}

/// The number at the place.
pub fn number(terminals: &[Terminal], at: usize) -> Result<(i64, usize), Refused>
    ensures { SettlesReading result (one_at number_of terminals.now at) }
{
    match terminals.get(at) {
        Some(Terminal::Number(n)) => Ok((*n, at + 1)),
        _ => Err(Refused::Syntax(at)),
    }
}
