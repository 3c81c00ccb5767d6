// Lexemes of SQL.
ghost use Rattle.std.specs.Prelude.{◌≡◌};
ghost use Rattle.sql_lex.specs.declared.lexeme.LexFault.TheVariants as faults;

use dl_base::{Memory, Name, Text};
use thiserror::Error;

/// What a lexeme is.
#[derive(Drop)]
pub enum LexKind {
    /// A word, folded to lower case.
    Word(Name),
    Number(i64),
    /// A literal: what stands between its quotes, with each `''` as one quote.
    Literal(Text),
    /// A sign, as its place from 0 in the list `( ) , . ; * + - / = <> < <= > >=`.
    Sign(u8),
}

/// A lexeme and where it stands in its text: the place of its first byte, counted from 1, and the place behind its last.
#[derive(Drop)]
pub struct Lexeme {
    pub kind: LexKind,
    pub begin: u64,
    pub end: u64,
}

/// Why a text has no lexemes.
#[derive(Clone, Copy, Debug, PartialEq, Eq, Error)]
pub enum LexFault {
    /// The place, from 1, of the first byte that begins no lexeme: a literal without end has its opening quote,
    /// a number that is too wide and a word that is too long their first byte.
    #[error("no lexeme begins at byte {0}")]
    BadChar(u64),
    #[error("no memory")]
    Memory,
}

impl From<Memory> for LexFault {
    ghost from_gives = { λ _ e. e ≡ faults.Memory };

    fn from(_: Memory) -> LexFault {
        LexFault::Memory
    }
}

impl<T: Drop> From<(T, Memory)> for LexFault {
    ghost from_gives = { λ _ e. e ≡ faults.Memory };

    fn from(_: (T, Memory)) -> LexFault {
        LexFault::Memory
    }
}
