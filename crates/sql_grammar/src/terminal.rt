use crate::Symbol;
use dl_base::{Name, Text};

/// A lexeme as the grammar sees it.
#[derive(Drop)]
pub enum Terminal {
    /// A reserved word or a sign.
    Fixed(Symbol),
    /// A word that is not reserved, in lower case.
    Word(Name),
    Number(i64),
    /// A literal, with its quotes undone.
    Literal(Text),
}
