//! The lexemes of SQL.
#![tactic(auto)]

mod front;
mod laws;
mod lexeme;
mod lexer;

pub use laws::{joined_again, longest, one_answer, written_again};
pub use lexeme::{LexFault, LexKind, Lexeme};
pub use lexer::lex;
