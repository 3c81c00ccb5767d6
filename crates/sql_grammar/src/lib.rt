//! The grammar of SQL: what its terminals are, what says a statement, and how a statement is read from left to right.
#![tactic(auto)]

mod frame;
mod print_token;
mod symbol;
mod terminal;
mod token;

pub use frame::{Callee, Frame, Opening};
pub use print_token::{Function, PrintToken};
pub use symbol::Symbol;
pub use terminal::Terminal;
pub use token::{LinkWord, Token};
