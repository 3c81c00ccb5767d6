//! Operator precedence: the expression at a place among terminals, and the single terminals that stand round expressions.
#![tactic(auto)]

mod machine;
mod reader;
mod refused;
mod role;
mod tokens;
mod word;

pub use reader::expression;
pub use refused::Refused;
pub use tokens::{expect, expect_word, maybe_name, name, number, says, stands};
pub use word::same_bytes;
