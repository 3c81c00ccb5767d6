//! Statements of SQL from text.
#![tactic(auto)]

mod changes;
mod columns;
mod laws;
mod parser;
mod part;
mod query;
mod sentence;

pub use laws::one_answer;
pub use parser::{ParseFault, parse};
