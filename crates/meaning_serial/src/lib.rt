//! Transactions write one after another: what a run of the machine commits is what each committed transaction's statements make of
//! the tables after the commit before it. Definitions and their laws.
#![tactic(auto)]

mod laws;

pub use laws::{
    statements_see_only_what_they_name, transactions_see_only_what_they_name, turns_take_steps,
    writers_are_serial,
};
