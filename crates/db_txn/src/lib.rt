//! The transaction of one session: its copy of the committed tables, the tables that its statements named, and the outcome of its
//! last statement.
#![tactic(auto)]

mod branch;
mod laws;
mod names;
mod txn;
mod work;

pub use laws::an_evaluation_is_the_machines;
pub use txn::Txn;
