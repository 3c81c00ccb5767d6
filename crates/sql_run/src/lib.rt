//! One statement over tables in memory, its outcome, and the answer that is told of it.
#![tactic(auto)]

mod evaluating;

pub use evaluating::{Evaluation, Outcome, answer_of, evaluate};
