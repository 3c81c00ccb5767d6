//! The links of all commits, each once, by their numbers: what an opening compares archived copies with.
#![tactic(auto)]

mod every;

pub use every::{EveryLink, listed, number_of, put_rows};
