//! The conditions of ON and WHERE (ISO/IEC 9075-2, joined table, where clause): their types, how far into a combined row each looks, and
//! which of them are due when, as a row is put together source after source.
#![tactic(auto)]

mod conditions;

pub use conditions::{Condition, condition_types, conditions_of, hold_all};
