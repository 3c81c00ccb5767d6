//! The types of SQL expressions, their values at a row, and whether conditions are true of it (ISO/IEC 9075-2, and 9075-9 for datalinks).
#![tactic(auto)]

mod bound;
mod cells;
mod checking;
mod condition;
mod evaluation;
mod filter;
mod laws;
mod tree;
mod types;

pub use bound::{Bound, evaluate, value};
pub use cells::Cells;
pub use checking::{check, check_in};
pub use condition::{condition_type, filter_holds, filter_type, holds};
pub use evaluation::cell;
pub use filter::Filter;
pub use laws::values_are_of_the_type;
pub use meaning_sql::{AggregateScope, Columns, Context, SqlType};
pub use sql_operators::{gather, place_of};
pub use types::kind_type;
