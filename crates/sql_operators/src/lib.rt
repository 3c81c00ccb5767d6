//! What operators, aggregates and DLVALUE make of values, what the accessors of datalinks show, and which column a name means
//! (ISO/IEC 9075-2, and 9075-9 for datalinks).
#![tactic(auto)]

mod aggregate;
mod columns;
mod counting;
mod datalinks;
mod number;
mod operator;
mod seen;
mod truth;
mod unary;

pub use aggregate::gather;
pub use columns::{kind_at, options_of, place_of};
pub use counting::{counted, of_no_rows};
pub use datalinks::datalink;
pub use operator::{Ask, binary, left_side};
pub use seen::{Seen, made};
pub use truth::is_true;
pub use unary::{Unary, unary_value};
