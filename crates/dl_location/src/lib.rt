//! Locations of datalinks (ISO/IEC 9075-9), read by the URL Standard, and the texts of a datalink that the accessors give.
#![tactic(auto)]

mod accessor;
mod location;

pub use accessor::{Accessor, accessor_text, host_part};
pub use location::{LocationFault, bad_link_number, read_location};
