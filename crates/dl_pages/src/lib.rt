//! Lists whose copies share their pages, and over them sets in order and indexes: numbers under keys.
#![tactic(auto)]

mod entries;
mod leaves;
mod members;
mod order;
mod pages;
mod predicate;
mod ranks;
mod step;
mod tree;

pub use entries::{Probe, least};
pub use members::{remove_with_member, with_member, without_member};
pub use order::Ordered;
pub use pages::Pages;
pub use predicate::Predicate;
pub use ranks::Ranked;
