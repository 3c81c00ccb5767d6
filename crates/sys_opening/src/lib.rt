//! The opening of a system: the five areas opened, compared, announced and rid of branches in doubt.
#![tactic(auto)]

mod announce;
mod beginning;
mod compare;
mod fault;
mod opening;
mod resolving;

pub use beginning::begin;
pub use fault::OpenFault;
