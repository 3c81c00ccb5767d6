//! An area as a list of records, that a crash leaves whole.
//!
//! A record is a gate byte 1, the length of its body as eight bytes, the highest first, and the body.
//! Behind the last record stands a gate that is not 1, and what follows it means nothing.
//! An area of fewer than two bytes is the empty list, whatever its byte.
#![tactic(auto)]

mod append;
mod begin;
mod journal;
mod parse;

pub use journal::Journal;
