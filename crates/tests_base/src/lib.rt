//! Tests of the crates that every other one stands on: their public calls with ample memory, over rows of plain values.
#![tactic(auto)]

#[cfg(test)]
mod accessors;
#[cfg(test)]
mod base;
#[cfg(test)]
mod bench;
#[cfg(test)]
mod files;
#[cfg(test)]
mod journal;
#[cfg(test)]
mod locations;
#[cfg(test)]
mod made;
#[cfg(test)]
mod tokens;
#[cfg(test)]
mod values;
