//! Tests of the owners of the areas Rows, Links, Archive and Backups over a bench in memory.
#![tactic(auto)]

#[cfg(test)]
mod archive;
#[cfg(test)]
mod backups;
#[cfg(test)]
mod bench;
#[cfg(test)]
mod branches;
#[cfg(test)]
mod commits;
#[cfg(test)]
mod store;
