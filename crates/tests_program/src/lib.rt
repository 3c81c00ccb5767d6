//! Tests of whole runs: over a bench in memory, and over a folder whose host is in memory.
#![tactic(auto)]

#[cfg(test)]
mod crashes;
pub mod fake;
#[cfg(test)]
mod hosts;
#[cfg(test)]
mod options;
#[cfg(test)]
mod phases;
#[cfg(test)]
mod reopened;
#[cfg(test)]
mod runs;
#[cfg(test)]
mod scripts;
