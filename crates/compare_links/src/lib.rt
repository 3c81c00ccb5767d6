//! Whether the areas Rows and Links fit each other, as an opening asks it once both are folded: the commits with the branches, and
//! what is held after settling with what the last commit links. What it comes to are the links of all commits by their numbers, on
//! which the comparison with the archived copies stands.
#![tactic(auto)]

mod agree;
mod apart;
mod branches;
mod commits;
mod compare;
mod held;
mod paths;
mod rows;
mod walk;

pub use compare::links_compare;
