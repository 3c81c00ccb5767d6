//! What files are, and what a command does to them: definitions, no code.
#![tactic(auto)]
