//! The lines of a script, as far as they are no statements, and who acts in them.
#![tactic(auto)]

mod actors;
mod line;
mod order;
mod outline;
mod user;

pub use actors::{Actors, actor_of, session_number};
pub use line::{first_line, is_quiet};
pub use meaning_script::{Line, Order, Outline, Sentence};
pub use outline::read_outline;
