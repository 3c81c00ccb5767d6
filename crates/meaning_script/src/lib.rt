//! What the lines of a script are read as, which steps they take, and what is told of them: definitions, and the types that
//! they speak of.
#![tactic(auto)]

mod kind;
mod next;

pub use kind::{Kept, Line, Order, Outline, Sentence};
pub use next::{ActorState, Next};
