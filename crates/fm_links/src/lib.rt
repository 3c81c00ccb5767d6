//! The claims of transactions on the paths of the links that they give and take: who holds a path, and which links forbid commands on
//! its file. One look-up by path answers what a search through all links and all transactions would.
#![tactic(auto)]

mod claims;
mod laws;
mod made;

pub use claims::{Claim, ClaimedLink, Claims};
pub use laws::{
    claims_answer_as_a_search_does, claims_behind_other_steps, claims_behind_steps_of_a_session,
    claims_behind_stops,
};
