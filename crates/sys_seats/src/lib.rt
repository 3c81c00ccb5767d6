//! What a system keeps of the transactions that have not ended: their claims, and what their next steps need.
#![tactic(auto)]

mod laws;
mod seat;
mod seats;

pub use laws::seats_count_together;
pub use seat::{Seat, SeatClaim, Stage, Vote};
pub use seats::Seats;
