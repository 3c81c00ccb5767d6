// What is kept of one transaction.
ghost use Rattle.std.specs.Prelude.{◌≡◌};
ghost use Rattle.sys_seats.specs.Seats.{phase_of};

use db_changes::Made;
use dl_base::{LinkRow, List, Name, Phase};
use fm_manager::Pieces;

/// What a transaction claims: the opening of Links at its first claim that was accepted, where one was, and the links that it gives
/// and takes, in the order of the tables' links.
#[derive(Drop)]
pub struct SeatClaim {
    pub seen: Option<u32>,
    pub gives: List<LinkRow>,
    pub takes: List<LinkRow>,
}

/// What is made before a vote, so that no later step of the transaction takes memory: the commit of what it made of its base, the
/// tables that its statements named, in order, and the pieces of its Finish; none where it gives and takes no link.
#[derive(Drop)]
pub struct Vote {
    pub made: Made,
    pub names: List<Name>,
    pub pieces: Option<Pieces>,
}

/// How far a transaction is, with what its next steps need.
#[derive(Drop)]
pub enum Stage {
    Active,
    Prepared(Vote),
    Decided(Option<Pieces>),
}

/// What is kept of a transaction.
#[derive(Drop)]
pub struct Seat {
    pub claim: SeatClaim,
    pub stage: Stage,
}

impl Seat {
    /// The phase of the transaction.
    pub fn phase(&self) -> Phase
        ensures { result ≡ phase_of self.now.stage }
    {
        match &self.stage {
            Stage::Active => Phase::Active,
            Stage::Prepared(_) => Phase::Prepared,
            Stage::Decided(_) => Phase::Decided,
        }
    }
}
