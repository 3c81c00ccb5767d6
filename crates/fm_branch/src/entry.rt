// A branch as it is kept.
ghost use Rattle.std.specs.Prelude.{◌≡◌};
ghost use Rattle.fm_branch.specs.Shown.{shown};
ghost use Rattle.fm_branch.specs.Table.{is_in_doubt};
ghost use Rattle.meaning_areas.specs.Branches.{is_phase, phase_number};
ghost use Rattle.meaning_areas.specs.Stands.{is_open};

use dl_base::{LinkRow, List};
use dl_codec::BranchPhase;
use std::marker::Model;

/// A branch: how far it is, what its transaction gives and takes, and whether takes with RECOVERY YES are filled from the archive.
#[derive(Clone, Copy)]
pub struct Branch<'a> {
    pub phase: BranchPhase,
    pub gives: &'a List<LinkRow>,
    pub takes: &'a List<LinkRow>,
    pub fill: bool,
}

impl Branch<'_> {
    /// Whether the branch is neither done nor aborted. It takes no memory.
    pub fn is_in_doubt(&self) -> bool
        ensures { result ≡ is_open self.now.phase }
    {
        match self.phase {
            BranchPhase::Prepared | BranchPhase::Committed => true,
            BranchPhase::Done | BranchPhase::Aborted => false,
        }
    }
}

/// What a transaction gives and takes, whether its takes are filled from the archive, and how far its branch is.
#[derive(Drop)]
pub struct Entry {
    pub gives: List<LinkRow>,
    pub takes: List<LinkRow>,
    pub fill: bool,
    pub phase: BranchPhase,
}

impl Model for Entry {
    ghost use Rattle.fm_branch.specs.Codes.{branch_code};
    ghost use Rattle.meaning_areas.specs.Branches.{Branch};

    ghost Value = { Branch };

    ghost coded = { branch_code };

    ghost view = { λ e. record { moved = record { gives = e.gives; takes = e.takes; fill = e.fill }; phase = e.phase } };
}

impl Entry {
    /// The branch, for looking at.
    pub fn lend(&self) -> Branch<'_>
        ensures { shown result ≡ self.now }
    {
        Branch {
            phase: self.phase,
            gives: &self.gives,
            takes: &self.takes,
            fill: self.fill,
        }
    }

    /// Whether the branch is neither done nor aborted.
    pub fn is_in_doubt(&self) -> bool
        ensures { result ≡ is_in_doubt self.now }
    {
        self.lend().is_in_doubt()
    }

    /// Whether the branch is in this phase.
    pub fn is_at(&self, phase: BranchPhase) -> bool
        ensures { result ≡ is_phase self.now.phase phase }
    {
        number_of(self.phase) == number_of(phase)
    }
}

fn number_of(phase: BranchPhase) -> u8
    ensures { result ≡ phase_number phase }
{
    match phase {
        BranchPhase::Prepared => 0,
        BranchPhase::Committed => 1,
        BranchPhase::Done => 2,
        BranchPhase::Aborted => 3,
    }
}
