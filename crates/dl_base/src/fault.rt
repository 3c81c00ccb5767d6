// Why a call of a layer ends without an answer.
ghost use Rattle.std.specs.Prelude.{◌≡◌};

use crate::{Area, Failed, Memory};
use std::alloc::AllocError;
use thiserror::Error;

/// What has no room for more.
#[derive(Clone, Copy, Debug, PartialEq, Eq)]
pub enum Full {
    /// The area, and how many bytes it would have with the next record.
    Area(Area, u64),
    /// The last opening number.
    Openings(u32),
    /// The last transaction number of an opening.
    Transactions(u32),
}

/// Why an append failed.
#[derive(Clone, Copy, Debug, PartialEq, Eq, Error)]
pub enum AppendFault {
    #[error("the device failed")]
    Device,
    #[error("full: {0:?}")]
    Full(Full),
}

impl From<Failed> for AppendFault {
    ghost use Rattle.dl_base.specs.declared.fault.AppendFault.TheVariants.{Device};

    ghost from_gives = { λ _ e. e ≡ Device };

    fn from(_: Failed) -> AppendFault {
        AppendFault::Device
    }
}

/// Why an area could not be opened.
#[derive(Clone, Copy, Debug, PartialEq, Eq, Error)]
pub enum BeginFault {
    #[error("the device failed")]
    Device,
    /// The place, from 0, of the gate of the first bad record.
    #[error("no journal: bad record at {0}")]
    NotAJournal(u64),
    #[error("no memory")]
    Memory,
}

impl From<Failed> for BeginFault {
    ghost use Rattle.dl_base.specs.declared.fault.BeginFault.TheVariants.{Device};

    ghost from_gives = { λ _ e. e ≡ Device };

    fn from(_: Failed) -> BeginFault {
        BeginFault::Device
    }
}

impl From<Memory> for BeginFault {
    ghost use Rattle.dl_base.specs.declared.fault.BeginFault.TheVariants as faults;

    ghost from_gives = { λ _ e. e ≡ faults.Memory };

    fn from(_: Memory) -> BeginFault {
        BeginFault::Memory
    }
}

impl From<AllocError> for BeginFault {
    ghost use Rattle.dl_base.specs.declared.fault.BeginFault.TheVariants as faults;

    ghost from_gives = { λ _ e. e ≡ faults.Memory };

    fn from(_: AllocError) -> BeginFault {
        BeginFault::Memory
    }
}

/// Why a step failed.
#[derive(Clone, Copy, Debug, PartialEq, Eq, Error)]
pub enum StepFault {
    #[error("the device failed")]
    Device,
    #[error("full: {0:?}")]
    Full(Full),
    #[error("no memory")]
    Memory,
}

impl From<Failed> for StepFault {
    ghost use Rattle.dl_base.specs.declared.fault.StepFault.TheVariants.{Device};

    ghost from_gives = { λ _ e. e ≡ Device };

    fn from(_: Failed) -> StepFault {
        StepFault::Device
    }
}

impl From<Memory> for StepFault {
    ghost use Rattle.dl_base.specs.declared.fault.StepFault.TheVariants as faults;

    ghost from_gives = { λ _ e. e ≡ faults.Memory };

    fn from(_: Memory) -> StepFault {
        StepFault::Memory
    }
}

impl From<AppendFault> for StepFault {
    ghost use Rattle.dl_base.specs.Faults.{step_fault};

    ghost from_gives = { λ a e. e ≡ step_fault a };

    fn from(fault: AppendFault) -> StepFault {
        match fault {
            AppendFault::Device => StepFault::Device,
            AppendFault::Full(full) => StepFault::Full(full),
        }
    }
}
