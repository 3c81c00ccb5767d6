// Why a system could not begin.
ghost use Rattle.std.specs.Prelude.{◌≡◌};
ghost use Rattle.sys_opening.specs.Faults.{open_fault};

use dl_base::{AppendFault, Area, BeginFault, Full, Memory};
use thiserror::Error;

/// Why a system could not begin.
#[derive(Clone, Copy, Debug, PartialEq, Eq, Error)]
pub enum OpenFault {
    #[error("the device failed")]
    Device,
    /// The area, and the place, from 0, of the gate of its first bad record; or its length, where its list does not fit the others.
    #[error("no store: {0:?} at {1}")]
    NotAStore(Area, u64),
    #[error("full: {0:?}")]
    Full(Full),
    #[error("no memory")]
    Memory,
}

impl From<Memory> for OpenFault {
    ghost use Rattle.sys_opening.specs.declared.fault.OpenFault.TheVariants as faults;

    ghost from_gives = { λ _ e. e ≡ faults.Memory };

    fn from(_: Memory) -> OpenFault {
        OpenFault::Memory
    }
}

impl From<AppendFault> for OpenFault {
    ghost use Rattle.sys_opening.specs.Faults.{open_fault_of};

    ghost from_gives = { λ fault e. e ≡ open_fault_of fault };

    fn from(fault: AppendFault) -> OpenFault {
        match fault {
            AppendFault::Device => OpenFault::Device,
            AppendFault::Full(full) => OpenFault::Full(full),
        }
    }
}

/// The fault of the opening of one area.
pub fn open_fault(area: Area, fault: BeginFault) -> OpenFault
    ensures { result ≡ open_fault area fault }
{
    match fault {
        BeginFault::Device => OpenFault::Device,
        BeginFault::NotAJournal(place) => OpenFault::NotAStore(area, place),
        BeginFault::Memory => OpenFault::Memory,
    }
}
