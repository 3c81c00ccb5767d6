// Why words are no command.
ghost use Rattle.std.specs.Prelude.{◌≡◌};
ghost use Rattle.run_args.specs.declared.fault.WordsFault.TheVariants as faults;

use dl_base::Memory;
use std::alloc::AllocError;
use thiserror::Error;

/// Why words give no settings.
#[derive(Clone, Copy, Debug, PartialEq, Eq, Error)]
pub enum WordsFault {
    /// The words are no command.
    #[error("no such command")]
    Usage,
    #[error("no memory")]
    Memory,
}

impl From<Memory> for WordsFault {
    ghost from_gives = { λ _ e. e ≡ faults.Memory };

    fn from(_: Memory) -> WordsFault {
        WordsFault::Memory
    }
}

impl From<AllocError> for WordsFault {
    ghost from_gives = { λ _ e. e ≡ faults.Memory };

    fn from(_: AllocError) -> WordsFault {
        WordsFault::Memory
    }
}
