// Why terminals are not what is read.
ghost use Rattle.std.specs.Prelude.{◌≡◌};
ghost use Rattle.sql_precedence.specs.declared.refused.Refused.TheVariants as refused;

use dl_base::Memory;

/// Why there is nothing at a place.
#[derive(Drop)]
pub enum Refused {
    /// The place of the terminal that is refused, from 0, or one past the last.
    Syntax(usize),
    Memory,
}

impl From<Memory> for Refused {
    ghost from_gives = { λ _ e. e ≡ refused.Memory };

    fn from(_: Memory) -> Refused {
        Refused::Memory
    }
}

impl<T: Drop> From<(T, Memory)> for Refused {
    ghost from_gives = { λ _ e. e ≡ refused.Memory };

    fn from(_: (T, Memory)) -> Refused {
        Refused::Memory
    }
}
