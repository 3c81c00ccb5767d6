ghost use Rattle.std.specs.Prelude.{◌≡◌};
ghost use Rattle.dl_codec.specs.declared.read_fault.ReadFault.TheVariants.{Memory};

/// Why no value was read.
#[derive(Clone, Copy)]
pub enum ReadFault {
    /// No value stands at the front of the bytes.
    Bad,
    /// There was no memory.
    Memory,
}

impl From<dl_base::Memory> for ReadFault {
    ghost from_gives = { λ _ e. e ≡ Memory };

    fn from(_: dl_base::Memory) -> ReadFault {
        ReadFault::Memory
    }
}

/// What `List::push` gives back where it finds no memory.
impl<T: Drop> From<(T, dl_base::Memory)> for ReadFault {
    ghost from_gives = { λ _ e. e ≡ Memory };

    fn from(_: (T, dl_base::Memory)) -> ReadFault {
        ReadFault::Memory
    }
}
