ghost use Rattle.std.specs.Prelude.{◌≡◌, IfOk};

use crate::Memory;

/// A value of which a second, equal one can be made, where there is memory.
pub trait Copied: Drop {
    fn copy(&self) -> Result<Self, Memory>
        ensures { IfOk result (λ made. made ≡ self.now) };
}

impl Copied for u8 {
    fn copy(&self) -> Result<u8, Memory> {
        Ok(*self)
    }
}

impl Copied for u64 {
    fn copy(&self) -> Result<u64, Memory> {
        Ok(*self)
    }
}

impl<T: Copied> Copied for Option<T> {
    fn copy(&self) -> Result<Option<T>, Memory> {
        match self {
            None => Ok(None),
            Some(item) => Ok(Some(item.copy()?)),
        }
    }
}

impl<T: Copied, U: Copied> Copied for (T, U) {
    fn copy(&self) -> Result<(T, U), Memory> {
        Ok((self.0.copy()?, self.1.copy()?))
    }
}
