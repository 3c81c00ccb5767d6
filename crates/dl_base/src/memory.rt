use std::alloc::{AllocError, AllocFailed};
use thiserror::Error;

/// There was no memory.
#[derive(Clone, Copy, Debug, Error)]
#[error("no memory")]
pub struct Memory;

impl From<AllocError> for Memory {
    fn from(_: AllocError) -> Memory {
        Memory
    }
}

impl<T: Drop> From<AllocFailed<T>> for Memory {
    fn from(_: AllocFailed<T>) -> Memory {
        Memory
    }
}

/// What `List::push` gives back where it finds no memory.
impl<T: Drop> From<(T, Memory)> for Memory {
    fn from(_: (T, Memory)) -> Memory {
        Memory
    }
}

/// A call on the outside failed.
#[derive(Clone, Copy, Debug, Error)]
#[error("a call on the outside failed")]
pub struct Failed;
