// Why a statement is refused.
ghost use Rattle.std.specs.Prelude.{◌≡◌};
ghost use Rattle.dl_base.specs.declared.sql_fault.SqlFault.TheVariants as faults;

use crate::{Limit, Memory, Name};
use std::alloc::{AllocError, AllocFailed};

/// Why a text is no location of a datalink, in the order in which it is tested.
#[derive(Clone, Copy, Debug, PartialEq, Eq)]
pub enum BadLink {
    /// No UTF-8, or no URL by the URL Standard.
    NotUrl,
    /// The scheme is neither `http` nor `file`.
    Scheme,
    /// The host is not the server.
    Host,
    /// A user name, password, port, query or fragment stands in it.
    Extra,
    /// The path is none of a file.
    Path,
    /// The link type is not `URL`.
    LinkType,
    /// The comment is longer than 200 bytes.
    Comment,
}

/// Why a statement is refused, or that there was no memory for it.
#[derive(Drop)]
pub enum SqlFault {
    NoTable(Name),
    TableExists(Name),
    NoColumn(Name),
    Ambiguous(Name),
    /// An operand, an assignment or a key has a type that its place does not take.
    TypeFault,
    /// A tuple has another length than the columns.
    Arity,
    /// The number of the row whose key stands in an earlier row too.
    DupKey(u64),
    /// The column that may not be NULL.
    NullKey(Name),
    /// The column whose text is longer than declared, or whose declared length is out of range.
    TooLong(Name),
    Overflow,
    ZeroDivide,
    BadLink(BadLink),
    BadOptions,
    Limit(Limit),
    Memory,
}

impl From<Memory> for SqlFault {
    ghost from_gives = { λ _ e. e ≡ faults.Memory };

    fn from(_: Memory) -> SqlFault {
        SqlFault::Memory
    }
}

impl From<AllocError> for SqlFault {
    ghost from_gives = { λ _ e. e ≡ faults.Memory };

    fn from(_: AllocError) -> SqlFault {
        SqlFault::Memory
    }
}

impl<T: Drop> From<AllocFailed<T>> for SqlFault {
    ghost from_gives = { λ _ e. e ≡ faults.Memory };

    fn from(_: AllocFailed<T>) -> SqlFault {
        SqlFault::Memory
    }
}

/// What `List::push` gives back where it finds no memory.
impl<T: Drop> From<(T, Memory)> for SqlFault {
    ghost from_gives = { λ _ e. e ≡ faults.Memory };

    fn from(_: (T, Memory)) -> SqlFault {
        SqlFault::Memory
    }
}
