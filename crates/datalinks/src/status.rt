// How a run ended.
ghost use Rattle.std.specs.Prelude.{◌≡◌};
ghost use Rattle.datalinks.specs.Codes.{code_of};

use dl_base::{Area, Full};

/// How a run ended.
#[derive(Clone, Copy, Debug, PartialEq, Eq)]
pub enum Status {
    /// The script was read to its end and each line answered.
    Done,
    /// The words name no command.
    Usage,
    /// The bench failed.
    Device,
    /// The source failed.
    Source,
    /// The area is no list of records, or they stand for nothing: the area, and the place, from 0, of the first bad
    /// record's gate.
    NotAStore(Area, u64),
    Full(Full),
    /// The script is too long: how many bytes were taken.
    TooLong(u64),
    Memory,
}

impl Status {
    /// The exit status of the program.
    pub fn code(&self) -> u8
        ensures { result ≡ code_of self.now }
    {
        match self {
            Status::Done => 0,
            Status::Usage => 2,
            Status::Device => 3,
            Status::Source => 4,
            Status::NotAStore(_, _) => 5,
            Status::Full(_) => 6,
            Status::TooLong(_) => 7,
            Status::Memory => 9,
        }
    }
}
