// What a file command's text is read as.
ghost use Rattle.std.specs.Prelude.{◌≡◌};
ghost use Rattle.fs_command.specs.declared.line.CommandFault.TheVariants as faults;

use dl_base::{FileCmd, Memory, Name};
use thiserror::Error;

/// What a line of a user asks of the files.
#[derive(Drop)]
pub enum FileLine {
    /// A command that says all.
    Command(FileCmd),
    /// A read of `$NAME`: the user, and the name of the session whose last answer is the path.
    ReadOf(Name, Name),
}

/// Where a text goes wrong: the place, in bytes from 1, of the first word that does not fit behind the words before it, or the
/// place behind the text's last byte where a word is missing.
#[derive(Clone, Copy, Debug, PartialEq, Eq, Error)]
#[error("no word fits at byte {place}")]
pub struct BadPlace {
    pub place: u64,
}

/// Why a text is no file command.
#[derive(Clone, Copy, Debug, PartialEq, Eq, Error)]
pub enum CommandFault {
    /// The place, in bytes from 1, of the first word that fits no command behind the words before it, or the place behind
    /// the text's last byte where a word is missing.
    #[error("no file command has the word at byte {0}")]
    BadCommand(u64),
    #[error("no memory")]
    Memory,
}

impl From<BadPlace> for CommandFault {
    ghost from_gives = { λ bad e. e ≡ faults.BadCommand bad.place };

    fn from(bad: BadPlace) -> CommandFault {
        CommandFault::BadCommand(bad.place)
    }
}

impl From<Memory> for CommandFault {
    ghost from_gives = { λ _ e. e ≡ faults.Memory };

    fn from(_: Memory) -> CommandFault {
        CommandFault::Memory
    }
}
