// What a line or a step is answered.
use crate::{FileRow, Grid, LinkNo, List, Name, Path, Phase, SqlFault, Text};

/// A bound of the system that one more would pass.
#[derive(Clone, Copy)]
pub enum Limit {
    /// 64 columns of a table.
    Columns,
    /// 256 tables.
    Tables,
    /// 1,000,000 rows of a table.
    Rows,
    /// 8 tables of one FROM.
    From,
    /// 10,000,000 combined rows of one FROM.
    Product,
    /// 1,000,000 link numbers of one transaction.
    Links,
    /// 65,536 files.
    Files,
    /// 64 actors of a script.
    Actors,
}

/// Why a link forbids a command on its file.
#[derive(Clone, Copy)]
pub enum Why {
    Rename,
    Delete,
    Write,
    Chmod,
    /// The file is read by token alone, and none was given.
    NoToken,
    /// The token is not that of the link.
    WrongToken,
    /// The token's last moment, in seconds, is over.
    Expired(u64),
}

/// Why a file command is refused.
#[derive(Drop)]
pub enum FileRefusal {
    /// No file has the path.
    NoFile(Path),
    /// A link of the path forbids it.
    Forbidden(Path, LinkNo, Why),
    /// The file belongs to another user, who is named.
    NotOwner(Path, Name),
    /// The file's flag is off.
    ReadOnly(Path),
    /// A file has the path.
    Exists(Path),
    /// One more file would pass a bound.
    Limit(Limit),
}

/// Why the links of a statement are refused.
#[derive(Drop)]
pub enum ClaimRefusal {
    /// No file has the path of a new link.
    NoFile(Path),
    /// Another link has the path of a new link.
    AlreadyLinked(Path, LinkNo),
    /// Another transaction, whose number is given, holds the path.
    Busy(Path, u64),
}

/// Why tables are not restored.
#[derive(Drop)]
pub enum RestoreRefusal {
    /// No backup, or no commit, has the number.
    NoTarget(u64),
    /// Another file stands where an archived one would be put.
    InTheWay(Path),
}

/// A datalink that a restore could not give back: the table, the row's number, the column, and the path without a file.
#[derive(Drop)]
pub struct Lost {
    pub table: Name,
    pub row: u64,
    pub column: Name,
    pub path: Path,
}

/// Why a line or a step is refused.
#[derive(Drop)]
pub enum Refusal {
    /// The line asks for what is not built yet.
    NotBuilt,
    /// The place, from 1, of the first word that fits no line, or of a byte that begins no lexeme.
    BadLine(u64),
    /// The place, from 1, of the first lexeme that fits no statement.
    Syntax(u64),
    /// The session's last grid has no text that a read could take.
    NoValue(Name),
    /// System lines and reads of `$NAME` do not race.
    NotInRace,
    Limit(Limit),
    Sql(SqlFault),
    Claim(ClaimRefusal),
    /// The table, the version that the transaction saw, and the present one.
    Conflict(Name, u64, u64),
    /// The opening of the file manager at the transaction's first claim, and the present one.
    Doomed(u32, u32),
    File(FileRefusal),
    NoTransaction,
    /// The number of the session's transaction.
    InTransaction(u64),
    /// The phase that the transaction is in.
    WrongPhase(Phase),
    /// No copy of the link's file is wanted.
    NotPending(LinkNo),
    /// The least transaction that is prepared or decided.
    Unfinished(u64),
    /// The first link whose file is still to be archived.
    ArchivePending(LinkNo),
    /// The number, from 1, of the first session with a transaction.
    SessionBusy(u32),
    Restore(RestoreRefusal),
}

/// The answer of a line or a step.
#[derive(Drop)]
pub enum Answer {
    Done,
    /// The number of the transaction that began.
    Begun(u64),
    /// How many rows were put in, met or removed.
    Changed(u64),
    /// What a query gives.
    Rows(Grid),
    /// The number of the commit, from 1.
    Committed(u64),
    /// The bytes of a file.
    Bytes(Text),
    /// All files, in order of path.
    Files(List<FileRow>),
    /// How many copies were stored.
    Archived(u64),
    /// The number of the backup, from 1.
    BackedUp(u64),
    /// The number of the commit, and the datalinks that are lost.
    Restored(u64, List<Lost>),
    /// How many transactions were finished, and how many dropped.
    Resolved(u64, u64),
    Refused(Refusal),
}
