// What a line of a script is.
use dl_base::{Name, Refusal, Stmt, Target};
use fs_command::FileLine;

/// What a line is read as.
#[derive(Drop)]
pub enum Line {
    /// A line that is answered nothing: blanks alone, or a comment.
    Nothing,
    /// A session's name, and what it says.
    Session(Name, Sentence),
    /// What a user asks of the files.
    File(FileLine),
    /// What is asked of the whole system.
    System(Order),
    /// No line, with the refusal that it is answered: `BadLine` or `Syntax`, its place counted from 1 at the line's first byte.
    Bad(Refusal),
}

/// What a session says.
#[derive(Drop)]
pub enum Sentence {
    Sql(Stmt),
    /// `!prepare`
    Prepare,
    /// `!decide`
    Decide,
    /// `!finish`
    Finish,
}

/// What a line that begins with `!` asks.
#[derive(Clone, Copy)]
pub enum Order {
    /// So many seconds pass, at most 1,000,000,000.
    Tick(u64),
    /// Every copy that is pending is stored.
    Archive,
    /// Every copy that is pending is stored, and then the tables.
    Backup,
    Restore(Target),
    CrashManager,
    CrashDatabase,
    /// Both crash, and what no session has is settled.
    CrashBoth,
    Resolve,
}

/// What `restore` names.
#[derive(Clone, Copy)]
pub enum Kept {
    Backup,
    Commit,
}

/// What a line is, as far as it is no statement.
#[derive(Drop)]
pub enum Outline {
    /// A line that is no statement.
    Plain(Line),
    /// A session's name, and how many bytes of the line stand before what it says, which is to be a statement.
    Statement(Name, usize),
}
