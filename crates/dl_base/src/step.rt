// What the machine is asked to do.
use crate::{FileCmd, LinkNo, Name, Stmt};

/// How far a transaction is.
#[derive(Clone, Copy)]
pub enum Phase {
    Active,
    Prepared,
    Decided,
    /// It is committed, and its links are settled.
    Finished,
    Dropped,
}

/// With what a system begins.
#[derive(Drop)]
pub struct Settings {
    /// The host that locations name.
    pub server: Name,
    /// The key of access tokens.
    pub key: [u8; 32],
    /// The moment, in seconds.
    pub now: u64,
    /// For how many seconds a token is good.
    pub life: u64,
    /// How many bytes each area may have.
    pub limit: u64,
}

/// What tables are restored to: a backup, by its number from 1; or what stood after a commit, by its number, where after commit 0 there
/// was no table.
#[derive(Clone, Copy)]
pub enum Target {
    Backup(u64),
    Commit(u64),
}

/// A step of the machine; each but `Resolve` is done whole or not at all. Sessions go by their numbers, from 1.
#[derive(Drop)]
pub enum Step {
    Begin(u32),
    Statement(u32, Stmt),
    Prepare(u32),
    Decide(u32),
    Finish(u32),
    Rollback(u32),
    File(FileCmd),
    /// Stores a copy of a link's file.
    Archive(LinkNo),
    Backup,
    Restore(Target),
    /// So many seconds pass.
    Tick(u64),
    CrashManager,
    CrashDatabase,
    /// Settles the transactions that no session has.
    Resolve,
}
