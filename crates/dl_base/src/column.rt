// The columns of a table.
use crate::{Copied, Memory, Name, Same};

/// READ PERMISSION.
#[derive(Clone, Copy, PartialEq, Eq)]
pub enum ReadBy {
    Fs,
    Db,
}

/// WRITE PERMISSION.
#[derive(Clone, Copy, PartialEq, Eq)]
pub enum WriteBy {
    Fs,
    Blocked,
    Admin,
}

/// ON UNLINK; NONE is `Nothing`.
#[derive(Clone, Copy, PartialEq, Eq)]
pub enum OnUnlink {
    Nothing,
    Restore,
    Delete,
}

/// The link control of a column, after DB2's datalink options. INTEGRITY is always ALL.
#[derive(Clone, Copy, PartialEq, Eq)]
pub struct Options {
    pub read: ReadBy,
    pub write: WriteBy,
    /// RECOVERY YES.
    pub recovery: bool,
    pub unlink: OnUnlink,
}

/// The type of a column.
#[derive(Clone, Copy, PartialEq, Eq)]
pub enum Kind {
    Int,
    /// VARCHAR, and how many bytes it may have.
    Text(u32),
    /// DATALINK without link control.
    Free,
    /// DATALINK under link control.
    Linked(Options),
}

/// NOT NULL or PRIMARY KEY.
#[derive(Clone, Copy, PartialEq, Eq)]
pub enum ColumnRule {
    Plain,
    NotNull,
    Key,
}

/// A column of a table.
#[derive(Drop)]
pub struct Column {
    pub name: Name,
    pub kind: Kind,
    pub rule: ColumnRule,
}

impl Copied for Column {
    fn copy(&self) -> Result<Column, Memory> {
        Ok(Column {
            name: self.name.copy()?,
            kind: self.kind,
            rule: self.rule,
        })
    }
}

impl Same for Column {
    fn same(&self, other: &Column) -> bool {
        self.name.same(&other.name) && self.kind == other.kind && self.rule == other.rule
    }
}
