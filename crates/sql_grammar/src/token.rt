use crate::Symbol;

/// A word of the link options, which is a name elsewhere.
#[derive(Clone, Copy)]
pub enum LinkWord {
    Linktype,
    Url,
    No,
    Link,
    Control,
    File,
    Mode,
    Db2options,
    Integrity,
    All,
    Selective,
    None,
    Read,
    Permission,
    Fs,
    Db,
    Write,
    Blocked,
    Admin,
    Recovery,
    Yes,
    Unlink,
    Restore,
}

/// What the grammar writes between its parts.
#[derive(Clone, Copy)]
pub enum Token {
    Symbol(Symbol),
    Word(LinkWord),
}
