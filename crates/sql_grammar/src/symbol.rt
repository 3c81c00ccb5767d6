/// A reserved word or a sign.
#[derive(Clone, Copy, PartialEq, Eq)]
pub enum Symbol {
    And,
    As,
    Asc,
    Begin,
    Bigint,
    By,
    Commit,
    Create,
    Datalink,
    Delete,
    Desc,
    Drop,
    From,
    Group,
    Inner,
    Insert,
    Integer,
    Into,
    Is,
    Join,
    Key,
    Not,
    Null,
    On,
    Or,
    Order,
    Primary,
    Rollback,
    Select,
    Set,
    Table,
    Update,
    Values,
    Varchar,
    Where,
    /// `(`
    Open,
    /// `)`
    Close,
    /// `,`
    Comma,
    /// `.`
    Dot,
    /// `;`
    Semicolon,
    /// `*`
    Star,
    /// `+`
    Plus,
    /// `-`
    Minus,
    /// `/`
    Slash,
    /// `=`
    Equal,
    /// `<>`
    Unequal,
    /// `<`
    Less,
    /// `<=`
    LessEqual,
    /// `>`
    Greater,
    /// `>=`
    GreaterEqual,
}
