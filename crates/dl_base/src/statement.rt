// The tree of a statement.
use crate::{Boxed, List, Name, OnUnlink, ReadBy, Text, WriteBy};

/// A statement of SQL.
#[derive(Drop)]
pub enum Stmt {
    Begin,
    Commit,
    Rollback,
    CreateTable(Name, List<ColumnDef>),
    DropTable(Name),
    /// The table, the columns where they are listed, and the tuples.
    Insert(Name, Option<List<Name>>, List<List<Expr>>),
    /// The table, the columns with their new values, and WHERE.
    Update(Name, List<(Name, Expr)>, Option<Expr>),
    /// The table, and WHERE.
    Delete(Name, Option<Expr>),
    Select(Select),
}

/// A column as CREATE TABLE writes it.
#[derive(Drop)]
pub struct ColumnDef {
    pub name: Name,
    pub kind: KindDef,
    /// How often NOT NULL stands there.
    pub not_null: u32,
    /// How often PRIMARY KEY stands there.
    pub key: u32,
}

/// A column's type as it is written.
#[derive(Clone, Copy)]
pub enum KindDef {
    /// INTEGER or BIGINT.
    Integer,
    /// VARCHAR, with its length.
    Varchar(i64),
    /// DATALINK without link control.
    Free,
    /// FILE LINK CONTROL MODE DB2OPTIONS.
    Db2,
    /// FILE LINK CONTROL with its choices: INTEGRITY, READ PERMISSION, WRITE PERMISSION, RECOVERY YES, ON UNLINK.
    Chosen(Integrity, ReadBy, WriteBy, bool, OnUnlink),
}

/// INTEGRITY; NONE is `Nothing`.
#[derive(Clone, Copy)]
pub enum Integrity {
    All,
    Selective,
    Nothing,
}

/// A query.
#[derive(Drop)]
pub struct Select {
    /// The items; none for `*`.
    pub items: Option<List<Item>>,
    pub from: List<TableRef>,
    /// The ON conditions, in order of text.
    pub conditions: List<Expr>,
    /// WHERE.
    pub filter: Option<Expr>,
    /// GROUP BY.
    pub group: List<Ref>,
    /// ORDER BY.
    pub order: List<Key>,
}

/// An item of a query.
#[derive(Drop)]
pub struct Item {
    pub expr: Expr,
    pub alias: Option<Name>,
}

/// A source of a query.
#[derive(Drop)]
pub struct TableRef {
    pub table: Name,
    pub alias: Option<Name>,
}

/// A column as an expression names it.
#[derive(Drop)]
pub struct Ref {
    pub table: Option<Name>,
    pub column: Name,
}

/// What a query is ordered by.
#[derive(Drop)]
pub struct Key {
    pub by: KeyBy,
    pub descending: bool,
}

/// An alias or a column, or an item's place from 1.
#[derive(Drop)]
pub enum KeyBy {
    Name(Name),
    Place(i64),
}

/// An operator between two operands.
#[derive(Clone, Copy)]
pub enum Op {
    Or,
    And,
    Eq,
    Ne,
    Lt,
    Le,
    Gt,
    Ge,
    Add,
    Sub,
    Mul,
    Div,
}

/// What an aggregate makes of its values.
#[derive(Clone, Copy)]
pub enum Fold {
    Sum,
    Min,
    Max,
}

/// The part of a datalink that an accessor reads: DLCOMMENT, DLLINKTYPE, DLURLSCHEME, DLURLSERVER, DLURLPATHONLY,
/// DLURLPATH and DLURLCOMPLETE.
#[derive(Clone, Copy)]
pub enum Part {
    Comment,
    LinkType,
    Scheme,
    Server,
    PathOnly,
    Path,
    Complete,
}

/// An expression.
#[derive(Drop)]
pub enum Expr {
    Number(i64),
    Literal(Text),
    Null,
    Column(Ref),
    Not(Boxed<Expr>),
    Minus(Boxed<Expr>),
    Binary(Op, Boxed<Expr>, Boxed<Expr>),
    /// IS NULL where it holds true, IS NOT NULL where it holds false.
    IsNull(Boxed<Expr>, bool),
    /// COUNT(*).
    CountAll,
    Aggregate(Fold, Boxed<Expr>),
    Dlvalue1(Boxed<Expr>),
    Dlvalue2(Boxed<Expr>, Boxed<Expr>),
    Dlvalue3(Boxed<Expr>, Boxed<Expr>, Boxed<Expr>),
    Access(Part, Boxed<Expr>),
}
