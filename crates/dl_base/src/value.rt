// The values of cells.
use crate::{Copied, List, Memory, Options, Path, Same, Text};

/// The number of a link: the transaction that made it, and a count from 1 inside it.
#[derive(Clone, Copy, PartialEq, Eq)]
pub struct LinkNo {
    pub tx: u64,
    pub k: u32,
}

/// A datalink: ISO/IEC 9075-9. It has a link number exactly in a column under link control.
#[derive(Drop)]
pub struct Dl {
    pub location: Text,
    pub path: Path,
    pub comment: Text,
    pub link: Option<LinkNo>,
}

/// A link: its number, the path of its file, and the options of its column.
#[derive(Drop)]
pub struct LinkRow {
    pub link: LinkNo,
    pub path: Path,
    pub options: Options,
}

/// The value of a cell.
#[derive(Drop)]
pub enum Value {
    Null,
    Int(i64),
    Text(Text),
    Link(Dl),
}

/// The values of a row, a column each.
#[derive(Drop)]
pub struct Row {
    pub values: List<Value>,
}

/// The rows that a query gives.
#[derive(Drop)]
pub struct Grid {
    pub rows: List<Row>,
}

impl Copied for LinkNo {
    fn copy(&self) -> Result<LinkNo, Memory> {
        Ok(*self)
    }
}

impl Same for LinkNo {
    fn same(&self, other: &LinkNo) -> bool {
        *self == *other
    }
}

impl Copied for Dl {
    fn copy(&self) -> Result<Dl, Memory> {
        Ok(Dl {
            location: self.location.copy()?,
            path: self.path.copy()?,
            comment: self.comment.copy()?,
            link: self.link,
        })
    }
}

impl Same for Dl {
    fn same(&self, other: &Dl) -> bool {
        self.location.same(&other.location)
            && self.path.same(&other.path)
            && self.comment.same(&other.comment)
            && self.link == other.link
    }
}

impl Copied for LinkRow {
    fn copy(&self) -> Result<LinkRow, Memory> {
        Ok(LinkRow {
            link: self.link,
            path: self.path.copy()?,
            options: self.options,
        })
    }
}

impl Same for LinkRow {
    fn same(&self, other: &LinkRow) -> bool {
        self.link == other.link && self.path.same(&other.path) && self.options == other.options
    }
}

impl Copied for Value {
    fn copy(&self) -> Result<Value, Memory> {
        match self {
            Value::Null => Ok(Value::Null),
            Value::Int(number) => Ok(Value::Int(*number)),
            Value::Text(text) => Ok(Value::Text(text.copy()?)),
            Value::Link(link) => Ok(Value::Link(link.copy()?)),
        }
    }
}

impl Same for Value {
    fn same(&self, other: &Value) -> bool {
        match (self, other) {
            (Value::Null, Value::Null) => true,
            (Value::Int(a), Value::Int(b)) => *a == *b,
            (Value::Text(a), Value::Text(b)) => a.same(b),
            (Value::Link(a), Value::Link(b)) => a.same(b),
            _ => false,
        }
    }
}

impl Copied for Row {
    fn copy(&self) -> Result<Row, Memory> {
        Ok(Row {
            values: self.values.copy()?,
        })
    }
}

impl Same for Row {
    fn same(&self, other: &Row) -> bool {
        self.values.same(&other.values)
    }
}
