//! What SQL means (ISO/IEC 9075-2, and 9075-9 for datalinks): definitions, and the types that they speak of.
#![tactic(auto)]

use dl_base::{Column, List, Name};

/// The columns of the sources of an expression, in order: the table or alias that each is of, and the column.
pub type Columns = List<(Name, Column)>;

/// The type of an expression.
#[derive(Clone, Copy)]
pub enum SqlType {
    /// INTEGER.
    Int,
    /// VARCHAR.
    Text,
    /// DATALINK.
    Link,
    /// True, false or unknown. No cell has this type.
    Truth,
    /// That of NULL, which fits every type.
    Null,
}

/// What may stand at the place of an expression.
#[derive(Drop)]
pub enum AggregateScope {
    /// Columns, and no aggregate, as in WHERE.
    Row,
    /// Columns and aggregates, as in an item.
    Item,
    /// Aggregates, and outside of them only the columns at these places from 0, as in an item of a query that groups: by GROUP BY, or
    /// because an item has an aggregate, where there are no places.
    Grouped(List<usize>),
}

/// What the values of a statement depend on beside its rows.
#[derive(Drop)]
pub struct Context {
    /// The host of every location.
    pub server: Name,
    /// The key of access tokens.
    pub key: [u8; 32],
    /// The moment, in seconds.
    pub now: u64,
    /// For how many seconds a token is good.
    pub life: u64,
    /// The transaction's number.
    pub tx: u64,
}
