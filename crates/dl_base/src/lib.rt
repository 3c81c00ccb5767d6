//! What every crate speaks of: lists, texts, paths and names, the outside, files, values, statements and answers.
#![tactic(auto)]

mod answer;
mod area;
mod bench;
mod column;
mod copied;
mod digits;
mod fault;
mod file;
pub mod limits;
mod list;
mod memory;
mod name;
mod order;
mod path;
mod same;
mod source;
mod sql_fault;
mod statement;
mod step;
mod text;
mod value;

pub use answer::{Answer, ClaimRefusal, FileRefusal, Limit, Lost, Refusal, RestoreRefusal, Why};
pub use area::Area;
pub use bench::Bench;
pub use column::{Column, ColumnRule, Kind, OnUnlink, Options, ReadBy, WriteBy};
pub use copied::Copied;
pub use digits::number_in;
pub use fault::{AppendFault, BeginFault, Full, StepFault};
pub use file::{File, FileChange, FileCmd, FileRow, FileWhat, Owner, Token};
pub use list::List;
pub use memory::{Failed, Memory};
pub use name::{Name, is_name};
pub use path::{Path, is_path};
pub use same::Same;
pub use source::Source;
pub use sql_fault::{BadLink, SqlFault};
pub use sqlite_items::Boxed;
pub use statement::{
    ColumnDef, Expr, Fold, Integrity, Item, Key, KeyBy, KindDef, Op, Part, Ref, Select, Stmt,
    TableRef,
};
pub use step::{Phase, Settings, Step, Target};
pub use text::Text;
pub use value::{Dl, Grid, LinkNo, LinkRow, Row, Value};
