//! Tables by name, their rows in order of row number, their links, and what a copy of tables gives and takes.
#![tactic(auto)]

mod columns;
mod index;
mod key;
mod link_rows;
mod numbered;
mod roomy;
mod table;
mod tables;

pub use link_rows::{gives_takes, links, put_lacking_of, put_row_lacking};
pub use roomy::RoomyTables;
pub use table::Table;
pub use tables::Tables;
