//! CREATE TABLE, DROP TABLE, INSERT, UPDATE and DELETE over tables, and the links of tables.
#![tactic(auto)]

mod changing;
mod creating;
mod inserting;
mod keys;
mod places;
mod updating;

pub use changing::{Changed, change};
pub use sql_table::{gives_takes, links};
