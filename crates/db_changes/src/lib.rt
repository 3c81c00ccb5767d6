//! What the commit of a transaction makes of tables: as a record, and as handles that are put into the committed tables; what a copy of
//! tables differs in from its base; and the rows that a record names.
#![tactic(auto)]

mod diff;
mod laws;
mod made;
mod named;
mod touched;

pub use diff::{all_rows, changes_at, is_changed};
pub use laws::{
    a_copy_follows_its_base, handles_lead_to_merged_tables, no_handles_where_nothing_changed,
    nothing_touched_covers, touched_rows_cover_a_change,
};
pub use made::{Made, rooms_for};
pub use named::named_rows;
pub use touched::TouchedRows;
