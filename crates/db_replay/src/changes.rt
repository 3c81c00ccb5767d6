// What commits make of tables, as handles of the tables behind them.
use dl_base::Name;
use sql_table::Table;

/// What a change makes of one table: a handle of the table behind it, which shares what it has with all other copies, so that it can
/// be put in its place without the rows being looked at.
#[derive(Drop)]
pub enum Change {
    /// The table of a name goes.
    Dropped(Name),
    /// The table of a name is this one from then on, in its place.
    Kept(Name, Table),
    /// A table is new, behind the others.
    New(Name, Table),
}
