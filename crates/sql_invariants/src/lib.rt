//! Every change of tables keeps their rows fitting their columns: laws over the definitions, for whoever carries out changes.
#![tactic(auto)]

mod laws;

pub use laws::{
    changes_draw_only_their_own_numbers, changes_keep_rows_fitting, changes_keep_tables_fitting,
    changes_keep_tables_ordered, links_are_kept_or_drawn, no_tables_fit,
};
