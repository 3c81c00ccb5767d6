// The key columns of a table.
ghost use Rattle.std.specs.Prelude.{◌≡◌, IfSome};
ghost use Rattle.std.specs.List.{list_any};
ghost use Rattle.meaning_tables.specs.Fits as meant;
ghost use Rattle.sql_keys.specs.Keys as keys;

use dl_base::{Column, ColumnRule};

/// The place from 0 of the key column, where there is one alone: there the value at that place is the key of a row. It takes no
/// memory.
pub fn only_key(columns: &[Column]) -> Option<usize>
    ensures place { result ≡ keys.only_key columns.now }
    ensures key { IfSome result (λ place. keys.IsKeyAt columns.now place) }
{
    place_of_key(columns)
}

fn place_of_key(columns: &[Column]) -> Option<usize>
    ensures { result ≡ keys.only_key columns.now }
{
    for (i, column) in columns.iter().enumerate() {
        if is_key(column.rule) {
            if has_key(columns.split_at(i + 1).1) {
                return None;
            }
            return Some(i);
        }
    }
    None
}

/// Whether one of the columns is a key. It takes no memory.
pub fn has_key(columns: &[Column]) -> bool
    ensures { result ≡ list_any (λ c. meant.is_key c.rule) columns.now }
{
    columns.iter().any(|column| is_key(column.rule))
}

/// Whether a column of this rule is a key.
pub fn is_key(rule: ColumnRule) -> bool
    ensures { result ≡ meant.is_key rule }
{
    match rule {
        ColumnRule::Key => true,
        ColumnRule::Plain => false,
        ColumnRule::NotNull => false,
    }
}
