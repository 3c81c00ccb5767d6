// Whether CREATE TABLE could have made the columns of a new table.
ghost use Rattle.std.specs.Prelude.{◌≡◌, bytes_eq, false, map};
ghost use Rattle.std.specs.List.{list_any};
ghost use Rattle.meaning_areas.specs.Commits as commits;
ghost use Rattle.meaning_statements.specs.Creating as creating;
ghost use Rattle.meaning_tables.specs.Fits.{differ, is_key};
ghost use Rattle.meaning_statements.specs.Assigning.{is_plain};
ghost use Rattle.db_replay.specs.Columns.{kind_stands, rule_stands, rules_stand};

use dl_base::limits::{MOST_COLUMNS, MOST_VARCHAR_BYTES};
use dl_base::{Column, ColumnRule, Kind, List, Name};
use meaning_tables::is_option_row;

/// Whether CREATE TABLE could have made the columns: at most 64, whose names differ, with lengths from 1 to 4,000 bytes and
/// options that are one of the seven rows, no rule at a datalink, and one key at most. It takes no memory.
#[tactic(auto, using(crate::proofs::ColumnLaws::columns_stand_is))]
pub(crate) fn columns_stand(columns: &List<Column>) -> bool
    ensures { result ≡ commits.columns_stand columns.now }
{
    columns.len() <= MOST_COLUMNS
        && names_differ(columns.as_slice())
        && rules_stand(columns.as_slice())
}

fn names_differ(columns: &[Column]) -> bool
    ensures { result ≡ differ bytes_eq (map (λ c. c.name) columns.now) }
{
    for (i, column) in columns.iter().enumerate() {
        let (_, later) = columns.split_at(i + 1);
        if stands(later, &column.name) {
            return false;
        }
    }
    true
}

// Whether a column has the name.
fn stands(columns: &[Column], name: &Name) -> bool
    ensures { result ≡ list_any (λ c. bytes_eq name.now c.name) columns.now }
{
    columns
        .iter()
        .any(|column| name.bytes() == column.name.bytes())
}

fn rules_stand(columns: &[Column]) -> bool
    ensures { result ≡ rules_stand false columns.now }
{
    let mut keyed = false;
    for column in columns {
        if !kind_stands(column.kind) || !rule_stands(keyed, column) {
            return false;
        }
        keyed = keyed || is_key(column.rule);
    }
    true
}

fn kind_stands(kind: Kind) -> bool
    ensures { result ≡ kind_stands kind }
{
    match kind {
        Kind::Int => true,
        Kind::Text(most) => 0 < most && most <= MOST_VARCHAR_BYTES,
        Kind::Free => true,
        Kind::Linked(options) => is_option_row(&options),
    }
}

fn rule_stands(keyed: bool, column: &Column) -> bool
    ensures { result ≡ rule_stands keyed column.now }
{
    !(is_datalink(column.kind) && !is_plain(column.rule)) && !(keyed && is_key(column.rule))
}

fn is_datalink(kind: Kind) -> bool
    ensures { result ≡ creating.is_datalink kind }
{
    match kind {
        Kind::Free => true,
        Kind::Linked(_) => true,
        Kind::Int => false,
        Kind::Text(_) => false,
    }
}

fn is_plain(rule: ColumnRule) -> bool
    ensures { result ≡ is_plain rule }
{
    match rule {
        ColumnRule::Plain => true,
        ColumnRule::NotNull => false,
        ColumnRule::Key => false,
    }
}

pub(crate) fn is_key(rule: ColumnRule) -> bool
    ensures { result ≡ is_key rule }
{
    match rule {
        ColumnRule::Key => true,
        ColumnRule::Plain => false,
        ColumnRule::NotNull => false,
    }
}
