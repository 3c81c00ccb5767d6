// The keys of rows.
ghost use Rattle.std.specs.Prelude.{◌≡◌, ◌==◌, ◌||◌, ◌++◌, ◌∷◌, [], List, ℕ, ℤ, map, not, true, IfOk, OnOk, Ok, Some};
ghost use Rattle.std.specs.Bool.{OnTrue};
ghost use Rattle.std.specs.Cmp.Lexicographic.{pointwise};
ghost use Rattle.std.specs.List.{list_any};
ghost use Rattle.std.specs.Ordering.{int_eq};
ghost use Rattle.meaning_sql.specs.Faults.{Computes};
ghost use Rattle.meaning_statements.specs.Changing.{keys_hold, duplicate};
ghost use Rattle.dl_base.specs.declared.value.Row.{Row as RowMeant};
ghost use Rattle.meaning_tables.specs.Fits as meant;
ghost use Rattle.meaning_tables.specs.Fits.{table_fits};
ghost use Rattle.meaning_tables.specs.Tables.{Rise, with_row};
ghost use Rattle.sql_change.specs.Keys.{HaveStood, StoodKeys, is_at_most, is_key_at, sets_key};
ghost use Rattle.sql_keys.specs.Keys as key_places;
ghost use Rattle.sql_keys.specs.Keys.{IsKeyAt};

use dl_base::{Column, Copied, List, Memory, Row, SqlFault, Value};
use sql_keys::{KeyRows, has_key, is_key, only_key, rows_with_key};
use sql_table::Table;
use std::alloc::Global;
use std::collections::HashSet;

/// Whether the keys of a table's rows differ: `DupKey` with the number of the first row whose key is that of an earlier row, or
/// `Memory`. A table without a key column has no keys.
pub(crate) fn check_keys(alloc: Global, table: &Table) -> Result<(), SqlFault>
    ensures { Computes (λ u. true) result (keys_hold table.now) }
{
    let columns = table.columns();
    if !has_key(columns.as_slice()) {
        return Ok(());
    }
    match only_key(columns.as_slice()) {
        Some(place) => check_one(alloc, table, place),
        None => check_all(alloc, table),
    }
}

/// Whether the row of a number, which has changed alone, surely has a key that no other row has: the index of the table before is
/// asked, whose keys differ. It takes no memory. The cost grows with the logarithm of the number of rows.
pub(crate) fn has_own_key(before: &Table, after: &Table, number: u64) -> bool
    requires fits { table_fits before.now ≡ true }
    requires others { after.now ≡ record before.now { rows = after.now.rows } }
    requires one { (row : RowMeant) × (after.now.rows ≡ with_row before.now.rows number row) }
    ensures { result ≡ true → keys_hold after.now ≡ Ok true }
{
    numbered(before);
    match only_key(before.columns().as_slice()) {
        Some(place) => is_alone(before, after, place, number),
        None => false,
    }
}

// The same where the key is the value at a place.
fn is_alone(before: &Table, after: &Table, place: usize, number: u64) -> bool
    requires fits { table_fits before.now ≡ true }
    requires others { after.now ≡ record before.now { rows = after.now.rows } }
    requires one { (row : RowMeant) × (after.now.rows ≡ with_row before.now.rows number row) }
    requires rise { Rise 0 before.now.next before.now.rows }
    requires key { key_places.only_key before.now.columns ≡ Some place }
    requires at { IsKeyAt before.now.columns place }
    ensures { result ≡ true → keys_hold after.now ≡ Ok true }
{
    match after.row(number) {
        Some(row) => match row.values.at(place) {
            Some(key) => is_at_most(rows_with_key(before, place, key), number),
            None => false,
        },
        None => false,
    }
}

// Whether no row but that of a number is left over.
fn is_at_most(rows: KeyRows, number: u64) -> bool
    ensures { result ≡ is_at_most number rows }
{
    match rows {
        KeyRows::All => false,
        KeyRows::One(other) => other == number,
        KeyRows::Nothing => true,
    }
}

// The numbers of rows rise, as a table tells with their count.
fn numbered(table: &Table)
    ensures { Rise 0 table.now.next table.now.rows }
{
    let _ = table.len();
}

// The keys in a table whose key is the value at one place: each is looked for among those that have stood.
fn check_one(alloc: Global, table: &Table, place: usize) -> Result<(), SqlFault>
    requires { IsKeyAt table.now.columns place }
    ensures { Computes (λ u. true) result (duplicate (meant.repeated table.now.columns [] table.now.rows)) }
{
    let mut numbers = HashSet::new(alloc);
    let mut texts = HashSet::new(alloc);
    for i in 0..table.len() {
        match table.at(i) {
            Some((number, row)) => match row.values.at(place) {
                Some(key) => {
                    if !is_new(&mut numbers, &mut texts, key)? {
                        return Err(SqlFault::DupKey(number));
                    }
                }
                None => return check_all(alloc, table),
            },
            None => return Ok(()),
        }
    }
    Ok(())
}

// Puts a key among those that have stood, where it is new. NULL and a datalink are the same as no key.
fn is_new<'a>(
    numbers: &mut HashSet<i64>,
    texts: &mut HashSet<&'a [u8]>,
    key: &'a Value,
) -> Result<bool, Memory>
    ensures { (stood : StoodKeys) → HaveStood numbers.old.keys (map (λ t. t.now) texts.old.keys) stood → IfOk result (λ new. (new ≡ not (list_any (pointwise meant.same_key (key.now ∷ [])) stood)) × OnTrue new (HaveStood numbers.new.keys (map (λ t. t.now) texts.new.keys) ((key.now ∷ []) ∷ stood))) }
{
    match key {
        Value::Int(z) => number_is_new(numbers, z),
        Value::Text(text) => text_is_new(texts, text.bytes()),
        Value::Null => Ok(true),
        Value::Link(_) => Ok(true),
    }
}

fn number_is_new(numbers: &mut HashSet<i64>, z: &i64) -> Result<bool, Memory>
    ensures new { IfOk result (λ new. new ≡ not (list_any (int_eq z.now) numbers.old.keys)) }
    ensures put { (q : ℤ) → IfOk result (λ new. OnTrue new (list_any (int_eq q) numbers.new.keys ≡ (int_eq q z.now || list_any (int_eq q) numbers.old.keys))) }
{
    Ok(numbers.insert(*z)?)
}

fn text_is_new<'a>(texts: &mut HashSet<&'a [u8]>, text: &'a [u8]) -> Result<bool, Memory>
    ensures new { IfOk result (λ new. new ≡ not (list_any (pointwise ◌==◌ text.now) (map (λ t. t.now) texts.old.keys))) }
    ensures put { (q : List ℕ) → IfOk result (λ new. OnTrue new (list_any (pointwise ◌==◌ q) (map (λ t. t.now) texts.new.keys) ≡ (pointwise ◌==◌ q text.now || list_any (pointwise ◌==◌ q) (map (λ t. t.now) texts.old.keys)))) }
{
    Ok(texts.insert(text)?)
}

// The keys in any table: each is compared with all that have stood.
#[tactic(auto, using(crate::proofs::Reversed::any_reversed, crate::proofs::Reversed::reversed_push))]
fn check_all(alloc: Global, table: &Table) -> Result<(), SqlFault>
    ensures { Computes (λ u. true) result (duplicate (meant.repeated table.now.columns [] table.now.rows)) }
{
    let mut keys = List::empty(alloc);
    for i in 0..table.len() {
        match table.at(i) {
            Some((number, row)) => {
                let key = key_of(alloc, table.columns(), row)?;
                if is_among(&key, &keys) {
                    return Err(SqlFault::DupKey(number));
                }
                keys.push(key)?;
            }
            None => return Ok(()),
        }
    }
    Ok(())
}

/// Whether one of the columns at these places is a key.
pub(crate) fn sets_key(columns: &List<Column>, places: &List<usize>) -> bool
    ensures { result ≡ sets_key columns.now places.now }
{
    for place in places.as_slice() {
        if is_key_at(columns, *place) {
            return true;
        }
    }
    false
}

fn is_key_at(columns: &List<Column>, place: usize) -> bool
    ensures { result ≡ is_key_at columns.now place }
{
    match columns.at(place) {
        Some(column) => is_key(column.rule),
        None => false,
    }
}

// The values of a row in the key columns.
#[tactic(auto, using(crate::proofs::KeyColumns::no_key_past_the_end, crate::proofs::KeyColumns::key_column, crate::proofs::KeyColumns::other_column))]
fn key_of(alloc: Global, columns: &List<Column>, row: &Row) -> Result<List<Value>, Memory>
    ensures { IfOk result (λ key. key ≡ meant.key_of columns.now row.now.values) }
{
    let mut key = List::empty(alloc);
    let values = row.values.as_slice();
    for (i, column) in columns.as_slice().iter().enumerate() {
        if values.len() <= i {
            return Ok(key);
        }
        if !is_key(column.rule) {
            continue;
        }
        put_copy(&mut key, &values[i])?;
    }
    Ok(key)
}

fn put_copy(key: &mut List<Value>, value: &Value) -> Result<(), Memory>
    ensures { OnOk result (key.new ≡ key.old ++ value.now ∷ []) }
{
    key.push(value.copy()?)?;
    Ok(())
}

fn is_among(key: &List<Value>, keys: &List<List<Value>>) -> bool
    ensures { result ≡ list_any (pointwise meant.same_key key.now) keys.now }
{
    for other in keys.as_slice() {
        if is_same(key.as_slice(), other.as_slice()) {
            return true;
        }
    }
    false
}

fn is_same(key: &[Value], other: &[Value]) -> bool
    ensures { result ≡ pointwise meant.same_key key.now other.now }
{
    if key.len() != other.len() {
        return false;
    }
    for (i, value) in key.iter().enumerate() {
        if !is_same_value(value, &other[i]) {
            return false;
        }
    }
    true
}

fn is_same_value(a: &Value, b: &Value) -> bool
    ensures { result ≡ meant.same_key a.now b.now }
{
    match (a, b) {
        (Value::Int(x), Value::Int(y)) => *x == *y,
        (Value::Text(x), Value::Text(y)) => x.bytes() == y.bytes(),
        _ => false,
    }
}
