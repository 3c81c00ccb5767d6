// The columns that CREATE TABLE makes.
ghost use Rattle.std.specs.Prelude.{◌≡◌, ◌≢◌, ◌||◌, [], Err, false, true, is_err, bytes_eq, nat_lt, IfOk, OnErr};
ghost use Rattle.std.specs.List.{list_any};
ghost use Rattle.meaning_sql.specs.Faults.{Computes};
ghost use Rattle.meaning_statements.specs.Creating as meant;

use dl_base::limits::MOST_VARCHAR_BYTES;
use dl_base::{
    Column, ColumnDef, ColumnRule, Integrity, Kind, KindDef, List, Memory, Name, OnUnlink, Options,
    ReadBy, SqlFault, WriteBy,
};
use meaning_tables::is_option_row;
use std::alloc::Global;

/// The columns of a table, in order: `Ambiguous` for a name that stood before, `TooLong` for a length outside 1 to 4,000 bytes,
/// `BadOptions` for options and rules that do not fit, or `Memory`.
pub(crate) fn columns_made(alloc: Global, defs: &List<ColumnDef>) -> Result<List<Column>, SqlFault>
    ensures { Computes (λ c. c) result (meant.columns_made [] false defs.now) }
{
    let mut made = List::empty(alloc);
    match put_columns(&mut made, defs) {
        Ok(()) => Ok(made),
        Err(fault) => {
            drop(made);
            Err(fault)
        }
    }
}

// Puts the columns into a list that has none.
#[tactic(auto, using(crate::proofs::Reversed::any_named))]
fn put_columns(made: &mut List<Column>, defs: &List<ColumnDef>) -> Result<(), SqlFault>
    requires { made.old ≡ [] }
    ensures { Computes (λ put. made.new) result (meant.columns_made [] false defs.now) }
{
    let mut keyed = false;
    for def in defs.as_slice() {
        if stands(made.as_slice(), &def.name) {
            return Err(SqlFault::Ambiguous(def.name.copy()?));
        }
        let kind = match kind_made(&def.name, def.kind) {
            Ok(kind) => kind,
            Err(fault) => return Err(fault),
        };
        if !rules_fit(keyed, def, kind) {
            return Err(SqlFault::BadOptions);
        }
        made.push(column_made(def, kind)?)?;
        keyed = is_keyed(keyed, def);
    }
    Ok(())
}

fn column_made(def: &ColumnDef, kind: Kind) -> Result<Column, Memory>
    ensures { IfOk result (λ column. column ≡ record { name = def.now.name; kind = kind; rule = meant.rule_made def.now }) }
{
    Ok(Column {
        name: def.name.copy()?,
        kind,
        rule: rule_made(def),
    })
}

// Whether a key column has stood, this one among them.
fn is_keyed(keyed: bool, def: &ColumnDef) -> bool
    ensures { result ≡ (keyed || nat_lt 0 def.now.key) }
{
    keyed || def.key > 0
}

// Whether a column has the name.
fn stands(columns: &[Column], name: &Name) -> bool
    ensures { result ≡ list_any (λ c. bytes_eq name.now c.name) columns.now }
{
    columns
        .iter()
        .any(|column| name.bytes() == column.name.bytes())
}

fn kind_made(name: &Name, def: KindDef) -> Result<Kind, SqlFault>
    ensures made { Computes (λ k. k) result (meant.kind_made name.now def) }
    ensures accepted { OnErr result (is_err (meant.kind_made name.now def) ≡ true) }
{
    match def {
        KindDef::Integer => Ok(Kind::Int),
        KindDef::Varchar(length) => text_kind(name, length),
        KindDef::Free => Ok(Kind::Free),
        KindDef::Db2 => Ok(Kind::Linked(Options {
            read: ReadBy::Fs,
            write: WriteBy::Fs,
            recovery: false,
            unlink: OnUnlink::Nothing,
        })),
        KindDef::Chosen(integrity, read, write, recovery, unlink) => controlled(
            integrity,
            Options {
                read,
                write,
                recovery,
                unlink,
            },
        ),
    }
}

// A length from 1 to 4,000 bytes.
fn text_kind(name: &Name, length: i64) -> Result<Kind, SqlFault>
    ensures made { Computes (λ k. k) result (meant.text_kind name.now length) }
    ensures accepted { OnErr result (is_err (meant.text_kind name.now length) ≡ true) }
{
    if 1 <= length && length <= MOST_VARCHAR_BYTES as i64 {
        Ok(Kind::Text(length as u32))
    } else {
        Err(SqlFault::TooLong(name.copy()?))
    }
}

// INTEGRITY ALL and one of the seven rows.
fn controlled(integrity: Integrity, options: Options) -> Result<Kind, SqlFault>
    ensures made { Computes (λ k. k) result (meant.controlled integrity options) }
    ensures never { result ≢ Err SqlFault.Memory }
{
    if is_all(integrity) && is_option_row(&options) {
        Ok(Kind::Linked(options))
    } else {
        Err(SqlFault::BadOptions)
    }
}

fn is_all(integrity: Integrity) -> bool
    ensures { result ≡ meant.is_all integrity }
{
    match integrity {
        Integrity::All => true,
        Integrity::Selective => false,
        Integrity::Nothing => false,
    }
}

// Whether no rule is written twice, a DATALINK has none, and no second column is a key.
fn rules_fit(keyed: bool, def: &ColumnDef, kind: Kind) -> bool
    ensures { result ≡ meant.rules_fit keyed def.now kind }
{
    def.not_null <= 1
        && def.key <= 1
        && !(is_datalink(kind) && (def.not_null > 0 || def.key > 0))
        && !(keyed && def.key > 0)
}

fn is_datalink(kind: Kind) -> bool
    ensures { result ≡ meant.is_datalink kind }
{
    match kind {
        Kind::Free => true,
        Kind::Linked(_) => true,
        Kind::Int => false,
        Kind::Text(_) => false,
    }
}

fn rule_made(def: &ColumnDef) -> ColumnRule
    ensures { result ≡ meant.rule_made def.now }
{
    if def.key > 0 {
        ColumnRule::Key
    } else if def.not_null > 0 {
        ColumnRule::NotNull
    } else {
        ColumnRule::Plain
    }
}
