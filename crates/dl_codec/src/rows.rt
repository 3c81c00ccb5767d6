// The records of the area Rows.
ghost use Rattle.std.specs.Prelude.{◌≡◌, ◌++◌, OnOk, OnErr, IfOk};
ghost use Rattle.dl_codec.specs.Layout.{DecodesTo, Decodes, behind, whole};
ghost use Rattle.dl_codec.specs.Rows.{kept_fields, new_fields, rows_record};
ghost use Rattle.dl_codec.specs.declared.rows.TableChange.TheVariants as changes;

use crate::read_fault::ReadFault;
use crate::spelled::Spelled;
use crate::whole::{get_whole, put_whole};
use dl_base::{Column, List, Memory, Name, Value};
use std::alloc::Global;

/// What a commit does to one row: its values from then on, or none where it is removed.
#[derive(Drop)]
pub struct RowChange {
    pub number: u64,
    pub values: Option<List<Value>>,
}

/// What a commit does to one table.
#[derive(Drop)]
pub enum TableChange {
    Dropped(Name),
    /// The columns, the next row number, the rows.
    New(Name, List<Column>, u64, List<RowChange>),
    /// The next row number, the rows that differ.
    Kept(Name, u64, List<RowChange>),
}

/// A record of the area Rows.
#[derive(Drop)]
pub enum RowsRecord {
    /// How often the area was opened, from 1.
    Opening(u32),
    /// The transaction, the number of the commit, whether it has a branch, the tables that differ.
    Commit(u64, u64, bool, List<TableChange>),
    /// The transaction, whose branch is done.
    Ended(u64),
}

/// Appends the record's bytes. A record with options that are none of the seven rows, or with a text or a list of 2^32
/// items or more, has none: it is answered `Memory`, as is want of memory, and nothing is appended.
pub fn put_rows_record(into: &mut List<u8>, x: &RowsRecord) -> Result<(), Memory>
    ensures ok { OnOk result (rows_record.fits x.now × (into.new ≡ into.old ++ rows_record.spelling x.now)) }
    ensures err { OnErr result (into.new ≡ into.old) }
{
    put_whole(into, x)
}

/// The record that has these bytes; `None` exactly where no record has them.
#[tactic(auto, using(crate::proofs::RowsSound::rows_record_decodes))]
pub fn get_rows_record(alloc: Global, bytes: &[u8]) -> Result<Option<RowsRecord>, Memory>
    ensures exact { IfOk result (λ found. found ≡ whole rows_record bytes.now) }
    ensures decodes { IfOk result (Decodes rows_record bytes.now) }
{
    get_whole(alloc, bytes)
}

#[tactic(auto, unfolding(crate::specs::Rows::row_change))]
impl Spelled for RowChange {
    ghost use Rattle.dl_codec.specs.Rows.{row_change};

    ghost layout = { row_change };

    fn put(&self, into: &mut List<u8>) -> Result<(), Memory> {
        self.number.put(into)?;
        self.values.put(into)
    }

    fn get(alloc: Global, bytes: &[u8]) -> Result<(RowChange, &[u8]), ReadFault> {
        let (number, rest) = u64::get(alloc, bytes)?;
        let (values, rest) = Option::<List<Value>>::get(alloc, rest)?;
        Ok((RowChange { number, values }, rest))
    }
}

// What stands behind the name of a table: the next row number and the rows, behind the columns where it is new.
type KeptFields = (u64, List<RowChange>);

type NewFields = (List<Column>, KeptFields);

#[tactic(auto, unfolding(crate::specs::Rows::table_change, crate::specs::Rows::done))]
impl Spelled for TableChange {
    ghost use Rattle.dl_codec.specs.Rows.{table_change};

    ghost layout = { table_change };

    fn put(&self, into: &mut List<u8>) -> Result<(), Memory> {
        match self {
            TableChange::Dropped(table) => {
                table.put(into)?;
                into.extend(&[0])
            }
            TableChange::New(table, columns, next, rows) => {
                table.put(into)?;
                into.extend(&[1])?;
                columns.put(into)?;
                next.put(into)?;
                rows.put(into)
            }
            TableChange::Kept(table, next, rows) => {
                table.put(into)?;
                into.extend(&[2])?;
                next.put(into)?;
                rows.put(into)
            }
        }
    }

    fn get(alloc: Global, bytes: &[u8]) -> Result<(TableChange, &[u8]), ReadFault> {
        let (table, rest) = Name::get(alloc, bytes)?;
        match rest {
            [0, rest @ ..] => Ok((TableChange::Dropped(table), rest)),
            [1, rest @ ..] => new_table(alloc, table, rest),
            [2, rest @ ..] => kept_table(alloc, table, rest),
            _ => {
                drop(table);
                Err(ReadFault::Bad)
            }
        }
    }
}

// The change of a table that is new, whose fields stand at the front.
fn new_table(alloc: Global, table: Name, bytes: &[u8]) -> Result<(TableChange, &[u8]), ReadFault>
    ensures { DecodesTo (λ x. (x.0, x.1.now)) result (behind (λ p. changes.New table p.0 p.1.0 p.1.1) new_fields bytes.now) }
{
    match NewFields::get(alloc, bytes) {
        Ok(((columns, (next, rows)), rest)) => {
            Ok((TableChange::New(table, columns, next, rows), rest))
        }
        Err(fault) => {
            drop(table);
            Err(fault)
        }
    }
}

// The change of a table that stays, whose fields stand at the front.
fn kept_table(alloc: Global, table: Name, bytes: &[u8]) -> Result<(TableChange, &[u8]), ReadFault>
    ensures { DecodesTo (λ x. (x.0, x.1.now)) result (behind (λ p. changes.Kept table p.0 p.1) kept_fields bytes.now) }
{
    match KeptFields::get(alloc, bytes) {
        Ok(((next, rows), rest)) => Ok((TableChange::Kept(table, next, rows), rest)),
        Err(fault) => {
            drop(table);
            Err(fault)
        }
    }
}

// What stands behind the tag of a commit.
type CommitFields = (u64, (u64, (bool, List<TableChange>)));

#[tactic(auto, unfolding(crate::specs::Rows::rows_record))]
impl Spelled for RowsRecord {
    ghost use Rattle.dl_codec.specs.Rows.{rows_record as layout_of_records};

    ghost layout = { layout_of_records };

    fn put(&self, into: &mut List<u8>) -> Result<(), Memory> {
        match self {
            RowsRecord::Opening(number) => {
                into.extend(&[1])?;
                number.put(into)
            }
            RowsRecord::Commit(tx, number, branch, tables) => {
                into.extend(&[2])?;
                tx.put(into)?;
                number.put(into)?;
                branch.put(into)?;
                tables.put(into)
            }
            RowsRecord::Ended(tx) => {
                into.extend(&[3])?;
                tx.put(into)
            }
        }
    }

    fn get(alloc: Global, bytes: &[u8]) -> Result<(RowsRecord, &[u8]), ReadFault> {
        match bytes {
            [1, rest @ ..] => {
                let (number, rest) = u32::get(alloc, rest)?;
                Ok((RowsRecord::Opening(number), rest))
            }
            [2, rest @ ..] => {
                let ((tx, (number, (branch, tables))), rest) = CommitFields::get(alloc, rest)?;
                Ok((RowsRecord::Commit(tx, number, branch, tables), rest))
            }
            [3, rest @ ..] => {
                let (tx, rest) = u64::get(alloc, rest)?;
                Ok((RowsRecord::Ended(tx), rest))
            }
            _ => Err(ReadFault::Bad),
        }
    }
}
