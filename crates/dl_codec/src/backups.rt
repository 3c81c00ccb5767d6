// The records of the area Backups.
ghost use Rattle.std.specs.Prelude.{◌≡◌, ◌++◌, OnOk, OnErr, IfOk};
ghost use Rattle.dl_codec.specs.Backups.{backup_record};
ghost use Rattle.dl_codec.specs.Layout.{Decodes, whole};

use crate::read_fault::ReadFault;
use crate::spelled::Spelled;
use crate::whole::{get_whole, put_whole};
use dl_base::{Column, List, Memory, Name, Value};
use std::alloc::Global;

/// A whole table: its name, its version, its columns, the next row number, its rows by number.
#[derive(Drop)]
pub struct TableImage {
    pub name: Name,
    pub version: u64,
    pub columns: List<Column>,
    pub next: u64,
    pub rows: List<(u64, List<Value>)>,
}

/// A record of the area Backups.
#[derive(Drop)]
pub enum BackupRecord {
    /// The number of the backup, that of the last commit, the tables.
    Backup(u64, u64, List<TableImage>),
}

/// Appends the record's bytes. A record with options that are none of the seven rows, or with a text or a list of 2^32
/// items or more, has none: it is answered `Memory`, as is want of memory, and nothing is appended.
pub fn put_backup_record(into: &mut List<u8>, x: &BackupRecord) -> Result<(), Memory>
    ensures ok { OnOk result (backup_record.fits x.now × (into.new ≡ into.old ++ backup_record.spelling x.now)) }
    ensures err { OnErr result (into.new ≡ into.old) }
{
    put_whole(into, x)
}

/// The record that has these bytes; `None` exactly where no record has them.
#[tactic(auto, using(crate::proofs::BackupsSound::backup_record_decodes))]
pub fn get_backup_record(alloc: Global, bytes: &[u8]) -> Result<Option<BackupRecord>, Memory>
    ensures exact { IfOk result (λ found. found ≡ whole backup_record bytes.now) }
    ensures decodes { IfOk result (Decodes backup_record bytes.now) }
{
    get_whole(alloc, bytes)
}

// The fields of a table, in the order in which they lie in bytes.
type TableFields = (Name, (u64, (List<Column>, (u64, List<(u64, List<Value>)>))));

#[tactic(auto, unfolding(crate::specs::Backups::table_image))]
impl Spelled for TableImage {
    ghost use Rattle.dl_codec.specs.Backups.{table_image};

    ghost layout = { table_image };

    fn put(&self, into: &mut List<u8>) -> Result<(), Memory> {
        self.name.put(into)?;
        self.version.put(into)?;
        self.columns.put(into)?;
        self.next.put(into)?;
        self.rows.put(into)
    }

    fn get(alloc: Global, bytes: &[u8]) -> Result<(TableImage, &[u8]), ReadFault> {
        let ((name, (version, (columns, (next, rows)))), rest) = TableFields::get(alloc, bytes)?;
        let image = TableImage {
            name,
            version,
            columns,
            next,
            rows,
        };
        Ok((image, rest))
    }
}

// What stands behind the tag of a backup.
type BackupFields = (u64, (u64, List<TableImage>));

#[tactic(auto, unfolding(crate::specs::Backups::backup_record))]
impl Spelled for BackupRecord {
    ghost use Rattle.dl_codec.specs.Backups.{backup_record as layout_of_records};

    ghost layout = { layout_of_records };

    fn put(&self, into: &mut List<u8>) -> Result<(), Memory> {
        match self {
            BackupRecord::Backup(number, commit, tables) => {
                into.extend(&[1])?;
                number.put(into)?;
                commit.put(into)?;
                tables.put(into)
            }
        }
    }

    fn get(alloc: Global, bytes: &[u8]) -> Result<(BackupRecord, &[u8]), ReadFault> {
        match bytes {
            [1, rest @ ..] => {
                let ((number, (commit, tables)), rest) = BackupFields::get(alloc, rest)?;
                Ok((BackupRecord::Backup(number, commit, tables), rest))
            }
            _ => Err(ReadFault::Bad),
        }
    }
}
