// Tables as the record of a backup has them.
ghost use Rattle.std.specs.Prelude.{◌≡◌, ◌++◌, ◌∷◌, [], IfOk, OnOk, bytes_eq, map, true};
ghost use Rattle.std.specs.List.{list_all};
ghost use Rattle.dl_codec.specs.Backups.{backup_record};
ghost use Rattle.dl_codec.specs.declared.backups.BackupRecord.TheVariants as records;
ghost use Rattle.meaning_system.specs.Writes.{image_of};
ghost use Rattle.meaning_areas.specs.Copies.{image_stands};
ghost use Rattle.meaning_tables.specs.Fits.{differ};

use dl_base::{Copied, List, Memory, Name, Row, Value};
use dl_codec::{BackupRecord, TableImage, put_backup_record};
use sql_table::{Table, Tables};
use std::alloc::Global;

/// The body of the record of a backup.
pub fn body_of(alloc: Global, number: u64, commit: u64, tables: &Tables) -> Result<List<u8>, Memory>
    ensures body { IfOk result (λ body. body ≡ backup_record.spelling (records.Backup number commit (map image_of tables.now))) }
    ensures fits { OnOk result (backup_record.fits (records.Backup number commit (map image_of tables.now))) }
    ensures differ { OnOk result (differ bytes_eq (map (λ t. t.0) tables.now) ≡ true) }
    ensures stand { OnOk result (list_all image_stands (map image_of tables.now) ≡ true) }
{
    let record = BackupRecord::Backup(number, commit, images(alloc, tables)?);
    let mut body = List::empty(alloc);
    put_backup_record(&mut body, &record)?;
    Ok(body)
}

// All tables, in order.
#[tactic(auto, using(crate::proofs::Images::stand_more, crate::proofs::Images::names_differ))]
fn images(alloc: Global, tables: &Tables) -> Result<List<TableImage>, Memory>
    ensures value { IfOk result (λ made. made ≡ map image_of tables.now) }
    ensures differ { OnOk result (differ bytes_eq (map (λ t. t.0) tables.now) ≡ true) }
    ensures stand { IfOk result (λ made. list_all image_stands made ≡ true) }
{
    let mut made = List::empty(alloc);
    for i in 0..tables.len() {
        match tables.at(i) {
            Some((name, table)) => put_image(&mut made, name, table)?,
            None => {}
        }
    }
    Ok(made)
}

// Puts the image of a table at the end.
fn put_image(made: &mut List<TableImage>, name: &Name, table: &Table) -> Result<(), Memory>
    ensures value { OnOk result (made.new ≡ made.old ++ image_of (name.now, table.now) ∷ []) }
    ensures stands { OnOk result (image_stands (image_of (name.now, table.now)) ≡ true) }
{
    let image = image(made.allocator(), name, table)?;
    made.push(image)?;
    Ok(())
}

fn image(alloc: Global, name: &Name, table: &Table) -> Result<TableImage, Memory>
    ensures value { IfOk result (λ made. made ≡ image_of (name.now, table.now)) }
    ensures stands { OnOk result (image_stands (image_of (name.now, table.now)) ≡ true) }
{
    let rows = rows(alloc, table)?;
    let columns = table.columns().copy()?;
    let name = name.copy()?;
    Ok(TableImage {
        name,
        version: table.version(),
        columns,
        next: table.next_number(),
        rows,
    })
}

// The values of each row, with its number.
fn rows(alloc: Global, table: &Table) -> Result<List<(u64, List<Value>)>, Memory>
    ensures { IfOk result (λ made. made ≡ map (λ r. (r.0, r.1.values)) table.now.rows) }
{
    let mut made = List::empty(alloc);
    for i in 0..table.len() {
        match table.at(i) {
            Some((number, row)) => put_row(&mut made, number, row)?,
            None => {}
        }
    }
    Ok(made)
}

// Puts the values of a row at the end, with its number.
fn put_row(made: &mut List<(u64, List<Value>)>, number: u64, row: &Row) -> Result<(), Memory>
    ensures { OnOk result (made.new ≡ made.old ++ (number, row.now.values) ∷ []) }
{
    let values = row.values.copy()?;
    made.push((number, values))?;
    Ok(())
}
