// The tables of the record of a backup.
ghost use Rattle.std.specs.Prelude.{◌≡◌, ◌&&◌, true, IfOk, map, nat_lt};
ghost use Rattle.std.specs.Bool.{then_some};
ghost use Rattle.std.specs.List.{list_all};
ghost use Rattle.bk_backup.specs.Images.{can_put, tables_and, tables_of_images};
ghost use Rattle.meaning_areas.specs.Commits.{rising};
ghost use Rattle.meaning_areas.specs.Copies.{image_stands, table_of_image};

use dl_base::{List, Memory, Name, Row, Value};
use dl_codec::TableImage;
use sql_table::{RoomyTables, Table, Tables};
use std::alloc::Global;

/// The tables of some images; None where the row numbers of one do not rise or are not below its next one, or two have one name.
pub fn tables_of(alloc: Global, images: List<TableImage>) -> Result<Option<Tables>, Memory>
    ensures { IfOk result (λ tables. tables ≡ tables_of_images images) }
{
    let mut tables = RoomyTables::of(Tables::empty(alloc));
    for image in images.into_vec() {
        if !put_image(&mut tables, image)? {
            return Ok(None);
        }
    }
    Ok(Some(tables.into_tables()))
}

// Puts the table of an image behind the others, and says whether it can be there.
fn put_image(tables: &mut RoomyTables, image: TableImage) -> Result<bool, Memory>
    ensures { IfOk result (λ put. tables_and tables.old.tables image ≡ then_some put tables.new.tables) }
{
    if !can_put(tables, &image) {
        return Ok(false);
    }
    tables.make_room(1)?;
    let (name, table) = table_of(image)?;
    tables.add(name, table);
    Ok(true)
}

// Whether an image stands, and no table has its name. It takes no memory.
fn can_put(tables: &RoomyTables, image: &TableImage) -> bool
    ensures { result ≡ can_put tables.now.tables image.now }
{
    tables.table(&image.name).is_none() && rows_stand(image.next, &image.rows)
}

// Whether row numbers rise and are below the next one.
fn rows_stand(next: u64, rows: &List<(u64, List<Value>)>) -> bool
    ensures { result ≡ (rising 0 (map (λ r. r.0) rows.now) && list_all (λ r. nat_lt r.0 next) rows.now) }
{
    let mut least: u64 = 0;
    for row in rows.as_slice() {
        if row.0 < least {
            return false;
        }
        if row.0 >= next {
            return false;
        }
        least = row.0 + 1;
    }
    true
}

// The table of an image, with its name.
fn table_of(image: TableImage) -> Result<(Name, Table), Memory>
    requires { image_stands image ≡ true }
    ensures { IfOk result (λ made. made ≡ table_of_image image) }
{
    let TableImage {
        name,
        version,
        columns,
        next,
        rows,
    } = image;
    let rows = rows_of(rows)?;
    let table = Table::with_rows(version, columns, next, rows)?;
    Ok((name, table))
}

fn rows_of(values: List<(u64, List<Value>)>) -> Result<List<(u64, Row)>, Memory>
    ensures { IfOk result (λ rows. rows ≡ map (λ r. (r.0, record { values = r.1 })) values) }
{
    let mut rows = List::empty(values.allocator());
    for (number, values) in values.into_vec() {
        rows.push((number, Row { values }))?;
    }
    Ok(rows)
}
