// The lines that show rows, files and what a restore lost.
ghost use Rattle.std.specs.Prelude.{◌≡◌, ◌++◌, ◌∷◌, [], OnOk};
ghost use Rattle.std.specs.Fmt.{signed_decimal};
ghost use Rattle.std.specs.List.{flat_map};
ghost use Rattle.meaning_script.specs.Printed as meant;

use crate::words::{put_number, put_with, put_with_number};
use dl_base::{FileRow, List, Lost, Memory, Text, Value};

/// The cells of a row, with a bar between them.
pub fn put_row(into: &mut List<u8>, values: &[Value]) -> Result<(), Memory>
    ensures { OnOk result (into.new ≡ into.old ++ meant.row_text values.now) }
{
    match values.split_first() {
        Some((first, more)) => {
            put_cell(into, first)?;
            put_next_cells(into, more)
        }
        None => Ok(()),
    }
}

fn put_next_cells(into: &mut List<u8>, values: &[Value]) -> Result<(), Memory>
    ensures { OnOk result (into.new ≡ into.old ++ flat_map meant.next_cell values.now) }
{
    for value in values {
        put_next_cell(into, value)?;
    }
    Ok(())
}

fn put_next_cell(into: &mut List<u8>, value: &Value) -> Result<(), Memory>
    ensures { OnOk result (into.new ≡ into.old ++ meant.next_cell value.now) }
{
    into.extend(b" | ")?;
    put_cell(into, value)
}

fn put_cell(into: &mut List<u8>, value: &Value) -> Result<(), Memory>
    ensures { OnOk result (into.new ≡ into.old ++ meant.cell_text value.now) }
{
    match value {
        Value::Null => into.extend(b"NULL"),
        Value::Int(number) => put_integer(into, *number),
        Value::Text(text) => put_quoted(into, text),
        Value::Link(link) => {
            put_with(into, b"<", link.location.bytes())?;
            into.extend(b">")
        }
    }
}

fn put_integer(into: &mut List<u8>, number: i64) -> Result<(), Memory>
    ensures { OnOk result (into.new ≡ into.old ++ signed_decimal number) }
{
    let mut buffer = itoa::Buffer::new();
    into.extend(buffer.format(number).as_bytes())
}

// A text between quotes, with its own quotes written twice.
fn put_quoted(into: &mut List<u8>, text: &Text) -> Result<(), Memory>
    ensures { OnOk result (into.new ≡ into.old ++ 39 ∷ flat_map meant.quoted_byte text.now ++ 39 ∷ []) }
{
    into.extend(b"'")?;
    put_doubled(into, text.bytes())?;
    into.extend(b"'")
}

fn put_doubled(into: &mut List<u8>, text: &[u8]) -> Result<(), Memory>
    ensures { OnOk result (into.new ≡ into.old ++ flat_map meant.quoted_byte text.now) }
{
    for byte in text {
        put_quoted_byte(into, *byte)?;
    }
    Ok(())
}

fn put_quoted_byte(into: &mut List<u8>, byte: u8) -> Result<(), Memory>
    ensures { OnOk result (into.new ≡ into.old ++ meant.quoted_byte byte) }
{
    if byte == b'\'' {
        return into.extend(b"''");
    }
    into.push(byte)?;
    Ok(())
}

/// A file: its path, its owner, whether it may be written, and how many bytes it has.
pub fn put_file(into: &mut List<u8>, row: &FileRow) -> Result<(), Memory>
    ensures { OnOk result (into.new ≡ into.old ++ meant.file_text row.now) }
{
    into.extend(row.path.bytes())?;
    put_with(into, b" ", row.file.owner.name.bytes())?;
    into.extend(flag_word(row.file.owner.writable))?;
    put_number(into, row.file.bytes.len() as u64)
}

fn flag_word(is_writable: bool) -> &'static [u8]
    ensures { result.now ≡ meant.flag_word is_writable }
{
    if is_writable { b" on " } else { b" off " }
}

/// A datalink that is lost: its table, its row's number, its column and its path.
pub fn put_lost(into: &mut List<u8>, lost: &Lost) -> Result<(), Memory>
    ensures { OnOk result (into.new ≡ into.old ++ meant.lost_text lost.now) }
{
    put_with(into, b"lost ", lost.table.bytes())?;
    put_with_number(into, b" ", lost.row)?;
    put_with(into, b" ", lost.column.bytes())?;
    put_with(into, b" ", lost.path.bytes())
}
