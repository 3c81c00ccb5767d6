// What is told of an answered line.
ghost use Rattle.std.specs.Prelude.{◌≡◌, ◌++◌, codes, decimal, IfOk, OnOk};
ghost use Rattle.std.specs.List.{flat_map};
ghost use Rattle.meaning_script.specs.Printed as meant;

use crate::cells::{put_file, put_lost, put_row};
use crate::refusals::put_refusal;
use crate::words::{put_number, put_two_numbers, put_with_number, put_with_transaction};
use dl_base::{Answer, FileRow, List, Lost, Memory, Name, Row, Text};
use std::alloc::Global;

/// What is told of the answer of line `number`, which counts from 1: `number: ` and the answer's words, then a line
/// `number| ..` for each further line of it. A session goes by its name, which is the one at its number, from 1, in `names`;
/// nothing stands for one that has none there.
#[tactic(auto, unfolding(meaning_script::specs::Printed::line_text))]
pub fn text(alloc: Global, number: u64, answer: &Answer, names: &List<Name>) -> Result<Text, Memory>
    ensures { IfOk result (λ text. text ≡ meant.line_text names.now number answer.now) }
{
    let mut text = List::empty(alloc);
    put_number(&mut text, number)?;
    text.extend(b": ")?;
    put_answer(&mut text, answer, names)?;
    text.extend(b"\n")?;
    put_further_lines(&mut text, number, answer)?;
    Ok(Text::from_vec(text.into_vec()))
}

fn put_answer(into: &mut List<u8>, answer: &Answer, names: &List<Name>) -> Result<(), Memory>
    ensures { OnOk result (into.new ≡ into.old ++ meant.answer_words names.now answer.now) }
{
    match answer {
        Answer::Done => into.extend(b"ok"),
        Answer::Begun(tx) => put_with_transaction(into, b"ok ", *tx),
        Answer::Changed(count) => put_with_number(into, b"ok ", *count),
        Answer::Rows(grid) => put_with_number(into, b"rows ", grid.rows.len() as u64),
        Answer::Committed(number) => put_with_number(into, b"ok commit ", *number),
        Answer::Bytes(bytes) => put_with_number(into, b"bytes ", bytes.len() as u64),
        Answer::Files(files) => put_with_number(into, b"ok files ", files.len() as u64),
        Answer::Archived(count) => put_with_number(into, b"ok archived ", *count),
        Answer::BackedUp(number) => put_with_number(into, b"ok backup ", *number),
        Answer::Restored(number, _) => put_with_number(into, b"ok commit ", *number),
        Answer::Resolved(finished, dropped) => {
            put_two_numbers(into, b"ok committed ", *finished, b" dropped ", *dropped)
        }
        Answer::Refused(why) => {
            into.extend(b"refused ")?;
            put_refusal(into, why, names)
        }
    }
}

fn put_further_lines(into: &mut List<u8>, number: u64, answer: &Answer) -> Result<(), Memory>
    ensures { OnOk result (into.new ≡ into.old ++ meant.further_lines number answer.now) }
{
    match answer {
        Answer::Rows(grid) => put_rows(into, number, grid.rows.as_slice()),
        Answer::Bytes(bytes) => put_bytes(into, number, bytes.bytes()),
        Answer::Files(files) => put_files(into, number, files.as_slice()),
        Answer::Restored(_, lost) => put_all_lost(into, number, lost.as_slice()),
        Answer::Done
        | Answer::Begun(_)
        | Answer::Changed(_)
        | Answer::Committed(_)
        | Answer::Archived(_)
        | Answer::BackedUp(_)
        | Answer::Resolved(_, _)
        | Answer::Refused(_) => Ok(()),
    }
}

// What a further line of line `number` begins with.
fn put_line_start(into: &mut List<u8>, number: u64) -> Result<(), Memory>
    ensures { OnOk result (into.new ≡ into.old ++ (decimal number ++ codes "| ")) }
{
    put_number(into, number)?;
    into.extend(b"| ")
}

fn put_rows(into: &mut List<u8>, number: u64, rows: &[Row]) -> Result<(), Memory>
    ensures { OnOk result (into.new ≡ into.old ++ flat_map (λ row. meant.further_line number (meant.row_text row.values)) rows.now) }
{
    for row in rows {
        put_row_line(into, number, row)?;
    }
    Ok(())
}

fn put_row_line(into: &mut List<u8>, number: u64, row: &Row) -> Result<(), Memory>
    ensures { OnOk result (into.new ≡ into.old ++ meant.further_line number (meant.row_text row.now.values)) }
{
    put_line_start(into, number)?;
    put_row(into, row.values.as_slice())?;
    into.extend(b"\n")
}

fn put_bytes(into: &mut List<u8>, number: u64, bytes: &[u8]) -> Result<(), Memory>
    ensures { OnOk result (into.new ≡ into.old ++ meant.further_line number bytes.now) }
{
    put_line_start(into, number)?;
    into.extend(bytes)?;
    into.extend(b"\n")
}

fn put_files(into: &mut List<u8>, number: u64, files: &[FileRow]) -> Result<(), Memory>
    ensures { OnOk result (into.new ≡ into.old ++ flat_map (λ row. meant.further_line number (meant.file_text row)) files.now) }
{
    for row in files {
        put_file_line(into, number, row)?;
    }
    Ok(())
}

fn put_file_line(into: &mut List<u8>, number: u64, row: &FileRow) -> Result<(), Memory>
    ensures { OnOk result (into.new ≡ into.old ++ meant.further_line number (meant.file_text row.now)) }
{
    put_line_start(into, number)?;
    put_file(into, row)?;
    into.extend(b"\n")
}

fn put_all_lost(into: &mut List<u8>, number: u64, lost: &[Lost]) -> Result<(), Memory>
    ensures { OnOk result (into.new ≡ into.old ++ flat_map (λ one. meant.further_line number (meant.lost_text one)) lost.now) }
{
    for one in lost {
        put_lost_line(into, number, one)?;
    }
    Ok(())
}

fn put_lost_line(into: &mut List<u8>, number: u64, lost: &Lost) -> Result<(), Memory>
    ensures { OnOk result (into.new ≡ into.old ++ meant.further_line number (meant.lost_text lost.now)) }
{
    put_line_start(into, number)?;
    put_lost(into, lost)?;
    into.extend(b"\n")
}
