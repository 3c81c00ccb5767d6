// The fold of the area Rows.
ghost use Rattle.std.specs.Prelude.{◌≡◌, ◌≢◌, ◌<◌, ◌^◌, ℕ, Ok, Err, IfOk, OnErr, length};
ghost use Rattle.std.specs.Bool.{then_some};
ghost use Rattle.dl_journal.specs.Records.{size};
ghost use Rattle.meaning_areas.specs.Areas.{rows_body, rows_of};

use crate::history::History;
use dl_base::{BeginFault, List, Memory, Text};
use dl_codec::{RowsRecord, get_rows_record};
use std::alloc::Global;

// Takes one more record, and says whether the fold takes it.
fn take_record(alloc: Global, history: &mut History, body: Text) -> Result<bool, Memory>
    ensures { IfOk result (λ taken. rows_body history.old body ≡ then_some taken history.new) }
{
    match get_rows_record(alloc, body.bytes())? {
        Some(RowsRecord::Opening(number)) => Ok(history.opens(number)),
        Some(RowsRecord::Commit(tx, number, branch, changes)) => {
            history.commits(alloc, tx, number, branch, &changes, body)
        }
        Some(RowsRecord::Ended(tx)) => Ok(history.ends(tx)),
        None => Ok(false),
    }
}

/// What a list of bodies stands for, or the place of the first record that the fold refuses. Those of commits are kept. No bodies take
/// no memory.
pub fn fold(alloc: Global, bodies: List<Text>) -> Result<History, BeginFault>
    requires { size bodies < 2 ^ 63 }
    ensures rows { IfOk result (λ history. rows_of bodies ≡ Ok history) }
    ensures refused { (place : ℕ) → result ≡ Err (BeginFault.NotAJournal place) → rows_of bodies ≡ Err place }
    ensures some { OnErr result (0 < length bodies) }
    ensures no_device { result ≢ Err BeginFault.Device }
{
    let mut history = History::empty(alloc);
    let mut place: u64 = 0;
    for body in bodies.into_vec() {
        let len = body.len() as u64;
        match take_record(alloc, &mut history, body) {
            Ok(true) => place += 9 + len,
            Ok(false) => {
                drop(history);
                return Err(BeginFault::NotAJournal(place));
            }
            Err(Memory) => {
                drop(history);
                return Err(BeginFault::Memory);
            }
        }
    }
    Ok(history)
}
