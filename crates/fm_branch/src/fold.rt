// The fold of the area Links.
ghost use Rattle.std.specs.Prelude.{◌≡◌, ◌≢◌, ◌<◌, ◌++◌, ◌^◌, ℕ, Ok, Err, IfOk, OnErr, length, true};
ghost use Rattle.std.specs.Bool.{then_some};
ghost use Rattle.dl_codec.specs.Layout.{whole};
ghost use Rattle.dl_codec.specs.Links.{links_record};
ghost use Rattle.dl_journal.specs.Records.{size};
ghost use Rattle.fm_branch.specs.Linked.{prepared_by, prepared_in};
ghost use Rattle.meaning_areas.specs.Areas.{branches_of, links_body};

use crate::history::History;
use dl_base::{BeginFault, List, Memory, Text};
use dl_codec::{LinksRecord, get_links_record};
use std::alloc::Global;

// Takes one more record, and says whether the fold takes it.
fn take_record(alloc: Global, history: &mut History, body: &[u8]) -> Result<bool, Memory>
    ensures links { IfOk result (λ taken. links_body history.old.links body.now ≡ then_some taken history.new.links) }
    ensures prepared { IfOk result (λ taken. taken ≡ true → history.new.prepared ≡ history.old.prepared ++ prepared_by (whole links_record body.now)) }
{
    match get_links_record(alloc, body)? {
        Some(LinksRecord::Opening(number)) => Ok(history.opens(number)),
        Some(LinksRecord::Prepared(tx, gives, takes)) => history.prepares(alloc, tx, gives, takes),
        Some(LinksRecord::Committed(tx)) => Ok(history.commits(tx)),
        Some(LinksRecord::Done(tx)) => Ok(history.ends(tx)),
        Some(LinksRecord::Aborted(tx)) => Ok(history.aborts(tx)),
        None => Ok(false),
    }
}

/// What a list of bodies stands for, or the place of the first record that the fold refuses. No bodies take no memory.
pub fn fold(alloc: Global, bodies: &List<Text>) -> Result<History, BeginFault>
    requires { size bodies.now < 2 ^ 63 }
    ensures links { IfOk result (λ history. branches_of bodies.now ≡ Ok history.links) }
    ensures prepared { IfOk result (λ history. prepared_in bodies.now ≡ history.prepared) }
    ensures refused { (place : ℕ) → result ≡ Err (BeginFault.NotAJournal place) → branches_of bodies.now ≡ Err place }
    ensures some { OnErr result (0 < length bodies.now) }
    ensures no_device { result ≢ Err BeginFault.Device }
{
    let mut history = History::empty(alloc);
    let mut place: u64 = 0;
    for body in bodies.as_slice() {
        match take_record(alloc, &mut history, body.bytes()) {
            Ok(true) => place += 9 + body.len() as u64,
            Ok(false) => {
                drop(history);
                return Err(BeginFault::NotAJournal(place));
            }
            Err(Memory) => {
                drop(history);
                return Err(BeginFault::Memory);
            }
        }
    }
    Ok(history)
}
