// What becomes of held links when a branch is done.
ghost use Rattle.std.specs.Prelude.{◌≡◌, OnOk, true};
ghost use Rattle.std.specs.FinMap as maps;
ghost use Rattle.fm_branch.specs.Held.{HasPlacesOf, KeepsPlaces, have_places, held_by_branch, held_in, with_links, without_links};
ghost use Rattle.fm_branch.specs.Linked.{HavePlaces};
ghost use Rattle.meaning_settling.specs.Keyed.{over};
ghost use Rattle.meaning_settling.specs.Settling.{held_after, paths_of};

use crate::entry::Entry;
use crate::held::HeldLinks;
use crate::table::BranchTable;
use dl_base::{LinkRow, List, Memory};

/// Makes places at the paths that a branch takes; the links stay.
pub fn make_places(held: &mut HeldLinks, entry: &Entry) -> Result<(), Memory>
    ensures made { OnOk result (have_places held.new entry.now.moved.takes ≡ true) }
    ensures held { held_in held.new ≡ held_in held.old }
    ensures places { KeepsPlaces held.old held.new }
{
    for link in entry.takes.as_slice() {
        held.make_place(&link.path)?;
    }
    Ok(())
}

/// Moves the links of the branch of a transaction, if there is one. It takes no memory.
pub fn settle(held: &mut HeldLinks, table: &BranchTable, tx: u64)
    requires { HavePlaces table.now.table held.old }
    ensures held { held_in held.new ≡ held_by_branch (maps.get table.now.table tx) (held_in held.old) }
    ensures places { HasPlacesOf held.new held.old }
{
    if let Some(entry) = table.get(tx) {
        move_links(held, entry);
    }
}

// Links that a branch gives are held no more, and those that it takes are.
fn move_links(held: &mut HeldLinks, entry: &Entry)
    requires { have_places held.old entry.now.moved.takes ≡ true }
    ensures held { held_in held.new ≡ over (paths_of entry.now.moved) (held_after entry.now.moved) (held_in held.old) }
    ensures places { HasPlacesOf held.new held.old }
{
    give_all(held, &entry.gives);
    take_all(held, &entry.takes);
}

fn give_all(held: &mut HeldLinks, gives: &List<LinkRow>)
    ensures held { held_in held.new ≡ without_links gives.now (held_in held.old) }
    ensures places { HasPlacesOf held.new held.old }
{
    for link in gives.as_slice() {
        held.give(&link.path);
    }
}

// From the last to the first, so that of two on one path the first stays.
fn take_all(held: &mut HeldLinks, takes: &List<LinkRow>)
    requires { have_places held.old takes.now ≡ true }
    ensures held { held_in held.new ≡ with_links takes.now (held_in held.old) }
    ensures places { HasPlacesOf held.new held.old }
{
    let links = takes.as_slice();
    for i in 0..links.len() {
        let link = &links[links.len() - 1 - i];
        held.take(link);
    }
}
