// A system begins.
ghost use Rattle.std.specs.Prelude.{◌≡◌, ◌≤◌, ◌^◌, ℕ, Err, IfOk, Some, OnOk};
ghost use Rattle.std.specs.Result.{result_err};
ghost use Rattle.dl_areas.specs.Lists.{AreReady, HasLists, Lists, puts};
ghost use Rattle.dl_areas.specs.Opening.{AreRead, IsInBegin, IsInOpening, journals_with};
ghost use Rattle.dl_areas.specs.Writing.{fitting, full_in};
ghost use Rattle.dl_base.specs.Outside.{AtEveryMoment, CrashState, FaultCounted, Now};
ghost use Rattle.dl_base.specs.declared.area.Area.{Area as Areas_};
ghost use Rattle.dl_base.specs.declared.fault.Full.{Full as Fulls};
ghost use Rattle.fm_manager.specs.Managed.{as_writes};
ghost use Rattle.meaning_areas.specs.Areas.{Areas, AreasStand, StandForNothing};
ghost use Rattle.meaning_areas.specs.Lists.{Folds, folds_on};
ghost use Rattle.meaning_areas.specs.Stands.{IsStand, Stored, stored_of};
ghost use Rattle.meaning_history.specs.Reached.{HasPast};
ghost use Rattle.meaning_system.specs.Writes.{opening};
ghost use Rattle.sys_opening.specs.Begun.{AreFound, HasBegun, IsOfOpening};
ghost use Rattle.sys_opening.specs.Halting.{Halts, Tries};
ghost use Rattle.sys_owners.specs.Owned.{AreTold, folds_in, journals_of};

use crate::announce::announce;
use crate::compare::compare;
use crate::fault::OpenFault;
use crate::opening::open_all;
use crate::resolving::resolve;
use dl_areas::{
    an_opening_writes_its_records, calls_follow_one_another, open_areas_have_their_lists,
};
use dl_base::{Bench, Memory};
use meaning_areas::openings_ends_and_copies_are_taken;
use meaning_history::what_lists_stand_for_has_a_past;
use meaning_opening::{
    an_opening_goes_by_its_present_lists, an_opening_leads_to_the_start, an_opening_may_be_stopped,
};
use std::alloc::Global;
use sys_owners::Owners;

/// Opens the five areas, compares them, writes the next openings of Rows and Links, and settles or drops the branches in doubt. The
/// limit is the most bytes that the records and the closing gate of one area may be. It costs the records of all areas, what
/// `compare` costs, and what becomes of the branches in doubt.
/// `NotAStore` has the first area that is no list or whose fold refuses a record, and the place, from 0, of that one's gate; or the
/// first whose list does not fit the others, and the bytes of its records and closing gate. Over such areas nothing of the opening is
/// written, also where it ends at `Device` or for want of memory.
/// `Full` has the first record of the opening that has no number or no room. An opening may be stopped at any moment, and end at
/// `Device` or for want of memory between two of its records: the next one goes on from there.
pub fn begin<B: Bench>(alloc: Global, bench: &mut B, limit: u64) -> Result<Owners, OpenFault>
    requires low { 1 ≤ limit }
    requires high { limit ≤ 2 ^ 63 }

    // The system has begun over the lists that were read.
    ensures begun { IfOk result (λ w. (lists : Lists) × (f : Folds) × HasBegun limit lists f w (B.outside bench.old) (B.outside bench.new)) }

    // However it ends, each moment before its records has images of before, and each one behind them the lists with a prefix of the
    // records that fit.
    ensures images { (lists : Lists) (f : Folds) → AreFound lists f (B.outside bench.old) → AtEveryMoment (IsInBegin limit lists (as_writes (opening f)) (B.outside bench.old)) (B.outside bench.old) (B.outside bench.new) }
    // Those that are there have spellings, so they are read again as what they were.
    ensures fronts { (lists : Lists) (f : Folds) → AreFound lists f (B.outside bench.old) → AtEveryMoment (IsOfOpening lists (opening f) (B.outside bench.old)) (B.outside bench.old) (B.outside bench.new) }
    ensures told { (B.outside bench.new).told ≡ (B.outside bench.old).told }

    // The areas stand for nothing, and nothing is written.
    ensures no_store { (area : Areas_) (place : ℕ) → result ≡ Err (OpenFault.NotAStore area place) → (x : Areas) → AreTold x (B.outside bench.old) → StandForNothing x (area, place) }
    ensures unwritten { (area : Areas_) (place : ℕ) → result ≡ Err (OpenFault.NotAStore area place) → AtEveryMoment (IsInOpening (B.outside bench.old)) (B.outside bench.old) (B.outside bench.new) }

    // Where the areas stand for nothing, no record of the opening is written, however it ends.
    ensures unopened { (x : Areas) → AreTold x (B.outside bench.old) → ((s : Stored) → AreasStand x s → ⊥) → AtEveryMoment (IsInOpening (B.outside bench.old)) (B.outside bench.old) (B.outside bench.new) }

    // It is full at the first record of the opening that does not fit, and a crash leaves those before it.
    ensures full { (full : Fulls) → result ≡ Err (OpenFault.Full full) → (lists : Lists) (f : Folds) → AreFound lists f (B.outside bench.old) → full_in (journals_with limit lists) (as_writes (opening f)) ≡ Some full }
    ensures there { (full : Fulls) → result ≡ Err (OpenFault.Full full) → (lists : Lists) (f : Folds) → AreFound lists f (B.outside bench.old) → (p : CrashState) → Now (B.outside bench.new) p → HasLists (puts (fitting (journals_with limit lists) (as_writes (opening f))) lists) p }
    ensures stands { (full : Fulls) → result ≡ Err (OpenFault.Full full) → (lists : Lists) → AreRead lists (B.outside bench.old) → (f : Folds) × AreFound lists f (B.outside bench.old) }
    ensures found { (full : Fulls) → result ≡ Err (OpenFault.Full full) → (x : Areas) → AreTold x (B.outside bench.old) → (lists : Lists) × (f : Folds) × AreFound lists f (B.outside bench.old) }
    ensures device { result ≡ Err OpenFault.Device → FaultCounted (B.outside bench.old) (B.outside bench.new) }
{
    what_lists_stand_for_has_a_past();
    an_opening_leads_to_the_start();
    open_areas_have_their_lists::<B>();
    an_opening_writes_its_records::<B>();
    let mut owners = open_all(alloc, bench, limit)?;
    match compare(alloc, &owners) {
        Ok(None) => {}
        Ok(Some(area)) => {
            let place = owners.length(area);
            drop(owners);
            return Err(OpenFault::NotAStore(area, place));
        }
        Err(Memory) => {
            drop(owners);
            return Err(OpenFault::Memory);
        }
    }
    match write_all(&mut owners, bench) {
        Ok(()) => Ok(owners),
        Err(fault) => {
            drop(owners);
            Err(fault)
        }
    }
}

// Writes the records of the opening.
fn write_all<B: Bench>(owners: &mut Owners, bench: &mut B) -> Result<(), OpenFault>
    requires ready { AreReady (journals_of owners.old) (B.outside bench.old) }
    requires stand { IsStand (folds_in owners.old) (stored_of (folds_in owners.old)) }
    requires past { HasPast (stored_of (folds_in owners.old)) }
    ensures leads { OnOk result (folds_on (Some (folds_in owners.old)) (opening (folds_in owners.old)) ≡ Some (folds_in owners.new)) }
    ensures drawn { OnOk result (owners.new.store.drawn ≡ 0) }
    ensures halts { Halts (journals_of owners.old) (journals_of owners.new) (as_writes (opening (folds_in owners.old))) (result_err result) (B.outside bench.old) (B.outside bench.new) }
    ensures tries { Tries (journals_of owners.old) (journals_of owners.new) (opening (folds_in owners.old)) (result_err result) (B.outside bench.old) (B.outside bench.new) }
{
    openings_ends_and_copies_are_taken();
    an_opening_leads_to_the_start();
    an_opening_goes_by_its_present_lists();
    an_opening_may_be_stopped();
    calls_follow_one_another::<B>();
    match announce(owners, bench) {
        Ok(()) => resolve(owners, bench),
        Err(fault) => Err(OpenFault::from(fault)),
    }
}
