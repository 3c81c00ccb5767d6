// A run begins.
ghost use Rattle.std.specs.Prelude.{◌≡◌, ◌≤◌, ◌^◌, ℕ, Err, IfOk, Some};
ghost use Rattle.dl_areas.specs.Lists.{HasLists, Lists, puts};
ghost use Rattle.dl_areas.specs.Opening.{AreRead, IsInBegin, IsInOpening, journals_with};
ghost use Rattle.dl_areas.specs.Writing.{fitting, full_in};
ghost use Rattle.dl_base.specs.Outside.{AtEveryMoment, CrashState, FaultCounted, Now};
ghost use Rattle.dl_base.specs.declared.area.Area.{Area as Areas_};
ghost use Rattle.dl_base.specs.declared.fault.Full.{Full as Fulls};
ghost use Rattle.fm_manager.specs.Managed.{as_writes};
ghost use Rattle.meaning_areas.specs.Areas.{Areas, AreasStand, StandForNothing};
ghost use Rattle.meaning_areas.specs.Lists.{Folds};
ghost use Rattle.meaning_areas.specs.Stands.{Stored, stored_of};
ghost use Rattle.meaning_history.specs.Reached.{first_of};
ghost use Rattle.meaning_system.specs.Machine.{start};
ghost use Rattle.meaning_system.specs.Writes.{opening};
ghost use Rattle.sys_core.specs.Standing.{IsOf};
ghost use Rattle.sys_opening.specs.Begun.{AreFound, HasBegun, IsOfOpening};
ghost use Rattle.sys_owners.specs.Owned.{AreTold};

use dl_base::{Bench, Settings};
use fm_links::{Claims, claims_behind_stops};
use std::alloc::Global;
use sys_core::Engine;
use sys_opening::{OpenFault, begin};
use sys_seats::{Seats, seats_count_together};

/// Opens the five areas as `sys_opening::begin` does, and begins a run with what they stand for: no session has a transaction, and the
/// moment is that of the settings, as is the most bytes that the records and the closing gate of one area may be. The faults, and what
/// they leave, are those of `sys_opening::begin`. Over areas that stand for nothing no record is written, however it ends.
pub fn open<B: Bench>(alloc: Global, bench: &mut B, settings: Settings) -> Result<Engine, OpenFault>
    requires low { 1 ≤ settings.limit }
    requires high { settings.limit ≤ 2 ^ 63 }

    // The areas were opened, and the engine is in the state with which the machine begins over them.
    ensures begun { IfOk result (λ w. (lists : Lists) × (f : Folds) × HasBegun settings.limit lists f w.owners (B.outside bench.old) (B.outside bench.new) × IsOf (first_of (stored_of f)) w (start settings (stored_of f))) }

    ensures images { (lists : Lists) (f : Folds) → AreFound lists f (B.outside bench.old) → AtEveryMoment (IsInBegin settings.limit lists (as_writes (opening f)) (B.outside bench.old)) (B.outside bench.old) (B.outside bench.new) }
    ensures fronts { (lists : Lists) (f : Folds) → AreFound lists f (B.outside bench.old) → AtEveryMoment (IsOfOpening lists (opening f) (B.outside bench.old)) (B.outside bench.old) (B.outside bench.new) }
    ensures told { (B.outside bench.new).told ≡ (B.outside bench.old).told }
    ensures no_store { (area : Areas_) (place : ℕ) → result ≡ Err (OpenFault.NotAStore area place) → (x : Areas) → AreTold x (B.outside bench.old) → StandForNothing x (area, place) }
    ensures unwritten { (area : Areas_) (place : ℕ) → result ≡ Err (OpenFault.NotAStore area place) → AtEveryMoment (IsInOpening (B.outside bench.old)) (B.outside bench.old) (B.outside bench.new) }
    ensures unopened { (x : Areas) → AreTold x (B.outside bench.old) → ((s : Stored) → AreasStand x s → ⊥) → AtEveryMoment (IsInOpening (B.outside bench.old)) (B.outside bench.old) (B.outside bench.new) }
    ensures full { (full : Fulls) → result ≡ Err (OpenFault.Full full) → (lists : Lists) (f : Folds) → AreFound lists f (B.outside bench.old) → full_in (journals_with settings.limit lists) (as_writes (opening f)) ≡ Some full }
    ensures there { (full : Fulls) → result ≡ Err (OpenFault.Full full) → (lists : Lists) (f : Folds) → AreFound lists f (B.outside bench.old) → (p : CrashState) → Now (B.outside bench.new) p → HasLists (puts (fitting (journals_with settings.limit lists) (as_writes (opening f))) lists) p }
    ensures stands { (full : Fulls) → result ≡ Err (OpenFault.Full full) → (lists : Lists) → AreRead lists (B.outside bench.old) → (f : Folds) × AreFound lists f (B.outside bench.old) }
    ensures found { (full : Fulls) → result ≡ Err (OpenFault.Full full) → (x : Areas) → AreTold x (B.outside bench.old) → (lists : Lists) × (f : Folds) × AreFound lists f (B.outside bench.old) }
    ensures device { result ≡ Err OpenFault.Device → FaultCounted (B.outside bench.old) (B.outside bench.new) }
{
    claims_behind_stops();
    seats_count_together();
    match begin(alloc, bench, settings.limit) {
        Ok(owners) => Ok(Engine {
            alloc,
            owners,
            claims: Claims::empty(alloc),
            seats: Seats::empty(alloc),
            moment: settings.now,
            settings,
        }),
        Err(fault) => {
            drop(settings);
            Err(fault)
        }
    }
}
