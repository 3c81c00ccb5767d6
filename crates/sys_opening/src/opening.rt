// The opening of the five areas.
ghost use Rattle.std.specs.Prelude.{◌≡◌, ◌≢◌, ◌≤◌, ◌^◌, ℕ, Ok, Err, IfOk};
ghost use Rattle.dl_areas.specs.Lists.{Lists};
ghost use Rattle.dl_areas.specs.Opening.{AreOpened, Opens};
ghost use Rattle.dl_base.specs.Outside.{FaultCounted};
ghost use Rattle.dl_base.specs.declared.area.Area.{Area as Areas_};
ghost use Rattle.dl_base.specs.declared.fault.Full.{Full as Fulls};
ghost use Rattle.meaning_areas.specs.Areas.{Areas, folds_of};
ghost use Rattle.sys_owners.specs.Owned.{AreFolded, AreTold, folds_in, journals_of};

use crate::fault::{OpenFault, open_fault};
use bk_backup::Backups;
use db_store::Store;
use dl_areas::{areas_are_opened_in_order, open_areas_have_their_lists};
use dl_base::{Area, Bench};
use fm_archive::Archive;
use fm_branch::Branches;
use fm_manager::Manager;
use fs_files::Files;
use std::alloc::Global;
use sys_owners::Owners;

/// Opens the five areas, in order. The limit is the most bytes that the records and the closing gate of one may be. `NotAStore` has
/// the first area that is no list, or whose fold refuses a record, and the place of that one's gate.
pub fn open_all<B: Bench>(alloc: Global, bench: &mut B, limit: u64) -> Result<Owners, OpenFault>
    requires low { 1 ≤ limit }
    requires high { limit ≤ 2 ^ 63 }
    ensures opens { Opens 5 (B.outside bench.old) (B.outside bench.new) }
    ensures opened { IfOk result (λ w. (lists : Lists) × AreOpened 5 limit (journals_of w) lists (B.outside bench.old) (B.outside bench.new) × AreFolded lists (folds_in w)) }
    ensures no_store { (area : Areas_) (place : ℕ) → result ≡ Err (OpenFault.NotAStore area place) → (x : Areas) → AreTold x (B.outside bench.old) → folds_of x ≡ Err (area, place) }
    ensures no_full { (full : Fulls) → result ≢ Err (OpenFault.Full full) }
    ensures device { result ≡ Err OpenFault.Device → FaultCounted (B.outside bench.old) (B.outside bench.new) }
{
    areas_are_opened_in_order::<B>();
    open_areas_have_their_lists::<B>();
    let store = match Store::begin(alloc, bench, limit) {
        Ok(store) => store,
        Err(fault) => return Err(open_fault(Area::Rows, fault)),
    };
    let branches = match Branches::begin(alloc, bench, limit) {
        Ok(branches) => branches,
        Err(fault) => {
            drop(store);
            return Err(open_fault(Area::Links, fault));
        }
    };
    let files = match Files::begin(alloc, bench, limit) {
        Ok(files) => files,
        Err(fault) => {
            drop(branches);
            drop(store);
            return Err(open_fault(Area::Files, fault));
        }
    };
    let archive = match Archive::begin(alloc, bench, limit) {
        Ok(archive) => archive,
        Err(fault) => {
            drop(files);
            drop(branches);
            drop(store);
            return Err(open_fault(Area::Archive, fault));
        }
    };
    let backups = match Backups::begin(alloc, bench, limit) {
        Ok(backups) => backups,
        Err(fault) => {
            drop(archive);
            drop(files);
            drop(branches);
            drop(store);
            return Err(open_fault(Area::Backups, fault));
        }
    };
    let manager = Manager::new(alloc, branches, files, archive);
    Ok(Owners {
        store,
        manager,
        backups,
    })
}
