// A Finish, and the end of its branch.
ghost use Rattle.std.specs.Prelude.{◌≡◌, ◌≤◌, ◌+◌, length, Some, OnOk};
ghost use Rattle.std.specs.Result.{result_err};
ghost use Rattle.db_store.specs.Store.{CanEnd};
ghost use Rattle.dl_areas.specs.Lists.{AreReady};
ghost use Rattle.dl_areas.specs.Writing.{Does};
ghost use Rattle.dl_codec.specs.declared.links.BranchPhase.{BranchPhase as Phases};
ghost use Rattle.fm_manager.specs.Managed.{as_writes};
ghost use Rattle.fm_manager.specs.Pieces.{CanFinish, HaveRoom, IsDoubtful};
ghost use Rattle.meaning_areas.specs.Finishing.{finish_records};
ghost use Rattle.meaning_areas.specs.Lists.{folds_on};
ghost use Rattle.meaning_areas.specs.Stands.{kept_of};
ghost use Rattle.meaning_settling.specs.Settling.{Moved};
ghost use Rattle.sys_owners.specs.Owned.{folds_in, journals_of};

use crate::owners::Owners;
use dl_areas::calls_follow_one_another;
use dl_base::{AppendFault, Bench};
use fm_manager::Pieces;

/// Writes those records of a Finish that are not there yet, and that its branch has ended. The errors are `Full(Area)` where an area
/// has no room for the next record, and `Device`, after which the areas are to be opened again. It takes no memory.
pub fn finish<B: Bench>(
    owners: &mut Owners,
    bench: &mut B,
    pieces: Pieces,
) -> Result<(), AppendFault>
    requires ready { AreReady (journals_of owners.old) (B.outside bench.old) }
    requires fits { CanFinish owners.old.manager pieces }
    requires room { HaveRoom pieces owners.old.manager }
    requires end { CanEnd owners.old.store.rows pieces.tx }
    ensures folds { OnOk result ((moved : Moved) (phase : Phases) → IsDoubtful owners.old.manager pieces.tx moved phase → folds_on (Some (folds_in owners.old)) (finish_records pieces.tx phase moved (kept_of (folds_in owners.old))) ≡ Some (folds_in owners.new)) }
    ensures drawn { OnOk result (owners.new.store.drawn ≡ owners.old.store.drawn) }
    ensures commits { OnOk result (owners.old.store.spare ≤ owners.new.store.spare) }
    ensures copies { OnOk result (owners.old.manager.archive.spare ≤ owners.new.manager.archive.spare + length pieces.copies) }
    ensures backups { OnOk result (owners.new.backups ≡ owners.old.backups) }
    ensures does { (moved : Moved) (phase : Phases) → IsDoubtful owners.old.manager pieces.tx moved phase
        → Does (journals_of owners.old) (journals_of owners.new) (as_writes (finish_records pieces.tx phase moved (kept_of (folds_in owners.old)))) (result_err result) (B.outside bench.old) (B.outside bench.new) }
{
    calls_follow_one_another::<B>();
    let tx = pieces.tx();
    match owners.manager.finish(bench, pieces) {
        Ok(()) => owners.store.ended(bench, tx),
        Err(fault) => Err(fault),
    }
}
