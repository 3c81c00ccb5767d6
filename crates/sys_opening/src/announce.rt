// The openings of Rows and of Links are announced.
ghost use Rattle.std.specs.Prelude.{◌≡◌, ◌+◌, ◌∷◌, [], OnOk};
ghost use Rattle.std.specs.Result.{result_err};
ghost use Rattle.dl_areas.specs.Lists.{AreReady};
ghost use Rattle.dl_areas.specs.Writing.{Does};
ghost use Rattle.dl_codec.specs.declared.links.LinksRecord.TheVariants as links_records;
ghost use Rattle.dl_codec.specs.declared.rows.RowsRecord.TheVariants as rows_records;
ghost use Rattle.fm_manager.specs.Managed.{as_writes};
ghost use Rattle.meaning_areas.specs.Lists.{in_links, in_rows};
ghost use Rattle.meaning_areas.specs.Moving.{with_links_opening, with_rows_opening};
ghost use Rattle.sys_owners.specs.Owned.{folds_in, journals_of};

use dl_areas::calls_follow_one_another;
use dl_base::{AppendFault, Bench};
use sys_owners::Owners;

/// Writes the next opening of Rows, and then that of Links. It takes no memory.
pub fn announce<B: Bench>(owners: &mut Owners, bench: &mut B) -> Result<(), AppendFault>
    requires { AreReady (journals_of owners.old) (B.outside bench.old) }
    ensures folds { OnOk result (folds_in owners.new ≡ with_links_opening (with_rows_opening (folds_in owners.old))) }
    ensures drawn { OnOk result (owners.new.store.drawn ≡ 0) }
    ensures does { Does (journals_of owners.old) (journals_of owners.new) (as_writes (in_rows (rows_records.Opening ((folds_in owners.old).rows.opening + 1)) ∷ in_links (links_records.Opening ((folds_in owners.old).links.opening + 1)) ∷ [])) (result_err result) (B.outside bench.old) (B.outside bench.new) }
{
    calls_follow_one_another::<B>();
    match owners.store.announce(bench) {
        Ok(()) => owners.manager.announce(bench),
        Err(fault) => Err(fault),
    }
}
