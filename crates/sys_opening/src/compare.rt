// Whether the lists of the five areas fit each other.
ghost use Rattle.std.specs.Prelude.{◌≡◌, None, Ok, Some};
ghost use Rattle.dl_areas.specs.Lists.{Lists};
ghost use Rattle.dl_base.specs.declared.area.Area.{Area as Areas_};
ghost use Rattle.dl_base.specs.declared.area.Area.TheVariants as areas;
ghost use Rattle.compare_every.specs.Every.{IsEvery};
ghost use Rattle.meaning_areas.specs.Areas.{ComparesAt, IsUnlike};
ghost use Rattle.meaning_areas.specs.Stands.{IsStand, stored_of};
ghost use Rattle.sys_owners.specs.Owned.{AreFolded, folds_in};

use compare_every::EveryLink;
use compare_files::{archive_compares, backups_compare, files_compare};
use compare_links::links_compare;
use dl_base::{Area, Memory};
use meaning_areas::areas_stand_where_all_compares;
use std::alloc::Global;
use sys_owners::Owners;

/// The first area whose list does not fit those before it; none where all fit, and so stand for something together. The cost is that
/// of the comparisons: after each commit a look at the tables with links that it changed, n log n in what all branches give and take,
/// and the rows of the committed tables and of the backups. The error is want of memory.
pub fn compare(alloc: Global, owners: &Owners) -> Result<Option<Area>, Memory>
    requires { (lists : Lists) × AreFolded lists (folds_in owners.now) }
    ensures fits { result ≡ Ok None → IsStand (folds_in owners.now) (stored_of (folds_in owners.now)) }
    ensures unlike { (area : Areas_) → result ≡ Ok (Some area) → IsUnlike (folds_in owners.now) area }
{
    match links_compare(alloc, &owners.store, owners.manager.branches())? {
        Some(every) => compare_rest(alloc, owners, &every),
        None => Ok(Some(Area::Links)),
    }
}

// The first area behind Links whose list does not fit those before it, by the links of all commits.
fn compare_rest(alloc: Global, owners: &Owners, every: &EveryLink) -> Result<Option<Area>, Memory>
    requires links { ComparesAt (folds_in owners.now) areas.Links }
    requires every { IsEvery (folds_in owners.now).rows.commits every.now }
    ensures fits { result ≡ Ok None → IsStand (folds_in owners.now) (stored_of (folds_in owners.now)) }
    ensures unlike { (area : Areas_) → result ≡ Ok (Some area) → IsUnlike (folds_in owners.now) area }
{
    areas_stand_where_all_compares();
    let store = &owners.store;
    let branches = owners.manager.branches();
    let files = owners.manager.files();
    let archive = owners.manager.copies();
    if !files_compare(alloc, store, branches, files, archive)? {
        return Ok(Some(Area::Files));
    }
    if !archive_compares(alloc, store, branches, files, archive, every)? {
        return Ok(Some(Area::Archive));
    }
    if !backups_compare(alloc, store, &owners.backups)? {
        return Ok(Some(Area::Backups));
    }
    Ok(None)
}
