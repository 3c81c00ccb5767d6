// The comparison at the area Links.
ghost use Rattle.std.specs.Prelude.{◌≡◌, ℕ, List, IfOk, Ok};
ghost use Rattle.compare_links.specs.Comparing.{ComparesTo};
ghost use Rattle.meaning_areas.specs.Areas.{branches_of, rows_of};
ghost use Rattle.meaning_areas.specs.Lists.{Folds};

use crate::apart::branches_are_apart;
use crate::branches::branches_fit;
use crate::commits::commits_fit;
use crate::held::held_fits;
use compare_every::EveryLink;
use db_store::Store;
use dl_base::Memory;
use fm_branch::Branches;
use meaning_areas::commits_have_what_they_moved;
use std::alloc::Global;

/// The links of all commits by their numbers, if the lists of Rows and Links fit each other: the branches of commits and what these
/// gave and took, the branches in doubt, the numbers of transactions, the paths and the numbers of links, and what is held after
/// settling; None exactly where they do not. The error is want of memory.
///
/// It costs, for each commit, its changes, the names of its tables, and for each link of the rows that it touched a logarithm, and a
/// look for its number in each table; no other link is met. Beside that it costs n log n in what branches give and take and in what is
/// held, and a look at each row of the last tables, once.
pub fn links_compare(
    alloc: Global,
    store: &Store,
    branches: &Branches,
) -> Result<Option<EveryLink>, Memory>
    requires rows { (bodies : List (List ℕ)) × (rows_of bodies ≡ Ok store.now.rows) }
    requires links { (bodies : List (List ℕ)) × (branches_of bodies ≡ Ok branches.now.links) }
    ensures { IfOk result (λ every. (f : Folds) → f.rows ≡ store.now.rows → f.links ≡ branches.now.links → ComparesTo f every) }
{
    commits_have_what_they_moved();
    if !branches_fit(store, branches)? {
        return Ok(None);
    }
    if !branches_are_apart(alloc, branches)? {
        return Ok(None);
    }
    match commits_fit(alloc, store, branches)? {
        Some(every) => {
            if !held_fits(alloc, store, branches)? {
                drop(every);
                return Ok(None);
            }
            Ok(Some(every))
        }
        None => Ok(None),
    }
}
