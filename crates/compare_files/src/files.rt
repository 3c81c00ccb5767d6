// Whether each committed link has a file.
ghost use Rattle.std.specs.Prelude.{◌≡◌, [], IfOk, is_some};
ghost use Rattle.std.specs.Bool.{Decides};
ghost use Rattle.std.specs.List.{list_all};
ghost use Rattle.compare_files.specs.Overlay.{file_at};
ghost use Rattle.dl_base.specs.declared.area.Area.TheVariants as areas;
ghost use Rattle.meaning_areas.specs.Areas.{ComparesAt};
ghost use Rattle.meaning_areas.specs.Commits.{tables_after};
ghost use Rattle.meaning_areas.specs.Lists.{Folds};
ghost use Rattle.meaning_tables.specs.Links.{links};

use crate::overlay::{Overlay, overlay_of};
use db_store::Store;
use dl_base::{LinkRow, List, Memory};
use fm_archive::Archive;
use fm_branch::Branches;
use fs_files::Files;
use sql_table::links;
use std::alloc::Global;

/// Whether each committed link has a file once the committed branches in doubt are settled: the comparison at the area Files, where
/// that at Links has come out well. The error is want of memory, and changes nothing. It costs the rows of the committed tables, and
/// a look-up for each link of theirs and of those branches.
pub fn files_compare(
    alloc: Global,
    store: &Store,
    branches: &Branches,
    files: &Files,
    archive: &Archive,
) -> Result<bool, Memory>
    ensures { IfOk result (λ fits. (f : Folds) → f.rows ≡ store.now.rows → f.links ≡ branches.now.links → f.files ≡ files.now.files → f.copies ≡ archive.now.copies → ComparesAt f areas.Links → Decides fits (ComparesAt f areas.Files)) }
{
    let settled = overlay_of(alloc, store, branches)?;
    let linked = committed_links(alloc, store)?;
    Ok(have_files(&linked, &settled, files, archive))
}

/// The links of the committed tables, in order. It costs their rows.
pub(crate) fn committed_links(alloc: Global, store: &Store) -> Result<List<LinkRow>, Memory>
    ensures { IfOk result (λ made. made ≡ links (tables_after [] store.now.rows.commits)) }
{
    let tables = store.committed().copy()?;
    links(alloc, &tables)
}

// Whether there is a file on the path of each link.
fn have_files(linked: &List<LinkRow>, settled: &Overlay, files: &Files, archive: &Archive) -> bool
    ensures { result ≡ list_all (λ l. is_some (file_at settled.now files.now.files archive.now.copies l.path)) linked.now }
{
    for row in linked.as_slice() {
        if settled.file(files, archive, &row.path).is_none() {
            return false;
        }
    }
    true
}
