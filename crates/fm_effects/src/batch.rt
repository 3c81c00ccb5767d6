// The changes of the files on a transaction's paths.
ghost use Rattle.std.specs.Prelude.{◌≡◌, ◌++◌, IfOk, OnOk};
ghost use Rattle.std.specs.BTreeMap.{IsOrdered};
ghost use Rattle.std.specs.Cmp.Lexicographic.{slice_cmp};
ghost use Rattle.std.specs.List.{filter_map};
ghost use Rattle.std.specs.Option.{option_to_list};
ghost use Rattle.std.specs.Ordering.{nat_cmp};
ghost use Rattle.fm_effects.specs.Changes.{change_at, filling};
ghost use Rattle.meaning_areas.specs.Finishing.{batch_changes};
ghost use Rattle.meaning_settling.specs.Settling.{Kept};

use crate::change::{given, taken};
use crate::sites::{Site, sites_of};
use crate::sources::Sources;
use dl_base::{FileChange, LinkRow, List, Memory, Path};
use fm_archive::Archive;
use fs_files::Files;
use meaning_settling::settling_path_by_path;
use std::alloc::Global;
use std::collections::BTreeMap;

/// The changes of the files on a transaction's paths, each path once, in the order of the paths' bytes; none where nothing differs. Takes
/// with RECOVERY YES are filled from the archive where `fill` says so, also from the copies that its own gives get. The error is want
/// of memory, and changes nothing. It costs n log n for n links, and the bytes of the files that are filled.
pub fn changes(
    alloc: Global,
    gives: &List<LinkRow>,
    takes: &List<LinkRow>,
    fill: bool,
    files: &Files,
    archive: &Archive,
) -> Result<List<FileChange>, Memory>
    ensures { IfOk result (λ made. (k : Kept) → k.files ≡ files.now.files → k.copies ≡ archive.now.copies → made ≡ batch_changes (record { gives = gives.now; takes = takes.now; fill = fill }) k) }
{
    settling_path_by_path();
    let sites = sites_of(alloc, gives, takes)?;
    let sources = Sources::of(alloc, gives, fill, files, archive)?;
    changes_at(alloc, &sites, &sources)
}

// The changes at these sites, in the order of the paths.
fn changes_at(
    alloc: Global,
    sites: &BTreeMap<Path, Site>,
    sources: &Sources<'_>,
) -> Result<List<FileChange>, Memory>
    ensures changes { IfOk result (λ made. made ≡ filter_map (change_at (filling sources.now) sources.now.files.now.files) sites.now.entries) }
    ensures ordered { IsOrdered (slice_cmp nat_cmp) sites.now }
{
    let mut made = List::empty(alloc);
    for (path, site) in sites.iter() {
        put_change(alloc, &mut made, sources, path, site)?;
    }
    Ok(made)
}

// The change at a site behind others, if there is one.
fn put_change(
    alloc: Global,
    made: &mut List<FileChange>,
    sources: &Sources<'_>,
    path: &Path,
    site: &Site,
) -> Result<(), Memory>
    ensures { OnOk result (made.new ≡ made.old ++ option_to_list (change_at (filling sources.now) sources.now.files.now.files (path.now, site.now))) }
{
    if let Some(change) = change_at(alloc, sources, path, site)? {
        made.push(change)?;
    }
    Ok(())
}

fn change_at(
    alloc: Global,
    sources: &Sources<'_>,
    path: &Path,
    site: &Site,
) -> Result<Option<FileChange>, Memory>
    ensures { IfOk result (λ made. made ≡ change_at (filling sources.now) sources.now.files.now.files (path.now, site.now)) }
{
    let file = sources.file(path);
    match site.take {
        Some(take) => taken(alloc, path, file, take.options, sources.filling(take)),
        None => match site.give {
            Some(unlink) => given(path, file, unlink),
            None => Ok(None),
        },
    }
}
