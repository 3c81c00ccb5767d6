// What is in the way of a restore.
ghost use Rattle.std.specs.Prelude.{◌≡◌, ◌&&◌, ◌||◌, ℕ, List, IfOk, OnOk, not};
ghost use Rattle.std.specs.BTreeSet.{contains};
ghost use Rattle.std.specs.Cmp.Lexicographic.{slice_cmp};
ghost use Rattle.std.specs.FinMap as maps;
ghost use Rattle.std.specs.List.{list_any};
ghost use Rattle.std.specs.Option.{option_copied, option_map};
ghost use Rattle.std.specs.Ordering.{nat_cmp};
ghost use Rattle.meaning_areas.specs.Copies.{copy_of};
ghost use Rattle.meaning_merge.specs.Restoring as restoring;
ghost use Rattle.meaning_settling.specs.Keyed.{is_at};
ghost use Rattle.meaning_settling.specs.Settling.{link_key};

use dl_base::{Copied, File, LinkRow, List, Memory, Path};
use dl_codec::FileCopy;
use fm_archive::Archive;
use fs_files::Files;
use std::alloc::Global;
use std::collections::BTreeSet;

/// The path of the first link that is taken with RECOVERY YES at which a file with other bytes than the archived ones stands, unless a
/// link given with RECOVERY YES has the path; None where there is none. The error is want of memory. It costs n log n for n links, and
/// the bytes that are compared.
pub fn in_the_way(
    alloc: Global,
    files: &Files,
    archive: &Archive,
    gives: &List<LinkRow>,
    takes: &List<LinkRow>,
) -> Result<Option<Path>, Memory>
    ensures { IfOk result (λ way. way ≡ restoring.in_the_way files.now.files archive.now.copies gives.now takes.now) }
{
    let given = given_paths(alloc, gives)?;
    for take in takes.as_slice() {
        if is_in_the_way(files, archive, &given, take) {
            return Ok(Some(take.path.copy()?));
        }
    }
    Ok(None)
}

fn is_in_the_way(files: &Files, archive: &Archive, given: &BTreeSet<Path>, take: &LinkRow) -> bool
    ensures { result ≡ (take.now.options.recovery && restoring.other_bytes (maps.get files.now.files take.now.path) (maps.get archive.now.copies (link_key take.now.link)) && not (contains (slice_cmp nat_cmp) given.now take.now.path)) }
{
    take.options.recovery
        && other_bytes(files.look(&take.path), archive.copy(take.link))
        && !given.contains(&take.path)
}

fn other_bytes(file: Option<&File>, copy: Option<&FileCopy>) -> bool
    ensures { result ≡ restoring.other_bytes (option_copied file.entry) (option_map copy_of (option_copied copy.entry)) }
{
    match (file, copy) {
        (Some(file), Some(copy)) => file.bytes.bytes() != copy.bytes.bytes(),
        (Some(_), None) => false,
        (None, _) => false,
    }
}

// The paths of the links that are given with RECOVERY YES.
fn given_paths(alloc: Global, gives: &List<LinkRow>) -> Result<BTreeSet<Path>, Memory>
    ensures { IfOk result (λ made. (q : List ℕ) → contains (slice_cmp nat_cmp) made q ≡ list_any (λ g. g.options.recovery && is_at q g.path) gives.now) }
{
    let mut made = BTreeSet::new(alloc);
    for give in gives.as_slice() {
        put_path(&mut made, give)?;
    }
    Ok(made)
}

fn put_path(made: &mut BTreeSet<Path>, give: &LinkRow) -> Result<(), Memory>
    ensures { OnOk result ((q : List ℕ) → contains (slice_cmp nat_cmp) made.new q ≡ ((give.now.options.recovery && is_at q give.now.path) || contains (slice_cmp nat_cmp) made.old q)) }
{
    if !give.options.recovery {
        return Ok(());
    }
    made.insert(give.path.copy()?)?;
    Ok(())
}
