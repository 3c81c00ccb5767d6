// The archived copies that links given need.
ghost use Rattle.std.specs.Prelude.{◌≡◌, ◌++◌, IfOk, OnOk, map};
ghost use Rattle.std.specs.FinMap as maps;
ghost use Rattle.std.specs.Option.{option_to_list};
ghost use Rattle.dl_codec.specs.declared.archive.ArchiveRecord.TheVariants as records;
ghost use Rattle.fm_effects.specs.Copying.{copy_for};
ghost use Rattle.meaning_areas.specs.Finishing.{copy_records, file_copy};
ghost use Rattle.meaning_areas.specs.Lists.{in_archive};
ghost use Rattle.meaning_settling.specs.Settling.{Kept, Moved, link_key};

use crate::owners::original;
use dl_base::{Copied, File, LinkRow, List, Memory};
use fm_archive::{Archive, CopyMade, make};
use fs_files::Files;
use std::alloc::Global;

/// The copies that the links given need: of each with RECOVERY YES that has none, and whose path has a file, in their order. The error is
/// want of memory, or a file of 2^32 bytes or more, of which no record can be made; it changes nothing. It costs a look-up a link,
/// and the bytes of the files that are copied.
pub fn copies(
    alloc: Global,
    gives: &List<LinkRow>,
    files: &Files,
    archive: &Archive,
) -> Result<List<CopyMade>, Memory>
    ensures { IfOk result (λ made. (m : Moved) (k : Kept) → m.gives ≡ gives.now → k.files ≡ files.now.files → k.copies ≡ archive.now.copies → map (λ c. in_archive (records.Copy c)) made ≡ copy_records m k) }
{
    let mut made = List::empty(alloc);
    for row in gives.as_slice() {
        put_copy(alloc, &mut made, row, files, archive)?;
    }
    Ok(made)
}

// The copy of a link behind others, if it needs one.
fn put_copy(
    alloc: Global,
    made: &mut List<CopyMade>,
    row: &LinkRow,
    files: &Files,
    archive: &Archive,
) -> Result<(), Memory>
    ensures { OnOk result (made.new ≡ made.old ++ option_to_list (copy_for row.now (maps.get archive.now.copies (link_key row.now.link)) (maps.get files.now.files row.now.path))) }
{
    if let Some(copy) = copy_for(alloc, row, files, archive)? {
        made.push(copy)?;
    }
    Ok(())
}

fn copy_for(
    alloc: Global,
    row: &LinkRow,
    files: &Files,
    archive: &Archive,
) -> Result<Option<CopyMade>, Memory>
    ensures { IfOk result (λ made. made ≡ copy_for row.now (maps.get archive.now.copies (link_key row.now.link)) (maps.get files.now.files row.now.path)) }
{
    if !row.options.recovery || archive.copy(row.link).is_some() {
        return Ok(None);
    }
    match files.look(&row.path) {
        Some(file) => Ok(Some(copy_with(alloc, row, file)?)),
        None => Ok(None),
    }
}

// The copy of a link's file.
fn copy_with(alloc: Global, row: &LinkRow, file: &File) -> Result<CopyMade, Memory>
    ensures { IfOk result (λ made. made ≡ file_copy row.now file.now) }
{
    let owner = original(file).copy()?;
    let bytes = file.bytes.copy()?;
    make(alloc, row.link, owner, bytes)
}
