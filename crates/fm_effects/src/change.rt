// The change of the file on one path.
ghost use Rattle.std.specs.Prelude.{◌≡◌, Some, None, IfOk};
ghost use Rattle.std.specs.Option.{option_copied, option_map};
ghost use Rattle.fm_effects.specs.Owners.{copy_seen, file_with};
ghost use Rattle.meaning_areas.specs.Finishing.{change_to};
ghost use Rattle.meaning_settling.specs.Settling.{copy_of, filled, given_back, taken_over};

use crate::owners::{FileOwners, freed, has_owners, original, taken_owners};
use dl_base::{Copied, File, FileChange, FileRow, Memory, OnUnlink, Options, Owner, Path, Text};
use std::alloc::Global;

/// A copy of a file, lent: the owner that the file had before it was linked, and its bytes.
#[derive(Clone, Copy)]
pub struct CopyLent<'a> {
    pub owner: &'a Owner,
    pub bytes: &'a Text,
}

/// What is archived of a file. It takes no memory.
pub fn copy_of(file: &File) -> CopyLent<'_>
    ensures { copy_seen result ≡ copy_of file.now }
{
    CopyLent {
        owner: original(file),
        bytes: &file.bytes,
    }
}

/// The change of the file on the path of a link that is taken, where it is filled from this copy, if there is one.
pub fn taken(
    alloc: Global,
    path: &Path,
    file: Option<&File>,
    options: Options,
    copy: Option<CopyLent<'_>>,
) -> Result<Option<FileChange>, Memory>
    ensures { IfOk result (λ made. made ≡ change_to path.now (option_copied file.entry) (taken_over options.write options.read (filled (option_map copy_seen copy.entry) (option_copied file.entry)))) }
{
    match (file, copy) {
        (Some(file), Some(copy)) => {
            let owners = taken_owners(alloc, options, original(file))?;
            filled(path, file, owners, copy.bytes)
        }
        (Some(file), None) => {
            let owners = taken_owners(alloc, options, original(file))?;
            with_owners(path, file, owners)
        }
        (None, Some(copy)) => {
            let owners = taken_owners(alloc, options, copy.owner)?;
            put(path, owners, copy.bytes)
        }
        (None, None) => Ok(None),
    }
}

/// The change of the file on the path of a link that is given and not taken.
pub fn given(
    path: &Path,
    file: Option<&File>,
    unlink: OnUnlink,
) -> Result<Option<FileChange>, Memory>
    ensures { IfOk result (λ made. made ≡ change_to path.now (option_copied file.entry) (given_back unlink (option_copied file.entry))) }
{
    match file {
        Some(file) => given_back(path, file, unlink),
        None => Ok(None),
    }
}

fn given_back(path: &Path, file: &File, unlink: OnUnlink) -> Result<Option<FileChange>, Memory>
    ensures { IfOk result (λ made. made ≡ change_to path.now (Some file.now) (given_back unlink (Some file.now))) }
{
    match unlink {
        OnUnlink::Nothing => Ok(None),
        OnUnlink::Restore => with_owners(path, file, freed(original(file))?),
        OnUnlink::Delete => Ok(Some(FileChange::Removed(path.copy()?))),
    }
}

// The change to these owners and bytes.
fn filled(
    path: &Path,
    file: &File,
    owners: FileOwners,
    bytes: &Text,
) -> Result<Option<FileChange>, Memory>
    ensures { IfOk result (λ made. made ≡ change_to path.now (Some file.now) (Some (file_with owners bytes.now))) }
{
    if file.bytes.bytes() == bytes.bytes() {
        with_owners(path, file, owners)
    } else {
        put(path, owners, bytes)
    }
}

// The change to these owners, where the bytes stay.
fn with_owners(path: &Path, file: &File, owners: FileOwners) -> Result<Option<FileChange>, Memory>
    ensures { IfOk result (λ made. made ≡ change_to path.now (Some file.now) (Some (file_with owners file.now.bytes))) }
{
    if has_owners(file, &owners) {
        return Ok(None);
    }
    kept(path, owners)
}

fn kept(path: &Path, owners: FileOwners) -> Result<Option<FileChange>, Memory>
    ensures { IfOk result (λ made. made ≡ Some (FileChange.Kept path.now owners.owner owners.before)) }
{
    let path = path.copy()?;
    let FileOwners { owner, before } = owners;
    Ok(Some(FileChange::Kept(path, owner, before)))
}

fn put(path: &Path, owners: FileOwners, bytes: &Text) -> Result<Option<FileChange>, Memory>
    ensures { IfOk result (λ made. made ≡ Some (FileChange.Put (record { path = path.now; file = file_with owners bytes.now }))) }
{
    let path = path.copy()?;
    let bytes = bytes.copy()?;
    let FileOwners { owner, before } = owners;
    let file = File {
        owner,
        bytes,
        before,
    };
    Ok(Some(FileChange::Put(FileRow { path, file })))
}
