// The owners of a file, and what a link makes of them.
ghost use Rattle.std.specs.Prelude.{◌≡◌, ◌&&◌, IfOk};
ghost use Rattle.fm_effects.specs.Owners.{owners_under, taken_owners};
ghost use Rattle.meaning_areas.specs.Same.{same_before, same_owner};
ghost use Rattle.meaning_settling.specs.Settling.{link_owner, original};

use dl_base::{Copied, File, Memory, Name, Options, Owner, ReadBy, WriteBy};
use std::alloc::Global;

// The file manager, as an owner.
const MANAGER: [u8; 4] = *b"dlfm";

/// The owner of a file, and the owner that is saved for it.
#[derive(Drop)]
pub struct FileOwners {
    pub owner: Owner,
    pub before: Option<Owner>,
}

/// The owner that a file had before it was linked. It takes no memory.
pub fn original(file: &File) -> &Owner
    ensures { result.now ≡ original file.now }
{
    match &file.before {
        Some(before) => before,
        None => &file.owner,
    }
}

/// The owners of a file under a link that is taken: without WRITE PERMISSION BLOCKED or ADMIN those that it had before it was linked.
pub fn taken_owners(alloc: Global, options: Options, original: &Owner) -> Result<FileOwners, Memory>
    ensures { IfOk result (λ made. made ≡ taken_owners options.write options.read original.now) }
{
    match options.write {
        WriteBy::Fs => freed(original),
        WriteBy::Blocked | WriteBy::Admin => owners_under(alloc, options.read, original),
    }
}

/// The owners of a file that no link keeps from its original owner.
pub fn freed(original: &Owner) -> Result<FileOwners, Memory>
    ensures { IfOk result (λ made. made ≡ record { owner = original.now; before = None }) }
{
    Ok(FileOwners {
        owner: original.copy()?,
        before: None,
    })
}

// The owners of a file that nobody may write.
fn owners_under(alloc: Global, read: ReadBy, original: &Owner) -> Result<FileOwners, Memory>
    ensures { IfOk result (λ made. made ≡ owners_under read original.now) }
{
    let owner = link_owner(alloc, read, original)?;
    let before = Some(original.copy()?);
    Ok(FileOwners { owner, before })
}

fn link_owner(alloc: Global, read: ReadBy, original: &Owner) -> Result<Owner, Memory>
    ensures { IfOk result (λ made. made ≡ link_owner read original.now) }
{
    let name = match read {
        ReadBy::Fs => original.name.copy()?,
        ReadBy::Db => Name::of(alloc, &MANAGER)?,
    };
    Ok(Owner {
        name,
        writable: false,
    })
}

/// Whether a file has these owners. It takes no memory.
pub fn has_owners(file: &File, owners: &FileOwners) -> bool
    ensures { result ≡ (same_owner file.now.owner owners.now.owner && same_before file.now.before owners.now.before) }
{
    same_owner(&file.owner, &owners.owner) && same_before(&file.before, &owners.before)
}

fn same_owner(a: &Owner, b: &Owner) -> bool
    ensures { result ≡ same_owner a.now b.now }
{
    a.name.bytes() == b.name.bytes() && a.writable == b.writable
}

fn same_before(a: &Option<Owner>, b: &Option<Owner>) -> bool
    ensures { result ≡ same_before a.now b.now }
{
    match (a, b) {
        (None, None) => true,
        (Some(a), Some(b)) => same_owner(a, b),
        _ => false,
    }
}
