// What links that are taken are filled from.
ghost use Rattle.std.specs.Prelude.{◌≡◌, ℕ, List, [], ◌∷◌, Some, None, IfOk, OnOk, true};
ghost use Rattle.std.specs.BTreeMap.{get};
ghost use Rattle.std.specs.Cmp.Lexicographic.{slice_cmp};
ghost use Rattle.std.specs.FinMap as maps;
ghost use Rattle.std.specs.Option.{option_copied, option_map, option_or};
ghost use Rattle.std.specs.Ordering.{nat_cmp};
ghost use Rattle.fm_effects.specs.Changes.{copy_in, filling};
ghost use Rattle.fm_effects.specs.Owners.{copy_seen};
ghost use Rattle.meaning_areas.specs.Copies.{copy_of};
ghost use Rattle.meaning_settling.specs.Settling.{by_give, link_key, numbered};

use crate::change::{CopyLent, copy_of};
use crate::sites::Take;
use dl_base::{Copied, File, LinkNo, LinkRow, List, Memory, Path};
use dl_codec::FileCopy;
use fm_archive::Archive;
use fs_files::Files;
use std::alloc::Global;
use std::collections::BTreeMap;

/// The files and the archived copies before a Finish, whether its takes are filled, and if they are the first link of each number that
/// it gives, since these are archived first.
#[derive(Drop)]
pub struct Sources<'a> {
    fill: bool,
    files: &'a Files,
    archive: &'a Archive,
    gives: BTreeMap<[u64; 2], LinkRow>,
}

impl<'a> Sources<'a> {
    /// It costs n log n where takes are filled, and nothing else.
    pub fn of(
        alloc: Global,
        gives: &List<LinkRow>,
        fill: bool,
        files: &'a Files,
        archive: &'a Archive,
    ) -> Result<Sources<'a>, Memory>
        ensures fill { IfOk result (λ s. s.fill ≡ fill) }
        ensures files { IfOk result (λ s. s.files.now ≡ files.now) }
        ensures copies { IfOk result (λ s. fill ≡ true → (n : List ℕ) → copy_in s n ≡ by_give files.now.files (numbered gives.now n) (maps.get archive.now.copies n)) }
    {
        let gives = numbers_for(alloc, gives, fill)?;
        Ok(Sources {
            fill,
            files,
            archive,
            gives,
        })
    }

    /// The file at a path. It takes no memory.
    pub fn file(&self, path: &Path) -> Option<&File>
        ensures { option_copied result ≡ maps.get self.now.files.now.files path.now }
    {
        self.files.look(path)
    }

    /// The copy that a take is filled from, if it is filled and there is one. It takes no memory.
    pub fn filling(&self, take: Take) -> Option<CopyLent<'_>>
        ensures { option_map copy_seen result ≡ filling self.now take }
    {
        if self.fill && take.options.recovery {
            self.copy(take.link)
        } else {
            None
        }
    }

    // The copy of a link, once the links given have theirs.
    fn copy(&self, link: LinkNo) -> Option<CopyLent<'_>>
        ensures { option_map copy_seen result ≡ copy_in self.now (link_key link) }
    {
        match self.archive.copy(link) {
            Some(copy) => Some(lent(copy)),
            None => self.given_copy(link),
        }
    }

    // The copy that is made of a link of this number, if one is given and needs it.
    fn given_copy(&self, link: LinkNo) -> Option<CopyLent<'_>>
        ensures { option_map copy_seen result ≡ by_give self.now.files.now.files (get (slice_cmp nat_cmp) self.now.gives (link_key link)) None }
    {
        match self.gives.get(&number_of(link)) {
            Some(row) => self.first_copy(row),
            None => None,
        }
    }

    fn first_copy(&self, row: &LinkRow) -> Option<CopyLent<'_>>
        ensures { option_map copy_seen result ≡ by_give self.now.files.now.files (Some row.now) None }
    {
        if !row.options.recovery {
            return None;
        }
        match self.file(&row.path) {
            Some(file) => Some(copy_of(file)),
            None => None,
        }
    }
}

fn lent(copy: &FileCopy) -> CopyLent<'_>
    ensures { copy_seen result ≡ copy_of copy.now }
{
    CopyLent {
        owner: &copy.owner,
        bytes: &copy.bytes,
    }
}

fn number_of(link: LinkNo) -> [u64; 2]
    ensures { result ≡ link_key link }
{
    [link.tx, u64::from(link.k)]
}

// The first link of each number, where takes are filled.
fn numbers_for(
    alloc: Global,
    gives: &List<LinkRow>,
    fill: bool,
) -> Result<BTreeMap<[u64; 2], LinkRow>, Memory>
    ensures { IfOk result (λ made. fill ≡ true → (q : List ℕ) → get (slice_cmp nat_cmp) made q ≡ numbered gives.now q) }
{
    if fill {
        by_number(alloc, gives)
    } else {
        Ok(BTreeMap::new(alloc))
    }
}

fn by_number(alloc: Global, gives: &List<LinkRow>) -> Result<BTreeMap<[u64; 2], LinkRow>, Memory>
    ensures { IfOk result (λ made. (q : List ℕ) → get (slice_cmp nat_cmp) made q ≡ numbered gives.now q) }
{
    let mut made = BTreeMap::new(alloc);
    for row in gives.as_slice() {
        put_number(&mut made, row)?;
    }
    Ok(made)
}

// One more link, where none of its number is there.
fn put_number(made: &mut BTreeMap<[u64; 2], LinkRow>, row: &LinkRow) -> Result<(), Memory>
    ensures { OnOk result ((q : List ℕ) → get (slice_cmp nat_cmp) made.new q ≡ option_or (get (slice_cmp nat_cmp) made.old q) (numbered (row.now ∷ []) q)) }
{
    let number = number_of(row.link);
    if made.contains_key(&number) {
        return Ok(());
    }
    let row = row.copy()?;
    made.insert(number, row)?;
    Ok(())
}
