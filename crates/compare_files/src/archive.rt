// Whether archived copies fit what is committed.
ghost use Rattle.std.specs.Prelude.{◌≡◌, ◌&&◌, List, [], IfOk, map};
ghost use Rattle.std.specs.Bool.{Decides};
ghost use Rattle.std.specs.FinMap as maps;
ghost use Rattle.std.specs.List.{list_all};
ghost use Rattle.compare_files.specs.Copies.{all_stand, archived_by, given_stand, has_bytes, is_archived, is_recovered, open_stands, stands_at};
ghost use Rattle.compare_every.specs.Every.{IsEvery};
ghost use Rattle.compare_files.specs.Numbers.{IsNumbersOf};
ghost use Rattle.dl_base.specs.declared.area.Area.TheVariants as areas;
ghost use Rattle.dl_base.specs.declared.value.LinkRow.{LinkRow};
ghost use Rattle.meaning_areas.specs.Areas.{ComparesAt};
ghost use Rattle.meaning_areas.specs.Commits.{tables_after};
ghost use Rattle.meaning_areas.specs.Lists.{Folds};
ghost use Rattle.meaning_areas.specs.Stands.{open_in, txs_of};
ghost use Rattle.meaning_settling.specs.Settling.{link_key};
ghost use Rattle.meaning_tables.specs.Links.{links};

use crate::effects::key_of;
use crate::files::committed_links;
use crate::numbers::{Numbers, numbers};
use crate::overlay::{Overlay, overlay_of};
use compare_every::EveryLink;
use db_store::Store;
use dl_base::{LinkNo, LinkRow, List, Memory};
use fm_archive::Archive;
use fm_branch::Branches;
use fs_files::Files;
use std::alloc::Global;

/// Whether archived copies fit once the committed branches in doubt are settled: the comparison at the area Archive, where that at
/// Links has come out well. What those branches give with RECOVERY YES has a copy or a file of which one can be made; each copy is of
/// a link with RECOVERY YES of some commit; each such link that is committed no more has one; and a committed link that has one has
/// its bytes in its file. `every` has the links of all commits. The error is want of memory, and changes nothing. It costs the rows of
/// the committed tables, their files' bytes, and a look-up for each link, copy and link of `every`.
pub fn archive_compares(
    alloc: Global,
    store: &Store,
    branches: &Branches,
    files: &Files,
    archive: &Archive,
    every: &EveryLink,
) -> Result<bool, Memory>
    ensures { IfOk result (λ fits. (f : Folds) → f.rows ≡ store.now.rows → f.links ≡ branches.now.links → f.files ≡ files.now.files → f.copies ≡ archive.now.copies → IsEvery f.rows.commits every.now → ComparesAt f areas.Links → Decides fits (ComparesAt f areas.Archive)) }
{
    let settled = overlay_of(alloc, store, branches)?;
    match gathered(alloc, store, archive) {
        Ok(compared) => {
            let sight = Sight {
                settled: &settled,
                files,
                archive,
                every,
            };
            let Compared {
                stored,
                linked,
                numbers,
            } = compared;
            let fits = all_fit(store, branches, sight, &stored, &numbers, &linked);
            drop(stored);
            drop(linked);
            drop(numbers);
            drop(settled);
            Ok(fits)
        }
        Err(Memory) => {
            drop(settled);
            Err(Memory)
        }
    }
}

// The links that have a copy, and those that are committed, with their numbers.
#[derive(Drop)]
struct Compared {
    stored: List<LinkNo>,
    linked: List<LinkRow>,
    numbers: Numbers,
}

fn gathered(alloc: Global, store: &Store, archive: &Archive) -> Result<Compared, Memory>
    ensures stored { IfOk result (λ c. map link_key c.stored ≡ maps.keys archive.now.copies) }
    ensures linked { IfOk result (λ c. c.linked ≡ links (tables_after [] store.now.rows.commits)) }
    ensures numbers { IfOk result (λ c. IsNumbersOf c.linked c.numbers.keys) }
{
    let stored = archive.stored()?;
    match numbered(alloc, store) {
        Ok((linked, numbers)) => Ok(Compared {
            stored,
            linked,
            numbers,
        }),
        Err(Memory) => {
            drop(stored);
            Err(Memory)
        }
    }
}

fn numbered(alloc: Global, store: &Store) -> Result<(List<LinkRow>, Numbers), Memory>
    ensures linked { IfOk result (λ both. both.0 ≡ links (tables_after [] store.now.rows.commits)) }
    ensures numbers { IfOk result (λ both. IsNumbersOf both.0 both.1.keys) }
{
    let linked = committed_links(alloc, store)?;
    match numbers(alloc, &linked) {
        Ok(numbers) => Ok((linked, numbers)),
        Err(Memory) => {
            drop(linked);
            Err(Memory)
        }
    }
}

// What the tests look at.
#[derive(Clone, Copy)]
struct Sight<'a> {
    settled: &'a Overlay,
    files: &'a Files,
    archive: &'a Archive,
    every: &'a EveryLink,
}

// Whether all tests come out well.
fn all_fit(
    store: &Store,
    branches: &Branches,
    sight: Sight<'_>,
    stored: &List<LinkNo>,
    numbers: &Numbers,
    linked: &List<LinkRow>,
) -> bool
    requires { IsNumbersOf linked.now numbers.now.keys }
    ensures { result ≡ (all_stand (stands_at sight.entry.settled.now sight.entry.files.now.files sight.entry.archive.now.copies sight.entry.every.now) (open_in branches.now.links) (txs_of store.now.rows.commits) && list_all (λ l. is_recovered (maps.get sight.entry.every.now (link_key l))) stored.now && list_all (is_archived sight.entry.settled.now sight.entry.files.now.files sight.entry.archive.now.copies linked.now) (maps.values sight.entry.every.now) && list_all (has_bytes sight.entry.settled.now sight.entry.files.now.files sight.entry.archive.now.copies) linked.now) }
{
    all_stand(store, branches, sight)
        && are_recovered(sight.every, stored)
        && are_archived(sight, numbers)
        && have_bytes(sight, linked)
}

// Whether copies stand as they should under the numbers of all links that committed branches in doubt give.
fn all_stand(store: &Store, branches: &Branches, sight: Sight<'_>) -> bool
    ensures { result ≡ all_stand (stands_at sight.entry.settled.now sight.entry.files.now.files sight.entry.archive.now.copies sight.entry.every.now) (open_in branches.now.links) (txs_of store.now.rows.commits) }
{
    for i in 0..store.commits() {
        let Some((tx, _)) = store.commit_at(i + 1) else {
            return true;
        };
        if !open_stands(branches, tx, sight) {
            return false;
        }
    }
    true
}

fn open_stands(branches: &Branches, tx: u64, sight: Sight<'_>) -> bool
    ensures { result ≡ open_stands (stands_at sight.entry.settled.now sight.entry.files.now.files sight.entry.archive.now.copies sight.entry.every.now) (open_in branches.now.links tx) }
{
    match branches.branch(tx) {
        Some(branch) => !branch.is_in_doubt() || given_stand(branch.gives, sight),
        None => true,
    }
}

fn given_stand(gives: &List<LinkRow>, sight: Sight<'_>) -> bool
    ensures { result ≡ given_stand (stands_at sight.entry.settled.now sight.entry.files.now.files sight.entry.archive.now.copies sight.entry.every.now) gives.now }
{
    for row in gives.as_slice() {
        if !sight.stands(row.link) {
            return false;
        }
    }
    true
}

impl Sight<'_> {
    // Whether a number that has a copy in the end is that of a link with RECOVERY YES, and has one where it is to be made.
    fn stands(self, link: LinkNo) -> bool
        ensures { result ≡ stands_at self.entry.settled.now self.entry.files.now.files self.entry.archive.now.copies self.entry.every.now (link_key link) }
    {
        match self.settled.copy(self.files, self.archive, link) {
            Some(_) => is_recovered(self.every, link),
            None => !self.settled.makes_copy(link),
        }
    }

    // Whether a link has a copy, if it is committed no more and has RECOVERY YES.
    fn is_archived(self, numbers: &Numbers, row: &LinkRow) -> bool
        ensures { result ≡ archived_by self.entry.settled.now self.entry.files.now.files self.entry.archive.now.copies numbers.now.keys row.now }
    {
        !row.options.recovery
            || numbers.contains(&key_of(row.link))
            || self
                .settled
                .copy(self.files, self.archive, row.link)
                .is_some()
    }

    // Whether the file on a link's path has the bytes of its copy, where there are both.
    fn has_bytes(self, row: &LinkRow) -> bool
        ensures { result ≡ has_bytes self.entry.settled.now self.entry.files.now.files self.entry.archive.now.copies row.now }
    {
        match self.settled.copy(self.files, self.archive, row.link) {
            Some(copy) => match self.settled.file(self.files, self.archive, &row.path) {
                Some(file) => file.bytes() == copy.bytes(),
                None => true,
            },
            None => true,
        }
    }
}

// Whether a number is that of a link with RECOVERY YES of some commit.
fn is_recovered(every: &EveryLink, link: LinkNo) -> bool
    ensures { result ≡ is_recovered (maps.get every.now (link_key link)) }
{
    match every.get(link) {
        Some(row) => row.options.recovery,
        None => false,
    }
}

fn are_recovered(every: &EveryLink, stored: &List<LinkNo>) -> bool
    ensures { result ≡ list_all (λ l. is_recovered (maps.get every.now (link_key l))) stored.now }
{
    for link in stored.as_slice() {
        if !is_recovered(every, *link) {
            return false;
        }
    }
    true
}

fn are_archived(sight: Sight<'_>, numbers: &Numbers) -> bool
    ensures { (linked : List LinkRow) → IsNumbersOf linked numbers.now.keys → result ≡ list_all (is_archived sight.entry.settled.now sight.entry.files.now.files sight.entry.archive.now.copies linked) (maps.values sight.entry.every.now) }
{
    for i in 0..sight.every.len() {
        let Some(row) = sight.every.at(i) else {
            return true;
        };
        if !sight.is_archived(numbers, row) {
            return false;
        }
    }
    true
}

fn have_bytes(sight: Sight<'_>, linked: &List<LinkRow>) -> bool
    ensures { result ≡ list_all (has_bytes sight.entry.settled.now sight.entry.files.now.files sight.entry.archive.now.copies) linked.now }
{
    for row in linked.as_slice() {
        if !sight.has_bytes(row) {
            return false;
        }
    }
    true
}
