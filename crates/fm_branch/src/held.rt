// The links that are held in memory, by their paths.
ghost use Rattle.std.specs.Prelude.{◌≡◌, ◌++◌, ℕ, List, Some, None, IfOk, OnOk, OnErr, is_some, true, false};
ghost use Rattle.std.specs.BTreeMap.{IsOrdered, get};
ghost use Rattle.std.specs.Cmp.Lexicographic.{slice_cmp};
ghost use Rattle.std.specs.FinMap as maps;
ghost use Rattle.std.specs.List.Sorted.{IsPermutation, IsSortedByKey};
ghost use Rattle.std.specs.Option.{option_map, option_to_list};
ghost use Rattle.std.specs.Ordering.{is_eq, nat_cmp};
ghost use Rattle.dl_base.specs.declared.value.LinkRow.{LinkRow};
ghost use Rattle.fm_branch.specs.Held.{HasPlacesOf, KeepsPlaces, has_place, held_in, row_on, rows_from, with_holding};
ghost use Rattle.meaning_areas.specs.Branches.{holds};
ghost use Rattle.meaning_areas.specs.Same.{read_number, same_options, unlink_number, write_number};
ghost use Rattle.meaning_settling.specs.Keyed.{is_at};
ghost use Rattle.meaning_settling.specs.Settling.{link_key};

use dl_base::{Copied, LinkNo, LinkRow, List, Memory, OnUnlink, Options, Path, ReadBy, WriteBy};
use std::alloc::Global;
use std::collections::BTreeMap;
use std::marker::Model;

/// A link that is held, beside its path.
#[derive(Clone, Copy)]
pub struct Holding {
    pub link: LinkNo,
    pub options: Options,
}

/// The links that are held. A path may have a place with no link in it, so that a link on it comes and goes with no memory. Contracts
/// see the places.
#[derive(Drop)]
pub struct HeldLinks {
    places: BTreeMap<Path, Option<Holding>>,
}

impl Model for HeldLinks {
    ghost use Rattle.std.specs.FinMap.{from_entries};
    ghost use Rattle.fm_branch.specs.Held.{Places, places_code};

    ghost Value = { Places };

    ghost coded = { places_code };

    ghost view = { λ h. from_entries h.places.entries };
}

impl HeldLinks {
    /// No links, and no places. It takes no memory.
    pub fn empty(alloc: Global) -> HeldLinks
        ensures { result ≡ maps.empty }
    {
        HeldLinks {
            places: BTreeMap::new(alloc),
        }
    }

    /// The link that is held on a path, beside it. It takes no memory.
    pub fn at(&self, path: &Path) -> Option<Holding>
        ensures { row_on path.now result ≡ maps.get (held_in self.now) path.now }
    {
        match self.places.get(path) {
            Some(place) => *place,
            None => None,
        }
    }

    /// Whether a link is held on a path. It takes no memory.
    pub fn is_held(&self, path: &Path) -> bool
        ensures { result ≡ is_some (maps.get (held_in self.now) path.now) }
    {
        self.at(path).is_some()
    }

    /// Whether this very link is held. It takes no memory.
    pub fn holds(&self, link: &LinkRow) -> bool
        ensures { result ≡ holds (maps.get (held_in self.now) link.now.path) link.now }
    {
        match self.at(&link.path) {
            Some(holding) => is_of(holding, link),
            None => false,
        }
    }

    // Whether a path has a place.
    fn has_place(&self, path: &Path) -> bool
        ensures { result ≡ has_place self.now path.now }
    {
        self.places.contains_key(path)
    }

    /// Makes a place at a path, if there is none; the links stay.
    pub fn make_place(&mut self, path: &Path) -> Result<(), Memory>
        ensures made { OnOk result (has_place self.new path.now ≡ true) }
        ensures held { held_in self.new ≡ held_in self.old }
        ensures places { KeepsPlaces self.old self.new }
    {
        if self.has_place(path) {
            return Ok(());
        }
        insert(&mut self.places, path)
    }

    /// Has no link on a path from now on. It takes no memory.
    pub fn give(&mut self, path: &Path)
        ensures held { held_in self.new ≡ maps.remove (held_in self.old) path.now }
        ensures places { HasPlacesOf self.new self.old }
    {
        self.set(path, None);
    }

    /// Has this link on its path from now on, where there is a place. It takes no memory.
    pub fn take(&mut self, link: &LinkRow)
        requires { has_place self.old link.now.path ≡ true }
        ensures held { held_in self.new ≡ maps.insert (held_in self.old) link.now.path link.now }
        ensures places { HasPlacesOf self.new self.old }
    {
        let holding = Holding {
            link: link.link,
            options: link.options,
        };
        self.set(&link.path, Some(holding));
    }

    // Another holding at the place of a path, if there is one.
    fn set(&mut self, path: &Path, holding: Option<Holding>)
        ensures { self.new ≡ with_holding self.old path.now holding (maps.get self.old path.now) }
    {
        write_at(&mut self.places, path, holding);
    }

    /// All links that are held, in the order of their numbers.
    pub fn list(&self, alloc: Global) -> Result<List<LinkRow>, Memory>
        ensures all { IfOk result (λ rows. IsPermutation (maps.values (held_in self.now)) rows) }
        ensures sorted { IfOk result (λ rows. IsSortedByKey (λ r. link_key r.link) (slice_cmp nat_cmp) rows) }
    {
        by_number(self.rows(alloc)?)
    }

    // All links that are held, in the order of their paths.
    fn rows(&self, alloc: Global) -> Result<List<LinkRow>, Memory>
        ensures { IfOk result (λ rows. rows ≡ maps.values (held_in self.now)) }
    {
        rows_of(alloc, &self.places)
    }
}

// A place more, with no link in it.
fn insert(places: &mut BTreeMap<Path, Option<Holding>>, path: &Path) -> Result<(), Memory>
    ensures ok { OnOk result (maps.from_entries {R = slice_cmp nat_cmp} places.new.entries ≡ maps.insert (maps.from_entries places.old.entries) path.now None) }
    ensures err { OnErr result (places.new.entries ≡ places.old.entries) }
{
    let path = path.copy()?;
    places.insert(path, None)?;
    Ok(())
}

// The links at places, in the order of their paths.
fn rows_of(alloc: Global, places: &BTreeMap<Path, Option<Holding>>) -> Result<List<LinkRow>, Memory>
    ensures rows { IfOk result (λ rows. rows ≡ rows_from places.now.entries) }
    ensures ordered { IsOrdered (slice_cmp nat_cmp) places.now }
{
    let mut rows = List::empty(alloc);
    for (path, place) in places.iter() {
        put_row(&mut rows, path, place)?;
    }
    Ok(rows)
}

// The link at a path behind others, if there is one.
fn put_row(rows: &mut List<LinkRow>, path: &Path, place: &Option<Holding>) -> Result<(), Memory>
    ensures { OnOk result (rows.new ≡ rows.old ++ option_to_list (row_on path.now place.now)) }
{
    if let Some(holding) = place {
        let path = path.copy()?;
        rows.push(row_of(path, *holding))?;
    }
    Ok(())
}

fn row_of(path: Path, holding: Holding) -> LinkRow
    ensures { result ≡ record { link = holding.link; path = path; options = holding.options } }
{
    LinkRow {
        link: holding.link,
        path,
        options: holding.options,
    }
}

// Links in the order of their numbers.
fn by_number(rows: List<LinkRow>) -> Result<List<LinkRow>, Memory>
    ensures all { IfOk result (λ sorted. IsPermutation rows sorted) }
    ensures sorted { IfOk result (λ sorted. IsSortedByKey (λ r. link_key r.link) (slice_cmp nat_cmp) sorted) }
{
    let mut rows = rows.into_vec();
    sort(&mut rows)?;
    Ok(List::from_vec(rows))
}

fn sort(rows: &mut Vec<LinkRow>) -> Result<(), Memory>
    ensures all { IsPermutation rows.old.items rows.new.items }
    ensures sorted { OnOk result (IsSortedByKey (λ r. link_key r.link) (slice_cmp nat_cmp) rows.new.items) }
{
    rows.sort_by_key(
        |row: &LinkRow|
            ensures { result ≡ link_key row.now.link }
        { number_of(row) },
    )?;
    Ok(())
}

fn number_of(row: &LinkRow) -> [u64; 2]
    ensures { result ≡ link_key row.now.link }
{
    [row.link.tx, u64::from(row.link.k)]
}

// Another holding at a path that is there.
fn write_at(places: &mut BTreeMap<Path, Option<Holding>>, path: &Path, holding: Option<Holding>)
    ensures entry { get (slice_cmp nat_cmp) places.new path.now ≡ option_map (λ _. holding) (get (slice_cmp nat_cmp) places.old path.now) }
    ensures others { (q : List ℕ) → is_eq (slice_cmp nat_cmp path.now q) ≡ false → get (slice_cmp nat_cmp) places.new q ≡ get (slice_cmp nat_cmp) places.old q }
{
    match places.get_mut(path) {
        Some(place) => *place = holding,
        None => {}
    }
}

// Whether what is held on a link's path is that link.
fn is_of(holding: Holding, link: &LinkRow) -> bool
    ensures { result ≡ holds (row_on link.now.path (Some holding)) link.now }
{
    same_number(holding.link, link.link) && same_options(holding.options, link.options)
}

fn same_number(a: LinkNo, b: LinkNo) -> bool
    ensures { result ≡ is_at (link_key a) (link_key b) }
{
    a.tx == b.tx && a.k == b.k
}

fn same_options(a: Options, b: Options) -> bool
    ensures { result ≡ same_options a b }
{
    number_of_read(a.read) == number_of_read(b.read)
        && number_of_write(a.write) == number_of_write(b.write)
        && a.recovery == b.recovery
        && number_of_unlink(a.unlink) == number_of_unlink(b.unlink)
}

fn number_of_read(read: ReadBy) -> u8
    ensures { result ≡ read_number read }
{
    match read {
        ReadBy::Fs => 0,
        ReadBy::Db => 1,
    }
}

fn number_of_write(write: WriteBy) -> u8
    ensures { result ≡ write_number write }
{
    match write {
        WriteBy::Fs => 0,
        WriteBy::Blocked => 1,
        WriteBy::Admin => 2,
    }
}

fn number_of_unlink(unlink: OnUnlink) -> u8
    ensures { result ≡ unlink_number unlink }
{
    match unlink {
        OnUnlink::Nothing => 0,
        OnUnlink::Restore => 1,
        OnUnlink::Delete => 2,
    }
}
