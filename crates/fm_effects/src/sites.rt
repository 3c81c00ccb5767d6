// What a transaction does at each of its paths.
ghost use Rattle.std.specs.Prelude.{◌≡◌, ℕ, List, [], ◌∷◌, Some, None, IfOk, OnOk, if◌then◌else◌};
ghost use Rattle.std.specs.BTreeMap.{get};
ghost use Rattle.std.specs.Cmp.Lexicographic.{slice_cmp};
ghost use Rattle.std.specs.Ordering.{nat_cmp};
ghost use Rattle.fm_effects.specs.Sites.{given_of, site_at, site_or, take_in, taken_of, with_give, with_take};
ghost use Rattle.meaning_settling.specs.Keyed.{is_at};
ghost use Rattle.meaning_settling.specs.Settling.{on};

use dl_base::{Copied, LinkNo, LinkRow, List, Memory, OnUnlink, Options, Path};
use std::alloc::Global;
use std::collections::BTreeMap;

/// A link that is taken, beside its path.
#[derive(Clone, Copy)]
pub struct Take {
    pub link: LinkNo,
    pub options: Options,
}

/// What is done at a path: what the first link that is given there asks of its file, and the first link that is taken there.
#[derive(Clone, Copy)]
pub struct Site {
    pub give: Option<OnUnlink>,
    pub take: Option<Take>,
}

impl Site {
    // As it is with one more link that is given: the first one counts.
    fn with_give(self, row: &LinkRow) -> Site
        ensures { result ≡ with_give row.now self }
    {
        Site {
            give: Some(self.give.unwrap_or(row.options.unlink)),
            take: self.take,
        }
    }

    // As it is with one more link that is taken: the first one counts.
    fn with_take(self, row: &LinkRow) -> Site
        ensures { result ≡ with_take row.now self }
    {
        let take = take_of(row);
        Site {
            give: self.give,
            take: self.take.or(Some(take)),
        }
    }
}

fn take_of(row: &LinkRow) -> Take
    ensures { result ≡ take_in row.now }
{
    Take {
        link: row.link,
        options: row.options,
    }
}

/// What a transaction does at each of its paths. It costs n log n.
pub fn sites_of(
    alloc: Global,
    gives: &List<LinkRow>,
    takes: &List<LinkRow>,
) -> Result<BTreeMap<Path, Site>, Memory>
    ensures { IfOk result (λ sites. (q : List ℕ) → get (slice_cmp nat_cmp) sites q ≡ site_at gives.now takes.now q) }
{
    let mut sites = BTreeMap::new(alloc);
    put_gives(&mut sites, gives)?;
    put_takes(&mut sites, takes)?;
    Ok(sites)
}

fn put_gives(sites: &mut BTreeMap<Path, Site>, gives: &List<LinkRow>) -> Result<(), Memory>
    ensures { OnOk result ((q : List ℕ) → get (slice_cmp nat_cmp) sites.new q ≡ given_of (on gives.now q) (get (slice_cmp nat_cmp) sites.old q)) }
{
    for row in gives.as_slice() {
        put_give(sites, row)?;
    }
    Ok(())
}

fn put_takes(sites: &mut BTreeMap<Path, Site>, takes: &List<LinkRow>) -> Result<(), Memory>
    ensures { OnOk result ((q : List ℕ) → get (slice_cmp nat_cmp) sites.new q ≡ taken_of (on takes.now q) (get (slice_cmp nat_cmp) sites.old q)) }
{
    for row in takes.as_slice() {
        put_take(sites, row)?;
    }
    Ok(())
}

fn put_give(sites: &mut BTreeMap<Path, Site>, row: &LinkRow) -> Result<(), Memory>
    ensures { OnOk result ((q : List ℕ) → get (slice_cmp nat_cmp) sites.new q ≡ given_of (on (row.now ∷ []) q) (get (slice_cmp nat_cmp) sites.old q)) }
{
    let site = site_on(sites, &row.path).with_give(row);
    put(sites, &row.path, site)
}

fn put_take(sites: &mut BTreeMap<Path, Site>, row: &LinkRow) -> Result<(), Memory>
    ensures { OnOk result ((q : List ℕ) → get (slice_cmp nat_cmp) sites.new q ≡ taken_of (on (row.now ∷ []) q) (get (slice_cmp nat_cmp) sites.old q)) }
{
    let site = site_on(sites, &row.path).with_take(row);
    put(sites, &row.path, site)
}

// What is done at a path so far.
fn site_on(sites: &BTreeMap<Path, Site>, path: &Path) -> Site
    ensures { result ≡ site_or (get (slice_cmp nat_cmp) sites.now path.now) }
{
    match sites.get(path) {
        Some(site) => *site,
        None => Site {
            give: None,
            take: None,
        },
    }
}

// Another site at a path.
fn put(sites: &mut BTreeMap<Path, Site>, path: &Path, site: Site) -> Result<(), Memory>
    ensures { OnOk result ((q : List ℕ) → get (slice_cmp nat_cmp) sites.new q ≡ (if is_at q path.now then Some site else get (slice_cmp nat_cmp) sites.old q)) }
{
    let path = path.copy()?;
    sites.insert(path, site)?;
    Ok(())
}
