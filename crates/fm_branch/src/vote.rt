// What the fold asks of a Prepared, and what it makes of one.
ghost use Rattle.std.specs.Prelude.{◌≡◌, ◌||◌, ℕ, List, IfOk, OnOk, map, not};
ghost use Rattle.std.specs.BTreeSet.{contains};
ghost use Rattle.std.specs.Cmp.Lexicographic.{slice_cmp};
ghost use Rattle.std.specs.FinMap as maps;
ghost use Rattle.std.specs.List.{list_all, list_any};
ghost use Rattle.std.specs.Ordering.{nat_cmp};
ghost use Rattle.dl_codec.specs.Links.{links_record};
ghost use Rattle.dl_codec.specs.declared.links.LinksRecord.TheVariants as records;
ghost use Rattle.fm_branch.specs.Held.{held_in, with_held};
ghost use Rattle.meaning_areas.specs.Branches.{branch, fills_stand, given_on, holds, is_free, may_prepare, moved_by};
ghost use Rattle.dl_codec.specs.declared.links.BranchPhase.TheVariants as phases;

use crate::entry::Entry;
use crate::held::HeldLinks;
use crate::write::body_of;
use dl_base::{Copied, LinkRow, List, Memory, Path};
use dl_codec::{BranchPhase, LinksRecord, Taken};
use std::alloc::Global;
use std::collections::BTreeSet;

/// Whether the links that a Prepared gives are held, the paths that it takes are free or given, and its fills stand.
pub fn may_prepare(
    alloc: Global,
    held: &HeldLinks,
    gives: &List<LinkRow>,
    takes: &List<Taken>,
) -> Result<bool, Memory>
    ensures { IfOk result (λ may. may ≡ may_prepare (with_held (held_in held.now)) gives.now takes.now) }
{
    if !are_held(held, gives) || !are_free(alloc, held, gives, takes)? {
        return Ok(false);
    }
    Ok(do_fills_stand(takes))
}

/// The branch of a Prepared.
pub fn branch_of(alloc: Global, gives: List<LinkRow>, takes: List<Taken>) -> Result<Entry, Memory>
    ensures { IfOk result (λ entry. entry ≡ branch (moved_by gives takes) phases.Prepared) }
{
    let fill = is_any_filled(&takes);
    let takes = links_of(alloc, takes)?;
    Ok(Entry {
        gives,
        takes,
        fill,
        phase: BranchPhase::Prepared,
    })
}

/// The body of a Prepared's record, and the branch that the record begins. A record with a list of 2^32 items has no body: it is
/// answered `Memory`, as is want of memory.
pub fn parts_of(
    alloc: Global,
    tx: u64,
    gives: List<LinkRow>,
    takes: List<Taken>,
) -> Result<(List<u8>, Entry), Memory>
    ensures fits { OnOk result (links_record.fits (records.Prepared tx gives takes)) }
    ensures body { IfOk result (λ made. made.0 ≡ links_record.spelling (records.Prepared tx gives takes)) }
    ensures entry { IfOk result (λ made. made.1 ≡ branch (moved_by gives takes) phases.Prepared) }
{
    let record = LinksRecord::Prepared(tx, gives, takes);
    let body = body_of(alloc, &record)?;
    let LinksRecord::Prepared(_, gives, takes) = record else {
        unreachable!();
    };
    let entry = branch_of(alloc, gives, takes)?;
    Ok((body, entry))
}

// Whether all of some links are held. It takes no memory.
fn are_held(held: &HeldLinks, gives: &List<LinkRow>) -> bool
    ensures { result ≡ list_all (λ g. holds (maps.get (held_in held.now) g.path) g) gives.now }
{
    for link in gives.as_slice() {
        if !held.holds(link) {
            return false;
        }
    }
    true
}

// Whether the path of each take is free, or given.
fn are_free(
    alloc: Global,
    held: &HeldLinks,
    gives: &List<LinkRow>,
    takes: &List<Taken>,
) -> Result<bool, Memory>
    ensures { IfOk result (λ free. free ≡ list_all (λ t. is_free (maps.get (held_in held.now) t.link.path) (given_on gives.now t.link.path)) takes.now) }
{
    let given = paths_of(alloc, gives)?;
    for take in takes.as_slice() {
        if !is_free(held, &given, &take.link.path) {
            return Ok(false);
        }
    }
    Ok(true)
}

fn is_free(held: &HeldLinks, given: &BTreeSet<Path>, path: &Path) -> bool
    ensures { result ≡ is_free (maps.get (held_in held.now) path.now) (contains (slice_cmp nat_cmp) given.now path.now) }
{
    !held.is_held(path) || given.contains(path)
}

// The paths of some links.
fn paths_of(alloc: Global, links: &List<LinkRow>) -> Result<BTreeSet<Path>, Memory>
    ensures { IfOk result (λ paths. (q : List ℕ) → contains (slice_cmp nat_cmp) paths q ≡ given_on links.now q) }
{
    let mut paths = BTreeSet::new(alloc);
    for link in links.as_slice() {
        let path = link.path.copy()?;
        paths.insert(path)?;
    }
    Ok(paths)
}

// Whether takes are filled as one may fill them: none with RECOVERY NO, and those with RECOVERY YES all or not at all.
fn do_fills_stand(takes: &List<Taken>) -> bool
    ensures { result ≡ fills_stand takes.now }
{
    are_filled_with_recovery(takes) && (are_all_filled(takes) || !is_any_filled(takes))
}

fn are_filled_with_recovery(takes: &List<Taken>) -> bool
    ensures { result ≡ list_all (λ t. t.link.options.recovery || not t.fill) takes.now }
{
    for take in takes.as_slice() {
        if !is_filled_with_recovery(take) {
            return false;
        }
    }
    true
}

fn is_filled_with_recovery(take: &Taken) -> bool
    ensures { result ≡ (take.now.link.options.recovery || not take.now.fill) }
{
    take.link.options.recovery || !take.fill
}

fn are_all_filled(takes: &List<Taken>) -> bool
    ensures { result ≡ list_all (λ t. t.fill || not t.link.options.recovery) takes.now }
{
    for take in takes.as_slice() {
        if !is_filled_or_lost(take) {
            return false;
        }
    }
    true
}

fn is_filled_or_lost(take: &Taken) -> bool
    ensures { result ≡ (take.now.fill || not take.now.link.options.recovery) }
{
    take.fill || !take.link.options.recovery
}

fn is_any_filled(takes: &List<Taken>) -> bool
    ensures { result ≡ list_any (λ t. t.fill) takes.now }
{
    for take in takes.as_slice() {
        if take.fill {
            return true;
        }
    }
    false
}

// The links of takes.
fn links_of(alloc: Global, takes: List<Taken>) -> Result<List<LinkRow>, Memory>
    ensures { IfOk result (λ links. links ≡ map (λ t. t.link) takes) }
{
    let mut links = List::empty(alloc);
    for take in takes.into_vec() {
        links.push(take.link)?;
    }
    Ok(links)
}
