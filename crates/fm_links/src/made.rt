// The claims of one transaction, before they are put in the place of others.
ghost use Rattle.std.specs.Prelude.{◌≡◌, IfOk, OnOk, None, Some};
ghost use Rattle.std.specs.FinMap as maps;
ghost use Rattle.fm_links.specs.Claims.{claim_on, claims_in, giving, moved, row_on, take_of, taking, with_claim};

use crate::claims::{Claim, ClaimedLink};
use dl_base::{Copied, LinkRow, List, Memory, Path};
use std::alloc::Global;
use std::collections::BTreeMap;

/// The claims of a transaction that gives and takes these links, by their paths; the first link on a path counts. It costs n log n.
pub fn claims_of(
    alloc: Global,
    tx: u64,
    gives: &List<LinkRow>,
    takes: &List<LinkRow>,
) -> Result<BTreeMap<Path, Claim>, Memory>
    ensures { IfOk result (λ made. claims_in made.entries ≡ with_claim tx (moved gives.now takes.now) maps.empty) }
{
    let mut made = BTreeMap::new(alloc);
    take_all(&mut made, tx, takes)?;
    give_all(&mut made, tx, gives)?;
    Ok(made)
}

// From the last to the first, so that of two on one path the first stays.
fn take_all(made: &mut BTreeMap<Path, Claim>, tx: u64, takes: &List<LinkRow>) -> Result<(), Memory>
    ensures { OnOk result (claims_in made.new.entries ≡ taking tx takes.now (claims_in made.old.entries)) }
{
    let links = takes.as_slice();
    for i in 0..links.len() {
        take_one(made, tx, &links[links.len() - 1 - i])?;
    }
    Ok(())
}

fn take_one(made: &mut BTreeMap<Path, Claim>, tx: u64, link: &LinkRow) -> Result<(), Memory>
    ensures { OnOk result (claims_in made.new.entries ≡ maps.insert (claims_in made.old.entries) link.now.path (record { tx = tx; give = None; take = Some link.now })) }
{
    let claim = Claim {
        tx,
        give: None,
        take: Some(beside(link)),
    };
    put(made, &link.path, claim)
}

// A claim that gives a link takes what was claimed on its path before.
fn give_all(made: &mut BTreeMap<Path, Claim>, tx: u64, gives: &List<LinkRow>) -> Result<(), Memory>
    ensures { OnOk result (claims_in made.new.entries ≡ giving tx gives.now (claims_in made.old.entries)) }
{
    let links = gives.as_slice();
    for i in 0..links.len() {
        give_one(made, tx, &links[links.len() - 1 - i])?;
    }
    Ok(())
}

fn give_one(made: &mut BTreeMap<Path, Claim>, tx: u64, link: &LinkRow) -> Result<(), Memory>
    ensures { OnOk result (claims_in made.new.entries ≡ maps.insert (claims_in made.old.entries) link.now.path (record { tx = tx; give = Some link.now; take = take_of (maps.get (claims_in made.old.entries) link.now.path) })) }
{
    let claim = Claim {
        tx,
        give: Some(beside(link)),
        take: taken_at(made, &link.path),
    };
    put(made, &link.path, claim)
}

// What is taken on a path.
fn taken_at(made: &BTreeMap<Path, Claim>, path: &Path) -> Option<ClaimedLink>
    ensures { row_on path.now result ≡ take_of (maps.get (claims_in made.now.entries) path.now) }
{
    match made.get(path) {
        Some(claim) => claim.take,
        None => None,
    }
}

// One claim more, in place of any other on its path.
fn put(made: &mut BTreeMap<Path, Claim>, path: &Path, claim: Claim) -> Result<(), Memory>
    ensures { OnOk result (claims_in made.new.entries ≡ maps.insert (claims_in made.old.entries) path.now (claim_on path.now claim)) }
{
    let path = path.copy()?;
    made.insert(path, claim)?;
    Ok(())
}

// A link without its path.
fn beside(link: &LinkRow) -> ClaimedLink
    ensures { row_on link.now.path (Some result) ≡ Some link.now }
{
    ClaimedLink {
        link: link.link,
        options: link.options,
    }
}
