// Whether branches in doubt have different paths from each other.
ghost use Rattle.std.specs.Prelude.{◌≡◌, ℕ, List, IfOk, OnOk, Some, if◌then◌else◌, true};
ghost use Rattle.std.specs.BTreeMap.{get};
ghost use Rattle.std.specs.Bool.{Decides};
ghost use Rattle.std.specs.Cmp.Lexicographic.{slice_cmp};
ghost use Rattle.std.specs.Ordering.{nat_cmp};
ghost use Rattle.compare_links.specs.Fitting.{BranchesApart, are_free_for, has_in_doubt, is_clear, is_free_for};
ghost use Rattle.fm_branch.specs.Table.{HaveBranches};
ghost use Rattle.meaning_areas.specs.Branches.{given_on};
ghost use Rattle.meaning_areas.specs.Stands.{open_in};
ghost use Rattle.meaning_settling.specs.Keyed.{is_at};

use dl_base::{Copied, LinkRow, List, Memory, Path};
use fm_branch::Branches;
use std::alloc::Global;
use std::collections::BTreeMap;

/// Whether branches in doubt have different paths from each other. It costs n log n in the links that they give and take.
pub fn branches_are_apart(alloc: Global, branches: &Branches) -> Result<bool, Memory>
    ensures { IfOk result (λ apart. Decides apart (BranchesApart branches.now.links)) }
{
    let txs = branches.branches()?;
    are_apart(alloc, branches, &txs)
}

// The same by the transactions of all branches.
fn are_apart(alloc: Global, branches: &Branches, txs: &List<u64>) -> Result<bool, Memory>
    requires { HaveBranches txs.now branches.now.links.table }
    ensures { IfOk result (λ apart. Decides apart (BranchesApart branches.now.links)) }
{
    let mut owners = BTreeMap::new(alloc);
    for tx in txs.as_slice() {
        if !put_branch(&mut owners, branches, *tx)? {
            return Ok(false);
        }
    }
    Ok(true)
}

// Puts the paths of the branch of a transaction among those of others, if it is in doubt, and says whether none of them is there yet
// for another.
fn put_branch(
    owners: &mut BTreeMap<Path, u64>,
    branches: &Branches,
    tx: u64,
) -> Result<bool, Memory>
    ensures clear { IfOk result (λ clear. clear ≡ is_clear tx (get (slice_cmp nat_cmp) owners.old) (open_in branches.now.links tx)) }
    ensures owners { IfOk result (λ clear. clear ≡ true → (q : List ℕ) → get (slice_cmp nat_cmp) owners.new q ≡ (if has_in_doubt (open_in branches.now.links tx) q then Some tx else get (slice_cmp nat_cmp) owners.old q)) }
{
    match branches.branch(tx) {
        Some(branch) => {
            if !branch.is_in_doubt() {
                return Ok(true);
            }
            if !are_free_for(owners, tx, branch.gives) {
                return Ok(false);
            }
            if !are_free_for(owners, tx, branch.takes) {
                return Ok(false);
            }
            put_paths(owners, tx, branch.gives)?;
            put_paths(owners, tx, branch.takes)?;
            Ok(true)
        }
        None => Ok(true),
    }
}

// Whether the path of each of some links is free for a transaction.
fn are_free_for(owners: &BTreeMap<Path, u64>, tx: u64, links: &List<LinkRow>) -> bool
    ensures { result ≡ are_free_for tx (get (slice_cmp nat_cmp) owners.now) links.now }
{
    for link in links.as_slice() {
        if !is_free_for(owners, tx, &link.path) {
            return false;
        }
    }
    true
}

fn is_free_for(owners: &BTreeMap<Path, u64>, tx: u64, path: &Path) -> bool
    ensures { result ≡ is_free_for tx (get (slice_cmp nat_cmp) owners.now path.now) }
{
    match owners.get(path) {
        Some(owner) => *owner == tx,
        None => true,
    }
}

// Has a transaction as the owner of the paths of some links.
fn put_paths(owners: &mut BTreeMap<Path, u64>, tx: u64, links: &List<LinkRow>) -> Result<(), Memory>
    ensures { OnOk result ((q : List ℕ) → get (slice_cmp nat_cmp) owners.new q ≡ (if given_on links.now q then Some tx else get (slice_cmp nat_cmp) owners.old q)) }
{
    for link in links.as_slice() {
        put_path(owners, tx, &link.path)?;
    }
    Ok(())
}

fn put_path(owners: &mut BTreeMap<Path, u64>, tx: u64, path: &Path) -> Result<(), Memory>
    ensures { OnOk result ((q : List ℕ) → get (slice_cmp nat_cmp) owners.new q ≡ (if is_at q path.now then Some tx else get (slice_cmp nat_cmp) owners.old q)) }
{
    owners.insert(path.copy()?, tx)?;
    Ok(())
}
