// Whether what is held after settling is what the last commit links.
ghost use Rattle.std.specs.Prelude.{◌≡◌, ◌<◌, IfOk, OnOk, Some, [], List};
ghost use Rattle.std.specs.Bool.{Decides};
ghost use Rattle.std.specs.Cmp.Lexicographic.{slice_cmp};
ghost use Rattle.std.specs.FinMap as maps;
ghost use Rattle.std.specs.Ordering.{nat_cmp};
ghost use Rattle.compare_links.specs.Fitting.{AreAllHeld, HasOwnPaths, HavePaths, HeldFits, held_settled, settle_held, taken_on};
ghost use Rattle.dl_base.specs.declared.value.LinkRow.{LinkRow};
ghost use Rattle.fm_branch.specs.Held.{with_links, without_links};
ghost use Rattle.meaning_areas.specs.Commits.{tables_after};
ghost use Rattle.meaning_areas.specs.Stands.{open_in, txs_of};
ghost use Rattle.meaning_tables.specs.Links as meant;

use crate::walk::transaction;
use db_store::Store;
use dl_base::{Copied, LinkRow, List, Memory, Path, Same};
use fm_branch::Branches;
use sql_table::links;
use std::alloc::Global;
use std::collections::BTreeMap;

/// Whether the links that are held, with the open branches of commits settled in order, are those of the last commit. It costs n log n
/// in the links that are held and those that these branches give and take, and a look at each row that is committed.
pub fn held_fits(alloc: Global, store: &Store, branches: &Branches) -> Result<bool, Memory>
    requires own { HasOwnPaths branches.now.links.held }
    requires paths { HavePaths (meant.links (tables_after [] store.now.rows.commits)) }
    ensures { IfOk result (λ fits. Decides fits (HeldFits store.now.rows branches.now.links)) }
{
    let mut held = held_rows(alloc, branches)?;
    settle_all(&mut held, store, branches)?;
    let linked = committed_links(alloc, store)?;
    Ok(are_all_held(held, &linked))
}

// The links of the last commit.
fn committed_links(alloc: Global, store: &Store) -> Result<List<LinkRow>, Memory>
    ensures { IfOk result (λ rows. rows ≡ meant.links (tables_after [] store.now.rows.commits)) }
{
    let tables = store.committed().copy()?;
    links(alloc, &tables)
}

// The links that are held, by their paths.
fn held_rows(alloc: Global, branches: &Branches) -> Result<BTreeMap<Path, LinkRow>, Memory>
    requires { HasOwnPaths branches.now.links.held }
    ensures { IfOk result (λ held. maps.from_entries {R = slice_cmp nat_cmp} held.entries ≡ branches.now.links.held) }
{
    let rows = branches.held()?;
    by_path(alloc, &rows)
}

// Links by their paths; the last on a path counts.
fn by_path(alloc: Global, rows: &List<LinkRow>) -> Result<BTreeMap<Path, LinkRow>, Memory>
    ensures { IfOk result (λ held. maps.from_entries {R = slice_cmp nat_cmp} held.entries ≡ taken_on rows.now maps.empty) }
{
    let mut held = BTreeMap::new(alloc);
    for row in rows.as_slice() {
        take(&mut held, row)?;
    }
    Ok(held)
}

// Settles the open branches of commits, in order.
fn settle_all(
    held: &mut BTreeMap<Path, LinkRow>,
    store: &Store,
    branches: &Branches,
) -> Result<(), Memory>
    ensures { OnOk result (maps.from_entries {R = slice_cmp nat_cmp} held.new.entries ≡ held_settled branches.now.links (txs_of store.now.rows.commits) (maps.from_entries held.old.entries)) }
{
    for index in 0..store.commits() {
        settle(held, branches, transaction(store, index))?;
    }
    Ok(())
}

// Settles the branch of a transaction, if it is open.
fn settle(held: &mut BTreeMap<Path, LinkRow>, branches: &Branches, tx: u64) -> Result<(), Memory>
    ensures { OnOk result (maps.from_entries {R = slice_cmp nat_cmp} held.new.entries ≡ settle_held (open_in branches.now.links tx) (maps.from_entries held.old.entries)) }
{
    match branches.branch(tx) {
        Some(branch) => {
            if branch.is_in_doubt() {
                give_all(held, branch.gives);
                take_all(held, branch.takes)?;
            }
            Ok(())
        }
        None => Ok(()),
    }
}

// Has no link on the paths of some from now on. It takes no memory.
fn give_all(held: &mut BTreeMap<Path, LinkRow>, gives: &List<LinkRow>)
    ensures { maps.from_entries {R = slice_cmp nat_cmp} held.new.entries ≡ without_links gives.now (maps.from_entries held.old.entries) }
{
    for link in gives.as_slice() {
        give(held, &link.path);
    }
}

fn give(held: &mut BTreeMap<Path, LinkRow>, path: &Path)
    ensures { maps.from_entries {R = slice_cmp nat_cmp} held.new.entries ≡ maps.remove (maps.from_entries held.old.entries) path.now }
{
    let _ = held.remove(path);
}

// Has some links on their paths from now on: from the last to the first, so that of two on one path the first stays.
fn take_all(held: &mut BTreeMap<Path, LinkRow>, takes: &List<LinkRow>) -> Result<(), Memory>
    ensures { OnOk result (maps.from_entries {R = slice_cmp nat_cmp} held.new.entries ≡ with_links takes.now (maps.from_entries held.old.entries)) }
{
    let rows = takes.as_slice();
    for i in 0..rows.len() {
        take(held, &rows[rows.len() - 1 - i])?;
    }
    Ok(())
}

fn take(held: &mut BTreeMap<Path, LinkRow>, link: &LinkRow) -> Result<(), Memory>
    ensures { OnOk result (maps.from_entries {R = slice_cmp nat_cmp} held.new.entries ≡ maps.insert (maps.from_entries held.old.entries) link.now.path link.now) }
{
    let path = link.path.copy()?;
    let row = link.copy()?;
    held.insert(path, row)?;
    Ok(())
}

// Whether some links, of which no two are on one path, are all that is held. It takes no memory.
fn are_all_held(held: BTreeMap<Path, LinkRow>, links: &List<LinkRow>) -> bool
    requires { HavePaths links.now }
    ensures { Decides result (AreAllHeld (maps.from_entries held.entries) links.now) }
{
    let mut left = held;
    for link in links.as_slice() {
        if !take_out(&mut left, link) {
            return false;
        }
    }
    left.is_empty()
}

// Has no link on the path of one from now on, and says whether it was this one.
fn take_out(held: &mut BTreeMap<Path, LinkRow>, link: &LinkRow) -> bool
    ensures was { Decides result (maps.get (maps.from_entries {R = slice_cmp nat_cmp} held.old.entries) link.now.path ≡ Some link.now) }
    ensures left { maps.from_entries {R = slice_cmp nat_cmp} held.new.entries ≡ maps.remove (maps.from_entries held.old.entries) link.now.path }
{
    match held.remove(&link.path) {
        Some(row) => row.same(link),
        None => false,
    }
}
