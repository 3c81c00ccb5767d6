// What is asked of each branch.
ghost use Rattle.std.specs.Prelude.{◌≡◌, IfOk};
ghost use Rattle.std.specs.Bool.{Decides};
ghost use Rattle.std.specs.FinMap as maps;
ghost use Rattle.compare_links.specs.Fitting.{BranchFits, EachBranch, branch_fits};
ghost use Rattle.compare_links.specs.Walking.{IfThere};
ghost use Rattle.fm_branch.specs.Shown.{shown};
ghost use Rattle.fm_branch.specs.Table.{HaveBranches};
ghost use Rattle.meaning_areas.specs.Stands.{is_past};

use crate::rows::are_drawn;
use db_store::Store;
use dl_base::{List, Memory};
use dl_codec::BranchPhase;
use fm_branch::{Branch, Branches};

/// Whether each branch that is committed or done has a commit, and no transaction of one, nor of its links, is of a later opening than
/// the last of Rows. It costs a look-up a branch, and all links that branches give and take.
pub fn branches_fit(store: &Store, branches: &Branches) -> Result<bool, Memory>
    ensures { IfOk result (λ fits. Decides fits (EachBranch (BranchFits store.now.rows) branches.now.links.table)) }
{
    let txs = branches.branches()?;
    Ok(all_fit(store, branches, &txs))
}

// Whether the branches of some transactions fit, which are all.
fn all_fit(store: &Store, branches: &Branches, txs: &List<u64>) -> bool
    requires { HaveBranches txs.now branches.now.links.table }
    ensures { Decides result (EachBranch (BranchFits store.now.rows) branches.now.links.table) }
{
    for tx in txs.as_slice() {
        if !branch_fits(store, branches, *tx) {
            return false;
        }
    }
    true
}

// Whether the branch of a transaction fits, if there is one.
fn branch_fits(store: &Store, branches: &Branches, tx: u64) -> bool
    ensures { Decides result (IfThere (BranchFits store.now.rows tx) (maps.get branches.now.links.table tx)) }
{
    match branches.branch(tx) {
        Some(branch) => does_fit(store, tx, branch),
        None => true,
    }
}

fn does_fit(store: &Store, tx: u64, branch: Branch<'_>) -> bool
    ensures { result ≡ branch_fits store.now.rows tx (shown branch.entry) }
{
    let opening = store.opening();
    (!is_past(branch.phase) || store.decided(tx))
        && tx / 4_294_967_296 <= u64::from(opening)
        && are_drawn(opening, branch.gives)
        && are_drawn(opening, branch.takes)
}

// Whether a branch in this phase is committed.
fn is_past(phase: BranchPhase) -> bool
    ensures { result ≡ is_past phase }
{
    match phase {
        BranchPhase::Committed | BranchPhase::Done => true,
        BranchPhase::Prepared | BranchPhase::Aborted => false,
    }
}
