// The branches in doubt, one transaction at a time.
ghost use Rattle.std.specs.Prelude.{◌≡◌, OnOk, Some};
ghost use Rattle.compare_files.specs.Effects.{PutsBehind, effect, of_open, sourced};
ghost use Rattle.fm_branch.specs.Shown.{shown};
ghost use Rattle.meaning_areas.specs.Stands.{open_branch, open_in};

use crate::effects::{Effects, Sources, put_given, put_sources, put_taken};
use dl_base::Memory;
use fm_branch::{Branch, Branches};

/// Puts what the branch of a transaction does on its paths behind what stands there, where it is in doubt.
pub fn put_effects_of(effects: &mut Effects, branches: &Branches, tx: u64) -> Result<(), Memory>
    ensures { OnOk result (PutsBehind effects.old.entries effects.new.entries (λ q. of_open (effect q) (open_in branches.now.links tx))) }
{
    match branches.branch(tx) {
        Some(branch) => put_branch_effects(effects, branch),
        None => Ok(()),
    }
}

// A take counts before a give on its path, so takes are put first.
fn put_branch_effects(effects: &mut Effects, branch: Branch<'_>) -> Result<(), Memory>
    ensures { OnOk result (PutsBehind effects.old.entries effects.new.entries (λ q. of_open (effect q) (open_branch (Some (shown branch.entry))))) }
{
    if !branch.is_in_doubt() {
        return Ok(());
    }
    put_taken(effects, branch.takes, branch.fill)?;
    put_given(effects, branch.gives)
}

/// Puts of which files the branch of a transaction makes copies behind what stands there, where it is in doubt.
pub fn put_sources_of(sources: &mut Sources, branches: &Branches, tx: u64) -> Result<(), Memory>
    ensures { OnOk result (PutsBehind sources.old.entries sources.new.entries (λ q. of_open (sourced q) (open_in branches.now.links tx))) }
{
    match branches.branch(tx) {
        Some(branch) => put_branch_sources(sources, branch),
        None => Ok(()),
    }
}

fn put_branch_sources(sources: &mut Sources, branch: Branch<'_>) -> Result<(), Memory>
    ensures { OnOk result (PutsBehind sources.old.entries sources.new.entries (λ q. of_open (sourced q) (open_branch (Some (shown branch.entry))))) }
{
    if !branch.is_in_doubt() {
        return Ok(());
    }
    put_sources(sources, branch.gives)
}
