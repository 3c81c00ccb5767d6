// The paths that are linked, as a commit changes them.
ghost use Rattle.std.specs.Prelude.{◌≡◌, ◌&&◌, ◌||◌, ℕ, List, IfOk, not, true};
ghost use Rattle.std.specs.BTreeSet.{contains};
ghost use Rattle.std.specs.Cmp.Lexicographic.{slice_cmp};
ghost use Rattle.std.specs.Ordering.{nat_cmp};
ghost use Rattle.compare_links.specs.Moving.{are_free, with_paths, without_paths};
ghost use Rattle.meaning_settling.specs.Keyed.{is_at};

use dl_base::{Copied, LinkRow, List, Memory, Path};
use std::collections::BTreeSet;

/// Takes the paths of links that are given out of others. It takes no memory, and costs a logarithm for each link.
pub fn give_paths(paths: &mut BTreeSet<Path>, gives: &List<LinkRow>)
    ensures { (q : List ℕ) → contains (slice_cmp nat_cmp) paths.new q ≡ without_paths gives.now (contains (slice_cmp nat_cmp) paths.old) q }
{
    for link in gives.as_slice() {
        give_path(paths, &link.path);
    }
}

fn give_path(paths: &mut BTreeSet<Path>, path: &Path)
    ensures { (q : List ℕ) → contains (slice_cmp nat_cmp) paths.new q ≡ (contains (slice_cmp nat_cmp) paths.old q && not (is_at q path.now)) }
{
    let _ = paths.remove(path);
}

/// Puts the paths of links that are taken among others, and says whether each was free. It costs a logarithm for each link.
pub fn take_paths(paths: &mut BTreeSet<Path>, takes: &List<LinkRow>) -> Result<bool, Memory>
    ensures free { IfOk result (λ free. free ≡ are_free (contains (slice_cmp nat_cmp) paths.old) takes.now) }
    ensures paths { IfOk result (λ free. free ≡ true → (q : List ℕ) → contains (slice_cmp nat_cmp) paths.new q ≡ with_paths takes.now (contains (slice_cmp nat_cmp) paths.old) q) }
{
    for link in takes.as_slice() {
        if !take_path(paths, &link.path)? {
            return Ok(false);
        }
    }
    Ok(true)
}

// Puts a path among others, and says whether it is a new one.
fn take_path(paths: &mut BTreeSet<Path>, path: &Path) -> Result<bool, Memory>
    ensures new { IfOk result (λ new. new ≡ not (contains (slice_cmp nat_cmp) paths.old path.now)) }
    ensures paths { IfOk result (λ _. (q : List ℕ) → contains (slice_cmp nat_cmp) paths.new q ≡ (is_at q path.now || contains (slice_cmp nat_cmp) paths.old q)) }
{
    let new = paths.insert(path.copy()?)?;
    Ok(new)
}
