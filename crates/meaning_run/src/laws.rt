// What runs of scripts are. The functions do nothing: they carry laws.
ghost use Rattle.std.specs.Prelude.{◌≡◌, ◌+◌, ◌<◌, ◌++◌, ℕ, List, [], Some, length};
ghost use Rattle.dl_base.specs.declared.step.Step as asked;
ghost use Rattle.meaning_run.specs.Running.{AreRead, Read, Run, StoresNone, after, next_step, turn, written};

/// The lines of each script are read in one way, so each script has one run from a state.
pub fn scripts_have_one_run()
    ensures some { (lines : List (List ℕ)) → (read : List Read) × AreRead lines read }
    ensures only { (lines : List (List ℕ)) (a b : List Read) → AreRead lines a → AreRead lines b → a ≡ b }
{
    run_lines::one_reading();
}

/// Turns follow one another: those behind some turns are later ones of the same run, and so are their records.
pub fn turns_follow_one_another()
    ensures after { (m n : ℕ) (r : Run) → after n (after m r) ≡ after (m + n) r }
    ensures written { (m n : ℕ) (r : Run) → written m r ++ written n (after m r) ≡ written (m + n) r }
    ensures next { (n : ℕ) (r : Run) → after (n + 1) r ≡ turn (after n r) }
{}

/// A line takes at most five steps: so many are those of a statement outside a transaction, and a COMMIT takes at most three. Not so
/// `! archive` and `! backup`, which take one for each link whose copy is pending.
pub fn lines_take_few_steps()
    ensures { (n : ℕ) (r : Run) (x : asked.Step) → r.answers ≡ [] → StoresNone r.lines → (after n r).lines ≡ r.lines → next_step (after n r) ≡ Some x → length (after n r).answers < 5 }
{}
