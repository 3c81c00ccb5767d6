// What statements and transactions see, and what a run of them commits. The functions do nothing: they carry laws.
ghost use Rattle.std.specs.Prelude.{◌≡◌, ℕ, ◌+◌, ◌^◌, ◌<◌, List, [], ◌∷◌, Some, false, length};
ghost use Rattle.std.specs.FinMap as maps;
ghost use Rattle.dl_base.specs.declared.answer.Answer.TheVariants as answers;
ghost use Rattle.dl_base.specs.declared.statement.Stmt as statements;
ghost use Rattle.dl_base.specs.declared.step.Settings as options;
ghost use Rattle.dl_base.specs.declared.step.Step as asked;
ghost use Rattle.dl_base.specs.declared.step.Step.TheVariants as steps;
ghost use Rattle.meaning_areas.specs.Stands.{Stored};
ghost use Rattle.meaning_history.specs.Reached.{HasPast};
ghost use Rattle.meaning_merge.specs.Merging.{AreNamed};
ghost use Rattle.meaning_run.specs.Running.{Run, after};
ghost use Rattle.meaning_sql.specs.declared.Context as contexts;
ghost use Rattle.meaning_system.specs.Machine.{run, start, step};
ghost use Rattle.meaning_system.specs.Sql.{evaluated, named_by};
ghost use Rattle.meaning_system.specs.State.{State, Txn};
ghost use Rattle.meaning_tables.specs.Tables.{Tables};
ghost use Rattle.meaning_serial.specs.Alike.{Agree, AreAlike, ReplaysAlike};
ghost use Rattle.meaning_serial.specs.Freely.{evaluated_freely, is_left_out};
ghost use Rattle.meaning_serial.specs.Scripts.{steps_in};
ghost use Rattle.meaning_serial.specs.Serial.{AnswerAgain, AreSerial, MayDraw, Said, adds_commit, names_in, replay, said, writers_in};

use meaning_history::steps_keep_histories;

/// A statement sees only the tables that it names, where the number of tables has no bound: over two lists of tables that have the
/// same, or none, under these names it has one outcome, and leaves the same under them; all other tables stay as they were. The bound
/// makes no difference but where it refuses a statement.
pub fn statements_see_only_what_they_name()
    ensures alike { (ts us : Tables) (stmt : statements.Stmt) (context : contexts.Context) (k : ℕ) → AreNamed ts → AreNamed us → Agree (named_by stmt) ts us
        → AreAlike (named_by stmt) ts us (evaluated_freely ts stmt context k) (evaluated_freely us stmt context k) }
    ensures free { (tables : Tables) (stmt : statements.Stmt) (context : contexts.Context) (k : ℕ) → is_left_out (evaluated tables stmt context k).answer ≡ false
        → evaluated tables stmt context k ≡ evaluated_freely tables stmt context k }
{}

/// So do statements one after the other: over two lists of tables that agree on all of their names they answer the same.
pub fn transactions_see_only_what_they_name()
    ensures { (xs : List Said) (ts us : Tables) (k : ℕ) → AreNamed ts → AreNamed us → Agree (names_in xs) ts us → ReplaysAlike (names_in xs) ts us (replay ts k xs) (replay us k xs) }
{}

/// SERIAL WRITERS. A run that begins over what areas stand for: each of its transactions that commits leads to what its statements
/// make of the tables after the commit before it, but for versions, and gives the answers that it gave. What its claims refused after
/// evaluation is left out, and what was refused because there were too many tables, in which others have a part. Of a transaction
/// that has not ended the answers are right on the tables at its begin, whether it commits or not. Each Decide that is answered with a
/// commit is such a transaction's, with the next number; these and restores alone add commits, so that one which is answered Done,
/// since nothing was changed, leaves them as they were. A number must be left to draw before each step, as one is in runs of fewer
/// than 2^32 steps.
pub fn writers_are_serial()
    ensures serial { (given : options.Settings) (x : Stored) (xs : List asked.Step) → HasPast x → MayDraw (start given x) xs → AreSerial (start given x) xs }
    ensures snapshot { (given : options.Settings) (x : Stored) (xs : List asked.Step) → HasPast x → MayDraw (start given x) xs
        → (tx : ℕ) (t : Txn) → maps.get (run (start given x) xs).1.txs tx ≡ Some t → AnswerAgain t.base (said (start given x) xs tx) }
    ensures few { (given : options.Settings) (x : Stored) (xs : List asked.Step) → length xs < 2 ^ 32 → MayDraw (start given x) xs }
    ensures written { (s : State) (session n : ℕ) → (step s (steps.Decide session)).0 ≡ answers.Committed n
        → (tx : ℕ) × (writers_in s (steps.Decide session) ≡ record { commit = n; tx = tx } ∷ []) × (n ≡ length s.commits + 1) }
    ensures unwritten { (s : State) (x : asked.Step) → adds_commit x (step s x).0 ≡ false → (step s x).1.commits ≡ s.commits }
{
    steps_keep_histories();
}

/// The turns of a script take steps of the machine, one after the other: so the law of serial writers is one of each script, however
/// the lines of its sessions stand between each other.
pub fn turns_take_steps()
    ensures { (n : ℕ) (r : Run) → (after n r).state ≡ (run r.state (steps_in n r)).1 }
{}
