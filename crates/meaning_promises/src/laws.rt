// What a run keeps of a vote, of a decision, of a commit and of the numbers that were drawn, and what a refusal changes. The functions do
// nothing: they carry laws.
ghost use Rattle.std.specs.Prelude.{◌≡◌, ℕ, ◌+◌, ◌/◌, ◌^◌, ◌<◌, ◌≤◌, true, false, List, [], ◌∷◌, ◌++◌, Some, None};
ghost use Rattle.std.specs.FinMap as maps;
ghost use Rattle.std.specs.List.{Contains};
ghost use Rattle.dl_base.specs.declared.answer.Answer.TheVariants as answers;
ghost use Rattle.dl_base.specs.declared.answer.Lost as cells;
ghost use Rattle.dl_base.specs.declared.answer.Refusal as refusals;
ghost use Rattle.dl_base.specs.declared.statement.Stmt as said;
ghost use Rattle.dl_base.specs.declared.step.Phase.TheVariants as phases;
ghost use Rattle.dl_base.specs.declared.step.Settings as options;
ghost use Rattle.dl_base.specs.declared.step.Step as asked;
ghost use Rattle.dl_base.specs.declared.step.Step.TheVariants as steps;
ghost use Rattle.dl_base.specs.declared.step.Target as aims;
ghost use Rattle.dl_codec.specs.declared.links.BranchPhase.TheVariants as branch_phases;
ghost use Rattle.meaning_areas.specs.Branches.{branch};
ghost use Rattle.meaning_areas.specs.Commits.{Commit};
ghost use Rattle.meaning_areas.specs.Lists.{Folds, Written};
ghost use Rattle.meaning_areas.specs.Stands.{past};
ghost use Rattle.meaning_history.specs.Reached.{HasHistory};
ghost use Rattle.meaning_history.specs.Sound.{AreSound};
ghost use Rattle.meaning_run.specs.Running.{Run, after, next_step, step_writes, written};
ghost use Rattle.meaning_system.specs.Machine.{drawing, next_commit, start, step, with_phase};
ghost use Rattle.meaning_system.specs.State.{State, Txn, ended, has_links, is_active, is_prepared, moved_of, number_of, stored, tables_of, txn_of, with_txn};
ghost use Rattle.meaning_system.specs.Writes.{aborted, prepared, writes};
ghost use Rattle.meaning_tables.specs.Tables.{Tables};
ghost use Rattle.meaning_promises.specs.Promises.{Draws, IsConflict, IsDecision, IsNew, IsVote, decision_record, may_change, may_end, naming, vote_record};

/// A VOTE IS WRITTEN. All that a Prepare writes which is answered Done is one record in Links, with exactly the links that its
/// transaction gives and takes; where it gives and takes none, nothing is written. In the other four areas nothing is written, and
/// nothing at all by a Prepare that is refused. Each such answer is the vote of a transaction.
pub fn a_vote_is_written()
    ensures all { (s : State) (session tx : ℕ) (t : Txn) → IsVote s session tx t → writes s (steps.Prepare session) ≡ prepared tx (moved_of t) }
    ensures linked { (s : State) (session tx : ℕ) (t : Txn) → IsVote s session tx t → has_links (moved_of t) ≡ true → writes s (steps.Prepare session) ≡ vote_record tx t ∷ [] }
    ensures plain { (s : State) (session tx : ℕ) (t : Txn) → IsVote s session tx t → has_links (moved_of t) ≡ false → writes s (steps.Prepare session) ≡ [] }
    ensures refused { (s : State) (session : ℕ) (why : refusals.Refusal) → (step s (steps.Prepare session)).0 ≡ answers.Refused why → writes s (steps.Prepare session) ≡ [] }
    ensures whose { (s : State) (session : ℕ) → (step s (steps.Prepare session)).0 ≡ answers.Done → (tx : ℕ) × (t : Txn) × IsVote s session tx t }
{}

/// A DECISION IS ONE COMMIT. All that a Decide writes which is answered with a commit is one record in Rows: the commit's number, whether
/// its transaction has links, and the changes of all its tables. In the other four areas nothing is written. Each such answer is the
/// decision of a transaction.
pub fn a_decision_is_one_commit()
    ensures all { (s : State) (session tx c : ℕ) (t : Txn) → IsDecision s session tx t c → writes s (steps.Decide session) ≡ decision_record tx t c ∷ [] }
    ensures whose { (s : State) (session c : ℕ) → (step s (steps.Decide session)).0 ≡ answers.Committed c → (tx : ℕ) × (t : Txn) × IsDecision s session tx t c }
{}

/// RECORDS STAY. Along the run of a script the records of each turn stand behind those of the turns before it, and stay there for all
/// turns to come; so do the record of a vote and that of a decision.
pub fn records_stay()
    ensures turns { (k n : ℕ) (r : Run) → k < n → (later : List Written) × (written n r ≡ written k r ++ step_writes (after k r).state (next_step (after k r)) ++ later) }
    ensures votes { (k n session tx : ℕ) (t : Txn) (r : Run) → k < n → next_step (after k r) ≡ Some (steps.Prepare session) → IsVote (after k r).state session tx t → has_links (moved_of t) ≡ true
        → Contains (written n r) (vote_record tx t) }
    ensures decisions { (k n session tx c : ℕ) (t : Txn) (r : Run) → k < n → next_step (after k r) ≡ Some (steps.Decide session) → IsDecision (after k r).state session tx t c
        → Contains (written n r) (decision_record tx t c) }
{}

/// A VOTE HOLDS UNTIL ITS END. A vote leaves its transaction prepared, and a decision leaves it decided. Every other step leaves one
/// that has voted as it is, also a crash, but for those that may end it: Decide, Finish and Rollback of its session, and Resolve where no
/// session has it. All this time the area Links has its branch in doubt, with exactly the links that it gives and takes, and none where
/// these are none.
pub fn a_vote_holds_until_its_end()
    ensures voted { (s : State) (session tx : ℕ) (t : Txn) → IsVote s session tx t → maps.get (step s (steps.Prepare session)).1.txs tx ≡ Some (with_phase t phases.Prepared) }
    ensures decided { (s : State) (session tx c : ℕ) (t : Txn) → IsDecision s session tx t c → maps.get (step s (steps.Decide session)).1.txs tx ≡ Some (with_phase t phases.Decided) }
    ensures stays { (first : ℕ) (s : State) → HasHistory first s → (tx : ℕ) (t : Txn) → maps.get s.txs tx ≡ Some t → is_active t.phase ≡ false → (x : asked.Step) → may_end s x tx ≡ false
        → maps.get (step s x).1.txs tx ≡ Some t }
    ensures linked { (first : ℕ) (f : Folds) (s : State) → AreSound first f s → (tx : ℕ) (t : Txn) → maps.get s.txs tx ≡ Some t → is_active t.phase ≡ false → has_links (moved_of t) ≡ true
        → maps.get f.links.table tx ≡ Some (branch (moved_of t) branch_phases.Prepared) }
    ensures plain { (first : ℕ) (f : Folds) (s : State) → AreSound first f s → (tx : ℕ) (t : Txn) → maps.get s.txs tx ≡ Some t → is_active t.phase ≡ false → has_links (moved_of t) ≡ false
        → maps.get f.links.table tx ≡ None }
{}

/// COMMITS STAY. Along the run of a script commits are only added, so that the tables after each are the same in every later state:
/// also those after a commit that a Decide or a Restore was answered with, which were the committed tables behind that turn.
pub fn commits_stay()
    ensures more { (k n : ℕ) (r : Run) → k ≤ n → (more : List Commit) × ((after n r).state.commits ≡ (after k r).state.commits ++ more) }
    ensures tables { (k n c : ℕ) (r : Run) (tables : Tables) → k ≤ n → past [] (after k r).state.commits c ≡ Some tables → past [] (after n r).state.commits c ≡ Some tables }
    ensures decided { (k n session c : ℕ) (r : Run) → k < n → next_step (after k r) ≡ Some (steps.Decide session) → (step (after k r).state (steps.Decide session)).0 ≡ answers.Committed c
        → past [] (after n r).state.commits c ≡ Some (tables_of (after (k + 1) r).state) }
    ensures restored { (k n c : ℕ) (t : aims.Target) (lost : List cells.Lost) (r : Run) → k < n → next_step (after k r) ≡ Some (steps.Restore t) → (step (after k r).state (steps.Restore t)).0 ≡ answers.Restored c lost
        → past [] (after n r).state.commits c ≡ Some (tables_of (after (k + 1) r).state) }
{}

/// NUMBERS ARE NEW. The number that is drawn next is greater than each transaction number that there is: of commits, of transactions
/// that have not ended, of branches in Links, and in the numbers of links, be they of the tables after some commit or of a copy that is
/// not decided. A Begin answers it, and the commit of a restore has it. It is of the present opening of Rows, where one is left to draw.
/// No step sets the last number back, so each is above every number that was drawn before, also those of transactions that left nothing;
/// so it is along the run of a script, of which no line that is built stops the database. A stop of the database, and the next run over
/// areas that recover to a state, owe that no more than 2 ^ 32 numbers were drawn; fewer were in each state that is sound (`HasSessions`).
pub fn numbers_are_new()
    ensures fresh { (first : ℕ) (f : Folds) (s : State) → AreSound first f s → IsNew (number_of (drawing s)) f s }
    ensures begun { (s : State) (session n : ℕ) → (step s (steps.Begin session)).0 ≡ answers.Begun n → n ≡ number_of (drawing s) }
    ensures restored { (s : State) (t : aims.Target) (c : ℕ) (lost : List cells.Lost) → (step s (steps.Restore t)).0 ≡ answers.Restored c lost
        → (commit : Commit) × ((step s (steps.Restore t)).1.commits ≡ s.commits ++ commit ∷ []) × (c ≡ next_commit s) × (commit.tx ≡ number_of (drawing s)) }
    ensures present { (s : State) → s.drawn + 1 < 2 ^ 32 → number_of (drawing s) / 2 ^ 32 ≡ s.rows_opening }
    ensures onward { (s : State) (x : asked.Step) → (x ≡ steps.CrashDatabase → s.drawn ≤ 2 ^ 32) → number_of s ≤ number_of (step s x).1 }
    ensures last { (s : State) (x : asked.Step) (n : ℕ) → Draws s x n → number_of (step s x).1 ≡ n }
    ensures reopened { (given : options.Settings) (s : State) → s.drawn ≤ 2 ^ 32 → number_of s ≤ number_of (start given (stored s)) }
    ensures along { (k n : ℕ) (r : Run) → k ≤ n → number_of (after k r).state ≤ number_of (after n r).state }
    ensures following { (k n m p : ℕ) (x y : asked.Step) (r : Run) → k < n → next_step (after k r) ≡ Some x → next_step (after n r) ≡ Some y → Draws (after k r).state x m → Draws (after n r).state y p → m < p }
{}

/// WHAT IS REFUSED CHANGES NOTHING, and writes nothing, but for two. A statement that is refused in an active transaction adds to it the
/// tables that it names, alone. A Decide that is refused in a prepared transaction is its Conflict, and ends it: of a transaction that gives
/// or takes links, Aborted is written. Where the session has no transaction, or one in another phase, these two change nothing either.
pub fn what_is_refused_changes_nothing()
    ensures others { (s : State) (x : asked.Step) (why : refusals.Refusal) → (step s x).0 ≡ answers.Refused why → may_change s x ≡ false → ((step s x).1 ≡ s) × (writes s x ≡ []) }
    ensures statements { (s : State) (session tx : ℕ) (t : Txn) (stmt : said.Stmt) (why : refusals.Refusal) → txn_of s session ≡ Some (tx, t) → is_active t.phase ≡ true → (step s (steps.Statement session stmt)).0 ≡ answers.Refused why
        → ((step s (steps.Statement session stmt)).1 ≡ with_txn s tx (naming t stmt)) × (writes s (steps.Statement session stmt) ≡ []) }
    ensures decisions { (s : State) (session tx : ℕ) (t : Txn) (why : refusals.Refusal) → txn_of s session ≡ Some (tx, t) → is_prepared t.phase ≡ true → (step s (steps.Decide session)).0 ≡ answers.Refused why
        → IsConflict s t why × ((step s (steps.Decide session)).1 ≡ ended s session tx) × (writes s (steps.Decide session) ≡ aborted tx (moved_of t)) }
{}
