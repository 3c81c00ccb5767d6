// What the machine's steps do to its stored part, and how lists go with it. The functions do nothing: they carry laws.
ghost use Rattle.std.specs.Prelude.{◌≡◌, ◌≢◌, ℕ, ◌+◌, ◌*◌, ◌^◌, ◌<◌, Bool, true, false, List, [], ◌∷◌, ◌++◌, length, map, Some, None};
ghost use Rattle.std.specs.FinMap as maps;
ghost use Rattle.dl_base.specs.declared.file.File as stored_files;
ghost use Rattle.dl_base.specs.declared.file.FileCmd as cmds;
ghost use Rattle.dl_base.specs.declared.file.FileWhat.TheVariants as whats;
ghost use Rattle.dl_base.specs.declared.statement.Stmt as statements;
ghost use Rattle.dl_base.specs.declared.step.Phase.TheVariants as phases;
ghost use Rattle.dl_base.specs.declared.step.Settings as options;
ghost use Rattle.dl_base.specs.declared.step.Step as asked;
ghost use Rattle.dl_base.specs.declared.step.Step.TheVariants as steps;
ghost use Rattle.dl_base.specs.declared.step.Target as aims;
ghost use Rattle.dl_base.specs.declared.value.LinkNo as numbers;
ghost use Rattle.dl_codec.specs.declared.backups.BackupRecord.TheVariants as backup_records;
ghost use Rattle.dl_codec.specs.declared.links.BranchPhase.TheVariants as branch_phases;
ghost use Rattle.meaning_areas.specs.Branches.{branch};
ghost use Rattle.meaning_areas.specs.Commits.{tables_after};
ghost use Rattle.meaning_areas.specs.Copies.{Backup, backups_step};
ghost use Rattle.meaning_areas.specs.Core.{core_stored};
ghost use Rattle.meaning_areas.specs.Joint.{Joint};
ghost use Rattle.meaning_areas.specs.Lists.{Folds};
ghost use Rattle.meaning_areas.specs.Moving.{core_decided, with_decision, with_finish, with_links_opening, with_rows_opening, with_table};
ghost use Rattle.meaning_areas.specs.Stands.{AreDrawn, IsStand, IsWhole, Stored, kept_of, txs_of};
ghost use Rattle.meaning_files.specs.Commands.{command_changes};
ghost use Rattle.meaning_files.specs.Files.{Files, with_changes};
ghost use Rattle.meaning_merge.specs.Merging.{AreNamed};
ghost use Rattle.meaning_settling.specs.Apart.{Apart, IsReady};
ghost use Rattle.meaning_settling.specs.Settled.{AreApart, AreDistinct};
ghost use Rattle.meaning_settling.specs.Settling.{held_after, on};
ghost use Rattle.meaning_tables.specs.Fits.{fits};
ghost use Rattle.meaning_tables.specs.Links.{links};
ghost use Rattle.meaning_tables.specs.Tables.{Tables};
ghost use Rattle.meaning_system.specs.Claims.{claim_refusal, statement};
ghost use Rattle.meaning_system.specs.Commands.{command_refusal};
ghost use Rattle.meaning_system.specs.CoreOf.{HasClaims, core_of, work_by, work_of};
ghost use Rattle.meaning_system.specs.Following.{AreClaimed, AreInSessions, AreMerged, AreRestored, AreRising, Follows, HasOwnNumbers, HasSessions, HaveFiles, HaveFits, HaveNumbers, HaveRows, Leads};
ghost use Rattle.meaning_system.specs.Machine.{begun, by_refusal, commit_by, committed, crash_database, crash_manager, resolve, settled_by, start, step, with_phase};
ghost use Rattle.meaning_system.specs.State.{State, Txn, decided_in, ended, has_links, moved_of, number_of, settle, stored, tables_of, with_txn};
ghost use Rattle.meaning_system.specs.Writes.{image_of, writes};

/// The stored part of a state is that of its core, and lists that go with the core stand for it.
pub fn a_state_and_its_core_have_one_stored_part()
    ensures same { (s : State) → stored s ≡ core_stored (core_of s) }
    ensures stand { (f : Folds) (s : State) → Joint f (core_of s) → IsStand f (stored s) }
{}

/// A state that is settled has the same stored part as before.
pub fn settling_leaves_the_stored_part()
    ensures { (s : State) → stored (settle s) ≡ stored s }
{}

/// Resolve leaves the stored part as it was: what it settles and what it drops is what settling would.
pub fn resolve_leaves_the_stored_part()
    ensures { (s : State) → AreApart (decided_in s) (txs_of s.commits) → AreDistinct (txs_of s.commits) → stored (resolve s).1 ≡ stored s }
{}

/// Lists that go with a state go, with the records that a step writes, with the state after it.
pub fn steps_keep_lists_with_their_state()
    ensures begin { (f : Folds) (s : State) (session : ℕ) → Joint f (core_of s) → number_of s + 1 < (s.rows_opening + 1) * 2 ^ 32 → Joint f (core_of (begun s session).1) }
    ensures prepare { (f : Folds) (s : State) (tx : ℕ) (t : Txn) → Joint f (core_of s) → maps.get s.txs tx ≡ Some t → work_of s t ≡ work_by phases.Active (moved_of t) → has_links (moved_of t) ≡ true
        → AreDrawn f.rows.opening (moved_of t).gives → AreDrawn f.rows.opening (moved_of t).takes
        → Joint (with_table f (maps.insert f.links.table tx (branch (moved_of t) branch_phases.Prepared))) (core_of (with_txn s tx (with_phase t phases.Prepared))) }
    ensures prepare_without_links { (f : Folds) (s : State) (tx : ℕ) (t : Txn) → Joint f (core_of s) → maps.get s.txs tx ≡ Some t → work_of s t ≡ work_by phases.Active (moved_of t) → has_links (moved_of t) ≡ false
        → Joint f (core_of (with_txn s tx (with_phase t phases.Prepared))) }
    ensures abort { (f : Folds) (s : State) (session tx : ℕ) (t : Txn) → Joint f (core_of s) → maps.get s.txs tx ≡ Some t → work_of s t ≡ work_by phases.Prepared (moved_of t) → has_links (moved_of t) ≡ true
        → Joint (with_table f (maps.insert f.links.table tx (branch (moved_of t) branch_phases.Aborted))) (core_of (ended s session tx)) }
    ensures decide { (f : Folds) (s : State) (tx : ℕ) (t : Txn) → Joint f (core_of s) → maps.get s.txs tx ≡ Some t → work_of s t ≡ work_by phases.Prepared (moved_of t)
        → (commit_by s tx t).gives ≡ (moved_of t).gives → (commit_by s tx t).takes ≡ (moved_of t).takes
        → ((p : List ℕ) → on (links (commit_by s tx t).tables) p ≡ held_after (moved_of t) p (on (links (tables_after [] f.rows.commits)) p))
        → IsReady (moved_of t) (kept_of f) → AreDrawn f.rows.opening (links (commit_by s tx t).tables) → IsWhole (core_stored (core_decided (core_of s) (commit_by s tx t) (work_by phases.Prepared (moved_of t))))
        → Joint (with_decision f (commit_by s tx t)) (core_of (committed s tx t)) }
    ensures finish { (f : Folds) (s : State) (session tx : ℕ) (t : Txn) → Joint f (core_of s) → maps.get s.txs tx ≡ Some t → work_of s t ≡ work_by phases.Decided (moved_of t) → has_links (moved_of t) ≡ true
        → Joint (with_finish f tx (moved_of t)) (core_of (ended (settled_by s t) session tx)) }
    ensures manager { (f : Folds) (s : State) → HasClaims s → Joint f (core_of s) → Joint (with_links_opening f) (core_of (crash_manager s)) }
    ensures database { (f : Folds) (s : State) → HasClaims s → Joint f (core_of s) → Joint (with_rows_opening f) (core_of (crash_database s)) }
{}

/// The fold of Files takes the changes of an accepted command, which lead to the machine's files behind it, and what they are for each
/// command. The fold of Backups takes a backup of tables that have different names and row numbers that rise.
pub fn commands_and_backups_are_taken()
    ensures commands { (s : State) (cmd : cmds.FileCmd) → command_refusal s cmd.user cmd.what ≡ None → with_changes s.files (command_changes s.files cmd.user cmd.what) ≡ Some (by_refusal s cmd None).1.files }
    ensures written { (files : Files) (user path bytes : List ℕ) (f : stored_files.File) → maps.get files path ≡ Some f → with_changes files (command_changes files user (whats.Write path bytes)) ≡ Some (maps.insert files path (record { owner = f.owner; bytes = bytes; before = f.before })) }
    ensures deleted { (files : Files) (user path : List ℕ) (f : stored_files.File) → maps.get files path ≡ Some f → with_changes files (command_changes files user (whats.Delete path)) ≡ Some (maps.remove files path) }
    ensures renamed { (files : Files) (user path to : List ℕ) (f : stored_files.File) → maps.get files path ≡ Some f → with_changes files (command_changes files user (whats.Rename path to)) ≡ Some (maps.insert (maps.remove files path) to f) }
    ensures owned { (files : Files) (user path : List ℕ) (f : stored_files.File) (on : Bool) → maps.get files path ≡ Some f
        → with_changes files (command_changes files user (whats.Chmod path on)) ≡ Some (maps.insert files path (record { owner = record { name = f.owner.name; writable = on }; bytes = f.bytes; before = f.before })) }
    ensures backups { (backups : List Backup) (commit : ℕ) (tables : Tables) → AreNamed tables → AreRising tables
        → backups_step backups (backup_records.Backup (length backups + 1) commit (map image_of tables)) ≡ Some (backups ++ record { commit = commit; tables = tables } ∷ []) }
{}

/// THE RECORDS OF A STEP lead from lists that follow a state to lists that follow the state behind the step: all are taken, in order.
/// What a Decide and a Restore owe to the history behind a commit is a premise: `AreMerged`, and `AreRestored`.
pub fn records_of_a_step_lead_to_its_lists()
    ensures begin { (f : Folds) (s : State) (session : ℕ) → Follows f s → number_of s + 1 < (s.rows_opening + 1) * 2 ^ 32 → Leads f (writes s (steps.Begin session)) (step s (steps.Begin session)).1 }
    ensures statement { (f : Folds) (s : State) (session : ℕ) (stmt : statements.Stmt) → Follows f s → Leads f (writes s (steps.Statement session stmt)) (step s (steps.Statement session stmt)).1 }
    ensures prepare { (f : Folds) (s : State) (session : ℕ) → Follows f s → AreClaimed s → Leads f (writes s (steps.Prepare session)) (step s (steps.Prepare session)).1 }
    ensures decide { (f : Folds) (s : State) (session : ℕ) → Follows f s → HasSessions s → AreMerged s → Leads f (writes s (steps.Decide session)) (step s (steps.Decide session)).1 }
    ensures finish { (f : Folds) (s : State) (session : ℕ) → Follows f s → HaveNumbers s → Leads f (writes s (steps.Finish session)) (step s (steps.Finish session)).1 }
    ensures rollback { (f : Folds) (s : State) (session : ℕ) → Follows f s → Leads f (writes s (steps.Rollback session)) (step s (steps.Rollback session)).1 }
    ensures file { (f : Folds) (s : State) (cmd : cmds.FileCmd) → Follows f s → fits (tables_of s) ≡ true → HaveRows s → Leads f (writes s (steps.File cmd)) (step s (steps.File cmd)).1 }
    ensures archive { (f : Folds) (s : State) (n : numbers.LinkNo) → Follows f s → fits (tables_of s) ≡ true → Leads f (writes s (steps.Archive n)) (step s (steps.Archive n)).1 }
    ensures backup { (f : Folds) (s : State) → Follows f s → AreNamed (tables_of s) → AreRising (tables_of s) → Leads f (writes s steps.Backup) (step s steps.Backup).1 }
    ensures restore { (f : Folds) (s : State) (t : aims.Target) → Follows f s → AreInSessions s → s.drawn + 1 < 2 ^ 32 → AreRestored s t → Leads f (writes s (steps.Restore t)) (step s (steps.Restore t)).1 }
    ensures tick { (f : Folds) (s : State) (n : ℕ) → Follows f s → Leads f (writes s (steps.Tick n)) (step s (steps.Tick n)).1 }
    ensures manager { (f : Folds) (s : State) → Follows f s → HasClaims s → Leads f (writes s steps.CrashManager) (step s steps.CrashManager).1 }
    ensures database { (f : Folds) (s : State) → Follows f s → HasClaims s → Leads f (writes s steps.CrashDatabase) (step s steps.CrashDatabase).1 }
    ensures resolve { (f : Folds) (s : State) → Follows f s → HaveNumbers s → Leads f (writes s steps.Resolve) (step s steps.Resolve).1 }
{}

/// Each step keeps three invariants, and a state with which a run begins has them. Transactions are live, one without an accepted claim
/// has no links, and no later opening was seen; the transactions of sessions are of the present opening of Rows; and each active one
/// is a session's.
pub fn steps_keep_claims_and_sessions()
    ensures claims { (s : State) (x : asked.Step) → HasClaims s → HasClaims (step s x).1 }
    ensures sessions { (s : State) (x : asked.Step) → HasSessions s → s.drawn + 1 < 2 ^ 32 → HasSessions (step s x).1 }
    ensures active { (s : State) (x : asked.Step) → HasClaims s → AreInSessions s → AreInSessions (step s x).1 }
    ensures start { (given : options.Settings) (x : Stored) → HasClaims (start given x) × HasSessions (start given x) × AreInSessions (start given x) }
{}

/// Each step keeps that the committed tables fit, and those at each transaction's begin, where a commit and a restore lead to tables
/// that do. Then the links that a transaction gives have different numbers.
pub fn steps_keep_tables_fitting()
    ensures kept { (s : State) (x : asked.Step) → HaveFits s → AreMerged s → ((t : aims.Target) → AreRestored s t) → HaveFits (step s x).1 }
    ensures numbers { (s : State) → HaveFits s → HaveNumbers s }
{}

/// Each step keeps that what prepared transactions take has files: a vote asks for them, and no command, no Finish of another transaction
/// and no restore removes one.
pub fn steps_keep_files_of_prepared_transactions()
    ensures { (f : Folds) (s : State) (x : asked.Step) → Follows f s → HaveNumbers s → HasClaims s → HaveFiles s → HaveFiles (step s x).1 }
{}

/// An accepted claim has no path of another transaction that is not doomed, and so nothing of it where its link numbers are its own.
pub fn accepted_claims_are_apart()
    ensures { (s : State) (tx : ℕ) (t : Txn) → claim_refusal s tx t ≡ None → HasOwnNumbers s tx t → (u : ℕ) (v : Txn) → u ≢ tx → maps.get s.txs u ≡ Some v → Apart (moved_of t) (work_of s v).moved }
{}
