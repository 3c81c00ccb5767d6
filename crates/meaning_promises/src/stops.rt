// What moves the clock, and what stops of one side and Resolve leave. The functions do nothing: they carry laws.
ghost use Rattle.std.specs.Prelude.{◌≡◌, ℕ, ◌+◌, ◌^◌, ◌<◌, ◌≤◌, true, false, [], ◌∷◌, Some, None};
ghost use Rattle.std.specs.FinMap as maps;
ghost use Rattle.dl_base.specs.declared.answer.Answer.TheVariants as answers;
ghost use Rattle.dl_base.specs.declared.step.Step as asked;
ghost use Rattle.dl_base.specs.declared.step.Step.TheVariants as steps;
ghost use Rattle.dl_codec.specs.declared.links.LinksRecord.TheVariants as links_records;
ghost use Rattle.dl_codec.specs.declared.rows.RowsRecord.TheVariants as rows_records;
ghost use Rattle.meaning_areas.specs.Lists.{Folds, in_links, in_rows};
ghost use Rattle.meaning_history.specs.Sound.{AreSound};
ghost use Rattle.meaning_system.specs.CoreOf.{HasClaims};
ghost use Rattle.meaning_system.specs.Machine.{step};
ghost use Rattle.meaning_system.specs.State.{State, Txn, is_active, is_doomed, txn_of};
ghost use Rattle.meaning_system.specs.Writes.{writes};
ghost use Rattle.meaning_promises.specs.Stops.{AreSoMany, HasSameDatabase, HasSameManager, IsAlone, is_tick};

/// ONLY A TICK MOVES THE CLOCK, and never back. Every other step leaves it, also a stop of either side and Resolve, so a token that has
/// expired is not good again. No step changes the settings.
pub fn only_a_tick_moves_the_clock()
    ensures clock { (s : State) (x : asked.Step) → is_tick x ≡ false → (step s x).1.moment ≡ s.moment }
    ensures settings { (s : State) (x : asked.Step) → (step s x).1.settings ≡ s.settings }
    ensures onward { (s : State) (x : asked.Step) → s.moment < 2 ^ 64 → (s.moment ≤ (step s x).1.moment) × ((step s x).1.moment < 2 ^ 64) }
{}

/// A STOP LEAVES THE OTHER SIDE. A stop of the file manager leaves all that the database has, also sessions and their transactions, and
/// files and copies; each active transaction that has claimed is doomed. It writes one Opening in Links, of the next number, so Rows and
/// Backups stay.
/// A stop of the database leaves all that the file manager has, also the transactions that have voted, and commits and backups; no
/// session is left, and no active transaction. It writes one Opening in Rows, of the next number, so Links, Files and Archive stay.
pub fn a_stop_leaves_the_other_side()
    ensures manager { (s : State) → HasSameDatabase s (step s steps.CrashManager).1 }
    ensures manager_keeps { (s : State) → ((step s steps.CrashManager).1.files ≡ s.files) × ((step s steps.CrashManager).1.copies ≡ s.copies) }
    ensures manager_writes { (s : State) → writes s steps.CrashManager ≡ in_links (links_records.Opening (step s steps.CrashManager).1.links_opening) ∷ [] }
    ensures manager_opens { (s : State) → (step s steps.CrashManager).1.links_opening ≡ s.links_opening + 1 }
    ensures doomed { (s : State) → HasClaims s → (tx n : ℕ) (t : Txn) → maps.get s.txs tx ≡ Some t → is_active t.phase ≡ true → t.seen ≡ Some n → is_doomed (step s steps.CrashManager).1 t ≡ true }
    ensures database { (s : State) → HasSameManager s (step s steps.CrashDatabase).1 }
    ensures database_keeps { (s : State) → ((step s steps.CrashDatabase).1.commits ≡ s.commits) × ((step s steps.CrashDatabase).1.backups ≡ s.backups) }
    ensures database_writes { (s : State) → writes s steps.CrashDatabase ≡ in_rows (rows_records.Opening (step s steps.CrashDatabase).1.rows_opening) ∷ [] }
    ensures database_opens { (s : State) → (step s steps.CrashDatabase).1.rows_opening ≡ s.rows_opening + 1 }
    ensures sessions { (s : State) (session : ℕ) → maps.get (step s steps.CrashDatabase).1.sessions session ≡ None }
    ensures active { (s : State) (tx : ℕ) (t : Txn) → maps.get (step s steps.CrashDatabase).1.txs tx ≡ Some t → (maps.get s.txs tx ≡ Some t) × (is_active t.phase ≡ false) }
{}

/// A RESOLVE ENDS WHAT NO SESSION HAS. Each session has the transaction that it had, in the same phase, with the same claims. The answer
/// tells how many transactions without a session were decided, and how many were not. Behind it each transaction is one of a session, as
/// it was. What commits, files and copies are then is what a reopening leaves (`resolve_leaves_the_stored_part` of `meaning_system`).
pub fn a_resolve_ends_what_no_session_has()
    ensures sessions { (s : State) (session : ℕ) → (maps.get (step s steps.Resolve).1.sessions session ≡ maps.get s.sessions session) × (txn_of (step s steps.Resolve).1 session ≡ txn_of s session) }
    ensures counts { (first : ℕ) (f : Folds) (s : State) → AreSound first f s → (c : ℕ) × (d : ℕ) × ((step s steps.Resolve).0 ≡ answers.Resolved c d) × AreSoMany c (IsAlone s true) × AreSoMany d (IsAlone s false) }
    ensures left { (first : ℕ) (f : Folds) (s : State) → AreSound first f s → (tx : ℕ) (t : Txn) → maps.get (step s steps.Resolve).1.txs tx ≡ Some t
        → (session : ℕ) × (maps.get s.sessions session ≡ Some tx) × (maps.get s.txs tx ≡ Some t) }
{}
