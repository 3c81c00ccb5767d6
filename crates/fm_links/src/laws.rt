// What claims by paths answer, and what becomes of them behind each step. The functions do nothing: they carry laws.
ghost use Rattle.std.specs.Prelude.{◌≡◌, ℕ, Bool, List, Some, None, not, false};
ghost use Rattle.std.specs.FinMap as maps;
ghost use Rattle.dl_base.specs.declared.file.FileCmd as cmds;
ghost use Rattle.dl_base.specs.declared.statement.Stmt as statements;
ghost use Rattle.dl_base.specs.declared.step.Phase.TheVariants as phases;
ghost use Rattle.dl_base.specs.declared.step.Settings as options;
ghost use Rattle.dl_base.specs.declared.step.Step.TheVariants as steps;
ghost use Rattle.dl_base.specs.declared.step.Target as aims;
ghost use Rattle.dl_base.specs.declared.value.LinkNo as numbers;
ghost use Rattle.dl_base.specs.declared.value.LinkRow as rows;
ghost use Rattle.meaning_areas.specs.Joint.{Joint};
ghost use Rattle.meaning_areas.specs.Lists.{Folds};
ghost use Rattle.meaning_areas.specs.Stands.{Stored};
ghost use Rattle.meaning_settling.specs.Keyed.{Keyed};
ghost use Rattle.meaning_settling.specs.Settling.{on};
ghost use Rattle.meaning_tables.specs.Links.{links};
ghost use Rattle.meaning_system.specs.Claims.{busy_on, claim_refusal, first_seen, not_among, statement};
ghost use Rattle.meaning_system.specs.Commands.{forbidding};
ghost use Rattle.meaning_system.specs.CoreOf.{core_of};
ghost use Rattle.meaning_system.specs.Machine.{drop_left, finish_left, is_left_in, start, step};
ghost use Rattle.meaning_system.specs.State.{State, Txn, is_active, is_decided, is_prepared, moved_of, tables_of, txn_of};
ghost use Rattle.dl_base.specs.Answers.{is_committed};
ghost use Rattle.meaning_history.specs.Sound.{AreSound};
ghost use Rattle.fm_links.specs.Claims.{PathClaim, without_claim};
ghost use Rattle.fm_links.specs.Guarding.{committed_on, guards, phase_in, unless_among};
ghost use Rattle.fm_links.specs.Searching.{AreClaims, busy_by};
ghost use Rattle.fm_links.specs.Stepping.{AreActive, AreAllActive, claimed_in, claims_of, replaced, staying, stays_bound, stays_resolved, unless, without_all};

/// The claim on a path says whether another transaction holds it. With the link that is held there and the phase of the claim's
/// transaction it says which links forbid commands on the file, and which committed link stands there beside some that are given.
pub fn claims_answer_as_a_search_does()
    ensures busy { (f : Folds) (s : State) (claims : Keyed PathClaim) (tx : ℕ) (path : List ℕ) → Joint f (core_of s) → AreClaims claims s → busy_on s tx path ≡ busy_by tx path (maps.get claims path) }
    ensures forbidding { (first : ℕ) (f : Folds) (s : State) (claims : Keyed PathClaim) (path : List ℕ) → AreSound first f s → AreClaims claims s
        → forbidding s path ≡ guards (maps.get f.links.held path) (maps.get claims path) (phase_in s (maps.get claims path)) }
    ensures linked { (first : ℕ) (f : Folds) (s : State) (claims : Keyed PathClaim) (gives : List rows.LinkRow) (path : List ℕ) → AreSound first f s → AreClaims claims s
        → on (not_among gives (links (tables_of s))) path ≡ unless_among gives (committed_on (maps.get f.links.held path) (maps.get claims path) (phase_in s (maps.get claims path))) }
{}

/// What becomes of claims behind the steps of a session. A transaction begins with none. A statement puts what it claims in the place
/// of what it had, which is no change where it claims the same; a vote and a commit change nothing, and what ends lets its claim go.
/// A claim that is accepted, and one of a transaction that is not active, is all that the transaction gives and takes.
pub fn claims_behind_steps_of_a_session()
    ensures begin { (first : ℕ) (f : Folds) (s : State) (claims : Keyed PathClaim) (session : ℕ) → AreSound first f s → AreClaims claims s → AreClaims claims (step s (steps.Begin session)).1 }
    ensures statement { (first : ℕ) (f : Folds) (s : State) (claims : Keyed PathClaim) (session tx : ℕ) (t : Txn) (stmt : statements.Stmt) → AreSound first f s → AreClaims claims s → txn_of s session ≡ Some (tx, t) → t.phase ≡ phases.Active
        → AreClaims (replaced tx (claimed_in s t) (claimed_in s (statement s tx t stmt).1) claims) (step s (steps.Statement session stmt)).1 }
    ensures kept { (first : ℕ) (f : Folds) (s : State) (claims : Keyed PathClaim) (session tx : ℕ) (t : Txn) (stmt : statements.Stmt) → AreSound first f s → AreClaims claims s → txn_of s session ≡ Some (tx, t) → t.phase ≡ phases.Active
        → claimed_in s (statement s tx t stmt).1 ≡ claimed_in s t → AreClaims claims (step s (steps.Statement session stmt)).1 }
    ensures accepted { (s : State) (tx : ℕ) (after : Txn) → claim_refusal s tx after ≡ None → (claimed_in s after ≡ moved_of after) × (claimed_in s (record after { seen = first_seen after.seen s.links_opening }) ≡ moved_of after) }
    ensures bound { (s : State) (t : Txn) → is_active t.phase ≡ false → claimed_in s t ≡ moved_of t }
    ensures prepare { (first : ℕ) (f : Folds) (s : State) (claims : Keyed PathClaim) (session : ℕ) → AreSound first f s → AreClaims claims s → AreClaims claims (step s (steps.Prepare session)).1 }
    ensures decide { (first : ℕ) (f : Folds) (s : State) (claims : Keyed PathClaim) (session tx : ℕ) (t : Txn) → AreSound first f s → AreClaims claims s → txn_of s session ≡ Some (tx, t) → t.phase ≡ phases.Prepared
        → AreClaims (unless (is_committed (step s (steps.Decide session)).0) (moved_of t) claims) (step s (steps.Decide session)).1 }
    ensures finish { (first : ℕ) (f : Folds) (s : State) (claims : Keyed PathClaim) (session tx : ℕ) (t : Txn) → AreSound first f s → AreClaims claims s → txn_of s session ≡ Some (tx, t) → t.phase ≡ phases.Decided
        → AreClaims (without_claim (moved_of t) claims) (step s (steps.Finish session)).1 }
    ensures rollback { (first : ℕ) (f : Folds) (s : State) (claims : Keyed PathClaim) (session tx : ℕ) (t : Txn) → AreSound first f s → AreClaims claims s → txn_of s session ≡ Some (tx, t) → is_decided t.phase ≡ false
        → AreClaims (without_claim (claimed_in s t) claims) (step s (steps.Rollback session)).1 }
{}

/// Steps that touch no transaction leave claims as they are. A restore is let through where there is no transaction.
pub fn claims_behind_other_steps()
    ensures file { (claims : Keyed PathClaim) (s : State) (cmd : cmds.FileCmd) → AreClaims claims s → AreClaims claims (step s (steps.File cmd)).1 }
    ensures archive { (claims : Keyed PathClaim) (s : State) (n : numbers.LinkNo) → AreClaims claims s → AreClaims claims (step s (steps.Archive n)).1 }
    ensures backup { (claims : Keyed PathClaim) (s : State) → AreClaims claims s → AreClaims claims (step s steps.Backup).1 }
    ensures restore { (claims : Keyed PathClaim) (s : State) (target : aims.Target) → AreClaims claims s → AreClaims claims (step s (steps.Restore target)).1 }
    ensures tick { (claims : Keyed PathClaim) (s : State) (n : ℕ) → AreClaims claims s → AreClaims claims (step s (steps.Tick n)).1 }
{}

/// What becomes of claims where a side stops, at a start, and where Resolve ends transactions. A run begins without claims. Behind a
/// stop of either side those of prepared and decided transactions stay, as where each active one lets its claim go; and behind Resolve
/// those that it leaves, where each transaction that it finishes or drops lets its claim go.
pub fn claims_behind_stops()
    ensures start { (given : options.Settings) (x : Stored) → AreClaims maps.empty (start given x) }
    ensures staying { (stays : ℕ → Bool) (claims : Keyed PathClaim) (path : List ℕ) → maps.get (claims_of stays claims) path ≡ staying stays (maps.get claims path) }
    ensures manager { (first : ℕ) (f : Folds) (s : State) (claims later : Keyed PathClaim) → AreSound first f s → AreClaims claims s → ((path : List ℕ) → maps.get later path ≡ staying (stays_bound s) (maps.get claims path))
        → AreClaims later (step s steps.CrashManager).1 }
    ensures database { (first : ℕ) (f : Folds) (s : State) (claims later : Keyed PathClaim) → AreSound first f s → AreClaims claims s → ((path : List ℕ) → maps.get later path ≡ staying (stays_bound s) (maps.get claims path))
        → AreClaims later (step s steps.CrashDatabase).1 }
    ensures forgotten { (f : Folds) (s : State) (claims : Keyed PathClaim) (es : List (ℕ × Txn)) (path : List ℕ) → Joint f (core_of s) → AreClaims claims s → AreActive s es → AreAllActive s es
        → maps.get (without_all s es claims) path ≡ staying (stays_bound s) (maps.get claims path) }
    ensures resolve { (first : ℕ) (f : Folds) (s : State) (claims later : Keyed PathClaim) → AreSound first f s → AreClaims claims s → ((path : List ℕ) → maps.get later path ≡ staying (stays_resolved s) (maps.get claims path))
        → AreClaims later (step s steps.Resolve).1 }
    ensures finished { (f : Folds) (s : State) (claims : Keyed PathClaim) (tx : ℕ) (t : Txn) → Joint f (core_of s) → AreClaims claims s → maps.get s.txs tx ≡ Some t
        → AreClaims (unless (not (is_left_in s is_decided (tx, t))) (moved_of t) claims) (finish_left s tx (maps.get s.txs tx)) }
    ensures dropped { (f : Folds) (s : State) (claims : Keyed PathClaim) (tx : ℕ) (t : Txn) → Joint f (core_of s) → AreClaims claims s → maps.get s.txs tx ≡ Some t
        → AreClaims (unless (not (is_left_in s is_prepared (tx, t))) (moved_of t) claims) (drop_left s tx (maps.get s.txs tx)) }
{}
