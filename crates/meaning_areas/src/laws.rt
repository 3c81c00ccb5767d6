// What areas stand for, and how the steps of the machine keep it. The functions do nothing: they carry laws.
ghost use Rattle.std.specs.Prelude.{◌≡◌, ℕ, ◌+◌, ◌*◌, ◌^◌, ◌<◌, true, false, List, [], ◌∷◌, ◌++◌, Some, None, is_some, Ok};
ghost use Rattle.std.specs.Bool.{Decides};
ghost use Rattle.std.specs.FinMap as maps;
ghost use Rattle.std.specs.List.{list_any};
ghost use Rattle.dl_base.specs.declared.area.Area as kinds;
ghost use Rattle.dl_base.specs.declared.file.File as files;
ghost use Rattle.dl_base.specs.declared.value.LinkRow as rows;
ghost use Rattle.dl_codec.specs.declared.archive.ArchiveRecord.TheVariants as archive_records;
ghost use Rattle.dl_codec.specs.declared.links.BranchPhase.TheVariants as phases;
ghost use Rattle.dl_codec.specs.declared.links.LinksRecord.TheVariants as links_records;
ghost use Rattle.dl_codec.specs.declared.links.Taken as taking;
ghost use Rattle.dl_codec.specs.declared.rows.RowsRecord.TheVariants as rows_records;
ghost use Rattle.meaning_files.specs.Files.{Files};
ghost use Rattle.meaning_settling.specs.Apart.{IsReady, has_path};
ghost use Rattle.meaning_settling.specs.Keyed.{is_at};
ghost use Rattle.meaning_settling.specs.Settled.{AreApart, AreDistinct};
ghost use Rattle.meaning_settling.specs.Settling.{Copies, Kept, Moved, copy_of, held_after, link_key, on, settle_one};
ghost use Rattle.meaning_tables.specs.Links.{links};
ghost use Rattle.meaning_tables.specs.Tables.{Rows, Tables};
ghost use Rattle.meaning_areas.specs.Areas.{Areas, AreasStand, ComparesAt, StandForNothing, rows_of};
ghost use Rattle.meaning_areas.specs.Branches.{Branches, branch, links_step, with_branch};
ghost use Rattle.meaning_areas.specs.Commits.{Commit, Commits, HaveMoved, commit_of, commit_to, has_number, rows_step, tables_after, with_ended};
ghost use Rattle.meaning_areas.specs.Copies.{Backup, copies_step};
ghost use Rattle.meaning_areas.specs.Core.{Core, Work, active, core_stored, decided, decided_in, prepared};
ghost use Rattle.meaning_areas.specs.Finishing.{AreNumbered, file_copy, finish_records, next_record};
ghost use Rattle.meaning_areas.specs.Joint.{Joint};
ghost use Rattle.meaning_areas.specs.Lists.{Folds, folds_on, in_links, in_rows};
ghost use Rattle.meaning_areas.specs.Merges.{Merges};
ghost use Rattle.meaning_areas.specs.Moving.{IsClaim, Stays, at_stage, core_at, core_backed_up, core_begun, core_database, core_decided, core_finished, core_kept_as, core_manager, core_opened, core_restored, with_backup, with_decision, with_finish, with_kept, with_links_opening, with_rows_opening, with_table};
ghost use Rattle.meaning_areas.specs.Same.{same_link, same_rows, same_tables};
ghost use Rattle.meaning_areas.specs.Stands.{AreDrawn, Compares, IsStand, IsWhole, Stored, kept_of, open_in, past, stored_of, stored_with, txs_of};

/// The lists stand for something exactly where each area compares, and the areas for one stored part at most, or for nothing.
pub fn areas_stand_where_all_compares()
    ensures compares { (f : Folds) (s : Stored) (area : kinds.Area) → IsStand f s → ComparesAt f area }
    ensures stands { (f : Folds) → ((area : kinds.Area) → ComparesAt f area) → IsStand f (stored_of f) }
    ensures one { (x : Areas) (s t : Stored) → AreasStand x s → AreasStand x t → s ≡ t }
    ensures nothing { (x : Areas) (s : Stored) (at : kinds.Area × ℕ) → AreasStand x s → StandForNothing x at → ⊥ }
{}

/// What needs no test. A list of Rows that is taken has one commit of a transaction at most, and each has the links that it took away
/// and added.
pub fn commits_have_what_they_moved()
    ensures { (bodies : List (List ℕ)) (r : Commits) → rows_of bodies ≡ Ok r → AreDistinct (txs_of r.commits) × HaveMoved [] r.commits }
{}

/// Branches in doubt that have a commit, and transactions that are decided, have nothing in common: they are on different paths, and a
/// link number has one path in all commits.
pub fn what_is_committed_is_apart()
    ensures branches { (f : Folds) (s : Stored) → IsStand f s → AreApart (open_in f.links) (txs_of f.rows.commits) }
    ensures works { (f : Folds) (c : Core) → Joint f c → AreApart (decided_in c) (txs_of c.commits) }
{}

/// ONE APPEND. For a committed branch in doubt the lists take the first record of its Finish that is not there, also the Ended
/// behind its Done; for one that is not committed, its Aborted. They stand for the same as before.
pub fn one_more_record_changes_nothing()
    ensures committed { (f : Folds) (s : Stored) (tx : ℕ) (m : Moved) → IsStand f s → is_some (commit_of tx f.rows.commits) ≡ true → maps.get f.links.table tx ≡ Some (branch m phases.Prepared)
        → (later : Folds) × Stays f later (in_links (links_records.Committed tx)) s }
    ensures next { (f : Folds) (s : Stored) (tx : ℕ) (m : Moved) → IsStand f s → is_some (commit_of tx f.rows.commits) ≡ true → maps.get f.links.table tx ≡ Some (branch m phases.Committed)
        → (later : Folds) × Stays f later (next_record tx m (kept_of f)) s }
    ensures ended { (f : Folds) (s : Stored) (tx : ℕ) (m : Moved) (c : Commit) → IsStand f s → commit_of tx f.rows.commits ≡ Some c → c.branch ≡ true → maps.get f.links.table tx ≡ Some (branch m phases.Done) → has_number tx f.rows.ended ≡ false
        → (later : Folds) × Stays f later (in_rows (rows_records.Ended tx)) s }
    ensures aborted { (f : Folds) (s : Stored) (tx : ℕ) (m : Moved) → IsStand f s → commit_of tx f.rows.commits ≡ None → maps.get f.links.table tx ≡ Some (branch m phases.Prepared)
        → (later : Folds) × Stays f later (in_links (links_records.Aborted tx)) s }
{}

/// The records of a whole Finish lead to the lists behind it, which go with the core behind it.
pub fn records_of_a_finish_settle()
    ensures { (f : Folds) (c : Core) (tx : ℕ) (w : Work) → Joint f c → c.works tx ≡ Some w → w.stage ≡ decided → w.branch ≡ true → maps.get f.links.table tx ≡ Some (branch w.moved phases.Prepared) → AreNumbered w.moved.gives
        → (folds_on (Some f) (finish_records tx phases.Prepared w.moved (kept_of f)) ≡ Some (with_finish f tx w.moved)) × Joint (with_finish f tx w.moved) (core_finished c tx w.moved) }
{}

/// Lists that go with a core stand for its stored part; and lists that stand for something go with the core of an opening.
pub fn lists_stand_for_their_core()
    ensures stand { (f : Folds) (c : Core) → Joint f c → IsStand f (core_stored c) }
    ensures opened { (f : Folds) → Compares f → IsWhole (stored_of f) → Joint f (core_opened f) }
    ensures stored { (f : Folds) → Compares f → IsWhole (stored_of f) → core_stored (core_opened f) ≡ stored_of f }
{}

/// What each step does to lists and core keeps that they go with each other.
pub fn steps_keep_lists_with_their_core()
    ensures begun { (f : Folds) (c : Core) → Joint f c → c.drawn + 1 < (c.rows_opening + 1) * 2 ^ 32 → Joint f (core_begun c) }
    ensures prepared { (f : Folds) (c : Core) (tx : ℕ) (w : Work) → Joint f c → c.works tx ≡ Some w → w.stage ≡ active → w.branch ≡ true → AreDrawn f.rows.opening w.moved.gives → AreDrawn f.rows.opening w.moved.takes
        → Joint (with_table f (maps.insert f.links.table tx (branch w.moved phases.Prepared))) (core_at c tx (Some (at_stage prepared w))) }
    ensures voted { (f : Folds) (c : Core) (tx : ℕ) (w : Work) → Joint f c → c.works tx ≡ Some w → w.stage ≡ active → w.branch ≡ false → Joint f (core_at c tx (Some (at_stage prepared w))) }
    ensures aborted { (f : Folds) (c : Core) (tx : ℕ) (w : Work) → Joint f c → c.works tx ≡ Some w → w.stage ≡ prepared → w.branch ≡ true
        → Joint (with_table f (maps.insert f.links.table tx (branch w.moved phases.Aborted))) (core_at c tx None) }
    ensures ended { (f : Folds) (c : Core) (tx : ℕ) (w : Work) → Joint f c → c.works tx ≡ Some w → w.stage ≡ decided → w.branch ≡ false → Joint f (core_at c tx None) }
    ensures decided { (f : Folds) (c : Core) (d : Commit) (w : Work) → Joint f c → c.works d.tx ≡ Some w → w.stage ≡ prepared → d ≡ commit_to c.commits d.tx w.branch d.tables → d.gives ≡ w.moved.gives → d.takes ≡ w.moved.takes
        → ((p : List ℕ) → on (links d.tables) p ≡ held_after w.moved p (on (links (tables_after [] f.rows.commits)) p)) → IsReady w.moved (kept_of f) → AreDrawn f.rows.opening (links d.tables) → IsWhole (core_stored (core_decided c d w))
        → Joint (with_decision f d) (core_decided c d w) }
    ensures finished { (f : Folds) (c : Core) (tx : ℕ) (w : Work) → Joint f c → c.works tx ≡ Some w → w.stage ≡ decided → w.branch ≡ true → Joint (with_finish f tx w.moved) (core_finished c tx w.moved) }
    ensures kept { (f : Folds) (c : Core) (files : Files) (copies : Copies) → Joint f c → ((t : ℕ) (m : Moved) → decided_in c t ≡ Some m → IsReady m (kept_of (with_kept f files copies))) → IsWhole (core_stored (core_kept_as c files copies))
        → Joint (with_kept f files copies) (core_kept_as c files copies) }
    ensures backed_up { (f : Folds) (c : Core) (b : Backup) → Joint f c → IsWhole (core_stored (core_backed_up c b)) → Joint (with_backup f b) (core_backed_up c b) }
    ensures manager { (f : Folds) (c : Core) → Joint f c → Joint (with_links_opening f) (core_manager c) }
    ensures database { (f : Folds) (c : Core) → Joint f c → Joint (with_rows_opening f) (core_database c) }
{}

/// The fold of Links takes the Prepared of a claim that stands.
pub fn prepared_of_a_claim_is_taken()
    ensures { (f : Folds) (c : Core) (tx : ℕ) (w : Work) (takes : List taking.Taken) → Joint f c → c.works tx ≡ Some w → w.stage ≡ active → IsClaim c w.moved takes
        → ((g : rows.LinkRow) → list_any (same_link g) w.moved.gives ≡ true → has_path w.moved g.path ≡ true) → ((t : taking.Taken) → list_any (λ u. is_at t.link.path u.link.path) takes ≡ true → has_path w.moved t.link.path ≡ true)
        → links_step f.links (links_records.Prepared tx w.moved.gives takes) ≡ Some (with_branch f.links tx (branch w.moved phases.Prepared)) }
{}

/// The folds take an opening with the next number, the Ended of a commit with a branch that has none, and the archived copy of a
/// link that has none.
pub fn openings_ends_and_copies_are_taken()
    ensures rows { (r : Commits) → rows_step r (rows_records.Opening (r.opening + 1)) ≡ Some (record { opening = r.opening + 1; commits = r.commits; ended = r.ended }) }
    ensures links { (l : Branches) → links_step l (links_records.Opening (l.opening + 1)) ≡ Some (record { opening = l.opening + 1; table = l.table; held = l.held }) }
    ensures ended { (r : Commits) (tx : ℕ) (c : Commit) → commit_of tx r.commits ≡ Some c → c.branch ≡ true → has_number tx r.ended ≡ false → rows_step r (rows_records.Ended tx) ≡ Some (with_ended r tx) }
    ensures copied { (copies : Copies) (l : rows.LinkRow) (f : files.File) → maps.get copies (link_key l.link) ≡ None → copies_step copies (archive_records.Copy (file_copy l f)) ≡ Some (maps.insert copies (link_key l.link) (copy_of f)) }
{}

/// A restore that gives and takes no link is one commit, of a transaction that is begun and ended with it.
pub fn a_restore_without_links_is_one_commit()
    ensures { (f : Folds) (c : Core) (d : Commit) → Joint f c → c.drawn + 1 < (c.rows_opening + 1) * 2 ^ 32 → d.tx ≡ c.drawn + 1 → d.branch ≡ false → d.gives ≡ [] → d.takes ≡ []
        → ((p : List ℕ) → on (links d.tables) p ≡ on (links (tables_after [] f.rows.commits)) p) → AreDrawn f.rows.opening (links d.tables) → IsWhole (core_stored (core_restored c d))
        → Joint (with_decision f d) (core_restored c d) }
{}

/// A commit whose links come from those before as `Merges` says, and a backup of the last commit, leave a whole stored part whole.
pub fn commits_and_backups_keep_stored_parts_whole()
    ensures decided { (cs : List Commit) (bs : List Backup) (rows_opening links_opening : ℕ) (k : Kept) (m : Moved) (d : Commit) → IsWhole (stored_with cs bs rows_opening links_opening k) → Merges cs k m d.tables → IsReady m k
        → IsWhole (stored_with (cs ++ d ∷ []) bs rows_opening links_opening (settle_one m k)) }
    ensures backed_up { (c : Core) (b : Backup) → IsWhole (core_stored c) → past [] c.commits b.commit ≡ Some b.tables → IsWhole (core_stored (core_backed_up c b)) }
{}

/// The tests of equality pass at equal tables alone, and at all of them.
pub fn same_tables_are_equal()
    ensures rows { (a b : Rows) → Decides (same_rows a b) (a ≡ b) }
    ensures tables { (a b : Tables) → Decides (same_tables a b) (a ≡ b) }
{}
