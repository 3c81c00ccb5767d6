// What an opening writes, and a Finish that goes on, at each of its records. The functions do nothing: they carry laws.
ghost use Rattle.std.specs.Prelude.{◌≡◌, ℕ, List, ◌∷◌, ◌++◌, None, true, Some, is_some};
ghost use Rattle.std.specs.FinMap as maps;
ghost use Rattle.std.specs.List.{flat_map};
ghost use Rattle.dl_base.specs.declared.step.Settings as options;
ghost use Rattle.dl_codec.specs.declared.links.BranchPhase as phases;
ghost use Rattle.meaning_settling.specs.Settling.{Moved};
ghost use Rattle.meaning_areas.specs.Branches.{branch};
ghost use Rattle.meaning_areas.specs.Commits.{commit_of};
ghost use Rattle.meaning_areas.specs.Finishing.{AreNumbered, finish_records};
ghost use Rattle.meaning_areas.specs.Lists.{Folds, Written, folds_on, folds_step};
ghost use Rattle.meaning_areas.specs.Moving.{with_finish, with_links_opening, with_rows_opening};
ghost use Rattle.meaning_areas.specs.Stands.{IsStand, Stored, is_open, kept_of, open_in};
ghost use Rattle.meaning_system.specs.Machine.{start};
ghost use Rattle.meaning_system.specs.Writes.{open_drop, open_settles, opening};
ghost use Rattle.meaning_history.specs.Reached.{HasPast, first_of};
ghost use Rattle.meaning_history.specs.Sound.{AreSound};
ghost use Rattle.meaning_opening.specs.Fronts.{FrontsStand, opened_by, without_openings};
ghost use Rattle.meaning_opening.specs.Left.{first_left, left_to_write};

use meaning_areas::{
    lists_stand_for_their_core, one_more_record_changes_nothing,
    openings_ends_and_copies_are_taken, records_of_a_finish_settle,
};
use meaning_history::each_step_leads_on;
use meaning_settling::{a_part_and_then_all_is_all, settling_path_by_path};
use meaning_system::steps_keep_tables_fitting;

/// A FINISH THAT GOES ON. The records that the Finish of a committed branch in doubt still has to write are taken, in order, and lead to
/// the lists behind it, whether the branch is Prepared or its Finish was cut short behind Committed, some copies or the files. Behind
/// each front of them, and behind all, the lists stand for the same as before.
pub fn a_finish_goes_on()
    ensures leads { (f : Folds) (x : Stored) (tx : ℕ) (m : Moved) (p : phases.BranchPhase) → IsStand f x → is_some (commit_of tx f.rows.commits) ≡ true → maps.get f.links.table tx ≡ Some (branch m p) → is_open p ≡ true → AreNumbered m.gives
        → (folds_on (Some f) (finish_records tx p m (kept_of f)) ≡ Some (with_finish f tx m)) × IsStand (with_finish f tx m) x }
    ensures fronts { (f : Folds) (x : Stored) (tx : ℕ) (m : Moved) (p : phases.BranchPhase) → IsStand f x → is_some (commit_of tx f.rows.commits) ≡ true → maps.get f.links.table tx ≡ Some (branch m p) → is_open p ≡ true → AreNumbered m.gives
        → FrontsStand f (finish_records tx p m (kept_of f)) x }
{
    lists_stand_for_their_core();
    one_more_record_changes_nothing();
    openings_ends_and_copies_are_taken();
    records_of_a_finish_settle();
    a_part_and_then_all_is_all();
    settling_path_by_path();
}

/// A FINISH, RECORD BY RECORD. The first record that it still has to write is Committed where the branch is Prepared, and else the next
/// record of a Finish; behind it there is left what the lists behind it have still to write. So appending the next record until the
/// branch is Done, and then Ended, writes these records and no others.
pub fn a_finish_writes_its_next_records()
    ensures { (f : Folds) (x : Stored) (tx : ℕ) (m : Moved) (p : phases.BranchPhase) → IsStand f x → is_some (commit_of tx f.rows.commits) ≡ true → maps.get f.links.table tx ≡ Some (branch m p) → is_open p ≡ true → AreNumbered m.gives
        → (later : Folds) × (q : phases.BranchPhase) × (folds_step f (first_left tx p m (kept_of f)) ≡ Some later) × (maps.get later.links.table tx ≡ Some (branch m q)) × (left_to_write tx p m (kept_of f) ≡ first_left tx p m (kept_of f) ∷ left_to_write tx q m (kept_of later)) × IsStand later x }
{
    lists_stand_for_their_core();
    one_more_record_changes_nothing();
    openings_ends_and_copies_are_taken();
    records_of_a_finish_settle();
    a_part_and_then_all_is_all();
    settling_path_by_path();
}

/// The Aborted records of all branches in doubt that have no commit are taken, in the order of their numbers. Behind each front of them
/// the lists stand for the same as before, and behind all no branch without a commit is in doubt.
pub fn branches_without_a_commit_are_aborted()
    ensures leads { (f : Folds) (x : Stored) → IsStand f x
        → (later : Folds) × (folds_on (Some f) (flat_map (open_drop f) (maps.entries f.links.table)) ≡ Some later) × IsStand later x × (later.rows ≡ f.rows) × ((tx : ℕ) → commit_of tx f.rows.commits ≡ None → open_in later.links tx ≡ None) }
    ensures fronts { (f : Folds) (x : Stored) → IsStand f x → FrontsStand f (flat_map (open_drop f) (maps.entries f.links.table)) x }
{
    one_more_record_changes_nothing();
}

/// THE OPENING. Its records are taken, in order: from lists that stand for something with a past they lead to lists that follow the state
/// with which a run begins, and to all that holds of lists and state between two steps. Behind each front the lists stand for
/// what they stood for, with each opening that the front has counted.
pub fn an_opening_leads_to_the_start()
    ensures leads { (f : Folds) (x : Stored) → IsStand f x → HasPast x
        → (later : Folds) × (folds_on (Some f) (opening f) ≡ Some later) × IsStand later (opened_by x (opening f)) × ((given : options.Settings) → AreSound (first_of x) later (start given x)) }
    ensures fronts { (f : Folds) (x : Stored) → IsStand f x → HasPast x → (front rest : List Written) → front ++ rest ≡ opening f
        → (later : Folds) × (folds_on (Some f) front ≡ Some later) × IsStand later (opened_by x front) }
{
    a_finish_goes_on();
    lists_stand_for_their_core();
    one_more_record_changes_nothing();
    openings_ends_and_copies_are_taken();
    steps_keep_tables_fitting();
    each_step_leads_on();
}

/// THE OPENING, RECORD BY RECORD. What is still to be written goes by the lists as they are: behind the two openings that are counted, the
/// records that settle committed branches are the same; and behind these, those that abort the others.
pub fn an_opening_goes_by_its_present_lists()
    ensures settles { (f : Folds) (x : Stored) → IsStand f x → HasPast x
        → open_settles (with_links_opening (with_rows_opening f)) f.rows.commits ≡ open_settles f f.rows.commits }
    ensures drops { (f later : Folds) (x : Stored) → IsStand f x → HasPast x → folds_on (Some (with_links_opening (with_rows_opening f))) (open_settles f f.rows.commits) ≡ Some later
        → flat_map (open_drop later) (maps.entries later.links.table) ≡ flat_map (open_drop f) (maps.entries f.links.table) }
{
    a_finish_goes_on();
    lists_stand_for_their_core();
    one_more_record_changes_nothing();
    openings_ends_and_copies_are_taken();
    steps_keep_tables_fitting();
}

/// THE OPENING AGAIN. Behind each front of an opening, wherever it was stopped, lists stand for something with a past, which differs from
/// what they stood for in its opening numbers alone. So the opening that comes next is taken too, and leads to the state with which a
/// run begins over that.
pub fn an_opening_may_be_stopped()
    ensures past { (x : Stored) (front : List Written) → HasPast x → HasPast (opened_by x front) }
    ensures same { (x : Stored) (front : List Written) → without_openings (opened_by x front) ≡ without_openings x }
    ensures again { (f : Folds) (x : Stored) → IsStand f x → HasPast x → (front rest : List Written) → front ++ rest ≡ opening f
        → (stopped : Folds) × (later : Folds) × (folds_on (Some f) front ≡ Some stopped) × (folds_on (Some stopped) (opening stopped) ≡ Some later)
        × ((given : options.Settings) → AreSound (first_of (opened_by x front)) later (start given (opened_by x front))) }
{
    an_opening_leads_to_the_start();
}
