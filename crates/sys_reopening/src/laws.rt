// What the next opening finds, and what a crash leaves of a call of the file manager. The functions do nothing: they carry laws.
ghost use Rattle.std.specs.Prelude.{◌≡◌, ◌≢◌, ◌<◌, ◌≤◌, ◌^◌, ◌∷◌, [], ℕ, List, Option, Some, None, Ok};
ghost use Rattle.dl_areas.specs.Lists.{Journals, Lists};
ghost use Rattle.dl_base.specs.Outside.{AtEveryMoment, CrashState};
ghost use Rattle.dl_base.specs.declared.area.Area.{Area};
ghost use Rattle.dl_base.specs.declared.fault.AppendFault.{AppendFault};
ghost use Rattle.dl_base.specs.declared.fault.StepFault.{StepFault};
ghost use Rattle.dl_base.specs.declared.fault.StepFault.TheVariants as steps;
ghost use Rattle.dl_base.specs.declared.step.Settings.{Settings};
ghost use Rattle.dl_base.specs.declared.value.LinkRow.{LinkRow};
ghost use Rattle.dl_codec.specs.declared.archive.ArchiveRecord.TheVariants as archive_records;
ghost use Rattle.dl_codec.specs.declared.archive.FileCopy.{FileCopy};
ghost use Rattle.dl_codec.specs.declared.links.BranchPhase.{BranchPhase};
ghost use Rattle.dl_codec.specs.declared.links.LinksRecord.TheVariants as links_records;
ghost use Rattle.dl_codec.specs.declared.links.Taken.{Taken};
ghost use Rattle.dl_journal.specs.Records.{records};
ghost use Rattle.fm_manager.specs.Managed.{AreSpelled, FoldsTo, IsSpelled, IsTakenBy, Managed, Manages, ManagesStep, as_writes, folds_with, kept_in};
ghost use Rattle.fm_manager.specs.Pieces.{AreOf, Pieces, manager_part, settling_part};
ghost use Rattle.meaning_areas.specs.Areas.{Areas, AreasStand, StandForNothing, bytes_of};
ghost use Rattle.meaning_areas.specs.Commits.{Commits};
ghost use Rattle.meaning_areas.specs.Copies.{Backup};
ghost use Rattle.meaning_areas.specs.Lists.{Folds, Written, in_archive, in_links, no_folds};
ghost use Rattle.meaning_areas.specs.Stands.{IsStand, Stored, stored_of};
ghost use Rattle.meaning_history.specs.Reached.{first_of};
ghost use Rattle.meaning_history.specs.Sound.{AreSound};
ghost use Rattle.meaning_settling.specs.Settling.{Moved};
ghost use Rattle.meaning_system.specs.Machine.{start};
ghost use Rattle.meaning_system.specs.Recovering.{Recovers};
ghost use Rattle.meaning_system.specs.State.{State, stored};
ghost use Rattle.meaning_system.specs.Writes.{opening};
ghost use Rattle.sys_opening.specs.Begun.{AreFound, HasBegun, IsOfOpening, LeavesSpelled};
ghost use Rattle.sys_opening.specs.Halting.{HaveSpellings};
ghost use Rattle.sys_owners.specs.Owned.{AreFolded, AreTold, Owned, folds_in};
ghost use Rattle.sys_recovery.specs.Left.{areas_of};
ghost use Rattle.sys_reopening.specs.Again.{EveryImageStands, EveryImageStandsAlike, ReadsAs, StandAlike};
ghost use Rattle.sys_reopening.specs.Managing.{LeadsOn, LeavesLed, StandsOver};

use dl_areas::an_opening_finds_the_lists_of_its_begin;
use dl_base::Bench;
use meaning_areas::areas_stand_where_all_compares;
use meaning_history::what_lists_stand_for_has_a_past;
use meaning_opening::{an_opening_leads_to_the_start, an_opening_may_be_stopped};
use sys_recovery::what_is_written_is_read;

/// AN OPENING THAT IS STOPPED. At each moment of an opening over areas whose images all stand for something, what a crash leaves stands
/// for something: so the next opening finds it.
pub fn a_stopped_opening_stands<B: Bench>()
    ensures { (lists : Lists) (f : Folds) (o : B) (p : CrashState) → AreFound lists f (B.outside o) → EveryImageStands (B.outside o) → IsOfOpening lists (opening f) (B.outside o) p → (x : Stored) × AreasStand (areas_of p) x }
{
    an_opening_finds_the_lists_of_its_begin::<B>();
    an_opening_leads_to_the_start();
    what_lists_stand_for_has_a_past();
    what_is_written_is_read();
}

/// A STOPPED OPENING KEEPS WHAT STOOD. What it leaves with some of its records stands for the same as before it, but for the numbers of
/// openings: no commit, file, copy or backup is lost or added. So does what it leaves at any moment, where all that a crash might have
/// left before it did so too: thus openings may be stopped any number of times. That is asked of all images before it, since an area
/// that is not synced yet may go back to another of them.
pub fn a_stopped_opening_keeps_what_stood<B: Bench>()
    ensures same { (lists : Lists) (f : Folds) (o : B) (p : CrashState) → AreFolded lists f → IsStand f (stored_of f) → LeavesSpelled lists (opening f) (B.outside o) p → StandAlike (areas_of p) (stored_of f) }
    ensures agree { (lists : Lists) (f : Folds) (s : Stored) (o : B) (p : CrashState) → AreFound lists f (B.outside o) → EveryImageStandsAlike (B.outside o) s → IsOfOpening lists (opening f) (B.outside o) p → StandAlike (areas_of p) s }
    ensures crash { (lists : Lists) (f : Folds) (s : Stored) (o n : B) → AreFound lists f (B.outside o) → EveryImageStandsAlike (B.outside o) s → AtEveryMoment (IsOfOpening lists (opening f) (B.outside o)) (B.outside o) (B.outside n)
        → (p : CrashState) → (B.outside n).since (B.outside o).moment p → StandAlike (areas_of p) s }
{
    an_opening_finds_the_lists_of_its_begin::<B>();
    areas_stand_where_all_compares();
    what_lists_stand_for_has_a_past();
    an_opening_leads_to_the_start();
    an_opening_may_be_stopped();
    what_is_written_is_read();
}

/// THE NEXT RUN BEGINS THERE. Where a crash left areas that stand for something and the next opening reads them so, it finds their lists,
/// and what these stand for is that and nothing else. So where they recover to a state, the next run begins with what settling
/// leaves of that state, under any settings: a run, a crash and the next run are joined.
pub fn the_next_run_begins_there<B: Bench>()
    ensures finds { (p : CrashState) (s : Stored) (o : B) → AreasStand (areas_of p) s → ReadsAs p (B.outside o) → (lists : Lists) × (f : Folds) × AreFound lists f (B.outside o) × (stored_of f ≡ s) }
    ensures same { (p : CrashState) (s : Stored) (o : B) (lists : Lists) (f : Folds) → AreasStand (areas_of p) s → ReadsAs p (B.outside o) → AreFound lists f (B.outside o) → stored_of f ≡ s }
    ensures begins { (p : CrashState) (s : State) (o : B) (lists : Lists) (f : Folds) → Recovers (areas_of p) s → ReadsAs p (B.outside o) → AreFound lists f (B.outside o)
        → (given : Settings) → start given (stored_of f) ≡ start given (stored s) }
    ensures begun { (p : CrashState) (s : State) (o n : B) (limit : ℕ) (lists : Lists) (f : Folds) (w : Owned) → Recovers (areas_of p) s → ReadsAs p (B.outside o) → HasBegun limit lists f w (B.outside o) (B.outside n)
        → (given : Settings) → AreSound (first_of (stored s)) (folds_in w) (start given (stored s)) }
{
    areas_stand_where_all_compares();
}

/// WHERE EVERY IMAGE STANDS, as `recovers` of the top call and the laws on stopped openings ask it before a run. Over areas without a record
/// (`empty`), which stand for no commit, file, copy or backup (`stand`): those of a new bench in memory have no byte. Behind a crash that left
/// what stands, where each image has the records that it left (`crashed`): a bench in memory has all areas synced behind one, and that what
/// was left stands is what `recovers` says. And behind a run of which `recovers` says so, where the bench tells what was told (`behind`): t is
/// the moment at which the run began, by `history` none later than now. The last two are said too of what stands alike, as what a stopped
/// opening leaves does (`left`, `stopped`): so openings may be stopped any number of times.
pub fn every_image_stands_there<B: Bench>()
    ensures stand { (x : Areas) → ((a : Area) → records (bytes_of x a) ≡ Ok []) → AreasStand x (stored_of no_folds) }
    ensures empty { (o : B) → ((a : Area) (c : List ℕ) → (B.outside o).image a c → records c ≡ Ok []) → EveryImageStands (B.outside o) × EveryImageStandsAlike (B.outside o) (stored_of no_folds) }
    ensures crashed { (p : CrashState) (s : Stored) (o : B) → AreasStand (areas_of p) s → ((a : Area) (c : List ℕ) → (B.outside o).image a c → records c ≡ records (p.areas a))
        → EveryImageStands (B.outside o) × EveryImageStandsAlike (B.outside o) s }
    ensures behind { (t : ℕ) (told : List ℕ) (n : B) → t ≤ (B.outside n).moment → (B.outside n).told ≡ Some told → ((p : CrashState) → (B.outside n).since t p → (x : Stored) × AreasStand (areas_of p) x) → EveryImageStands (B.outside n) }
    ensures left { (p : CrashState) (s : Stored) (o : B) → StandAlike (areas_of p) s → ((a : Area) (c : List ℕ) → (B.outside o).image a c → records c ≡ records (p.areas a)) → EveryImageStandsAlike (B.outside o) s }
    ensures stopped { (t : ℕ) (told : List ℕ) (s : Stored) (n : B) → t ≤ (B.outside n).moment → (B.outside n).told ≡ Some told → ((p : CrashState) → (B.outside n).since t p → StandAlike (areas_of p) s) → EveryImageStandsAlike (B.outside n) s }
{}

/// WHAT STANDS IS NEVER REFUSED. Of areas that stand for something it is never told that they stand for nothing, whatever the area and the
/// place: so by the clauses that say what `NotAStore` means, neither an opening nor a run over them ends so. It is enough that all
/// that a crash might leave stands for something, or that the areas are found.
pub fn what_stands_is_never_refused<B: Bench>()
    ensures stand { (x : Areas) (s : Stored) (o : B) (area : Area) (place : ℕ) → AreasStand x s → AreTold x (B.outside o) → ((y : Areas) → AreTold y (B.outside o) → StandForNothing y (area, place)) → ⊥ }
    ensures images { (x : Areas) (o : B) (area : Area) (place : ℕ) → EveryImageStands (B.outside o) → AreTold x (B.outside o) → ((y : Areas) → AreTold y (B.outside o) → StandForNothing y (area, place)) → ⊥ }
    ensures found { (lists : Lists) (f : Folds) (o : B) (area : Area) (place : ℕ) → AreFound lists f (B.outside o) → ((y : Areas) → AreTold y (B.outside o) → StandForNothing y (area, place)) → ⊥ }
{
    areas_stand_where_all_compares();
}

/// THE FILE MANAGER AT EACH MOMENT of a call. Whatever a crash leaves of one, the areas have the lists with the first of its records, and
/// read as what these lead to; once it is done they stand for what the manager has in memory, and the next call may follow. The
/// premises are the clauses of its calls: of any that writes records, of a step, and of the four of two-phase commit and archive.
pub fn the_manager_at_each_moment<B: Bench>()
    ensures call { (lists : Lists) (rows : Commits) (backups : List Backup) (js : Journals) (m n : Managed) (xs : List Written) (fault : Option AppendFault) (o e : B) → StandsOver lists rows backups js m (B.outside o)
        → IsTakenBy m xs → HaveSpellings xs → (fault ≡ None → FoldsTo m n xs) → Manages m n (as_writes xs) fault (B.outside o) (B.outside e)
        → LeadsOn lists rows backups js m n xs (fault ≡ None) (B.outside o) (B.outside e) }
    ensures step { (lists : Lists) (rows : Commits) (backups : List Backup) (js : Journals) (m n : Managed) (xs : List Written) (fault : Option StepFault) (o e : B) → StandsOver lists rows backups js m (B.outside o)
        → IsTakenBy m xs → (fault ≢ Some steps.Memory → HaveSpellings xs) → (fault ≡ None → FoldsTo m n xs) → ManagesStep m n (as_writes xs) fault (B.outside o) (B.outside e)
        → LeadsOn lists rows backups js m n xs (fault ≡ None) (B.outside o) (B.outside e) }
    ensures prepare { (lists : Lists) (rows : Commits) (backups : List Backup) (js : Journals) (m n : Managed) (tx : ℕ) (gives : List LinkRow) (takes : List Taken) (fault : Option StepFault) (o e : B) → StandsOver lists rows backups js m (B.outside o)
        → IsTakenBy m (in_links (links_records.Prepared tx gives takes) ∷ []) → (fault ≢ Some steps.Memory → IsSpelled (in_links (links_records.Prepared tx gives takes))) → (fault ≡ None → FoldsTo m n (in_links (links_records.Prepared tx gives takes) ∷ []))
        → ManagesStep m n (as_writes (in_links (links_records.Prepared tx gives takes) ∷ [])) fault (B.outside o) (B.outside e)
        → LeadsOn lists rows backups js m n (in_links (links_records.Prepared tx gives takes) ∷ []) (fault ≡ None) (B.outside o) (B.outside e) }
    ensures abort { (lists : Lists) (rows : Commits) (backups : List Backup) (js : Journals) (m n : Managed) (tx : ℕ) (fault : Option AppendFault) (o e : B) → StandsOver lists rows backups js m (B.outside o)
        → IsTakenBy m (in_links (links_records.Aborted tx) ∷ []) → tx < 2 ^ 64 → (fault ≡ None → FoldsTo m n (in_links (links_records.Aborted tx) ∷ []))
        → Manages m n (as_writes (in_links (links_records.Aborted tx) ∷ [])) fault (B.outside o) (B.outside e)
        → LeadsOn lists rows backups js m n (in_links (links_records.Aborted tx) ∷ []) (fault ≡ None) (B.outside o) (B.outside e) }
    ensures store { (lists : Lists) (rows : Commits) (backups : List Backup) (js : Journals) (m n : Managed) (copy : FileCopy) (fault : Option AppendFault) (o e : B) → StandsOver lists rows backups js m (B.outside o)
        → IsTakenBy m (in_archive (archive_records.Copy copy) ∷ []) → IsSpelled (in_archive (archive_records.Copy copy)) → (fault ≡ None → FoldsTo m n (in_archive (archive_records.Copy copy) ∷ []))
        → Manages m n (as_writes (in_archive (archive_records.Copy copy) ∷ [])) fault (B.outside o) (B.outside e)
        → LeadsOn lists rows backups js m n (in_archive (archive_records.Copy copy) ∷ []) (fault ≡ None) (B.outside o) (B.outside e) }
    ensures finish { (lists : Lists) (rows : Commits) (backups : List Backup) (js : Journals) (m n : Managed) (pieces : Pieces) (moved : Moved) (phase : BranchPhase) (fault : Option AppendFault) (o e : B) → StandsOver lists rows backups js m (B.outside o)
        → AreOf pieces moved (kept_in m) → IsTakenBy m (manager_part pieces.tx phase moved (kept_in m)) → AreSpelled (settling_part pieces.tx pieces.copies pieces.changes)
        → (fault ≡ None → FoldsTo m n (manager_part pieces.tx phase moved (kept_in m))) → Manages m n (as_writes (manager_part pieces.tx phase moved (kept_in m))) fault (B.outside o) (B.outside e)
        → LeadsOn lists rows backups js m n (manager_part pieces.tx phase moved (kept_in m)) (fault ≡ None) (B.outside o) (B.outside e) }
    ensures crash { (lists : Lists) (rows : Commits) (backups : List Backup) (js : Journals) (m : Managed) (xs : List Written) (o e : B) → StandsOver lists rows backups js m (B.outside o)
        → AtEveryMoment (LeavesLed lists (folds_with rows backups m) xs (B.outside o)) (B.outside o) (B.outside e) → (p : CrashState) → (B.outside e).since (B.outside o).moment p → LeavesLed lists (folds_with rows backups m) xs (B.outside o) p }
{
    what_is_written_is_read();
}
