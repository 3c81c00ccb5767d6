// Which links are committed and forbid commands between two steps, and which files are there. The functions do nothing: they carry laws.
ghost use Rattle.std.specs.Prelude.{◌≡◌, ℕ, List};
ghost use Rattle.dl_base.specs.declared.step.Settings as options;
ghost use Rattle.dl_base.specs.declared.step.Step as asked;
ghost use Rattle.fm_control.specs.Control.{AreControlled, HaveTheirs, IsControlled, committed_at};
ghost use Rattle.meaning_areas.specs.Lists.{Folds};
ghost use Rattle.meaning_areas.specs.Stands.{HaveFiles, HavePaths, Stored};
ghost use Rattle.meaning_history.specs.Reached.{HasPast};
ghost use Rattle.meaning_history.specs.Sound.{AreSound};
ghost use Rattle.meaning_serial.specs.Serial.{MayDraw};
ghost use Rattle.meaning_system.specs.Commands.{forbidding};
ghost use Rattle.meaning_system.specs.Following.{Follows};
ghost use Rattle.meaning_system.specs.Machine.{start, step};
ghost use Rattle.meaning_system.specs.State.{State};

use meaning_history::each_step_leads_on;
use meaning_restore::restores_go_on_with_the_history;

/// THE LAW OF CONTROL: between two steps committed links are on paths of their own; a path has at most two links that forbid commands
/// on its file, and two only where one transaction that is prepared or decided gives the one and takes the other; and each path with
/// such a link has a file. It rests on this: whatever a prepared or decided transaction gives or takes has a file. A run begins so,
/// and each step keeps it.
pub fn files_are_under_control()
    ensures controlled { (first : ℕ) (f : Folds) (s : State) → AreSound first f s → HaveTheirs s → IsControlled s }
    ensures start { (given : options.Settings) (x : Stored) → HaveTheirs (start given x) }
    ensures kept { (first : ℕ) (f : Folds) (s : State) (x : asked.Step) → AreSound first f s → HaveTheirs s → HaveTheirs (step s x).1 }
{}

/// BEFORE THE FIRST STEP of a run over what areas stand for, the links that forbid commands on a path are exactly the committed links
/// there. These are on different paths, and each has a file, as is so of all that areas stand for: so a run begins with files under
/// control.
pub fn settled_files_are_under_control()
    ensures committed { (given : options.Settings) (x : Stored) (path : List ℕ) → forbidding (start given x) path ≡ committed_at x path }
    ensures controlled { (given : options.Settings) (x : Stored) → HavePaths x → HaveFiles x → IsControlled (start given x) }
{}

/// AFTER EVERY STEP of a run that begins over what areas stand for, and before the first, files are under control, whatever the steps
/// are. A number must be left to draw before each, as one is in runs of fewer than 2^32 steps.
pub fn every_step_leaves_files_under_control()
    ensures { (given : options.Settings) (f : Folds) (x : Stored) (xs : List asked.Step) → HasPast x → Follows f (start given x) → MayDraw (start given x) xs → AreControlled (start given x) xs }
{
    each_step_leads_on();
    restores_go_on_with_the_history();
}
