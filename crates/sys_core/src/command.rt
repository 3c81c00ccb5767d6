// A command of a user on files.
ghost use Rattle.std.specs.Prelude.{◌≡◌, ◌≢◌, ℕ, Err, None, IfOk};
ghost use Rattle.std.specs.FinMap as maps;
ghost use Rattle.dl_areas.specs.Lists.{AreReady};
ghost use Rattle.dl_base.specs.declared.step.Step.TheVariants as steps;
ghost use Rattle.fm_manager.specs.Managed.{AreSpelled};
ghost use Rattle.meaning_files.specs.Commands.{bytes_of};
ghost use Rattle.meaning_system.specs.Commands.{command_refusal};
ghost use Rattle.meaning_system.specs.State.{State};
ghost use Rattle.meaning_system.specs.Writes.{writes};
ghost use Rattle.sys_core.specs.Guarded.{looked};
ghost use Rattle.sys_core.specs.Standing.{IsOf};
ghost use Rattle.sys_core.specs.Steps.{Steps};
ghost use Rattle.sys_owners.specs.Owned.{journals_of};

use crate::engine::Engine;
use dl_areas::calls_follow_one_another;
use dl_base::{Answer, Bench, Copied, FileCmd, FileWhat, Memory, Path, Refusal, StepFault};
use fm_links::claims_behind_other_steps;
use fm_pieces::pieces_stay_what_they_are;
use meaning_history::each_step_leads_on;
use meaning_system::commands_and_backups_are_taken;

impl Engine {
    /// A command of a user on files: create, write, delete, rename, chmod, read or list. The first refusal that applies is answered, among
    /// them Forbidden with the first link that forbids it: the committed one on the path, the one that a prepared transaction takes, the
    /// one that a decided one gives. The errors are `Full(Area)` and `Device`, behind which the areas are to be opened again, and want of memory,
    /// which leaves all as it was but for room.
    pub fn command<B: Bench>(&mut self, bench: &mut B, cmd: FileCmd) -> Result<Answer, StepFault>
        requires ready { AreReady (journals_of self.old.owners) (B.outside bench.old) }
        requires stands { (first : ℕ) × (s : State) × IsOf first self.old s }
        ensures steps { (first : ℕ) (s : State) → IsOf first self.old s → Steps first (steps.File cmd) s self.old self.new result (B.outside bench.old) (B.outside bench.new) }
        ensures spelled { result ≢ Err StepFault.Memory → (first : ℕ) (s : State) → IsOf first self.old s → AreSpelled (writes s (steps.File cmd)) }
    {
        calls_follow_one_another::<B>();
        let forbidden = self.forbids(&cmd.what);
        match self.owners.manager.files().test(&cmd, forbidden) {
            Ok(None) => self.obey(bench, cmd),
            Ok(Some(refusal)) => {
                drop(cmd);
                Ok(Answer::Refused(Refusal::File(refusal)))
            }
            Err(Memory) => {
                drop(cmd);
                Err(StepFault::Memory)
            }
        }
    }

    // Does a command that no refusal applies to.
    fn obey<B: Bench>(&mut self, bench: &mut B, cmd: FileCmd) -> Result<Answer, StepFault>
        requires ready { AreReady (journals_of self.old.owners) (B.outside bench.old) }
        requires accepted { (first : ℕ) × (s : State) × IsOf first self.old s × (command_refusal s cmd.user cmd.what ≡ None) }
        ensures steps { (first : ℕ) (s : State) → IsOf first self.old s → command_refusal s cmd.user cmd.what ≡ None → Steps first (steps.File cmd) s self.old self.new result (B.outside bench.old) (B.outside bench.new) }
        ensures spelled { result ≢ Err StepFault.Memory → (first : ℕ) (s : State) → IsOf first self.old s → command_refusal s cmd.user cmd.what ≡ None → AreSpelled (writes s (steps.File cmd)) }
    {
        calls_follow_one_another::<B>();
        commands_and_backups_are_taken();
        each_step_leads_on();
        claims_behind_other_steps();
        pieces_stay_what_they_are();
        match self.look(&cmd.what) {
            Ok(None) => {
                self.owners.manager.apply(bench, cmd)?;
                Ok(Answer::Done)
            }
            Ok(Some(answer)) => {
                drop(cmd);
                Ok(answer)
            }
            Err(Memory) => {
                drop(cmd);
                Err(StepFault::Memory)
            }
        }
    }

    // What a command that writes nothing is answered; None of one that writes.
    fn look(&self, what: &FileWhat) -> Result<Option<Answer>, Memory>
        ensures { IfOk result (λ answer. answer ≡ looked self.now.owners.manager.files.files what.now) }
    {
        match what {
            FileWhat::Read(path, _) => Ok(Some(self.bytes(path)?)),
            FileWhat::List => Ok(Some(Answer::Files(self.owners.manager.files().list()?))),
            FileWhat::Create(_, _) | FileWhat::Write(_, _) => Ok(None),
            FileWhat::Delete(_) | FileWhat::Rename(_, _) | FileWhat::Chmod(_, _) => Ok(None),
        }
    }

    // The bytes of the file at a path; Done where there is none.
    fn bytes(&self, path: &Path) -> Result<Answer, Memory>
        ensures { IfOk result (λ answer. answer ≡ bytes_of (maps.get self.now.owners.manager.files.files path.now)) }
    {
        match self.owners.manager.files().look(path) {
            Some(file) => Ok(Answer::Bytes(file.bytes.copy()?)),
            None => Ok(Answer::Done),
        }
    }
}
