// A file is archived.
ghost use Rattle.std.specs.Prelude.{◌≡◌, ◌≢◌, ◌+◌, ◌≤◌, ℕ, Err, IfOk, OnOk, Some};
ghost use Rattle.std.specs.FinMap as maps;
ghost use Rattle.dl_areas.specs.Lists.{AreReady};
ghost use Rattle.dl_base.specs.declared.step.Step.TheVariants as steps;
ghost use Rattle.dl_base.specs.declared.value.LinkNo.{LinkNo as Numbers};
ghost use Rattle.fm_effects.specs.Copying.{copy_for};
ghost use Rattle.fm_manager.specs.Managed.{AreSpelled};
ghost use Rattle.meaning_settling.specs.Settling.{link_key};
ghost use Rattle.meaning_system.specs.State.{State};
ghost use Rattle.meaning_system.specs.Writes.{writes};
ghost use Rattle.sys_core.specs.Archiving.{CanStore, awaited, awaited_in};
ghost use Rattle.sys_core.specs.Standing.{IsOf};
ghost use Rattle.sys_core.specs.Steps.{Steps};
ghost use Rattle.sys_owners.specs.Owned.{journals_of};
ghost use Rattle.sys_records.specs.Room.{HaveMoreRoom};
ghost use Rattle.sys_seats.specs.Seats.{all_of, gives_of};

use crate::engine::Engine;
use crate::numbered::link_of_number;
use dl_areas::calls_follow_one_another;
use dl_base::{Answer, Bench, LinkNo, LinkRow, List, Memory, Refusal, StepFault};
use fm_archive::CopyMade;
use fm_effects::copies;
use fm_links::claims_behind_other_steps;
use fm_manager::Manager;
use fm_pieces::pieces_stay_what_they_are;
use meaning_history::each_step_leads_on;
use std::alloc::Global;
use sys_records::gives_with;

impl Engine {
    /// Stores the copy of a link that waits for one: the bytes of its file, with the owner that the file had before it was linked. It is
    /// refused NotPending where the link is not among `pending`, or has no file. The errors are `Full(Area)` where Archive has no room
    /// for the record, and `Device`, behind which the areas are to be opened again, and want of memory, also for a file of 2^32 bytes or more,
    /// which leaves all as it was but for room. It costs a look for the link in each table, and the bytes of the file.
    pub fn archive<B: Bench>(&mut self, bench: &mut B, link: LinkNo) -> Result<Answer, StepFault>
        requires ready { AreReady (journals_of self.old.owners) (B.outside bench.old) }
        requires stands { (first : ℕ) × (s : State) × IsOf first self.old s }
        ensures steps { (first : ℕ) (s : State) → IsOf first self.old s → Steps first (steps.Archive link) s self.old self.new result (B.outside bench.old) (B.outside bench.new) }
        ensures spelled { result ≢ Err StepFault.Memory → (first : ℕ) (s : State) → IsOf first self.old s → AreSpelled (writes s (steps.Archive link)) }
    {
        calls_follow_one_another::<B>();
        match self.awaited(link)? {
            Some(copy) => self.store_copy(bench, copy),
            None => Ok(Answer::Refused(Refusal::NotPending(link))),
        }
    }

    // The copy that the link of a number waits for, if it waits for one.
    fn awaited(&self, link: LinkNo) -> Result<Option<CopyMade>, Memory>
        ensures { IfOk result (λ copy. copy ≡ awaited_in self.now link) }
    {
        let Some(row) = link_of_number(self.owners.store.committed(), link)? else {
            return Ok(None);
        };
        if self.settles(&row.path) {
            drop(row);
            return Ok(None);
        }
        copy_for(self.alloc, &self.owners.manager, row)
    }

    // Makes room for a copy that a link waits for, and writes it.
    fn store_copy<B: Bench>(&mut self, bench: &mut B, copy: CopyMade) -> Result<Answer, StepFault>
        requires ready { AreReady (journals_of self.old.owners) (B.outside bench.old) }
        requires stands { (first : ℕ) × (s : State) × (n : Numbers) × IsOf first self.old s × (awaited s n ≡ Some copy) }
        ensures steps { (first : ℕ) (s : State) (n : Numbers) → IsOf first self.old s → awaited s n ≡ Some copy → Steps first (steps.Archive n) s self.old self.new result (B.outside bench.old) (B.outside bench.new) }
        ensures spelled { result ≢ Err StepFault.Memory → (first : ℕ) (s : State) (n : Numbers) → IsOf first self.old s → awaited s n ≡ Some copy → AreSpelled (writes s (steps.Archive n)) }
    {
        calls_follow_one_another::<B>();
        match self.make_copy_room() {
            Ok(()) => self.put_copy(bench, copy),
            Err(Memory) => {
                drop(copy);
                Err(StepFault::Memory)
            }
        }
    }

    // Makes room for one copy more than those that what is voted for may want.
    fn make_copy_room(&mut self) -> Result<(), Memory>
        ensures same { self.new ≡ record self.old { owners = self.new.owners } }
        ensures more { HaveMoreRoom self.old.owners self.new.owners }
        ensures room { OnOk result (all_of gives_of self.old.seats + 1 ≤ self.new.owners.manager.archive.spare) }
    {
        let copies = gives_with(&self.seats, 1)?;
        self.owners.manager.make_room(copies)
    }

    // Writes a copy that a link waits for, for which there is room. It takes no memory.
    fn put_copy<B: Bench>(&mut self, bench: &mut B, copy: CopyMade) -> Result<Answer, StepFault>
        requires ready { AreReady (journals_of self.old.owners) (B.outside bench.old) }
        requires stands { (first : ℕ) × (s : State) × (n : Numbers) × CanStore first self.old s n copy }
        ensures steps { (first : ℕ) (s : State) (n : Numbers) → CanStore first self.old s n copy → Steps first (steps.Archive n) s self.old self.new result (B.outside bench.old) (B.outside bench.new) }
        ensures spelled { (first : ℕ) (s : State) (n : Numbers) → CanStore first self.old s n copy → AreSpelled (writes s (steps.Archive n)) }
        ensures never { result ≢ Err StepFault.Memory }
    {
        claims_behind_other_steps();
        each_step_leads_on();
        pieces_stay_what_they_are();
        copy.is_spelled();
        match self.owners.manager.store(bench, copy) {
            Ok(()) => Ok(Answer::Archived(1)),
            Err(fault) => Err(StepFault::from(fault)),
        }
    }
}

// The copy of a link's file as a Finish would make it: None where the link has one, or wants none, or its path has no file.
fn copy_for(alloc: Global, manager: &Manager, row: LinkRow) -> Result<Option<CopyMade>, Memory>
    ensures { IfOk result (λ copy. copy ≡ copy_for row (maps.get manager.now.archive.copies (link_key row.link)) (maps.get manager.now.files.files row.path)) }
{
    let mut rows = List::empty(alloc);
    rows.push(row)?;
    let mut made = copies(alloc, &rows, manager.files(), manager.copies())?;
    Ok(made.pop())
}
