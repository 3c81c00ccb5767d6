// What a vote looks at, and how it is written and kept.
ghost use Rattle.std.specs.Prelude.{◌≡◌, ◌≢◌, ℕ, Err, IfOk, Some};
ghost use Rattle.std.specs.FinMap as maps;
ghost use Rattle.dl_areas.specs.Lists.{AreReady};
ghost use Rattle.fm_manager.specs.Managed.{AreSpelled};
ghost use Rattle.meaning_system.specs.Claims.{files_refusal, prepare_refusal};
ghost use Rattle.meaning_system.specs.State.{State, Txn, moved_of};
ghost use Rattle.meaning_system.specs.Writes.{prepared};
ghost use Rattle.sys_core.specs.Seated.{IsSeatOf, making_of};
ghost use Rattle.sys_core.specs.Standing.{IsOf};
ghost use Rattle.sys_core.specs.Voting.{CanEnter, CanVote, Votes};
ghost use Rattle.sys_owners.specs.Owned.{journals_of};

use crate::engine::Engine;
use db_changes::Made;
use dl_areas::calls_follow_one_another;
use dl_base::{Bench, LinkRow, List, Memory, Name, Refusal, StepFault};
use fm_links::claims_behind_steps_of_a_session;
use fm_pieces::pieces_as_they_are_made;
use meaning_history::each_step_leads_on;
use sys_records::{has_links, vote_of, write_prepared};
use sys_seats::{Seat, Stage, Vote, seats_count_together};

impl Engine {
    // Why a transaction is not voted for; None where it is. The error is want of memory, for the path of a link without a file.
    pub(crate) fn vote_refusal(&self, tx: u64) -> Result<Option<Refusal>, Memory>
        ensures { (first : ℕ) (s : State) (t : Txn) → IsOf first self.now s → maps.get s.txs tx ≡ Some t → IfOk result (λ why. why ≡ prepare_refusal s t) }
    {
        match self.seats.get(tx) {
            Some(seat) => self.refusal_of(seat),
            None => Ok(None),
        }
    }

    fn refusal_of(&self, seat: &Seat) -> Result<Option<Refusal>, Memory>
        ensures { (first : ℕ) (s : State) (tx : ℕ) (t : Txn) → IsOf first self.now s → IsSeatOf s tx t seat.now → IfOk result (λ why. why ≡ prepare_refusal s t) }
    {
        if !has_links(&seat.claim) {
            return Ok(None);
        }
        match self.forgotten_by(seat) {
            Some(refusal) => Ok(Some(refusal)),
            None => self.files_refusal(&seat.claim.takes),
        }
    }

    // The refusal of the first of some links whose file is not there, if there is one.
    fn files_refusal(&self, takes: &List<LinkRow>) -> Result<Option<Refusal>, Memory>
        ensures { (s : State) → s.files ≡ self.now.owners.manager.files.files → IfOk result (λ why. why ≡ files_refusal s takes.now) }
    {
        for take in takes.as_slice() {
            if let Some(refusal) = self.file_refusal(&take.path)? {
                return Ok(Some(refusal));
            }
        }
        Ok(None)
    }

    // Votes for the transaction of a session, whose statements named these tables and which has made this. The errors are those of
    // `prepare`.
    pub(crate) fn vote<B: Bench>(
        &mut self,
        bench: &mut B,
        tx: u64,
        names: &List<Name>,
        made: Made,
    ) -> Result<(), StepFault>
        requires ready { AreReady (journals_of self.old.owners) (B.outside bench.old) }
        requires stands { (first : ℕ) × (s : State) × (session : ℕ) × (t : Txn) × CanVote first self.old s session tx t × (names.now ≡ t.named) × (made ≡ making_of tx t) }
        ensures votes { (first : ℕ) (s : State) (session : ℕ) (t : Txn) → CanVote first self.old s session tx t → names.now ≡ t.named → made ≡ making_of tx t → Votes first s session tx t self.old self.new result (B.outside bench.old) (B.outside bench.new) }
        ensures spelled { result ≢ Err StepFault.Memory → (first : ℕ) (s : State) (session : ℕ) (t : Txn) → CanVote first self.old s session tx t → AreSpelled (prepared tx (moved_of t)) }
    {
        calls_follow_one_another::<B>();
        pieces_as_they_are_made();
        let Some(seat) = self.seats.get(tx) else {
            unreachable!();
        };
        match vote_of(&mut self.owners, &self.seats, tx, &seat.claim, names, made) {
            Ok(vote) => self.enter(bench, tx, vote),
            Err(Memory) => Err(StepFault::Memory),
        }
    }

    // Writes the record of a vote, and keeps what was made for it.
    fn enter<B: Bench>(&mut self, bench: &mut B, tx: u64, vote: Vote) -> Result<(), StepFault>
        requires ready { AreReady (journals_of self.old.owners) (B.outside bench.old) }
        requires stands { (first : ℕ) × (s : State) × (session : ℕ) × (t : Txn) × CanEnter first self.old s session tx t vote }
        ensures votes { (first : ℕ) (s : State) (session : ℕ) (t : Txn) → CanEnter first self.old s session tx t vote → Votes first s session tx t self.old self.new result (B.outside bench.old) (B.outside bench.new) }
        ensures spelled { result ≢ Err StepFault.Memory → (first : ℕ) (s : State) (session : ℕ) (t : Txn) → CanVote first self.old s session tx t → AreSpelled (prepared tx (moved_of t)) }
    {
        each_step_leads_on();
        claims_behind_steps_of_a_session();
        seats_count_together();
        let Some(seat) = self.seats.get(tx) else {
            unreachable!();
        };
        match write_prepared(
            &mut self.owners,
            bench,
            tx,
            &seat.claim.gives,
            &seat.claim.takes,
            false,
        ) {
            Ok(()) => {
                drop(self.seats.change_stage(tx, Stage::Prepared(vote)));
                Ok(())
            }
            Err(fault) => {
                drop(vote);
                Err(fault)
            }
        }
    }
}
