// A transaction begins.
ghost use Rattle.std.specs.Prelude.{◌≡◌, ◌+◌, ℕ, [], Err, None, OnOk, OnErr};
ghost use Rattle.std.specs.FinMap as maps;
ghost use Rattle.db_txn.specs.Transaction.{begun, vacant};
ghost use Rattle.dl_base.specs.declared.step.Step.TheVariants as steps;
ghost use Rattle.meaning_areas.specs.Commits.{tables_after};
ghost use Rattle.meaning_areas.specs.Full.{draw_full};
ghost use Rattle.meaning_system.specs.State.{State};
ghost use Rattle.meaning_tables.specs.Fits.{RowsFit};
ghost use Rattle.sys_core.specs.Seated.{HasTxn};
ghost use Rattle.sys_core.specs.Standing.{IsOf};
ghost use Rattle.sys_core.specs.Steps.{Shows, StepsInMemory};
ghost use Rattle.sys_seats.specs.declared.seat.Stage.TheVariants as stages;

use crate::engine::Engine;
use db_txn::Txn;
use dl_base::{Answer, List, Memory, Refusal, StepFault};
use fm_links::claims_behind_steps_of_a_session;
use meaning_history::each_step_leads_on;
use std::alloc::Global;
use sys_seats::{Seat, SeatClaim, Stage, seats_count_together};

impl Engine {
    /// BEGIN of a session that has no transaction: draws the next number and copies the committed tables, with which the copies share
    /// their rows. It is refused InTransaction where the session has one. The errors are `Full(Transactions)` where the opening has no
    /// number left, behind which the areas are to be opened again, and want of memory, which leaves all as it was.
    pub fn begin(&mut self, txn: &mut Txn) -> Result<Answer, StepFault>
        requires { (first : ℕ) × (s : State) × IsOf first self.old s × HasTxn s txn.old }
        ensures steps { (first : ℕ) (s : State) → IsOf first self.old s → HasTxn s txn.old → StepsInMemory first (steps.Begin txn.old.session) s self.old self.new result }
        ensures shows { (first : ℕ) (s : State) → IsOf first self.old s → HasTxn s txn.old → Shows (steps.Begin txn.old.session) s txn.old txn.new result }
        ensures memory { result ≡ Err StepFault.Memory → (txn.old.tx ≡ None) × (draw_full (self.old.owners.store.drawn + 1) ≡ None) }
    {
        each_step_leads_on();
        claims_behind_steps_of_a_session();
        seats_count_together();
        if let Some(tx) = txn.tx() {
            return Ok(Answer::Refused(Refusal::InTransaction(tx)));
        }
        let tx = match self.owners.store.coming() {
            Ok(tx) => tx,
            Err(fault) => return Err(StepFault::from(fault)),
        };
        match self.sit_down(txn, tx) {
            Ok(()) => Ok(Answer::Begun(tx)),
            Err(Memory) => Err(StepFault::Memory),
        }
    }

    // Begins a transaction of the number that comes next, in a session without one.
    fn sit_down(&mut self, txn: &mut Txn, tx: u64) -> Result<(), Memory>
        requires vacant { txn.old ≡ vacant txn.old.session }
        requires rows { RowsFit (tables_after [] self.old.owners.store.rows.commits) }
        requires left { draw_full (self.old.owners.store.drawn + 1) ≡ None }
        ensures ok { OnOk result (self.new ≡ record self.old {
          owners = record self.old.owners { store = record self.old.owners.store { drawn = self.old.owners.store.drawn + 1 } };
          seats = maps.insert self.old.seats tx (record { claim = record { seen = None; gives = []; takes = [] }; stage = stages.Active });
        }) }
        ensures begun { OnOk result (txn.new ≡ begun txn.old.session tx (tables_after [] self.old.owners.store.rows.commits)) }
        ensures err { OnErr result (self.new ≡ self.old) }
        ensures vacant { OnErr result (txn.new ≡ txn.old) }
    {
        self.begin_on_committed(txn, tx)?;
        match self.seats.put(tx, new_seat(self.alloc)) {
            Ok(()) => {
                let _ = self.owners.store.draw();
                Ok(())
            }
            Err(Memory) => {
                txn.clear();
                Err(Memory)
            }
        }
    }

    // Begins it on copies of the committed tables.
    fn begin_on_committed(&self, txn: &mut Txn, tx: u64) -> Result<(), Memory>
        requires vacant { txn.old ≡ vacant txn.old.session }
        requires rows { RowsFit (tables_after [] self.now.owners.store.rows.commits) }
        ensures ok { OnOk result (txn.new ≡ begun txn.old.session tx (tables_after [] self.now.owners.store.rows.commits)) }
        ensures err { OnErr result (txn.new ≡ txn.old) }
    {
        let tables = self.owners.store.committed().copy()?;
        let begun = txn.begin(&tables, tx);
        drop(tables);
        begun
    }
}

// What is kept of a transaction that has only begun. It takes no memory.
fn new_seat(alloc: Global) -> Seat
    ensures { result ≡ record { claim = record { seen = None; gives = []; takes = [] }; stage = stages.Active } }
{
    Seat {
        claim: SeatClaim {
            seen: None,
            gives: List::empty(alloc),
            takes: List::empty(alloc),
        },
        stage: Stage::Active,
    }
}
