// How far a transaction is, and its end.
ghost use Rattle.std.specs.Prelude.{◌≡◌};
ghost use Rattle.std.specs.FinMap as maps;
ghost use Rattle.db_txn.specs.Transaction.{vacant};
ghost use Rattle.sys_core.specs.Seated.{is_doomed_at, let_go, phase_at};

use crate::engine::Engine;
use db_txn::Txn;
use dl_base::Phase;
use sys_seats::{Seat, Stage};

impl Engine {
    // How far a transaction is; Dropped where it has ended.
    pub(crate) fn phase(&self, tx: u64) -> Phase
        ensures { result ≡ phase_at (maps.get self.now.seats tx) }
    {
        match self.seats.get(tx) {
            Some(seat) => seat.phase(),
            None => Phase::Dropped,
        }
    }

    // Whether the claims of a transaction are forgotten: Links was opened again behind the first of them, and it is still active.
    pub(crate) fn is_doomed(&self, seat: &Seat) -> bool
        ensures { result ≡ is_doomed_at self.now.owners.manager.links.links.opening seat.now }
    {
        match (&seat.stage, seat.claim.seen) {
            (Stage::Active, Some(seen)) => seen != self.owners.manager.branches().opening(),
            _ => false,
        }
    }

    // Ends the transaction of a session, which lets go what it has claimed. It takes no memory.
    pub(crate) fn end(&mut self, txn: &mut Txn, tx: u64)
        ensures claims { self.new.claims.claims ≡ let_go self.old.owners.manager.links.links.opening (maps.get self.old.seats tx) self.old.claims.claims }
        ensures same { self.new ≡ record self.old { claims = self.new.claims; seats = maps.remove self.old.seats tx } }
        ensures txn { txn.new ≡ vacant txn.old.session }
    {
        let seat = self.seats.take(tx);
        self.release(seat);
        txn.clear();
    }

    // Lets go what a transaction has claimed, unless that is forgotten. It takes no memory.
    fn release(&mut self, seat: Option<Seat>)
        ensures claims { self.new.claims.claims ≡ let_go self.old.owners.manager.links.links.opening seat self.old.claims.claims }
        ensures same { self.new ≡ record self.old { claims = self.new.claims } }
    {
        let Some(seat) = seat else {
            return;
        };
        if self.is_doomed(&seat) {
            drop(seat);
            return;
        }
        self.claims.drop(&seat.claim.gives, &seat.claim.takes);
        drop(seat);
    }
}
