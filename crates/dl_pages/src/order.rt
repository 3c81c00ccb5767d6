// Items in order.
ghost use Rattle.std.specs.Prelude.{◌≡◌, ◌<◌};
ghost use Rattle.std.specs.Cmp.{IsTotalOrder};
ghost use Rattle.std.specs.declared.cmp.Ordering.{Ordering as Order};
ghost use Rattle.std.specs.declared.cmp.Ordering.TheVariants.{Less};

use crate::Ranked;
use dl_base::LinkNo;
use std::cmp::Ordering;

/// Items in a total order, which goes by their ranks first. Equal ones need not be the same value, and ones of the same rank may be
/// in any order.
pub trait Ordered: Ranked + Drop {
    ghost order: { Self → Self → Order };

    fn order(&self, other: &Self) -> Ordering
        ensures { result ≡ order self.now other.now };

    ghost total: { IsTotalOrder order };

    ghost follows: { (a b : Self) → Self.rank a < Self.rank b → order a b ≡ Less };
}

impl Ordered for LinkNo {
    ghost use Rattle.std.proofs.lemmas.Cmp.{then_total, on_total, nat_cmp_total};
    ghost use Rattle.dl_pages.specs.Orders.{link_order, link_rank, plain_link_order, ranked_follows};

    ghost order = { link_order };

    fn order(&self, other: &LinkNo) -> Ordering {
        match self.rank().cmp(&other.rank()) {
            Ordering::Equal => match self.tx.cmp(&other.tx) {
                Ordering::Equal => self.k.cmp(&other.k),
                unlike => unlike,
            },
            unlike => unlike,
        }
    }

    ghost total = { then_total (on_total link_rank nat_cmp_total) (then_total (on_total (λ l. l.tx) nat_cmp_total) (on_total (λ l. l.k) nat_cmp_total)) };

    ghost follows = { ranked_follows link_rank plain_link_order };
}

impl Ordered for u64 {
    ghost use Rattle.std.specs.Ordering.{nat_cmp};
    ghost use Rattle.std.proofs.lemmas.Cmp.{nat_cmp_total};

    ghost order = { nat_cmp };

    fn order(&self, other: &u64) -> Ordering {
        self.cmp(other)
    }

    ghost total = { nat_cmp_total };

    ghost use Rattle.dl_pages.specs.Orders.{number_follows};

    ghost follows = { number_follows };
}
