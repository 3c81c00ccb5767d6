// Numbers under keys, in shared pages: an index. An entry is a key and a number, and entries stand by key and then by number.
ghost use Rattle.std.specs.Prelude.{◌≡◌};
ghost use Rattle.std.specs.List.Sorted.{IsStrictlySortedBy};
ghost use Rattle.std.specs.Ordering.{is_eq};
ghost use Rattle.dl_pages.specs.Entries.{entry_order, IsLeast};

use crate::{Ordered, Pages, Predicate, Ranked};
use dl_base::LinkNo;
use std::cmp::Ordering;

impl<K: Ordered> Ordered for (K, u64) {
    ghost use Rattle.std.proofs.lemmas.Cmp.{then_total, on_total, nat_cmp_total};
    ghost use Rattle.dl_pages.specs.Entries.{entry_order};

    ghost order = { entry_order K.order };

    fn order(&self, other: &(K, u64)) -> Ordering {
        match self.0.order(&other.0) {
            Ordering::Equal => self.1.cmp(&other.1),
            unlike => unlike,
        }
    }

    ghost total = { then_total (on_total (λ e. e.0) K.total) (on_total (λ e. e.1) nat_cmp_total) };

    ghost use Rattle.dl_pages.specs.Entries.{entry_follows};

    ghost follows = { entry_follows K.order K.rank K.follows };
}

/// What is compared with keys, as a text's bytes, so that a look makes no key. For contracts it is itself a key.
pub trait Probe<K: Ordered> {
    ghost key: { Self → K };

    fn compare(&self, other: &K) -> Ordering
        ensures { result ≡ K.order other.now (key self.now) };

    /// The rank of the key.
    fn rank(&self) -> u64
        ensures { result ≡ K.rank (key self.now) };
}

// The test of what is under a smaller key.
#[derive(Drop)]
struct Smaller<'a, P> {
    probe: &'a P,
}

impl<K: Ordered, P: Probe<K>> Predicate<(K, u64)> for Smaller<'_, P> {
    ghost use Rattle.std.specs.Ordering.{is_lt};

    ghost test = { λ s e. is_lt (K.order e.0 (P.key s.probe.now)) };

    fn passes(&self, item: &(K, u64)) -> bool {
        self.probe.compare(&item.0) == Ordering::Less
    }

    ghost pivot = { λ s. K.rank (P.key s.probe.now) };

    fn pivot(&self) -> u64 {
        self.probe.rank()
    }

    ghost use Rattle.dl_pages.specs.Orders.{lower, higher};

    ghost low = { λ s e. lower K.order K.rank K.follows e.0 (P.key s.probe.now) };

    ghost high = { λ s e. higher K.order K.rank K.total K.follows e.0 (P.key s.probe.now) };
}

// Whether a key is equal to what is looked for.
fn is_same<K: Ordered, P: Probe<K>>(probe: &P, key: &K) -> bool
    ensures { result ≡ is_eq (K.order key.now (P.key probe.now)) }
{
    probe.compare(key) == Ordering::Equal
}

/// The least number under a key; None where the entries have none under it. It takes no memory. The cost is that of a search of
/// `Pages`.
pub fn least<K: Ordered, P: Probe<K>>(entries: &Pages<(K, u64)>, probe: &P) -> Option<u64>
    ensures { IsStrictlySortedBy (entry_order K.order) entries.now → IsLeast K.order entries.now (P.key probe.now) result }
{
    let (_, first) = entries.first_failing(&Smaller { probe });
    match first {
        Some(entry) => {
            if is_same(probe, &entry.0) {
                Some(entry.1)
            } else {
                None
            }
        }
        None => None,
    }
}

impl Probe<LinkNo> for LinkNo {
    ghost key = { λ l. l };

    fn compare(&self, other: &LinkNo) -> Ordering {
        other.order(self)
    }

    fn rank(&self) -> u64 {
        Ranked::rank(self)
    }
}
