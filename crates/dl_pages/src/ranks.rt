// Ranks: a number for each item, by which most tests are answered without a look at the item.
ghost use Rattle.std.specs.Prelude.{◌≡◌, ℕ};

use dl_base::LinkNo;

/// Items with a rank: a number that depends on the item alone. Any number is right; a test is answered by ranks as often as they
/// tell items apart.
pub trait Ranked {
    ghost rank: { Self → ℕ };

    fn rank(&self) -> u64
        ensures { result ≡ rank self.now };

    /// Reads the memory that a copy of the item will write, as the count of owners of what copies share, and changes nothing. It is
    /// called for some items before each is copied, so that the processor waits for all of that memory at once.
    fn prefetch(&self);
}

impl Ranked for u64 {
    ghost rank = { λ n. n };

    fn rank(&self) -> u64 {
        *self
    }

    fn prefetch(&self) {}
}

impl Ranked for LinkNo {
    ghost use Rattle.dl_pages.specs.Orders.{link_rank};

    ghost rank = { link_rank };

    fn rank(&self) -> u64 {
        self.tx.wrapping_mul(1 << 20).wrapping_add(self.k as u64)
    }

    fn prefetch(&self) {}
}

impl<K: Ranked> Ranked for (K, u64) {
    ghost rank = { λ e. K.rank e.0 };

    fn rank(&self) -> u64 {
        self.0.rank()
    }

    fn prefetch(&self) {
        self.0.prefetch();
    }
}
