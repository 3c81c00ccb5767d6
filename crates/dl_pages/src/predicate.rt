// Tests of items, for searches of lists in which those that pass come first.
ghost use Rattle.std.specs.Prelude.{◌≡◌, ℕ, ◌<◌, Bool, true, false};

use crate::Ranked;

/// A test of items, as a value: it keeps what it compares with. An item whose rank is below its pivot passes, and one whose rank is
/// above it fails; only where the ranks are equal is the item asked.
pub trait Predicate<T: Ranked> {
    ghost test: { Self → T → Bool };

    ghost pivot: { Self → ℕ };

    fn passes(&self, item: &T) -> bool
        ensures { result ≡ test self.now item.now };

    /// The rank at which the test turns. A search asks for it once.
    fn pivot(&self) -> u64
        ensures { result ≡ pivot self.now };

    ghost low: { (s : Self) (x : T) → T.rank x < pivot s → test s x ≡ true };

    ghost high: { (s : Self) (x : T) → pivot s < T.rank x → test s x ≡ false };
}
