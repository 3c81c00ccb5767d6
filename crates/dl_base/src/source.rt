// What is read once, from its begin to its end.
ghost use Rattle.std.specs.Prelude.{◌≡◌, ◌≤◌, ◌<◌, [], List, ℕ, length, take, Option, Some, IfOk, OnOk, OnErr};
ghost use Rattle.dl_base.specs.Sources.{Took, RoseFrom};

use crate::Failed;

/// A script's bytes, from the outside.
pub trait Source {
    /// The bytes left, where the source tells them.
    ghost rest: { Self → Option (List ℕ) };

    /// How often the source has failed.
    ghost faults: { Self → ℕ };

    /// Takes the next bytes into the front of the buffer, and says how many.
    /// At a buffer that has room it takes none only at the end. An answer that is Ok counted no fault.
    fn take(&mut self, into: &mut [u8]) -> Result<usize, Failed>
        ensures count { IfOk result (λ n. n ≤ length into.old) }
        ensures bytes { IfOk result (λ n. Took (take n into.new) (rest self.old) (rest self.new)) }
        ensures end { IfOk result (λ n. n ≡ 0 → 0 < length into.old → (left : List ℕ) → rest self.old ≡ Some left → left ≡ []) }
        ensures never_falls { faults self.old ≤ faults self.new }
        ensures cause { OnErr result (RoseFrom (faults self.old) (faults self.new)) }
        ensures clean { OnOk result (faults self.new ≡ faults self.old) };
}
