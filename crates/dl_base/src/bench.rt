// The storage device: five areas of bytes, and a line of told bytes.
ghost use Rattle.std.specs.Prelude.{◌≡◌, ◌+◌, ◌<◌, ◌≤◌, ◌^◌, List, ℕ, length, slice_get, Some, IfOk, OnOk, OnErr};
ghost use Rattle.std.specs.Option.{ForSome};
ghost use Rattle.dl_base.specs.Outside.{Outside, ChangesOnly, Says, Torn, overwritten, portion, extended, FaultCounted, IsLawful};

use crate::{Area, Failed};

/// An answer that is Ok counted no fault.
pub trait Bench {
    /// What stands outside: what the areas read, what a crash may leave, and the time.
    ghost outside: { Self → Outside };

    /// How many bytes the area has.
    fn length(&mut self, area: Area) -> Result<u64, Failed>
        ensures value { IfOk result (λ n. ForSome ((outside self.old).reads area) (λ bytes. n ≡ length bytes)) }
        ensures same { (outside self.new).reads area ≡ (outside self.old).reads area }
        ensures crash { ChangesOnly area ((outside self.old).image area) (outside self.old) (outside self.new) }
        ensures cause { OnErr result (FaultCounted (outside self.old) (outside self.new)) }
        ensures clean { OnOk result ((outside self.new).faults ≡ (outside self.old).faults) };

    /// Fills the buffer with the area's bytes from there on.
    fn read(&mut self, area: Area, at: u64, into: &mut [u8]) -> Result<(), Failed>
        requires { ForSome ((outside self.old).reads area) (λ bytes. at + length into.old ≤ length bytes) }
        ensures value { OnOk result (ForSome ((outside self.old).reads area) (λ bytes. into.new ≡ portion at (length into.old) bytes)) }
        ensures same { (outside self.new).reads area ≡ (outside self.old).reads area }
        ensures crash { ChangesOnly area ((outside self.old).image area) (outside self.old) (outside self.new) }
        ensures cause { OnErr result (FaultCounted (outside self.old) (outside self.new)) }
        ensures clean { OnOk result ((outside self.new).faults ≡ (outside self.old).faults) };

    /// Writes over what is there, and past the end. Until a sync, a crash may leave any bytes in the range.
    fn write(&mut self, area: Area, at: u64, bytes: &[u8]) -> Result<(), Failed>
        requires begins { ForSome ((outside self.old).reads area) (λ old. at ≤ length old) }
        requires ends { at + length bytes.now ≤ 2 ^ 63 }
        ensures written { OnOk result ((outside self.new).reads area ≡ overwritten at bytes.now ((outside self.old).reads area)) }
        ensures crash { ChangesOnly area (Torn at (length bytes.now) ((outside self.old).image area)) (outside self.old) (outside self.new) }
        ensures cause { OnErr result (FaultCounted (outside self.old) (outside self.new)) }
        ensures clean { OnOk result ((outside self.new).faults ≡ (outside self.old).faults) };

    /// Gives the byte that was read at a place to the next sync again: a system whose sync failed may count bytes as written that are
    /// not, and read them from its memory for a while. What a read gives stays, and what a crash may leave.
    fn renew(&mut self, area: Area, at: u64, byte: u8) -> Result<(), Failed>
        requires { ForSome ((outside self.old).reads area) (λ bytes. slice_get bytes at ≡ Some byte) }
        ensures same { (outside self.new).reads area ≡ (outside self.old).reads area }
        ensures crash { ChangesOnly area ((outside self.old).image area) (outside self.old) (outside self.new) }
        ensures cause { OnErr result (FaultCounted (outside self.old) (outside self.new)) }
        ensures clean { OnOk result ((outside self.new).faults ≡ (outside self.old).faults) };

    /// After it, a crash leaves what a read gives. Behind a sync that failed, also one of an earlier run, this is trusted of the
    /// bytes that were given again, by `write` or by `renew`.
    fn sync(&mut self, area: Area) -> Result<(), Failed>
        ensures durable { OnOk result ((c : List ℕ) → (outside self.new).image area c → (outside self.old).reads area ≡ Some c) }
        ensures same { (outside self.new).reads area ≡ (outside self.old).reads area }
        ensures crash { ChangesOnly area ((outside self.old).image area) (outside self.old) (outside self.new) }
        ensures cause { OnErr result (FaultCounted (outside self.old) (outside self.new)) }
        ensures clean { OnOk result ((outside self.new).faults ≡ (outside self.old).faults) };

    /// Tells bytes. At `Failed` some front of them was told.
    fn say(&mut self, bytes: &[u8]) -> Result<(), Failed>
        ensures told { OnOk result ((outside self.new).told ≡ extended bytes.now (outside self.old).told) }
        ensures crash { Says bytes.now (outside self.old) (outside self.new) }
        ensures cause { OnErr result (FaultCounted (outside self.old) (outside self.new)) }
        ensures clean { OnOk result ((outside self.new).faults ≡ (outside self.old).faults) };

    /// The device keeps its laws.
    ghost lawful: { (bench : Self) → IsLawful (outside bench) };
}
