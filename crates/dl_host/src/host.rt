// What the areas and the script ask of the system, one call a method but for the lock's and the opening's.
ghost use Rattle.std.specs.Prelude.{◌≡◌, ◌+◌, ◌≤◌, ◌<◌, ◌^◌, true, false, List, ℕ, [], length, slice_get, take, Option, Some, Err, IfOk, OnOk, OnErr};
ghost use Rattle.dl_base.specs.declared.area.Area.{Area};
ghost use Rattle.std.specs.Option.{ForSome};
ghost use Rattle.dl_base.specs.Outside.{Outside, ChangesOnly, Says, Torn, overwritten, portion, extended, IsLawful};
ghost use Rattle.dl_base.specs.Sources.{Took};
ghost use Rattle.dl_host.specs.Hosts.{Hold, Stays, name_of, count_after, has_failed, was_interrupted, falls_short};

use dl_base::Area;

/// Why a call of the system did nothing, or not all.
#[derive(Clone, Copy)]
pub enum Stop {
    /// A signal came first: nothing was done, and the call may be made again.
    Interrupted,
    Failed,
}

/// A folder with the areas' files, and standard output: each method is one call of the system, but the lock's, which may be
/// two, and the opening's, which may be three. Nothing but the lock is asked for before the folder is locked.
pub trait Host {
    /// An open file.
    type File: Drop;

    /// What stands outside: what the files read, what was told, what a crash may leave, and the time. No file reads as
    /// no bytes. Its faults are the calls that failed, or did none of the bytes that were asked for.
    ghost outside: { Self → Outside };

    /// How many calls were interrupted: these are no faults.
    ghost interruptions: { Self → ℕ };

    /// Whether the folder is locked for this run, and which files' names outlive a crash.
    ghost hold: { Self → Hold };

    /// The area whose file it is.
    ghost area_of: { Self.File → Area };

    /// Locks the folder, where no other run has it.
    fn lock(&mut self) -> Result<(), Stop>
        requires once { (hold self.old).has_lock ≡ false }
        ensures locked { OnOk result ((hold self.new).has_lock ≡ true) }
        ensures unlocked { OnErr result ((hold self.new).has_lock ≡ false) }
        ensures told { (outside self.new).told ≡ (outside self.old).told }
        ensures crash { Says [] (outside self.old) (outside self.new) }
        ensures stays { Stays (hold self.old) (hold self.new) }
        ensures faults { (outside self.new).faults ≡ count_after (has_failed result) (outside self.old).faults }
        ensures interruptions { interruptions self.new ≡ count_after (was_interrupted result) (interruptions self.old) };

    /// Opens the file of an area, which has this name in the folder, and makes it where there is none.
    fn open(&mut self, area: Area, name: &str) -> Result<Self::File, Stop>
        requires locked { (hold self.old).has_lock ≡ true }
        requires named { name.now ≡ name_of area }
        ensures opened { IfOk result (λ file. area_of file ≡ area) }
        ensures same { (outside self.new).reads area ≡ (outside self.old).reads area }
        ensures crash { ChangesOnly area ((outside self.old).image area) (outside self.old) (outside self.new) }
        ensures stays { Stays (hold self.old) (hold self.new) }
        ensures faults { (outside self.new).faults ≡ count_after (has_failed result) (outside self.old).faults }
        ensures interruptions { interruptions self.new ≡ count_after (was_interrupted result) (interruptions self.old) };

    /// Syncs the folder, after which the file's name outlives a crash.
    fn sync_folder(&mut self, file: &Self::File) -> Result<(), Stop>
        requires locked { (hold self.old).has_lock ≡ true }
        ensures named { OnOk result ((hold self.new).is_named (area_of file.now) ≡ true) }
        ensures same { (outside self.new).reads (area_of file.now) ≡ (outside self.old).reads (area_of file.now) }
        ensures crash { ChangesOnly (area_of file.now) ((outside self.old).image (area_of file.now)) (outside self.old) (outside self.new) }
        ensures stays { Stays (hold self.old) (hold self.new) }
        ensures faults { (outside self.new).faults ≡ count_after (has_failed result) (outside self.old).faults }
        ensures interruptions { interruptions self.new ≡ count_after (was_interrupted result) (interruptions self.old) };

    /// How many bytes the file has.
    fn length(&mut self, file: &Self::File) -> Result<u64, Stop>
        requires locked { (hold self.old).has_lock ≡ true }
        ensures value { IfOk result (λ n. ForSome ((outside self.old).reads (area_of file.now)) (λ bytes. n ≡ length bytes)) }
        ensures same { (outside self.new).reads (area_of file.now) ≡ (outside self.old).reads (area_of file.now) }
        ensures crash { ChangesOnly (area_of file.now) ((outside self.old).image (area_of file.now)) (outside self.old) (outside self.new) }
        ensures stays { Stays (hold self.old) (hold self.new) }
        ensures faults { (outside self.new).faults ≡ count_after (has_failed result) (outside self.old).faults }
        ensures interruptions { interruptions self.new ≡ count_after (was_interrupted result) (interruptions self.old) };

    /// Reads bytes from there on into the front of the buffer, and says how many; maybe fewer than there are.
    fn read_at(&mut self, file: &Self::File, at: u64, into: &mut [u8]) -> Result<usize, Stop>
        requires locked { (hold self.old).has_lock ≡ true }
        ensures count { IfOk result (λ n. n ≤ length into.old) }
        ensures bytes { IfOk result (λ n. ForSome ((outside self.old).reads (area_of file.now)) (λ bytes. take n into.new ≡ portion at n bytes)) }
        ensures same { (outside self.new).reads (area_of file.now) ≡ (outside self.old).reads (area_of file.now) }
        ensures crash { ChangesOnly (area_of file.now) ((outside self.old).image (area_of file.now)) (outside self.old) (outside self.new) }
        ensures stays { Stays (hold self.old) (hold self.new) }
        ensures faults { (outside self.new).faults ≡ count_after (falls_short (length into.old) result) (outside self.old).faults }
        ensures interruptions { interruptions self.new ≡ count_after (was_interrupted result) (interruptions self.old) };

    /// Writes the first of these bytes over what is there, and past the end, and says how many. Until a sync, a crash may
    /// leave any bytes in the range.
    fn write_at(&mut self, file: &Self::File, at: u64, bytes: &[u8]) -> Result<usize, Stop>
        requires locked { (hold self.old).has_lock ≡ true }
        requires begins { ForSome ((outside self.old).reads (area_of file.now)) (λ old. at ≤ length old) }
        requires ends { at + length bytes.now ≤ 2 ^ 63 }
        ensures count { IfOk result (λ n. n ≤ length bytes.now) }
        ensures written { IfOk result (λ n. (outside self.new).reads (area_of file.now) ≡ overwritten at (take n bytes.now) ((outside self.old).reads (area_of file.now))) }
        ensures again { result ≡ Err Stop.Interrupted → (outside self.new).reads (area_of file.now) ≡ (outside self.old).reads (area_of file.now) }
        ensures crash { ChangesOnly (area_of file.now) (Torn at (length bytes.now) ((outside self.old).image (area_of file.now))) (outside self.old) (outside self.new) }
        ensures stays { Stays (hold self.old) (hold self.new) }
        ensures faults { (outside self.new).faults ≡ count_after (falls_short (length bytes.now) result) (outside self.old).faults }
        ensures interruptions { interruptions self.new ≡ count_after (was_interrupted result) (interruptions self.old) };

    /// Gives the byte that was read at a place to the next sync again: a system whose sync failed may count bytes as written that are
    /// not, and read them from its memory for a while. Trusted is also that the same byte, written over itself, tears nothing.
    fn renew(&mut self, file: &Self::File, at: u64, byte: u8) -> Result<(), Stop>
        requires locked { (hold self.old).has_lock ≡ true }
        requires read { ForSome ((outside self.old).reads (area_of file.now)) (λ bytes. slice_get bytes at ≡ Some byte) }
        ensures same { (outside self.new).reads (area_of file.now) ≡ (outside self.old).reads (area_of file.now) }
        ensures crash { ChangesOnly (area_of file.now) ((outside self.old).image (area_of file.now)) (outside self.old) (outside self.new) }
        ensures stays { Stays (hold self.old) (hold self.new) }
        ensures faults { (outside self.new).faults ≡ count_after (has_failed result) (outside self.old).faults }
        ensures interruptions { interruptions self.new ≡ count_after (was_interrupted result) (interruptions self.old) };

    /// After it, a crash leaves what a read gives, where the file's name outlives a crash. Behind a sync that failed, also one of
    /// an earlier run, this is trusted of the bytes that were given again, by `write_at` or by `renew`.
    fn sync(&mut self, file: &Self::File) -> Result<(), Stop>
        requires locked { (hold self.old).has_lock ≡ true }
        ensures durable { OnOk result ((hold self.old).is_named (area_of file.now) ≡ true
            → (c : List ℕ) → (outside self.new).image (area_of file.now) c → (outside self.old).reads (area_of file.now) ≡ Some c) }
        ensures same { (outside self.new).reads (area_of file.now) ≡ (outside self.old).reads (area_of file.now) }
        ensures crash { ChangesOnly (area_of file.now) ((outside self.old).image (area_of file.now)) (outside self.old) (outside self.new) }
        ensures stays { Stays (hold self.old) (hold self.new) }
        ensures faults { (outside self.new).faults ≡ count_after (has_failed result) (outside self.old).faults }
        ensures interruptions { interruptions self.new ≡ count_after (was_interrupted result) (interruptions self.old) };

    /// Writes the first of these bytes to standard output, and says how many. At `Failed` some front of them was told.
    fn tell(&mut self, bytes: &[u8]) -> Result<usize, Stop>
        requires locked { (hold self.old).has_lock ≡ true }
        ensures count { IfOk result (λ n. n ≤ length bytes.now) }
        ensures told { IfOk result (λ n. (outside self.new).told ≡ extended (take n bytes.now) (outside self.old).told) }
        ensures again { result ≡ Err Stop.Interrupted → (outside self.new).told ≡ (outside self.old).told }
        ensures crash { Says bytes.now (outside self.old) (outside self.new) }
        ensures stays { Stays (hold self.old) (hold self.new) }
        ensures faults { (outside self.new).faults ≡ count_after (falls_short (length bytes.now) result) (outside self.old).faults }
        ensures interruptions { interruptions self.new ≡ count_after (was_interrupted result) (interruptions self.old) };

    /// The system keeps the laws of a device.
    ghost lawful: { (host : Self) → IsLawful (outside host) };
}

/// Standard input: one call of the system.
pub trait Reader {
    /// The bytes left, where it tells them.
    ghost rest: { Self → Option (List ℕ) };

    /// How many calls failed.
    ghost faults: { Self → ℕ };

    /// How many calls were interrupted.
    ghost interruptions: { Self → ℕ };

    /// Reads the next bytes into the front of the buffer, and says how many.
    /// At a buffer that has room it reads none only at the end.
    fn read(&mut self, into: &mut [u8]) -> Result<usize, Stop>
        ensures count { IfOk result (λ n. n ≤ length into.old) }
        ensures bytes { IfOk result (λ n. Took (take n into.new) (rest self.old) (rest self.new)) }
        ensures end { IfOk result (λ n. n ≡ 0 → 0 < length into.old → (left : List ℕ) → rest self.old ≡ Some left → left ≡ []) }
        ensures again { result ≡ Err Stop.Interrupted → rest self.new ≡ rest self.old }
        ensures faults { faults self.new ≡ count_after (has_failed result) (faults self.old) }
        ensures interruptions { interruptions self.new ≡ count_after (was_interrupted result) (interruptions self.old) };
}
