// Calls of the system, each made again where a signal came first.
ghost use Rattle.std.specs.Prelude.{◌≡◌, ◌⊎◌, ◌+◌, ◌≤◌, ◌<◌, ◌^◌, [], true, false, List, ℕ, length, slice_get, take, Some, IfOk, OnOk, OnErr};
ghost use Rattle.std.specs.Option.{ForSome};
ghost use Rattle.dl_base.specs.Outside.{ChangesOnly, Says, Torn, overwritten, portion, extended, FaultCounted};
ghost use Rattle.dl_host.specs.Hosts.{Stays, NeverLeftAlone};

use crate::names::file_name;
use crate::{Host, Stop};
use dl_base::{Area, Failed};

/// Locks the folder.
pub fn locked<H: Host>(host: &mut H) -> Result<(), Failed>
    requires once { (H.hold host.old).has_lock ≡ false }
    ensures locked { OnOk result ((H.hold host.new).has_lock ≡ true) }
    ensures unlocked { OnErr result ((H.hold host.new).has_lock ≡ false) }
    ensures told { (H.outside host.new).told ≡ (H.outside host.old).told }
    ensures crash { Says [] (H.outside host.old) (H.outside host.new) }
    ensures stays { Stays (H.hold host.old) (H.hold host.new) }
    ensures clean { OnOk result ((H.outside host.new).faults ≡ (H.outside host.old).faults) }
    ensures cause { OnErr result (FaultCounted (H.outside host.old) (H.outside host.new) ⊎ NeverLeftAlone (H.interruptions host.new)) }
{
    'again: for _turn in 0..u64::MAX {
        match host.lock() {
            Ok(()) => return Ok(()),
            Err(Stop::Interrupted) => {}
            Err(Stop::Failed) => return Err(Failed),
        }
    }
    Err(Failed)
}

/// Opens the file of an area, and makes it where there is none.
pub fn open_file<H: Host>(host: &mut H, area: Area) -> Result<H::File, Failed>
    requires locked { (H.hold host.old).has_lock ≡ true }
    ensures opened { IfOk result (λ file. H.area_of file ≡ area) }
    ensures same { (H.outside host.new).reads area ≡ (H.outside host.old).reads area }
    ensures crash { ChangesOnly area ((H.outside host.old).image area) (H.outside host.old) (H.outside host.new) }
    ensures stays { Stays (H.hold host.old) (H.hold host.new) }
    ensures clean { OnOk result ((H.outside host.new).faults ≡ (H.outside host.old).faults) }
    ensures cause { OnErr result (FaultCounted (H.outside host.old) (H.outside host.new) ⊎ NeverLeftAlone (H.interruptions host.new)) }
{
    'again: for _turn in 0..u64::MAX {
        match host.open(area, file_name(area)) {
            Ok(file) => return Ok(file),
            Err(Stop::Interrupted) => {}
            Err(Stop::Failed) => return Err(Failed),
        }
    }
    Err(Failed)
}

/// Syncs the folder, after which the file's name outlives a crash.
pub fn sync_folder<H: Host>(host: &mut H, file: &H::File) -> Result<(), Failed>
    requires locked { (H.hold host.old).has_lock ≡ true }
    ensures named { OnOk result ((H.hold host.new).is_named (H.area_of file.now) ≡ true) }
    ensures same { (H.outside host.new).reads (H.area_of file.now) ≡ (H.outside host.old).reads (H.area_of file.now) }
    ensures crash { ChangesOnly (H.area_of file.now) ((H.outside host.old).image (H.area_of file.now)) (H.outside host.old) (H.outside host.new) }
    ensures stays { Stays (H.hold host.old) (H.hold host.new) }
    ensures clean { OnOk result ((H.outside host.new).faults ≡ (H.outside host.old).faults) }
    ensures cause { OnErr result (FaultCounted (H.outside host.old) (H.outside host.new) ⊎ NeverLeftAlone (H.interruptions host.new)) }
{
    'again: for _turn in 0..u64::MAX {
        match host.sync_folder(file) {
            Ok(()) => return Ok(()),
            Err(Stop::Interrupted) => {}
            Err(Stop::Failed) => return Err(Failed),
        }
    }
    Err(Failed)
}

/// How many bytes a file has.
pub fn measured<H: Host>(host: &mut H, file: &H::File) -> Result<u64, Failed>
    requires locked { (H.hold host.old).has_lock ≡ true }
    ensures value { IfOk result (λ n. ForSome ((H.outside host.old).reads (H.area_of file.now)) (λ bytes. n ≡ length bytes)) }
    ensures same { (H.outside host.new).reads (H.area_of file.now) ≡ (H.outside host.old).reads (H.area_of file.now) }
    ensures crash { ChangesOnly (H.area_of file.now) ((H.outside host.old).image (H.area_of file.now)) (H.outside host.old) (H.outside host.new) }
    ensures stays { Stays (H.hold host.old) (H.hold host.new) }
    ensures clean { OnOk result ((H.outside host.new).faults ≡ (H.outside host.old).faults) }
    ensures cause { OnErr result (FaultCounted (H.outside host.old) (H.outside host.new) ⊎ NeverLeftAlone (H.interruptions host.new)) }
{
    'again: for _turn in 0..u64::MAX {
        match host.length(file) {
            Ok(count) => return Ok(count),
            Err(Stop::Interrupted) => {}
            Err(Stop::Failed) => return Err(Failed),
        }
    }
    Err(Failed)
}

/// Writes the first of these bytes, and says how many. A call that can write nothing fails.
pub fn write_some<H: Host>(
    host: &mut H,
    file: &H::File,
    at: u64,
    bytes: &[u8],
) -> Result<usize, Failed>
    requires locked { (H.hold host.old).has_lock ≡ true }
    requires asked { 0 < length bytes.now }
    requires begins { ForSome ((H.outside host.old).reads (H.area_of file.now)) (λ old. at ≤ length old) }
    requires ends { at + length bytes.now ≤ 2 ^ 63 }
    ensures count { IfOk result (λ n. (0 < n) × (n ≤ length bytes.now)) }
    ensures written { IfOk result (λ n. (H.outside host.new).reads (H.area_of file.now) ≡ overwritten at (take n bytes.now) ((H.outside host.old).reads (H.area_of file.now))) }
    ensures crash { ChangesOnly (H.area_of file.now) (Torn at (length bytes.now) ((H.outside host.old).image (H.area_of file.now))) (H.outside host.old) (H.outside host.new) }
    ensures stays { Stays (H.hold host.old) (H.hold host.new) }
    ensures clean { OnOk result ((H.outside host.new).faults ≡ (H.outside host.old).faults) }
    ensures cause { OnErr result (FaultCounted (H.outside host.old) (H.outside host.new) ⊎ NeverLeftAlone (H.interruptions host.new)) }
{
    'again: for _turn in 0..u64::MAX {
        match host.write_at(file, at, bytes) {
            Ok(0) => return Err(Failed),
            Ok(count) => return Ok(count),
            Err(Stop::Interrupted) => {}
            Err(Stop::Failed) => return Err(Failed),
        }
    }
    Err(Failed)
}

/// Reads some bytes into the front of the buffer, and says how many. A call at the file's end fails.
pub fn read_some<H: Host>(
    host: &mut H,
    file: &H::File,
    at: u64,
    into: &mut [u8],
) -> Result<usize, Failed>
    requires locked { (H.hold host.old).has_lock ≡ true }
    requires asked { 0 < length into.old }
    ensures count { IfOk result (λ n. (0 < n) × (n ≤ length into.old)) }
    ensures bytes { IfOk result (λ n. ForSome ((H.outside host.old).reads (H.area_of file.now)) (λ bytes. take n into.new ≡ portion at n bytes)) }
    ensures same { (H.outside host.new).reads (H.area_of file.now) ≡ (H.outside host.old).reads (H.area_of file.now) }
    ensures crash { ChangesOnly (H.area_of file.now) ((H.outside host.old).image (H.area_of file.now)) (H.outside host.old) (H.outside host.new) }
    ensures stays { Stays (H.hold host.old) (H.hold host.new) }
    ensures clean { OnOk result ((H.outside host.new).faults ≡ (H.outside host.old).faults) }
    ensures cause { OnErr result (FaultCounted (H.outside host.old) (H.outside host.new) ⊎ NeverLeftAlone (H.interruptions host.new)) }
{
    'again: for _turn in 0..u64::MAX {
        match host.read_at(file, at, into) {
            Ok(0) => return Err(Failed),
            Ok(count) => return Ok(count),
            Err(Stop::Interrupted) => {}
            Err(Stop::Failed) => return Err(Failed),
        }
    }
    Err(Failed)
}

/// Gives the byte that was read at a place of a file to the next sync again.
pub fn renewed<H: Host>(host: &mut H, file: &H::File, at: u64, byte: u8) -> Result<(), Failed>
    requires locked { (H.hold host.old).has_lock ≡ true }
    requires read { ForSome ((H.outside host.old).reads (H.area_of file.now)) (λ bytes. slice_get bytes at ≡ Some byte) }
    ensures same { (H.outside host.new).reads (H.area_of file.now) ≡ (H.outside host.old).reads (H.area_of file.now) }
    ensures crash { ChangesOnly (H.area_of file.now) ((H.outside host.old).image (H.area_of file.now)) (H.outside host.old) (H.outside host.new) }
    ensures stays { Stays (H.hold host.old) (H.hold host.new) }
    ensures clean { OnOk result ((H.outside host.new).faults ≡ (H.outside host.old).faults) }
    ensures cause { OnErr result (FaultCounted (H.outside host.old) (H.outside host.new) ⊎ NeverLeftAlone (H.interruptions host.new)) }
{
    'again: for _turn in 0..u64::MAX {
        match host.renew(file, at, byte) {
            Ok(()) => return Ok(()),
            Err(Stop::Interrupted) => {}
            Err(Stop::Failed) => return Err(Failed),
        }
    }
    Err(Failed)
}

/// Syncs a file.
pub fn synced<H: Host>(host: &mut H, file: &H::File) -> Result<(), Failed>
    requires locked { (H.hold host.old).has_lock ≡ true }
    requires named { (H.hold host.old).is_named (H.area_of file.now) ≡ true }
    ensures durable { OnOk result ((c : List ℕ) → (H.outside host.new).image (H.area_of file.now) c → (H.outside host.old).reads (H.area_of file.now) ≡ Some c) }
    ensures same { (H.outside host.new).reads (H.area_of file.now) ≡ (H.outside host.old).reads (H.area_of file.now) }
    ensures crash { ChangesOnly (H.area_of file.now) ((H.outside host.old).image (H.area_of file.now)) (H.outside host.old) (H.outside host.new) }
    ensures stays { Stays (H.hold host.old) (H.hold host.new) }
    ensures clean { OnOk result ((H.outside host.new).faults ≡ (H.outside host.old).faults) }
    ensures cause { OnErr result (FaultCounted (H.outside host.old) (H.outside host.new) ⊎ NeverLeftAlone (H.interruptions host.new)) }
{
    'again: for _turn in 0..u64::MAX {
        match host.sync(file) {
            Ok(()) => return Ok(()),
            Err(Stop::Interrupted) => {}
            Err(Stop::Failed) => return Err(Failed),
        }
    }
    Err(Failed)
}

/// Tells the first of these bytes, and says how many. A call that can tell nothing fails.
pub fn tell_some<H: Host>(host: &mut H, bytes: &[u8]) -> Result<usize, Failed>
    requires locked { (H.hold host.old).has_lock ≡ true }
    requires asked { 0 < length bytes.now }
    ensures count { IfOk result (λ n. (0 < n) × (n ≤ length bytes.now)) }
    ensures told { IfOk result (λ n. (H.outside host.new).told ≡ extended (take n bytes.now) (H.outside host.old).told) }
    ensures crash { Says bytes.now (H.outside host.old) (H.outside host.new) }
    ensures stays { Stays (H.hold host.old) (H.hold host.new) }
    ensures clean { OnOk result ((H.outside host.new).faults ≡ (H.outside host.old).faults) }
    ensures cause { OnErr result (FaultCounted (H.outside host.old) (H.outside host.new) ⊎ NeverLeftAlone (H.interruptions host.new)) }
{
    'again: for _turn in 0..u64::MAX {
        match host.tell(bytes) {
            Ok(0) => return Err(Failed),
            Ok(count) => return Ok(count),
            Err(Stop::Interrupted) => {}
            Err(Stop::Failed) => return Err(Failed),
        }
    }
    Err(Failed)
}
