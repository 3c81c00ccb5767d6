// Calls of the system, one after another until all is done.
ghost use Rattle.std.specs.Prelude.{◌≡◌, ◌⊎◌, ◌+◌, ◌≤◌, ◌<◌, ◌^◌, true, length, Some, IfOk, OnOk, OnErr};
ghost use Rattle.std.specs.Option.{ForSome};
ghost use Rattle.dl_base.specs.Outside.{ChangesOnly, Says, Torn, overwritten, portion, extended, FaultCounted};
ghost use Rattle.dl_host.specs.Hosts.{Stays, NeverLeftAlone};

use crate::Host;
use crate::again::{open_file, read_some, sync_folder, tell_some, write_some};
use dl_base::{Area, Failed};

/// Opens the file of an area, and syncs the folder, so that a file just made outlives a crash as its bytes do.
#[tactic(auto, using(crate::proofs::Loops::touches_still, crate::proofs::Loops::stays_then))]
pub fn opened<H: Host>(host: &mut H, area: Area) -> Result<H::File, Failed>
    requires locked { (H.hold host.old).has_lock ≡ true }
    ensures here { IfOk result (λ file. H.area_of file ≡ area) }
    ensures named { OnOk result ((H.hold host.new).is_named area ≡ true) }
    ensures same { (H.outside host.new).reads area ≡ (H.outside host.old).reads area }
    ensures crash { ChangesOnly area ((H.outside host.old).image area) (H.outside host.old) (H.outside host.new) }
    ensures stays { Stays (H.hold host.old) (H.hold host.new) }
    ensures clean { OnOk result ((H.outside host.new).faults ≡ (H.outside host.old).faults) }
    ensures cause { OnErr result (FaultCounted (H.outside host.old) (H.outside host.new) ⊎ NeverLeftAlone (H.interruptions host.new)) }
{
    match open_file(host, area) {
        Ok(file) => match sync_folder(host, &file) {
            Ok(()) => Ok(file),
            Err(Failed) => Err(Failed),
        },
        Err(Failed) => Err(Failed),
    }
}

/// Writes all bytes: a call that wrote some is followed by one for the others.
pub fn write_all<H: Host>(host: &mut H, file: &H::File, at: u64, bytes: &[u8]) -> Result<(), Failed>
    requires locked { (H.hold host.old).has_lock ≡ true }
    requires begins { ForSome ((H.outside host.old).reads (H.area_of file.now)) (λ old. at ≤ length old) }
    requires ends { at + length bytes.now ≤ 2 ^ 63 }
    ensures written { OnOk result ((H.outside host.new).reads (H.area_of file.now) ≡ overwritten at bytes.now ((H.outside host.old).reads (H.area_of file.now))) }
    ensures crash { ChangesOnly (H.area_of file.now) (Torn at (length bytes.now) ((H.outside host.old).image (H.area_of file.now))) (H.outside host.old) (H.outside host.new) }
    ensures stays { Stays (H.hold host.old) (H.hold host.new) }
    ensures clean { OnOk result ((H.outside host.new).faults ≡ (H.outside host.old).faults) }
    ensures cause { OnErr result (FaultCounted (H.outside host.old) (H.outside host.new) ⊎ NeverLeftAlone (H.interruptions host.new)) }
{
    let mut done: usize = 0;
    'more: while done < bytes.len() {
        match write_some(host, file, at + done as u64, &bytes[done..]) {
            Ok(count) => done += count,
            Err(Failed) => return Err(Failed),
        }
    }
    Ok(())
}

/// Fills the buffer: a call that read some is followed by one for the others. A byte whose place no number has is never
/// read.
pub fn read_all<H: Host>(
    host: &mut H,
    file: &H::File,
    at: u64,
    into: &mut [u8],
) -> Result<(), Failed>
    requires locked { (H.hold host.old).has_lock ≡ true }
    requires inside { ForSome ((H.outside host.old).reads (H.area_of file.now)) (λ bytes. at + length into.old ≤ length bytes) }
    ensures value { OnOk result (ForSome ((H.outside host.old).reads (H.area_of file.now)) (λ bytes. into.new ≡ portion at (length into.old) bytes)) }
    ensures same { (H.outside host.new).reads (H.area_of file.now) ≡ (H.outside host.old).reads (H.area_of file.now) }
    ensures crash { ChangesOnly (H.area_of file.now) ((H.outside host.old).image (H.area_of file.now)) (H.outside host.old) (H.outside host.new) }
    ensures stays { Stays (H.hold host.old) (H.hold host.new) }
    ensures clean { OnOk result ((H.outside host.new).faults ≡ (H.outside host.old).faults) }
    ensures cause { OnErr result (FaultCounted (H.outside host.old) (H.outside host.new) ⊎ NeverLeftAlone (H.interruptions host.new) ⊎ 2 ^ 64 < at + length into.old) }
{
    let mut done: usize = 0;
    'more: while done < into.len() {
        let Some(place) = at.checked_add(done as u64) else {
            return Err(Failed);
        };
        match read_some(host, file, place, &mut into[done..]) {
            Ok(count) => done += count,
            Err(Failed) => return Err(Failed),
        }
    }
    Ok(())
}

/// Tells all bytes: a call that told some is followed by one for the others.
pub fn tell_all<H: Host>(host: &mut H, bytes: &[u8]) -> Result<(), Failed>
    requires locked { (H.hold host.old).has_lock ≡ true }
    ensures told { OnOk result ((H.outside host.new).told ≡ extended bytes.now (H.outside host.old).told) }
    ensures crash { Says bytes.now (H.outside host.old) (H.outside host.new) }
    ensures stays { Stays (H.hold host.old) (H.hold host.new) }
    ensures clean { OnOk result ((H.outside host.new).faults ≡ (H.outside host.old).faults) }
    ensures cause { OnErr result (FaultCounted (H.outside host.old) (H.outside host.new) ⊎ NeverLeftAlone (H.interruptions host.new)) }
{
    let mut done: usize = 0;
    'more: while done < bytes.len() {
        match tell_some(host, &bytes[done..]) {
            Ok(count) => done += count,
            Err(Failed) => return Err(Failed),
        }
    }
    Ok(())
}
