// The device calls of an opening.
ghost use Rattle.std.specs.Prelude.{◌≡◌, ◌≢◌, ◌<◌, ◌≤◌, ◌^◌, [], ◌∷◌, List, ℕ, length, Some, Err, IfOk, IfSome, OnOk, OnErr};
ghost use Rattle.std.specs.Option.{ForSome};
ghost use Rattle.dl_base.specs.Outside.{ChangesOnly, FaultCounted};
ghost use Rattle.dl_journal.specs.Open.{IsOpening, ReadsSameList};
ghost use Rattle.dl_journal.specs.Records.{AllAtRest};
ghost use Rattle.dl_journal.specs.Steps.{IsShort, HasRead};

use dl_base::{Area, BeginFault, Bench, Failed};
use std::alloc::Global;

/// Reads all bytes of the area. It writes nothing.
pub fn read_all<B: Bench>(alloc: Global, bench: &mut B, area: Area) -> Result<Vec<u8>, BeginFault>
    ensures value { IfOk result (λ v. HasRead v.items ((B.outside bench.old).reads area)) }
    ensures long { IfOk result (λ v. length v.items ≤ 2 ^ 63) }
    ensures same { (B.outside bench.new).reads area ≡ (B.outside bench.old).reads area }
    ensures images { ChangesOnly area ((B.outside bench.old).image area) (B.outside bench.old) (B.outside bench.new) }
    ensures device { result ≡ Err BeginFault.Device → FaultCounted (B.outside bench.old) (B.outside bench.new) }
    ensures clean { OnOk result ((B.outside bench.new).faults ≡ (B.outside bench.old).faults) }
    ensures no_other { (place : ℕ) → result ≢ Err (BeginFault.NotAJournal place) }
{
    let count = bench.length(area)?;
    let mut bytes = vec![in alloc; 0u8; count as usize]?;
    bench.read(area, 0, &mut bytes)?;
    Ok(bytes)
}

/// Syncs an area that reads fewer than two bytes, writes a closed gate, the byte 0, at its begin, and syncs.
pub fn write_first_gate<B: Bench>(bench: &mut B, area: Area) -> Result<(), Failed>
    requires short { ForSome ((B.outside bench.old).reads area) IsShort }
    ensures closed { OnOk result (AllAtRest [] ((B.outside bench.new).image area)) }
    ensures images { ChangesOnly area (IsOpening area (B.outside bench.old)) (B.outside bench.old) (B.outside bench.new) }
    ensures same_list { ReadsSameList ((B.outside bench.old).reads area) ((B.outside bench.new).reads area) }
    ensures first_gate { OnOk result ((c : List ℕ) → (B.outside bench.new).image area c → c ≡ 0 ∷ []) }
    ensures cause { OnErr result (FaultCounted (B.outside bench.old) (B.outside bench.new)) }
    ensures clean { OnOk result ((B.outside bench.new).faults ≡ (B.outside bench.old).faults) }
{
    bench.sync(area)?;
    bench.write(area, 0, &[0])?;
    bench.sync(area)
}

/// Syncs an area of which these bytes were read, and whose last record has its gate at this place. The gate is renewed first: the
/// sync behind its write may have failed in an earlier run, and no append writes its byte again. It is the byte that was read before:
/// the area may by now read what its disk has.
pub fn renew_last<B: Bench>(
    bench: &mut B,
    area: Area,
    bytes: &[u8],
    last: Option<u64>,
) -> Result<(), Failed>
    requires read { HasRead bytes.now ((B.outside bench.old).reads area) }
    requires inside { IfSome last (λ gate. gate < length bytes.now) }
    ensures durable { OnOk result ((c : List ℕ) → (B.outside bench.new).image area c → (B.outside bench.old).reads area ≡ Some c) }
    ensures same { (B.outside bench.new).reads area ≡ (B.outside bench.old).reads area }
    ensures images { ChangesOnly area ((B.outside bench.old).image area) (B.outside bench.old) (B.outside bench.new) }
    ensures cause { OnErr result (FaultCounted (B.outside bench.old) (B.outside bench.new)) }
    ensures clean { OnOk result ((B.outside bench.new).faults ≡ (B.outside bench.old).faults) }
{
    if let Some(gate) = last {
        bench.renew(area, gate, bytes[gate as usize])?;
    }
    bench.sync(area)
}
