// The two steps of an append.
ghost use Rattle.std.specs.Prelude.{◌≡◌, ◌+◌, ◌≤◌, ◌^◌, ◌++◌, [], ◌∷◌, List, ℕ, length, OnOk, OnErr};
ghost use Rattle.dl_base.specs.Outside.{ChangesOnly, FaultCounted};
ghost use Rattle.dl_journal.specs.Open.{Reaches};
ghost use Rattle.dl_journal.specs.Records.{AllAtRest, size};
ghost use Rattle.dl_journal.specs.Steps.{AllStaged, StillAtRest, HasGateTorn};

use dl_base::{Area, Bench, Failed};

/// Writes a record behind the closed gate at this place, and a closed gate behind it, and syncs.
/// A crash at any moment leaves the list as it was.
pub fn stage<B: Bench>(bench: &mut B, area: Area, place: u64, body: &[u8]) -> Result<(), Failed>
    requires reaches { Reaches (place + 1) ((B.outside bench.old).reads area) }
    requires room { place + 10 + length body.now ≤ 2 ^ 63 }

    ensures reaches { OnOk result (Reaches (place + 10 + length body.now) ((B.outside bench.new).reads area)) }
    ensures staged { OnOk result ((bodies : List (List ℕ)) → size bodies ≡ place → AllAtRest bodies ((B.outside bench.old).image area)
        → AllStaged bodies body.now ((B.outside bench.new).image area)) }
    ensures images { ChangesOnly area (StillAtRest ((B.outside bench.old).image area) place) (B.outside bench.old) (B.outside bench.new) }
    ensures cause { OnErr result (FaultCounted (B.outside bench.old) (B.outside bench.new)) }
    ensures clean { OnOk result ((B.outside bench.new).faults ≡ (B.outside bench.old).faults) }
{
    let count = body.len() as u64;
    bench.write(area, place + 1, &count.to_be_bytes())?;
    bench.write(area, place + 9, body)?;
    bench.write(area, place + 9 + count, &[0])?;
    bench.sync(area)?;
    Ok(())
}

/// Opens the gate at this place, and syncs. A crash at any moment leaves the list without the record behind that gate, or with it.
pub fn open_gate<B: Bench>(bench: &mut B, area: Area, place: u64) -> Result<(), Failed>
    requires reaches { Reaches (place + 1) ((B.outside bench.old).reads area) }
    requires room { place + 1 ≤ 2 ^ 63 }

    ensures reaches { OnOk result ((n : ℕ) → Reaches n ((B.outside bench.old).reads area) → Reaches n ((B.outside bench.new).reads area)) }
    ensures added { OnOk result ((bodies : List (List ℕ)) (body : List ℕ) → size bodies ≡ place → AllStaged bodies body ((B.outside bench.old).image area)
        → AllAtRest (bodies ++ body ∷ []) ((B.outside bench.new).image area)) }
    ensures images { ChangesOnly area (HasGateTorn ((B.outside bench.old).image area) place) (B.outside bench.old) (B.outside bench.new) }
    ensures cause { OnErr result (FaultCounted (B.outside bench.old) (B.outside bench.new)) }
    ensures clean { OnOk result ((B.outside bench.new).faults ≡ (B.outside bench.old).faults) }
{
    bench.write(area, place, &[1])?;
    bench.sync(area)?;
    Ok(())
}
