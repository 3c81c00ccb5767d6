ghost use Rattle.std.specs.Prelude.{◌≡◌, ◌+◌, ◌-◌, ◌<◌, ◌≤◌, ◌^◌, ◌++◌, [], ◌∷◌, ◌↔◌, List, ℕ, min, length, Err, IfOk, IfErr, OnOk, OnErr};
ghost use Rattle.dl_base.specs.Outside.{ChangesOnly, FaultCounted};
ghost use Rattle.dl_journal.specs.Open.{IsOpen, Keeps, grown, IsList, IsNoList, IsOpening, IsUnwritten, GetsFirstGate, ReadsSameList, AddsOne};

use crate::append::{open_gate, stage};
use crate::begin::{read_all, renew_last, write_first_gate};
use crate::parse::{last_gate, parse};
use dl_base::{AppendFault, Area, BeginFault, Bench, Full, List, Text};
use std::alloc::Global;
use std::marker::Model;

/// The records of an area, open for more. Contracts see the area, the length, and the limit.
#[derive(Drop)]
pub struct Journal {
    area: Area,
    /// Where the closing gate is.
    place: u64,
    limit: u64,
}

impl Model for Journal {
    ghost use Rattle.std.specs.Prelude.{◌+◌, ◌≤◌, ◌^◌};
    ghost use Rattle.dl_journal.specs.Extent.{Extent};

    ghost Value = { Extent };

    ghost view = { λ j. record { area = j.area; length = j.place + 1; limit = j.limit } };

    ghost invariant = { λ j. (j.place + 1 ≤ 2 ^ 63) × (j.limit ≤ 2 ^ 63) };
}

impl Journal {
    /// Syncs an area, and gives the bodies of its records in order. An area of fewer than two bytes gets a closed gate, the byte 0.
    /// The gate of the last record is renewed before the sync: of the bytes that the list is read from it alone may be in doubt from
    /// an earlier run. What stands behind the closing gate is none of them, and an append writes it anew.
    /// Appends fill it up to the limit, in bytes; what stands there already may be longer.
    /// `NotAJournal` has the place, from 0, of the gate of the first record that passes the area's end.
    pub fn begin<B: Bench>(
        alloc: Global,
        bench: &mut B,
        area: Area,
        limit: u64,
    ) -> Result<(Journal, List<Text>), BeginFault>
        requires low { 1 ≤ limit }
        requires high { limit ≤ 2 ^ 63 }

        // The bodies are those that the area reads, and those that each crash leaves.
        ensures bodies { IfOk result (λ r. IsList r.1 ((B.outside bench.old).reads area)) }
        ensures keeps { IfOk result (λ r. Keeps r.0 r.1 (B.outside bench.new)) }
        ensures open { IfOk result (λ r. IsOpen r.0 (B.outside bench.new)) }
        ensures journal { IfOk result (λ r. (r.0.area ≡ area) × (r.0.limit ≡ limit)) }

        // Where there are records, nothing was changed.
        ensures unwritten { IfOk result (λ r. 0 < length r.1 → IsUnwritten area (B.outside bench.old) (B.outside bench.new)) }

        // An area of fewer than two bytes has the closed gate 0 where it is opened, whatever a crash leaves.
        ensures first_gate { OnOk result (GetsFirstGate ((B.outside bench.old).reads area) ((B.outside bench.new).image area)) }

        // However it ends, the area reads as the list that it was.
        ensures same_list { ReadsSameList ((B.outside bench.old).reads area) ((B.outside bench.new).reads area) }

        // A crash at any moment leaves what it might have left before, or the list that the area reads.
        ensures images { ChangesOnly area (IsOpening area (B.outside bench.old)) (B.outside bench.old) (B.outside bench.new) }

        // Bytes that are no list stay as they are.
        ensures no_list { (place : ℕ) → result ≡ Err (BeginFault.NotAJournal place) → IsNoList place ((B.outside bench.old).reads area) }
        ensures untouched { (place : ℕ) → result ≡ Err (BeginFault.NotAJournal place) → IsUnwritten area (B.outside bench.old) (B.outside bench.new) }
        ensures memory { result ≡ Err BeginFault.Memory → IsUnwritten area (B.outside bench.old) (B.outside bench.new) }
        ensures device { result ≡ Err BeginFault.Device → FaultCounted (B.outside bench.old) (B.outside bench.new) }
        ensures clean { OnOk result ((B.outside bench.new).faults ≡ (B.outside bench.old).faults) }
    {
        let bytes = read_all(alloc, bench, area)?;
        if bytes.len() < 2 {
            write_first_gate(bench, area)?;
            return Ok((
                Journal {
                    area,
                    place: 0,
                    limit,
                },
                List::empty(alloc),
            ));
        }
        let (bodies, place) = parse(alloc, &bytes)?;
        renew_last(bench, area, &bytes, last_gate(&bodies, place))?;
        Ok((Journal { area, place, limit }, bodies))
    }

    /// How many bytes the records and the closing gate behind them are.
    pub fn length(&self) -> u64
        ensures { result ≡ self.now.length }
    {
        self.place + 1
    }

    /// Adds a record, in three writes, a sync, the write of its gate, and a sync. It takes no memory.
    /// After `Device` the journal has to be begun again.
    pub fn append<B: Bench>(&mut self, bench: &mut B, body: &[u8]) -> Result<(), AppendFault>
        requires { IsOpen self.old (B.outside bench.old) }

        // After it, each crash leaves the list with the body at its end.
        ensures acknowledged { OnOk result ((bodies : List (List ℕ)) → Keeps self.old bodies (B.outside bench.old)
            → Keeps self.new (bodies ++ body.now ∷ []) (B.outside bench.new)) }

        // A crash at any moment of the call leaves the list with the body or without. The other areas stay.
        ensures images { ChangesOnly self.old.area (AddsOne self.old body.now (B.outside bench.old)) (B.outside bench.old) (B.outside bench.new) }

        ensures open { OnOk result (IsOpen self.new (B.outside bench.new)) }
        ensures length { OnOk result (self.new ≡ grown self.old (length body.now)) }
        ensures err { OnErr result (self.new ≡ self.old) }

        // It is full where the record would pass the limit. Then nothing is written.
        ensures full { (self.old.limit < self.old.length + 9 + length body.now)
            ↔ (result ≡ Err (AppendFault.Full (Full.Area self.old.area (min (self.old.length + 9 + length body.now) (2 ^ 64 - 1))))) }
        ensures room { self.old.length + 9 + length body.now ≤ self.old.limit → IfErr result (λ fault. fault ≡ AppendFault.Device) }
        ensures unwritten { self.old.limit < self.old.length + 9 + length body.now → bench.new ≡ bench.old }
        ensures device { result ≡ Err AppendFault.Device → FaultCounted (B.outside bench.old) (B.outside bench.new) }
        ensures clean { OnOk result ((B.outside bench.new).faults ≡ (B.outside bench.old).faults) }
    {
        let start = self.place + 10;
        let count = body.len() as u64;
        if start > self.limit || count > self.limit - start {
            return Err(AppendFault::Full(Full::Area(self.area, start.saturating_add(count))));
        }
        stage(bench, self.area, self.place, body)?;
        open_gate(bench, self.area, self.place)?;
        self.place += 9 + count;
        Ok(())
    }
}
