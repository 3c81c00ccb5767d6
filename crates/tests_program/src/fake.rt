//! A folder and a stream in memory, which tell their content, and give what a system may give: short calls, interrupted
//! ones, failing ones, no more room. They show that the clauses of `Host` and `Reader` can be met with content.
ghost use Rattle.std.specs.Prelude.{◌≡◌, ◌==◌, ◌&&◌, ◌≤◌, nat_lt, true, false, IfOk, Err};
ghost use Rattle.dl_host.specs.Hosts.{with_faults, count_after, is_fault, is_interruption, has_failed, was_interrupted};
ghost use Rattle.dl_host.specs.Laws.{lawful_counted};
ghost use Rattle.dl_bench.specs.Tallies.{faults};
ghost use Rattle.dl_bench.specs.Traces.{seen};
ghost use Rattle.dl_bench.specs.Laws.{lawful};

use dl_base::{Area, Bench, Failed, List, Memory};
use dl_bench::MemoryBench;
use dl_host::{Host, Reader, Stop};
use std::alloc::Global;

/// Which calls fall short, and those that were made, each by its letter.
#[derive(Drop)]
pub struct Plan {
    pub calls: Vec<u8>,
    /// A call reads, writes or tells no more bytes than this.
    pub most: usize,
    /// A file has no room for more bytes than this.
    pub room: usize,
    /// Calls of this letter fail; o stands for each opening.
    pub failing: u8,
    /// Each call is interrupted once.
    pub interrupts: bool,
    interrupted: bool,
}

impl Plan {
    /// Every call does what it can.
    pub fn new(alloc: Global) -> Plan {
        Plan {
            calls: Vec::new(alloc),
            most: 1_000,
            room: 1_000,
            failing: 0,
            interrupts: false,
            interrupted: false,
        }
    }

    fn note(&mut self, letter: u8) -> Result<(), Stop> {
        let kind = if letter.is_ascii_uppercase() {
            b'o'
        } else {
            letter
        };
        if self.calls.push(letter).is_err() || self.failing == kind {
            return Err(Stop::Failed);
        }
        self.interrupted = self.interrupts && !self.interrupted;
        if self.interrupted {
            return Err(Stop::Interrupted);
        }
        Ok(())
    }
}

/// The letter of the opening of an area's file.
fn letter_of(area: Area) -> u8 {
    match area {
        Area::Rows => b'R',
        Area::Links => b'L',
        Area::Files => b'F',
        Area::Archive => b'A',
        Area::Backups => b'B',
    }
}

/// The files of a folder, and what was told.
#[derive(Drop)]
pub struct FakeHost {
    bench: MemoryBench,
    plan: Plan,
    is_locked: bool,
    is_named: bool,
    given: Option<(u64, u8)>,
    faults: u64,
    interruptions: u64,
}

impl FakeHost {
    /// A folder with no files.
    pub fn new(alloc: Global, plan: Plan) -> Result<FakeHost, Memory>
        ensures { IfOk result (λ host. host.is_locked ≡ false) }
    {
        Ok(FakeHost {
            bench: MemoryBench::new(alloc, List::empty(alloc), None)?,
            plan,
            is_locked: false,
            is_named: false,
            given: None,
            faults: 0,
            interruptions: 0,
        })
    }

    /// Gives an area's file these bytes, before a run.
    pub fn put(&mut self, area: Area, bytes: &[u8]) -> Result<(), Memory>
        ensures { self.new.is_locked ≡ self.old.is_locked }
    {
        self.bench.put(area, bytes)
    }

    /// The bytes that the area's file has.
    pub fn file(&self, area: Area) -> &[u8] {
        self.bench.area(area)
    }

    /// All that was told.
    pub fn told(&self) -> &[u8] {
        self.bench.told()
    }

    /// The letters of the calls, in their order: l(ock), d (the folder is synced), n (length), r(ead), w(rite), g (a byte is
    /// given again), s(ync), t(ell); and the letter of its area for the opening of a file.
    pub fn calls(&self) -> &[u8] {
        &self.plan.calls
    }

    /// The byte that was given again last, behind its place.
    pub fn given(&self) -> Option<(u64, u8)> {
        self.given
    }

    /// Begins a call. One that fails is counted, and one that is interrupted.
    fn begin(&mut self, letter: u8) -> Result<(), Stop>
        ensures bench { self.new.bench ≡ self.old.bench }
        ensures lock { self.new.is_locked ≡ self.old.is_locked }
        ensures names { self.new.is_named ≡ self.old.is_named }
        ensures faults { self.new.faults ≡ count_after (has_failed result) self.old.faults }
        ensures interruptions { self.new.interruptions ≡ count_after (was_interrupted result) self.old.interruptions }
        ensures later { self.old.faults ≤ self.new.faults }
    {
        let begun = self.plan.note(letter);
        match begun {
            Ok(()) => {}
            Err(Stop::Interrupted) => self.interruptions = self.interruptions.saturating_add(1),
            Err(Stop::Failed) => self.faults = self.faults.saturating_add(1),
        }
        begun
    }

    /// Ends a call that did so many bytes of those that were asked for. One that did none is counted.
    fn end_part(&mut self, count: usize, asked: usize)
        ensures bench { self.new.bench ≡ self.old.bench }
        ensures lock { self.new.is_locked ≡ self.old.is_locked }
        ensures names { self.new.is_named ≡ self.old.is_named }
        ensures faults { self.new.faults ≡ count_after ((count == 0) && nat_lt 0 asked) self.old.faults }
        ensures interruptions { self.new.interruptions ≡ self.old.interruptions }
        ensures later { self.old.faults ≤ self.new.faults }
    {
        if count == 0 && asked > 0 {
            self.faults = self.faults.saturating_add(1);
        }
    }

    /// Ends a call that found no memory.
    fn failed(&mut self) -> Stop
        ensures value { result ≡ Stop.Failed }
        ensures bench { self.new.bench ≡ self.old.bench }
        ensures lock { self.new.is_locked ≡ self.old.is_locked }
        ensures names { self.new.is_named ≡ self.old.is_named }
        ensures faults { self.new.faults ≡ count_after true self.old.faults }
        ensures interruptions { self.new.interruptions ≡ self.old.interruptions }
        ensures later { self.old.faults ≤ self.new.faults }
    {
        self.faults = self.faults.saturating_add(1);
        Stop::Failed
    }
}

impl Host for FakeHost {
    type File = Area;

    ghost outside = { λ h. with_faults h.faults (seen h.bench) };

    ghost interruptions = { λ h. h.interruptions };

    ghost hold = { λ h. record { has_lock = h.is_locked; is_named = λ a. h.is_named } };

    ghost area_of = { λ a. a };

    fn lock(&mut self) -> Result<(), Stop> {
        self.begin(b'l')?;
        self.is_locked = true;
        Ok(())
    }

    fn open(&mut self, area: Area, _name: &str) -> Result<Area, Stop> {
        self.begin(letter_of(area))?;
        Ok(area)
    }

    fn sync_folder(&mut self, _file: &Area) -> Result<(), Stop> {
        self.begin(b'd')?;
        self.is_named = true;
        Ok(())
    }

    fn length(&mut self, file: &Area) -> Result<u64, Stop> {
        self.begin(b'n')?;
        Ok(self.bench.area(*file).len() as u64)
    }

    fn read_at(&mut self, file: &Area, at: u64, into: &mut [u8]) -> Result<usize, Stop> {
        self.begin(b'r')?;
        let kept = self.bench.area(*file);
        let from = (at as usize).min(kept.len());
        let count = self.plan.most.min(into.len()).min(kept.len() - from);
        into[..count].copy_from_slice(&kept[from..from + count]);
        self.end_part(count, into.len());
        Ok(count)
    }

    fn write_at(&mut self, file: &Area, at: u64, bytes: &[u8]) -> Result<usize, Stop> {
        self.begin(b'w')?;
        let room = self.plan.room.saturating_sub(at as usize);
        let count = self.plan.most.min(room).min(bytes.len());
        match self.bench.write(*file, at, &bytes[..count]) {
            Ok(()) => {
                self.end_part(count, bytes.len());
                Ok(count)
            }
            Err(Failed) => Err(self.failed()),
        }
    }

    fn renew(&mut self, _file: &Area, at: u64, byte: u8) -> Result<(), Stop> {
        self.begin(b'g')?;
        self.given = Some((at, byte));
        Ok(())
    }

    fn sync(&mut self, file: &Area) -> Result<(), Stop> {
        self.begin(b's')?;
        match self.bench.sync(*file) {
            Ok(()) => Ok(()),
            Err(Failed) => Err(self.failed()),
        }
    }

    fn tell(&mut self, bytes: &[u8]) -> Result<usize, Stop> {
        self.begin(b't')?;
        let count = self.plan.most.min(bytes.len());
        match self.bench.say(&bytes[..count]) {
            Ok(()) => {
                self.end_part(count, bytes.len());
                Ok(count)
            }
            Err(Failed) => Err(self.failed()),
        }
    }

    ghost lawful = { λ h. lawful_counted h.faults (seen h.bench) (lawful h.bench.events (faults h.bench.tally)) };
}

/// Bytes that come one at a time, each behind an interrupted call, and no end but a failure, where that is asked.
#[derive(Drop)]
pub struct FakeReader {
    bytes: &'static [u8],
    at: usize,
    fails: bool,
    interrupted: bool,
    faults: u64,
    interruptions: u64,
}

impl FakeReader {
    pub fn new(bytes: &'static [u8], fails: bool) -> FakeReader {
        FakeReader {
            bytes,
            at: 0,
            fails,
            interrupted: false,
            faults: 0,
            interruptions: 0,
        }
    }

    fn stopped(&mut self, why: Stop) -> Result<usize, Stop>
        ensures err { result ≡ Err why }
        ensures bytes { self.new.bytes ≡ self.old.bytes }
        ensures at { self.new.at ≡ self.old.at }
        ensures faults { self.new.faults ≡ count_after (is_fault why) self.old.faults }
        ensures interruptions { self.new.interruptions ≡ count_after (is_interruption why) self.old.interruptions }
    {
        match why {
            Stop::Interrupted => self.interruptions = self.interruptions.saturating_add(1),
            Stop::Failed => self.faults = self.faults.saturating_add(1),
        }
        Err(why)
    }
}

impl Reader for FakeReader {
    ghost use Rattle.std.specs.Prelude.{Some, drop};

    ghost rest = { λ r. Some (drop r.at r.bytes.now) };

    ghost faults = { λ r. r.faults };

    ghost interruptions = { λ r. r.interruptions };

    fn read(&mut self, into: &mut [u8]) -> Result<usize, Stop> {
        self.interrupted = !self.interrupted;
        if self.interrupted {
            return self.stopped(Stop::Interrupted);
        }
        if into.is_empty() {
            return Ok(0);
        }
        if self.at < self.bytes.len() {
            into[0] = self.bytes[self.at];
            self.at += 1;
            return Ok(1);
        }
        if self.fails {
            return self.stopped(Stop::Failed);
        }
        Ok(0)
    }
}
