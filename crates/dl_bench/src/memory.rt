// A bench in memory.
ghost use Rattle.std.specs.Prelude.{◌≡◌, ◌+◌, ◌<◌, ◌≤◌, ◌^◌, List as Items, ℕ, [], length, slice_get, is_err, IsErr, IsTrue, IfOk, OnOk, OnErr, IfErr, Some};
ghost use Rattle.std.specs.Option.{ForSome};
ghost use Rattle.dl_base.specs.Outside.{ChangesOnly, Says, Torn, overwritten, portion, extended, FaultCounted};
ghost use Rattle.dl_bench.specs.declared.event.Event.TheVariants.{Put, Write, Sync, Say};
ghost use Rattle.dl_bench.specs.Tallies.{fresh, is_due, faults};
ghost use Rattle.dl_bench.specs.Traces.{seen, content, told, added, asked, failed, HasFailedSaying, IsCrashed};
ghost use Rattle.dl_bench.specs.Laws.{lawful};

use crate::plan::Plan;
use crate::tape::Tape;
use crate::{Call, Pick};
use dl_base::{Area, Bench, Failed, List, Memory};
use std::alloc::Global;
use std::marker::Model;

/// Areas and told bytes in memory, which keep each moment that they had, and fail where they are told to.
/// Contracts see what happened to it, and what it counted.
#[derive(Drop)]
pub struct MemoryBench {
    plan: Plan,
    tape: Tape,
}

impl Model for MemoryBench {
    ghost use Rattle.dl_bench.specs.Traces.{Trace};

    ghost Value = { Trace };

    ghost view = { λ m. record { events = m.tape.events.items; tally = m.plan } };
}

impl MemoryBench {
    /// Areas with no bytes. The nth call of a kind that is listed fails, counted from 1, and each call after as many as the fuse says.
    pub fn new(
        alloc: Global,
        failing: List<(Call, u64)>,
        fuse: Option<u64>,
    ) -> Result<MemoryBench, Memory>
        ensures { IfOk result (λ made. made ≡ record { events = []; tally = fresh failing fuse }) }
    {
        Ok(MemoryBench {
            plan: Plan::new(failing, fuse),
            tape: Tape::new(alloc),
        })
    }

    /// Sets an area, as synced. It is no call of the bench.
    pub fn put(&mut self, area: Area, bytes: &[u8]) -> Result<(), Memory>
        ensures ok { OnOk result (self.new ≡ added self.old (Put area bytes.now)) }
        ensures err { OnErr result (self.new ≡ self.old) }
    {
        self.tape.put(area, bytes)
    }

    /// The bytes that an area has, as written.
    pub fn area(&self, area: Area) -> &[u8]
        ensures { result.now ≡ content self.now area }
    {
        self.tape.kept(area)
    }

    /// All that was told.
    pub fn told(&self) -> &[u8]
        ensures { result.now ≡ told self.now }
    {
        self.tape.told()
    }

    /// How many calls found no memory for what they add. With no call listed and no fuse, no other call fails.
    pub fn starved(&self) -> u64
        ensures value { result ≡ self.now.tally.starved }
        ensures alone { self.now.tally.failing ≡ [] → self.now.tally.fuse ≡ None → (seen self.now).faults ≡ result }
    {
        self.plan.starved()
    }

    /// What is found after a crash, on a bench that doesn't fail.
    pub fn crash(self, pick: Pick) -> Result<MemoryBench, (MemoryBench, Memory)>
        ensures ok { IfOk result (λ after. IsCrashed pick self after) }
        ensures err { IfErr result (λ e. e.0 ≡ self) }
    {
        match self.tape.crashed(pick) {
            Ok(tape) => Ok(MemoryBench {
                plan: Plan::new(List::empty(self.tape.allocator()), None),
                tape,
            }),
            Err(Memory) => Err((self, Memory)),
        }
    }
}

impl Bench for MemoryBench {
    ghost outside = { seen };

    fn length(&mut self, area: Area) -> Result<u64, Failed>
        ensures value { IfOk result (λ n. ForSome ((seen self.old).reads area) (λ bytes. n ≡ length bytes)) }
        ensures same { (seen self.new).reads area ≡ (seen self.old).reads area }
        ensures crash { ChangesOnly area ((seen self.old).image area) (seen self.old) (seen self.new) }
        ensures cause { OnErr result (FaultCounted (seen self.old) (seen self.new)) }
        ensures clean { OnOk result ((seen self.new).faults ≡ (seen self.old).faults) }
        ensures due { is_err result ≡ is_due self.old.tally Call.Length }
        ensures after { self.new ≡ asked self.old Call.Length }
    {
        if self.plan.fails(Call::Length) {
            return Err(Failed);
        }
        Ok(self.tape.kept(area).len() as u64)
    }

    fn read(&mut self, area: Area, at: u64, into: &mut [u8]) -> Result<(), Failed>
        requires { ForSome ((seen self.old).reads area) (λ bytes. at + length into.old ≤ length bytes) }
        ensures value { OnOk result (ForSome ((seen self.old).reads area) (λ bytes. into.new ≡ portion at (length into.old) bytes)) }
        ensures same { (seen self.new).reads area ≡ (seen self.old).reads area }
        ensures crash { ChangesOnly area ((seen self.old).image area) (seen self.old) (seen self.new) }
        ensures cause { OnErr result (FaultCounted (seen self.old) (seen self.new)) }
        ensures clean { OnOk result ((seen self.new).faults ≡ (seen self.old).faults) }
        ensures due { is_err result ≡ is_due self.old.tally Call.Read }
        ensures after { self.new ≡ asked self.old Call.Read }
        ensures untouched { OnErr result (into.new ≡ into.old) }
    {
        if self.plan.fails(Call::Read) {
            return Err(Failed);
        }
        let at = at as usize;
        into.copy_from_slice(&self.tape.kept(area)[at..at + into.len()]);
        Ok(())
    }

    fn write(&mut self, area: Area, at: u64, bytes: &[u8]) -> Result<(), Failed>
        requires begins { ForSome ((seen self.old).reads area) (λ old. at ≤ length old) }
        requires ends { at + length bytes.now ≤ 2 ^ 63 }
        ensures written { OnOk result ((seen self.new).reads area ≡ overwritten at bytes.now ((seen self.old).reads area)) }
        ensures crash { ChangesOnly area (Torn at (length bytes.now) ((seen self.old).image area)) (seen self.old) (seen self.new) }
        ensures cause { OnErr result (FaultCounted (seen self.old) (seen self.new)) }
        ensures clean { OnOk result ((seen self.new).faults ≡ (seen self.old).faults) }
        ensures due { IsTrue (is_due self.old.tally Call.Write) → IsErr result }
        ensures ok { OnOk result (self.new ≡ added (asked self.old Call.Write) (Write area at bytes.now)) }
        ensures err { OnErr result (self.new ≡ failed self.old Call.Write) }
    {
        if self.plan.fails(Call::Write) {
            return Err(Failed);
        }
        match self.tape.write(area, at, bytes) {
            Ok(()) => Ok(()),
            Err(Memory) => {
                self.plan.starve();
                Err(Failed)
            }
        }
    }

    /// It changes nothing but the count.
    fn renew(&mut self, area: Area, at: u64, byte: u8) -> Result<(), Failed>
        requires { ForSome ((seen self.old).reads area) (λ bytes. slice_get bytes at ≡ Some byte) }
        ensures same { (seen self.new).reads area ≡ (seen self.old).reads area }
        ensures crash { ChangesOnly area ((seen self.old).image area) (seen self.old) (seen self.new) }
        ensures cause { OnErr result (FaultCounted (seen self.old) (seen self.new)) }
        ensures clean { OnOk result ((seen self.new).faults ≡ (seen self.old).faults) }
        ensures due { is_err result ≡ is_due self.old.tally Call.Renew }
        ensures after { self.new ≡ asked self.old Call.Renew }
    {
        if self.plan.fails(Call::Renew) {
            return Err(Failed);
        }
        Ok(())
    }

    fn sync(&mut self, area: Area) -> Result<(), Failed>
        ensures durable { OnOk result ((c : Items ℕ) → (seen self.new).image area c → (seen self.old).reads area ≡ Some c) }
        ensures same { (seen self.new).reads area ≡ (seen self.old).reads area }
        ensures crash { ChangesOnly area ((seen self.old).image area) (seen self.old) (seen self.new) }
        ensures cause { OnErr result (FaultCounted (seen self.old) (seen self.new)) }
        ensures clean { OnOk result ((seen self.new).faults ≡ (seen self.old).faults) }
        ensures due { IsTrue (is_due self.old.tally Call.Sync) → IsErr result }
        ensures ok { OnOk result (self.new ≡ added (asked self.old Call.Sync) (Sync area)) }
        ensures err { OnErr result (self.new ≡ failed self.old Call.Sync) }
    {
        if self.plan.fails(Call::Sync) {
            return Err(Failed);
        }
        match self.tape.sync(area) {
            Ok(()) => Ok(()),
            Err(Memory) => {
                self.plan.starve();
                Err(Failed)
            }
        }
    }

    /// A call that is to fail tells half of the bytes.
    fn say(&mut self, bytes: &[u8]) -> Result<(), Failed>
        ensures told { OnOk result ((seen self.new).told ≡ extended bytes.now (seen self.old).told) }
        ensures crash { Says bytes.now (seen self.old) (seen self.new) }
        ensures cause { OnErr result (FaultCounted (seen self.old) (seen self.new)) }
        ensures clean { OnOk result ((seen self.new).faults ≡ (seen self.old).faults) }
        ensures due { IsTrue (is_due self.old.tally Call.Say) → IsErr result }
        ensures ok { OnOk result (self.new ≡ added (asked self.old Call.Say) (Say bytes.now)) }
        ensures err { OnErr result (HasFailedSaying bytes.now self.old self.new) }
    {
        if self.plan.fails(Call::Say) {
            self.tape.say_half(bytes);
            return Err(Failed);
        }
        match self.tape.say(bytes) {
            Ok(()) => Ok(()),
            Err(Memory) => {
                self.plan.starve();
                Err(Failed)
            }
        }
    }

    ghost lawful = { λ m. lawful m.events (faults m.tally) };
}
