// The bench over the files of a folder.
ghost use Rattle.std.specs.Prelude.{◌≡◌, ◌⊎◌, ◌+◌, ◌≤◌, ◌<◌, ◌^◌, [], true, false, is_err, IsSome, List as Items, ℕ, length, slice_get, Some, None, IfOk, OnOk, OnErr};
ghost use Rattle.std.specs.Option.{ForSome};
ghost use Rattle.dl_base.specs.Outside.{ChangesOnly, Says, Torn, overwritten, portion, extended, FaultCounted};
ghost use Rattle.dl_host.specs.Hosts.{with_faults, count_after, NeverLeftAlone};
ghost use Rattle.dl_host.specs.Held.{AreHeld};
ghost use Rattle.dl_host.specs.Slots.{slot_of};

use crate::Host;
use crate::again::{locked, measured, renewed, synced};
use crate::calls::{opened, read_all, tell_all, write_all};
use crate::slots::Slots;
use dl_base::{Area, Bench, Failed};

/// The files of the areas, each opened at its first use, and standard output. The folder is locked before anything of it
/// is opened, read, written or told. A call of the system that was interrupted is made again. Contracts see it as its
/// host, with a count of faults of its own.
#[derive(Drop)]
pub struct FolderBench<H: Host + Drop> {
    host: H,
    slots: Slots<H::File>,
    is_locked: bool,
    faults: u64,
    ghost locked: { (H.hold host).has_lock ≡ is_locked },
    ghost held: { AreHeld H.File H.area_of (slot_of slots) (H.hold host) },
}

impl<H: Host + Drop> FolderBench<H> {
    /// The bench over a host that has not locked its folder yet.
    pub fn new(host: H) -> FolderBench<H>
        requires { (H.hold host).has_lock ≡ false }
        ensures host { result.host ≡ host }
        ensures count { result.faults ≡ 0 }
    {
        FolderBench {
            host,
            slots: Slots::none(),
            is_locked: false,
            faults: 0,
        }
    }

    /// The host, as it is.
    pub fn host(&self) -> &H
        ensures { result.now ≡ self.now.host }
    {
        &self.host
    }

    // What a call answered; a fault is counted.
    fn counted<T: Drop>(&mut self, answer: Result<T, Failed>) -> Result<T, Failed>
        ensures same { result ≡ answer }
        ensures host { self.new.host ≡ self.old.host }
        ensures count { self.new.faults ≡ count_after (is_err answer) self.old.faults }
        ensures later { self.old.faults ≤ self.new.faults }
    {
        if answer.is_err() {
            self.faults = self.faults.saturating_add(1);
        }
        answer
    }

    // Locks the folder, if it is not locked.
    fn enter(&mut self) -> Result<(), Failed>
        ensures locked { OnOk result (self.new.is_locked ≡ true) }
        ensures once { self.old.is_locked ≡ true → self.new ≡ self.old }
        ensures told { (H.outside self.new.host).told ≡ (H.outside self.old.host).told }
        ensures crash { Says [] (H.outside self.old.host) (H.outside self.new.host) }
        ensures count { self.new.faults ≡ self.old.faults }
        ensures clean { OnOk result ((H.outside self.new.host).faults ≡ (H.outside self.old.host).faults) }
        ensures cause { OnErr result (FaultCounted (H.outside self.old.host) (H.outside self.new.host) ⊎ NeverLeftAlone (H.interruptions self.new.host)) }
    {
        if self.is_locked {
            return Ok(());
        }
        match locked(&mut self.host) {
            Ok(()) => {
                self.is_locked = true;
                Ok(())
            }
            Err(Failed) => Err(Failed),
        }
    }

    // Opens an area's file, if it is not open, and makes it where there is none.
    fn open(&mut self, area: Area) -> Result<(), Failed>
        ensures locked { OnOk result (self.new.is_locked ≡ true) }
        ensures open { OnOk result (IsSome (slot_of self.new.slots area)) }
        ensures once { IsSome (slot_of self.old.slots area) → self.old.is_locked ≡ true → self.new.host ≡ self.old.host }
        ensures same { (H.outside self.new.host).reads area ≡ (H.outside self.old.host).reads area }
        ensures crash { ChangesOnly area ((H.outside self.old.host).image area) (H.outside self.old.host) (H.outside self.new.host) }
        ensures count { self.new.faults ≡ self.old.faults }
        ensures clean { OnOk result ((H.outside self.new.host).faults ≡ (H.outside self.old.host).faults) }
        ensures cause { OnErr result (FaultCounted (H.outside self.old.host) (H.outside self.new.host) ⊎ NeverLeftAlone (H.interruptions self.new.host)) }
    {
        self.enter()?;
        if self.slots.at(area).is_some() {
            return Ok(());
        }
        let file = opened(&mut self.host, area)?;
        self.slots.keep(area, file);
        Ok(())
    }

    fn length_of(&mut self, area: Area) -> Result<u64, Failed>
        ensures value { IfOk result (λ n. ForSome ((H.outside self.old.host).reads area) (λ bytes. n ≡ length bytes)) }
        ensures same { (H.outside self.new.host).reads area ≡ (H.outside self.old.host).reads area }
        ensures crash { ChangesOnly area ((H.outside self.old.host).image area) (H.outside self.old.host) (H.outside self.new.host) }
        ensures count { self.new.faults ≡ self.old.faults }
        ensures clean { OnOk result ((H.outside self.new.host).faults ≡ (H.outside self.old.host).faults) }
        ensures cause { OnErr result (FaultCounted (H.outside self.old.host) (H.outside self.new.host) ⊎ NeverLeftAlone (H.interruptions self.new.host)) }
    {
        self.open(area)?;
        match self.slots.at(area) {
            Some(file) => measured(&mut self.host, file),
            None => Err(Failed),
        }
    }

    fn read_from(&mut self, area: Area, at: u64, into: &mut [u8]) -> Result<(), Failed>
        requires { ForSome ((H.outside self.old.host).reads area) (λ bytes. at + length into.old ≤ length bytes) }
        ensures value { OnOk result (ForSome ((H.outside self.old.host).reads area) (λ bytes. into.new ≡ portion at (length into.old) bytes)) }
        ensures same { (H.outside self.new.host).reads area ≡ (H.outside self.old.host).reads area }
        ensures crash { ChangesOnly area ((H.outside self.old.host).image area) (H.outside self.old.host) (H.outside self.new.host) }
        ensures count { self.new.faults ≡ self.old.faults }
        ensures clean { OnOk result ((H.outside self.new.host).faults ≡ (H.outside self.old.host).faults) }
        ensures cause { OnErr result (FaultCounted (H.outside self.old.host) (H.outside self.new.host) ⊎ NeverLeftAlone (H.interruptions self.new.host) ⊎ 2 ^ 64 < at + length into.old) }
    {
        self.open(area)?;
        match self.slots.at(area) {
            Some(file) => read_all(&mut self.host, file, at, into),
            None => Err(Failed),
        }
    }

    fn write_to(&mut self, area: Area, at: u64, bytes: &[u8]) -> Result<(), Failed>
        requires begins { ForSome ((H.outside self.old.host).reads area) (λ old. at ≤ length old) }
        requires ends { at + length bytes.now ≤ 2 ^ 63 }
        ensures written { OnOk result ((H.outside self.new.host).reads area ≡ overwritten at bytes.now ((H.outside self.old.host).reads area)) }
        ensures crash { ChangesOnly area (Torn at (length bytes.now) ((H.outside self.old.host).image area)) (H.outside self.old.host) (H.outside self.new.host) }
        ensures count { self.new.faults ≡ self.old.faults }
        ensures clean { OnOk result ((H.outside self.new.host).faults ≡ (H.outside self.old.host).faults) }
        ensures cause { OnErr result (FaultCounted (H.outside self.old.host) (H.outside self.new.host) ⊎ NeverLeftAlone (H.interruptions self.new.host)) }
    {
        self.open(area)?;
        match self.slots.at(area) {
            Some(file) => write_all(&mut self.host, file, at, bytes),
            None => Err(Failed),
        }
    }

    fn renew_in(&mut self, area: Area, at: u64, byte: u8) -> Result<(), Failed>
        requires { ForSome ((H.outside self.old.host).reads area) (λ bytes. slice_get bytes at ≡ Some byte) }
        ensures same { (H.outside self.new.host).reads area ≡ (H.outside self.old.host).reads area }
        ensures crash { ChangesOnly area ((H.outside self.old.host).image area) (H.outside self.old.host) (H.outside self.new.host) }
        ensures count { self.new.faults ≡ self.old.faults }
        ensures clean { OnOk result ((H.outside self.new.host).faults ≡ (H.outside self.old.host).faults) }
        ensures cause { OnErr result (FaultCounted (H.outside self.old.host) (H.outside self.new.host) ⊎ NeverLeftAlone (H.interruptions self.new.host)) }
    {
        self.open(area)?;
        match self.slots.at(area) {
            Some(file) => renewed(&mut self.host, file, at, byte),
            None => Err(Failed),
        }
    }

    fn sync_of(&mut self, area: Area) -> Result<(), Failed>
        ensures durable { OnOk result ((c : Items ℕ) → (H.outside self.new.host).image area c → (H.outside self.old.host).reads area ≡ Some c) }
        ensures same { (H.outside self.new.host).reads area ≡ (H.outside self.old.host).reads area }
        ensures crash { ChangesOnly area ((H.outside self.old.host).image area) (H.outside self.old.host) (H.outside self.new.host) }
        ensures count { self.new.faults ≡ self.old.faults }
        ensures clean { OnOk result ((H.outside self.new.host).faults ≡ (H.outside self.old.host).faults) }
        ensures cause { OnErr result (FaultCounted (H.outside self.old.host) (H.outside self.new.host) ⊎ NeverLeftAlone (H.interruptions self.new.host)) }
    {
        self.open(area)?;
        match self.slots.at(area) {
            Some(file) => synced(&mut self.host, file),
            None => Err(Failed),
        }
    }

    fn tell(&mut self, bytes: &[u8]) -> Result<(), Failed>
        ensures told { OnOk result ((H.outside self.new.host).told ≡ extended bytes.now (H.outside self.old.host).told) }
        ensures crash { Says bytes.now (H.outside self.old.host) (H.outside self.new.host) }
        ensures count { self.new.faults ≡ self.old.faults }
        ensures clean { OnOk result ((H.outside self.new.host).faults ≡ (H.outside self.old.host).faults) }
        ensures cause { OnErr result (FaultCounted (H.outside self.old.host) (H.outside self.new.host) ⊎ NeverLeftAlone (H.interruptions self.new.host)) }
    {
        self.enter()?;
        tell_all(&mut self.host, bytes)
    }
}

impl<H: Host + Drop> Bench for FolderBench<H> {
    ghost use Rattle.dl_host.specs.Laws.{lawful_counted};

    ghost outside = { λ b. with_faults b.faults (H.outside b.host) };

    fn length(&mut self, area: Area) -> Result<u64, Failed>
        ensures value { IfOk result (λ n. ForSome ((H.outside self.old.host).reads area) (λ bytes. n ≡ length bytes)) }
        ensures same { (H.outside self.new.host).reads area ≡ (H.outside self.old.host).reads area }
        ensures crash { ChangesOnly area ((H.outside self.old.host).image area) (with_faults self.old.faults (H.outside self.old.host)) (with_faults self.new.faults (H.outside self.new.host)) }
        ensures cause { OnErr result (FaultCounted (with_faults self.old.faults (H.outside self.old.host)) (with_faults self.new.faults (H.outside self.new.host))) }
        ensures exactly { self.new.faults ≡ count_after (is_err result) self.old.faults }
        ensures host_clean { OnOk result ((H.outside self.new.host).faults ≡ (H.outside self.old.host).faults) }
        ensures by_host { OnErr result (FaultCounted (H.outside self.old.host) (H.outside self.new.host) ⊎ NeverLeftAlone (H.interruptions self.new.host)) }
    {
        let answer = self.length_of(area);
        self.counted(answer)
    }

    fn read(&mut self, area: Area, at: u64, into: &mut [u8]) -> Result<(), Failed>
        requires { ForSome ((H.outside self.old.host).reads area) (λ bytes. at + length into.old ≤ length bytes) }
        ensures value { OnOk result (ForSome ((H.outside self.old.host).reads area) (λ bytes. into.new ≡ portion at (length into.old) bytes)) }
        ensures same { (H.outside self.new.host).reads area ≡ (H.outside self.old.host).reads area }
        ensures crash { ChangesOnly area ((H.outside self.old.host).image area) (with_faults self.old.faults (H.outside self.old.host)) (with_faults self.new.faults (H.outside self.new.host)) }
        ensures cause { OnErr result (FaultCounted (with_faults self.old.faults (H.outside self.old.host)) (with_faults self.new.faults (H.outside self.new.host))) }
        ensures exactly { self.new.faults ≡ count_after (is_err result) self.old.faults }
        ensures host_clean { OnOk result ((H.outside self.new.host).faults ≡ (H.outside self.old.host).faults) }
        ensures by_host { OnErr result (FaultCounted (H.outside self.old.host) (H.outside self.new.host) ⊎ NeverLeftAlone (H.interruptions self.new.host) ⊎ 2 ^ 64 < at + length into.old) }
    {
        let answer = self.read_from(area, at, into);
        self.counted(answer)
    }

    fn write(&mut self, area: Area, at: u64, bytes: &[u8]) -> Result<(), Failed>
        requires begins { ForSome ((H.outside self.old.host).reads area) (λ old. at ≤ length old) }
        requires ends { at + length bytes.now ≤ 2 ^ 63 }
        ensures written { OnOk result ((H.outside self.new.host).reads area ≡ overwritten at bytes.now ((H.outside self.old.host).reads area)) }
        ensures crash { ChangesOnly area (Torn at (length bytes.now) ((H.outside self.old.host).image area)) (with_faults self.old.faults (H.outside self.old.host)) (with_faults self.new.faults (H.outside self.new.host)) }
        ensures cause { OnErr result (FaultCounted (with_faults self.old.faults (H.outside self.old.host)) (with_faults self.new.faults (H.outside self.new.host))) }
        ensures exactly { self.new.faults ≡ count_after (is_err result) self.old.faults }
        ensures host_clean { OnOk result ((H.outside self.new.host).faults ≡ (H.outside self.old.host).faults) }
        ensures by_host { OnErr result (FaultCounted (H.outside self.old.host) (H.outside self.new.host) ⊎ NeverLeftAlone (H.interruptions self.new.host)) }
    {
        let answer = self.write_to(area, at, bytes);
        self.counted(answer)
    }

    fn renew(&mut self, area: Area, at: u64, byte: u8) -> Result<(), Failed>
        requires { ForSome ((H.outside self.old.host).reads area) (λ bytes. slice_get bytes at ≡ Some byte) }
        ensures same { (H.outside self.new.host).reads area ≡ (H.outside self.old.host).reads area }
        ensures crash { ChangesOnly area ((H.outside self.old.host).image area) (with_faults self.old.faults (H.outside self.old.host)) (with_faults self.new.faults (H.outside self.new.host)) }
        ensures cause { OnErr result (FaultCounted (with_faults self.old.faults (H.outside self.old.host)) (with_faults self.new.faults (H.outside self.new.host))) }
        ensures exactly { self.new.faults ≡ count_after (is_err result) self.old.faults }
        ensures host_clean { OnOk result ((H.outside self.new.host).faults ≡ (H.outside self.old.host).faults) }
        ensures by_host { OnErr result (FaultCounted (H.outside self.old.host) (H.outside self.new.host) ⊎ NeverLeftAlone (H.interruptions self.new.host)) }
    {
        let answer = self.renew_in(area, at, byte);
        self.counted(answer)
    }

    fn sync(&mut self, area: Area) -> Result<(), Failed>
        ensures durable { OnOk result ((c : Items ℕ) → (H.outside self.new.host).image area c → (H.outside self.old.host).reads area ≡ Some c) }
        ensures same { (H.outside self.new.host).reads area ≡ (H.outside self.old.host).reads area }
        ensures crash { ChangesOnly area ((H.outside self.old.host).image area) (with_faults self.old.faults (H.outside self.old.host)) (with_faults self.new.faults (H.outside self.new.host)) }
        ensures cause { OnErr result (FaultCounted (with_faults self.old.faults (H.outside self.old.host)) (with_faults self.new.faults (H.outside self.new.host))) }
        ensures exactly { self.new.faults ≡ count_after (is_err result) self.old.faults }
        ensures host_clean { OnOk result ((H.outside self.new.host).faults ≡ (H.outside self.old.host).faults) }
        ensures by_host { OnErr result (FaultCounted (H.outside self.old.host) (H.outside self.new.host) ⊎ NeverLeftAlone (H.interruptions self.new.host)) }
    {
        let answer = self.sync_of(area);
        self.counted(answer)
    }

    fn say(&mut self, bytes: &[u8]) -> Result<(), Failed>
        ensures told { OnOk result ((H.outside self.new.host).told ≡ extended bytes.now (H.outside self.old.host).told) }
        ensures crash { Says bytes.now (with_faults self.old.faults (H.outside self.old.host)) (with_faults self.new.faults (H.outside self.new.host)) }
        ensures cause { OnErr result (FaultCounted (with_faults self.old.faults (H.outside self.old.host)) (with_faults self.new.faults (H.outside self.new.host))) }
        ensures exactly { self.new.faults ≡ count_after (is_err result) self.old.faults }
        ensures host_clean { OnOk result ((H.outside self.new.host).faults ≡ (H.outside self.old.host).faults) }
        ensures by_host { OnErr result (FaultCounted (H.outside self.old.host) (H.outside self.new.host) ⊎ NeverLeftAlone (H.interruptions self.new.host)) }
    {
        let answer = self.tell(bytes);
        self.counted(answer)
    }

    ghost lawful = { λ b. lawful_counted b.faults (H.outside b.host) (H.lawful b.host) };
}
