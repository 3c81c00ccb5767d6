// What happened, and what it left.
ghost use Rattle.std.specs.Prelude.{◌≡◌, ◌⊎◌, ◌≤◌, ◌/◌, ◌++◌, [], ◌∷◌, length, take, IfOk, OnOk, OnErr};
ghost use Rattle.dl_bench.specs.declared.event.Event.TheVariants.{Put, Write, Sync, Say};
ghost use Rattle.dl_bench.specs.Replay.{state_after, picked, puts};
ghost use Rattle.dl_bench.specs.Tapes.{IsReplayed};

use crate::Pick;
use crate::areas::Areas;
use crate::event::Event;
use crate::space::Space;
use dl_base::{Area, Memory, Text};
use std::alloc::Global;

/// The calls that changed something, in order, and what they leave. An `Err` leaves a tape as it was.
#[derive(Drop)]
pub struct Tape {
    alloc: Global,
    pub events: Vec<Event>,
    held: Areas,
    said: Vec<u8>,
    ghost replayed: { IsReplayed events.items held said.items },
}

impl Tape {
    pub fn new(alloc: Global) -> Tape
        ensures { result.events.items ≡ [] }
    {
        Tape {
            alloc,
            events: Vec::new(alloc),
            held: Areas::new(alloc),
            said: Vec::new(alloc),
        }
    }

    pub fn allocator(&self) -> Global {
        self.alloc
    }

    pub fn kept(&self, area: Area) -> &[u8]
        ensures { result.now ≡ (state_after self.now.events.items).kept area }
    {
        self.held.at(area)
    }

    pub fn told(&self) -> &[u8]
        ensures { result.now ≡ (state_after self.now.events.items).told }
    {
        &self.said
    }

    pub fn put(&mut self, area: Area, bytes: &[u8]) -> Result<(), Memory>
        ensures ok { OnOk result (self.new.events.items ≡ self.old.events.items ++ Put area bytes.now ∷ []) }
        ensures err { OnErr result (self.new.events.items ≡ self.old.events.items) }
    {
        let text = Text::of(self.alloc, bytes)?;
        let copy = Vec::from_slice(self.alloc, bytes)?;
        self.events.push(Event::Put(area, text))?;
        self.held.set(area, copy);
        Ok(())
    }

    pub fn write(&mut self, area: Area, at: u64, bytes: &[u8]) -> Result<(), Memory>
        requires { at ≤ length ((state_after self.old.events.items).kept area) }
        ensures ok { OnOk result (self.new.events.items ≡ self.old.events.items ++ Write area at bytes.now ∷ []) }
        ensures err { OnErr result (self.new.events.items ≡ self.old.events.items) }
    {
        let text = Text::of(self.alloc, bytes)?;
        self.events.push(Event::Write(area, at, text))?;
        match self.held.write(area, at as usize, bytes) {
            Ok(()) => Ok(()),
            Err(Memory) => {
                self.events.pop();
                Err(Memory)
            }
        }
    }

    pub fn sync(&mut self, area: Area) -> Result<(), Memory>
        ensures ok { OnOk result (self.new.events.items ≡ self.old.events.items ++ Sync area ∷ []) }
        ensures err { OnErr result (self.new.events.items ≡ self.old.events.items) }
    {
        self.events.push(Event::Sync(area))?;
        Ok(())
    }

    pub fn say(&mut self, bytes: &[u8]) -> Result<(), Memory>
        ensures ok { OnOk result (self.new.events.items ≡ self.old.events.items ++ Say bytes.now ∷ []) }
        ensures err { OnErr result (self.new.events.items ≡ self.old.events.items) }
    {
        let text = Text::of(self.alloc, bytes)?;
        self.events.push(Event::Say(text))?;
        match self.said.extend_from_slice(bytes) {
            Ok(()) => Ok(()),
            Err(_) => {
                self.events.pop();
                Err(Memory)
            }
        }
    }

    /// Tells half of the bytes, or nothing where there is no memory.
    pub fn say_half(&mut self, bytes: &[u8])
        ensures { (self.new.events.items ≡ self.old.events.items) ⊎ (self.new.events.items ≡ self.old.events.items ++ Say (take (length bytes.now / 2) bytes.now) ∷ []) }
    {
        let _ = self.say(&bytes[..bytes.len() / 2]);
    }

    /// What is found after a crash.
    pub fn crashed(&self, pick: Pick) -> Result<Tape, Memory>
        ensures { IfOk result (λ t. t.events.items ≡ puts (picked pick (state_after self.now.events.items))) }
    {
        let events = self.events.as_slice();
        let mut next = Tape::new(self.alloc);
        next.put_left(events, Area::Rows, pick)?;
        next.put_left(events, Area::Links, pick)?;
        next.put_left(events, Area::Files, pick)?;
        next.put_left(events, Area::Archive, pick)?;
        next.put_left(events, Area::Backups, pick)?;
        Ok(next)
    }

    /// Puts what a crash after these events leaves in an area.
    fn put_left(&mut self, events: &[Event], area: Area, pick: Pick) -> Result<(), Memory>
        ensures { OnOk result (self.new.events.items ≡ self.old.events.items ++ Put area (picked pick (state_after events.now) area) ∷ []) }
    {
        let space = Space::after(self.alloc, events, area)?;
        self.put(area, space.picked(pick))?;
        Ok(())
    }
}
