// The bytes of the five areas.
ghost use Rattle.std.specs.Prelude.{◌≡◌, ◌≤◌, length, OnOk, OnErr};
ghost use Rattle.dl_base.specs.Outside.{replaced};

use dl_base::{Area, Memory};
use std::alloc::Global;

#[derive(Drop)]
pub struct Areas {
    rows: Vec<u8>,
    links: Vec<u8>,
    files: Vec<u8>,
    archive: Vec<u8>,
    backups: Vec<u8>,
}

impl Areas {
    ghost use Rattle.std.specs.Prelude.{ℕ, List, []};
    ghost use Rattle.dl_bench.specs.Tapes.{bytes_of, OthersStay, AllStay, AreEmpty};

    pub fn new(alloc: Global) -> Areas
        ensures { AreEmpty result }
    {
        Areas {
            rows: Vec::new(alloc),
            links: Vec::new(alloc),
            files: Vec::new(alloc),
            archive: Vec::new(alloc),
            backups: Vec::new(alloc),
        }
    }

    pub fn at(&self, area: Area) -> &[u8]
        ensures { result.now ≡ bytes_of self.now area }
    {
        match area {
            Area::Rows => &self.rows,
            Area::Links => &self.links,
            Area::Files => &self.files,
            Area::Archive => &self.archive,
            Area::Backups => &self.backups,
        }
    }

    pub fn set(&mut self, area: Area, bytes: Vec<u8>)
        ensures here { bytes_of self.new area ≡ bytes.items }
        ensures others { OthersStay area self.old self.new }
    {
        match area {
            Area::Rows => self.rows = bytes,
            Area::Links => self.links = bytes,
            Area::Files => self.files = bytes,
            Area::Archive => self.archive = bytes,
            Area::Backups => self.backups = bytes,
        }
    }

    /// Writes into an area, or changes nothing.
    pub fn write(&mut self, area: Area, at: usize, bytes: &[u8]) -> Result<(), Memory>
        requires { at ≤ length (bytes_of self.old area) }
        ensures here { OnOk result (bytes_of self.new area ≡ replaced at bytes.now (bytes_of self.old area)) }
        ensures others { OthersStay area self.old self.new }
        ensures err { OnErr result (AllStay self.old self.new) }
    {
        match area {
            Area::Rows => overwrite(&mut self.rows, at, bytes),
            Area::Links => overwrite(&mut self.links, at, bytes),
            Area::Files => overwrite(&mut self.files, at, bytes),
            Area::Archive => overwrite(&mut self.archive, at, bytes),
            Area::Backups => overwrite(&mut self.backups, at, bytes),
        }
    }
}

/// Writes over what is there, and past the end, or changes nothing.
pub fn overwrite(old: &mut Vec<u8>, at: usize, bytes: &[u8]) -> Result<(), Memory>
    requires { at ≤ length old.old.items }
    ensures ok { OnOk result (old.new.items ≡ replaced at bytes.now old.old.items) }
    ensures err { OnErr result (old.new.items ≡ old.old.items) }
{
    let inside = bytes.len().min(old.len() - at);
    let (front, back) = bytes.split_at(inside);
    old.extend_from_slice(back)?;
    old[at..at + inside].copy_from_slice(front);
    Ok(())
}
