// The copies in memory, by the numbers of their links.
ghost use Rattle.std.specs.Prelude.{◌≡◌, ◌<◌, ◌≤◌, ◌+◌, None, IsOk, IfOk, OnOk, OnErr, is_some, map};
ghost use Rattle.std.specs.FinMap as maps;
ghost use Rattle.std.specs.Option.{option_copied, option_map};
ghost use Rattle.fm_archive.specs.Copies.{code, copies_in, file_copy, is_pending};
ghost use Rattle.meaning_areas.specs.Copies.{copy_of};
ghost use Rattle.meaning_settling.specs.Settling.{link_key};
ghost use Rattle.sha2.specs.Sha256.{sha256};

use dl_base::{LinkNo, LinkRow, List, Memory};
use dl_codec::FileCopy;
use std::alloc::Global;
use std::collections::{BTreeMap, HashMap};
use std::marker::Model;

/// The number of a link, as a key: by transaction, and then by count.
#[derive(Clone, Copy, PartialEq, Eq, PartialOrd, Ord, Hash)]
pub struct Key {
    pub tx: u64,
    pub k: u32,
}

/// Copies by the numbers of their links. Contracts see the copies in the order of these, and for how many more there is room.
#[derive(Drop)]
pub struct CopyTable {
    entries: HashMap<Key, FileCopy>,
}

impl Model for CopyTable {
    ghost use Rattle.std.specs.HashMap.{spare as room};
    ghost use Rattle.fm_archive.specs.Copies.{AreFiled, Shelf, copies_in, shelf_code};

    ghost Value = { Shelf };

    ghost coded = { shelf_code };

    ghost view = { λ t. record { copies = copies_in t.entries.entries; spare = room t.entries } };

    ghost invariant = { λ t. AreFiled t.entries.entries };
}

impl CopyTable {
    /// No copies. It takes no memory.
    pub fn empty(alloc: Global) -> CopyTable
        ensures { result.copies ≡ maps.empty }
    {
        CopyTable {
            entries: HashMap::new(alloc),
        }
    }

    /// The copy of a link. It takes no memory.
    pub fn get(&self, link: LinkNo) -> Option<&FileCopy>
        ensures { option_copied result ≡ option_map (file_copy link) (maps.get self.now.copies (link_key link)) }
    {
        self.entries.get(&key_of(link))
    }

    /// Whether a link has a copy. It takes no memory.
    pub fn has(&self, link: LinkNo) -> bool
        ensures { result ≡ is_some (maps.get self.now.copies (link_key link)) }
    {
        self.entries.contains_key(&key_of(link))
    }

    /// Whether a link has RECOVERY YES and no copy. It takes no memory.
    #[tactic(auto, using(crate::proofs::Entries::not_some))]
    pub fn awaits(&self, row: &LinkRow) -> bool
        ensures { result ≡ is_pending self.now.copies row.now }
    {
        row.options.recovery && !self.has(row.link)
    }

    /// The links that have a copy, in order. It costs n log n.
    pub fn links(&self, alloc: Global) -> Result<List<LinkNo>, Memory>
        ensures { IfOk result (λ links. map link_key links ≡ maps.keys self.now.copies) }
    {
        let mut links = List::empty(alloc);
        for (key, ()) in sorted(alloc, &self.entries)? {
            links.push(link_of(key))?;
        }
        Ok(links)
    }

    /// Makes room for so many more copies; want of memory leaves what room there was.
    pub fn make_room(&mut self, count: usize) -> Result<(), Memory>
        ensures copies { self.new.copies ≡ self.old.copies }
        ensures room { OnOk result (count ≤ self.new.spare) }
        ensures spare { self.old.spare ≤ self.new.spare }
    {
        self.entries.reserve(count)?;
        Ok(())
    }

    /// Puts in the copy of a link that has none. Where there is room it takes no memory.
    pub fn put(&mut self, copy: FileCopy) -> Result<(), Memory>
        requires new { maps.get self.old.copies (link_key copy.link) ≡ None }
        requires digest { copy.digest ≡ sha256 copy.bytes }
        ensures ok { OnOk result (self.new.copies ≡ maps.insert self.old.copies (link_key copy.link) (copy_of copy)) }
        ensures err { OnErr result (self.new.copies ≡ self.old.copies) }
        ensures room { 0 < self.old.spare → IsOk result }
        ensures spare { self.old.spare ≤ self.new.spare + 1 }
    {
        let key = key_of(copy.link);
        self.entries.insert(key, copy)?;
        Ok(())
    }
}

fn key_of(link: LinkNo) -> Key
    ensures { result ≡ record { tx = link.tx; k = link.k } }
{
    Key {
        tx: link.tx,
        k: link.k,
    }
}

fn link_of(key: Key) -> LinkNo
    ensures { result ≡ record { tx = key.tx; k = key.k } }
{
    LinkNo {
        tx: key.tx,
        k: key.k,
    }
}

// The keys of all copies, in order.
fn sorted(alloc: Global, entries: &HashMap<Key, FileCopy>) -> Result<BTreeMap<Key, ()>, Memory>
    ensures { IfOk result (λ made. map (λ e. code e.0) made.entries ≡ maps.keys (copies_in entries.now.entries)) }
{
    let mut made = BTreeMap::new(alloc);
    for (key, _copy) in entries.iter() {
        made.insert(*key, ())?;
    }
    Ok(made)
}
