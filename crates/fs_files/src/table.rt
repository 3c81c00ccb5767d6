// The files in memory, by their paths.
ghost use Rattle.std.specs.Prelude.{◌≡◌, ◌<◌, ◌≤◌, ◌+◌, ℕ, List, Some, IsOk, IfOk, OnOk, OnErr, is_some, false, nat_eq};
ghost use Rattle.std.specs.BTreeMap.{insert_entry};
ghost use Rattle.std.specs.Cmp.Lexicographic.{pointwise, slice_cmp};
ghost use Rattle.std.specs.FinMap as map;
ghost use Rattle.std.specs.HashMap.{get, spare as room};
ghost use Rattle.std.specs.Option.{option_copied, option_map};
ghost use Rattle.std.specs.Ordering.{nat_cmp};
ghost use Rattle.dl_base.specs.declared.file.File.{File};
ghost use Rattle.meaning_files.specs.Commands.{rows_of};
ghost use Rattle.meaning_files.specs.Files.{with_owner};

use dl_base::{Copied, File, FileRow, List, Memory, Owner, Path};
use std::alloc::Global;
use std::collections::{BTreeMap, HashMap};
use std::marker::Model;

/// Files by their paths. Contracts see the files in the order of the paths' bytes, and for how many more there is room.
#[derive(Drop)]
pub struct FileTable {
    entries: HashMap<Path, File>,
}

impl Model for FileTable {
    ghost use Rattle.std.specs.FinMap.{from_entries};
    ghost use Rattle.std.specs.HashMap.{spare as room};
    ghost use Rattle.fs_files.specs.Table.{Table, table_code};

    ghost Value = { Table };

    ghost coded = { table_code };

    ghost view = { λ t. record { files = from_entries t.entries.entries; spare = room t.entries } };
}

impl FileTable {
    /// No files. It takes no memory.
    pub fn empty(alloc: Global) -> FileTable
        ensures { result.files ≡ map.empty }
    {
        FileTable {
            entries: HashMap::new(alloc),
        }
    }

    /// The file at a path. It takes no memory.
    pub fn get(&self, path: &Path) -> Option<&File>
        ensures { option_copied result ≡ map.get self.now.files path.now }
    {
        self.entries.get(path)
    }

    /// All files, in the order of the paths' bytes. It costs n log n.
    pub fn list(&self, alloc: Global) -> Result<List<FileRow>, Memory>
        ensures { IfOk result (λ rows. rows ≡ rows_of self.now.files) }
    {
        let mut rows = List::empty(alloc);
        for (path, file) in sorted(alloc, &self.entries)? {
            rows.push(FileRow { path, file })?;
        }
        Ok(rows)
    }

    /// How many files there are.
    pub fn len(&self) -> usize
        ensures { result ≡ map.len self.now.files }
    {
        self.entries.len()
    }

    /// Makes room for so many more files; want of memory leaves what room there was.
    pub fn make_room(&mut self, count: usize) -> Result<(), Memory>
        ensures files { self.new.files ≡ self.old.files }
        ensures room { OnOk result (count ≤ self.new.spare) }
        ensures spare { self.old.spare ≤ self.new.spare }
    {
        self.entries.reserve(count)?;
        Ok(())
    }

    /// Puts a file at a path, in place of any other. Where there is room it takes no memory.
    pub fn put(&mut self, path: Path, file: File) -> Result<(), Memory>
        ensures ok { OnOk result (self.new.files ≡ map.insert self.old.files path file) }
        ensures err { OnErr result (self.new.files ≡ self.old.files) }
        ensures room { 0 < self.old.spare → IsOk result }
        ensures spare { self.old.spare ≤ self.new.spare + 1 }
    {
        self.entries.insert(path, file)?;
        Ok(())
    }

    /// Takes the file at a path away, and says whether there was one. It takes no memory.
    pub fn remove(&mut self, path: &Path) -> bool
        ensures found { result ≡ is_some (map.get self.old.files path.now) }
        ensures removed { self.new.files ≡ map.remove self.old.files path.now }
        ensures room { self.old.spare ≤ self.new.spare }
    {
        self.entries.remove(path).is_some()
    }

    /// Gives the file at a path a new owner and a new saved owner, and says whether there is one. It takes no memory.
    pub fn set_owner(&mut self, path: &Path, owner: Owner, before: Option<Owner>) -> bool
        ensures found { result ≡ is_some (map.get self.old.files path.now) }
        ensures room { self.new.spare ≡ self.old.spare }
        ensures changed { self.new.files ≡ with_owner self.old.files path.now owner before (map.get self.old.files path.now) }
    {
        renew(&mut self.entries, path, owner, before)
    }
}

// Copies of all files, in the order of the paths' bytes.
fn sorted(alloc: Global, entries: &HashMap<Path, File>) -> Result<BTreeMap<Path, File>, Memory>
    ensures { IfOk result (λ made. made.entries ≡ map.entries (map.from_entries {R = slice_cmp nat_cmp} entries.now.entries)) }
{
    let mut made = BTreeMap::new(alloc);
    for (path, file) in entries.iter() {
        put_copy(&mut made, path, file)?;
    }
    Ok(made)
}

// Puts a copy of a file at a copy of its path.
fn put_copy(made: &mut BTreeMap<Path, File>, path: &Path, file: &File) -> Result<(), Memory>
    ensures { OnOk result (made.new.entries ≡ insert_entry (slice_cmp nat_cmp) made.old.entries path.now file.now) }
{
    let path = path.copy()?;
    let file = file.copy()?;
    drop(made.insert(path, file)?);
    Ok(())
}

// The owners of the file at a path, if there is one.
fn renew(
    entries: &mut HashMap<Path, File>,
    path: &Path,
    owner: Owner,
    before: Option<Owner>,
) -> bool
    ensures found { result ≡ is_some (get (pointwise nat_eq) entries.old path.now) }
    ensures entry { get (pointwise nat_eq) entries.new path.now ≡ option_map (λ (f : File). record { owner = owner; bytes = f.bytes; before = before }) (get (pointwise nat_eq) entries.old path.now) }
    ensures others { (q : List ℕ) → pointwise nat_eq path.now q ≡ false → get (pointwise nat_eq) entries.new q ≡ get (pointwise nat_eq) entries.old q }
    ensures room { room entries.new ≡ room entries.old }
{
    match entries.get_mut(path) {
        Some(file) => {
            file.owner = owner;
            file.before = before;
            true
        }
        None => false,
    }
}
