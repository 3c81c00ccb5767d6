// What settling the committed branches in doubt makes of files and of copies, and what is read through it.
ghost use Rattle.std.specs.Prelude.{◌≡◌, IfOk};
ghost use Rattle.std.specs.FinMap as maps;
ghost use Rattle.std.specs.Option.{option_copied};
ghost use Rattle.compare_files.specs.Copies.{is_source};
ghost use Rattle.compare_files.specs.Effects.{SayOf, effect, entry, file_bytes, sourced};
ghost use Rattle.compare_files.specs.Overlay.{IsOverlayOf, copy_at, file_at};
ghost use Rattle.meaning_areas.specs.Stands.{open_in, txs_of};
ghost use Rattle.meaning_settling.specs.Settling.{link_key};

use crate::doubt::{put_effects_of, put_sources_of};
use crate::effects::{Effect, Effects, Sources, key_of};
use db_store::Store;
use dl_base::{LinkNo, Memory, Path, Text};
use fm_archive::Archive;
use fm_branch::Branches;
use fs_files::Files;
use std::alloc::Global;
use std::collections::HashMap;
use std::marker::Model;

/// What settling makes of the files on paths, and of which paths' files copies are made under link numbers. Contracts see both as
/// entries in any order.
#[derive(Drop)]
pub struct Overlay {
    effects: Effects,
    sources: Sources,
}

impl Model for Overlay {
    ghost use Rattle.compare_files.specs.Overlay.{Overlay};

    ghost Value = { Overlay };

    ghost view = { λ o. record { effects = o.effects.entries; sources = o.sources.entries } };
}

/// The overlay of the committed branches in doubt. It costs the commits, and the links that those branches give and take.
pub fn overlay_of(alloc: Global, store: &Store, branches: &Branches) -> Result<Overlay, Memory>
    ensures { IfOk result (λ o. IsOverlayOf (open_in branches.now.links) (txs_of store.now.rows.commits) o) }
{
    Ok(Overlay {
        effects: effects(alloc, store, branches)?,
        sources: sources(alloc, store, branches)?,
    })
}

fn effects(alloc: Global, store: &Store, branches: &Branches) -> Result<Effects, Memory>
    ensures { IfOk result (λ made. SayOf effect (open_in branches.now.links) (txs_of store.now.rows.commits) made.entries) }
{
    let mut made = HashMap::new(alloc);
    for i in 0..store.commits() {
        let Some((tx, _)) = store.commit_at(i + 1) else {
            return Ok(made);
        };
        put_effects_of(&mut made, branches, tx)?;
    }
    Ok(made)
}

fn sources(alloc: Global, store: &Store, branches: &Branches) -> Result<Sources, Memory>
    ensures { IfOk result (λ made. SayOf sourced (open_in branches.now.links) (txs_of store.now.rows.commits) made.entries) }
{
    let mut made = HashMap::new(alloc);
    for i in 0..store.commits() {
        let Some((tx, _)) = store.commit_at(i + 1) else {
            return Ok(made);
        };
        put_sources_of(&mut made, branches, tx)?;
    }
    Ok(made)
}

impl Overlay {
    /// The bytes of the copy of a link, once all is settled; None exactly where it has none. It takes no memory.
    pub fn copy<'a>(&self, files: &'a Files, archive: &'a Archive, link: LinkNo) -> Option<&'a Text>
        ensures { option_copied result ≡ copy_at self.now files.now.files archive.now.copies (link_key link) }
    {
        match archive.copy(link) {
            Some(copy) => Some(&copy.bytes),
            None => match self.sources.get(&key_of(link)) {
                Some(Some(path)) => bytes_of(files, path),
                Some(None) | None => None,
            },
        }
    }

    /// Whether a copy is to be made under a link number. It takes no memory.
    pub fn makes_copy(&self, link: LinkNo) -> bool
        ensures { result ≡ is_source (entry self.now.sources (link_key link)) }
    {
        match self.sources.get(&key_of(link)) {
            Some(Some(_)) => true,
            Some(None) | None => false,
        }
    }

    /// The bytes of the file on a path, once all is settled; None exactly where there is none. It takes no memory.
    pub fn file<'a>(&self, files: &'a Files, archive: &'a Archive, path: &Path) -> Option<&'a Text>
        ensures { option_copied result ≡ file_at self.now files.now.files archive.now.copies path.now }
    {
        match self.effects.get(path) {
            Some(Effect::Keeps) | None => bytes_of(files, path),
            Some(Effect::Deletes) => None,
            Some(Effect::Fills(link)) => match self.copy(files, archive, *link) {
                Some(bytes) => Some(bytes),
                None => bytes_of(files, path),
            },
        }
    }
}

// The bytes of the file on a path as it is held in memory.
fn bytes_of<'a>(files: &'a Files, path: &Path) -> Option<&'a Text>
    ensures { option_copied result ≡ file_bytes (maps.get files.now.files path.now) }
{
    match files.look(path) {
        Some(file) => Some(&file.bytes),
        None => None,
    }
}
