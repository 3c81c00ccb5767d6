// What settling makes of the bytes of files, and of which files it makes copies.
ghost use Rattle.std.specs.Prelude.{◌≡◌, IfOk, None, OnOk, Some, if◌then◌else◌};
ghost use Rattle.std.specs.Option.{option_map};
ghost use Rattle.compare_files.specs.Effects.{PutsBehind, given, source, taken};
ghost use Rattle.meaning_settling.specs.Keyed.{is_at};
ghost use Rattle.meaning_settling.specs.Settling.{link_key, numbered, on};

use dl_base::{LinkNo, LinkRow, List, Memory, OnUnlink, Path};
use std::collections::HashMap;

/// What becomes of the bytes of the file on a path when the transaction that gives or takes a link there is settled.
#[derive(Clone, Copy)]
pub enum Effect {
    /// The file stays, with its bytes.
    Keeps,
    /// The file is deleted, as ON UNLINK DELETE asks.
    Deletes,
    /// The file gets the bytes of the archived copy of this link, if there is one.
    Fills(LinkNo),
}

/// The effect on each path that a link is given or taken on.
pub type Effects = HashMap<Path, Effect>;

/// Of which path's file a copy is made, by the number of the link that is given; None where the link asks for no copy.
pub type Sources = HashMap<[u64; 2], Option<Path>>;

/// Puts what links that are taken do, on paths where nothing stands yet.
pub fn put_taken(effects: &mut Effects, takes: &List<LinkRow>, fill: bool) -> Result<(), Memory>
    ensures { OnOk result (PutsBehind effects.old.entries effects.new.entries (λ q. option_map (taken fill) (on takes.now q))) }
{
    for row in takes.as_slice() {
        put_effect(effects, &row.path, taken(fill, row))?;
    }
    Ok(())
}

/// Puts what links that are given do, on paths where nothing stands yet.
pub fn put_given(effects: &mut Effects, gives: &List<LinkRow>) -> Result<(), Memory>
    ensures { OnOk result (PutsBehind effects.old.entries effects.new.entries (λ q. option_map given (on gives.now q))) }
{
    for row in gives.as_slice() {
        put_effect(effects, &row.path, given(row))?;
    }
    Ok(())
}

// Puts an effect on a path that has none.
fn put_effect(effects: &mut Effects, path: &Path, effect: Effect) -> Result<(), Memory>
    ensures { OnOk result (PutsBehind effects.old.entries effects.new.entries (λ q. if is_at q path.now then Some effect else None)) }
{
    if effects.contains_key(path) {
        return Ok(());
    }
    let path = path.copy()?;
    effects.insert(path, effect)?;
    Ok(())
}

fn taken(fill: bool, row: &LinkRow) -> Effect
    ensures { result ≡ taken fill row.now }
{
    if fill && row.options.recovery {
        Effect::Fills(row.link)
    } else {
        Effect::Keeps
    }
}

fn given(row: &LinkRow) -> Effect
    ensures { result ≡ given row.now }
{
    match row.options.unlink {
        OnUnlink::Nothing | OnUnlink::Restore => Effect::Keeps,
        OnUnlink::Delete => Effect::Deletes,
    }
}

/// Puts of which files links that are given make copies, under numbers where nothing stands yet.
pub fn put_sources(sources: &mut Sources, gives: &List<LinkRow>) -> Result<(), Memory>
    ensures { OnOk result (PutsBehind sources.old.entries sources.new.entries (λ q. option_map source (numbered gives.now q))) }
{
    for row in gives.as_slice() {
        put_source(sources, row)?;
    }
    Ok(())
}

// Puts a source under a link number that has none.
fn put_source(sources: &mut Sources, row: &LinkRow) -> Result<(), Memory>
    ensures { OnOk result (PutsBehind sources.old.entries sources.new.entries (λ q. if is_at q (link_key row.now.link) then Some (source row.now) else None)) }
{
    let key = key_of(row.link);
    if sources.contains_key(&key) {
        return Ok(());
    }
    let made = source(row)?;
    sources.insert(key, made)?;
    Ok(())
}

/// A link number as a key: by transaction, and then by count.
pub fn key_of(link: LinkNo) -> [u64; 2]
    ensures { result ≡ link_key link }
{
    [link.tx, u64::from(link.k)]
}

fn source(row: &LinkRow) -> Result<Option<Path>, Memory>
    ensures { IfOk result (λ made. made ≡ source row.now) }
{
    if row.options.recovery {
        Ok(Some(row.path.copy()?))
    } else {
        Ok(None)
    }
}
