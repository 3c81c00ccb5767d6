// Conflicts of versions: tables that were named, and that have changed since.
ghost use Rattle.std.specs.Prelude.{◌≡◌, IfOk};
ghost use Rattle.meaning_system.specs.Claims.{conflict, version_of};

use dl_base::{List, Memory, Name, Refusal};
use sql_table::{RoomyTables, Tables};

/// The refusal for the first of some names whose table has another version now than in a base; None where each has the same, 0 where
/// there is no table. The name moves into the refusal: it takes no memory.
pub(crate) fn conflict(names: List<Name>, base: &Tables, committed: &RoomyTables) -> Option<Refusal>
    ensures { result ≡ conflict base.now committed.now.tables names }
{
    for name in names.into_vec() {
        let was = base_version(base, &name);
        let now = committed_version(committed, &name);
        if was != now {
            return Some(Refusal::Conflict(name, was, now));
        }
    }
    None
}

/// The same by names that stay: the refusal has a copy of the name that it tells.
pub(crate) fn conflict_among(
    names: &List<Name>,
    base: &Tables,
    committed: &RoomyTables,
) -> Result<Option<Refusal>, Memory>
    ensures { IfOk result (λ why. why ≡ conflict base.now committed.now.tables names.now) }
{
    for name in names.as_slice() {
        let was = base_version(base, name);
        let now = committed_version(committed, name);
        if was != now {
            return Ok(Some(Refusal::Conflict(name.copy()?, was, now)));
        }
    }
    Ok(None)
}

fn base_version(base: &Tables, name: &Name) -> u64
    ensures { result ≡ version_of base.now name.now }
{
    match base.table(name) {
        Some(table) => table.version(),
        None => 0,
    }
}

fn committed_version(committed: &RoomyTables, name: &Name) -> u64
    ensures { result ≡ version_of committed.now.tables name.now }
{
    match committed.table(name) {
        Some(table) => table.version(),
        None => 0,
    }
}
