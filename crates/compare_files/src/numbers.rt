// The numbers of links.
ghost use Rattle.std.specs.Prelude.{IfOk};
ghost use Rattle.compare_files.specs.Numbers.{IsNumbersOf};

use crate::effects::key_of;
use dl_base::{LinkRow, List, Memory};
use std::alloc::Global;
use std::collections::HashSet;

/// Numbers of links, as keys.
pub type Numbers = HashSet<[u64; 2]>;

/// The numbers of some links.
pub fn numbers(alloc: Global, linked: &List<LinkRow>) -> Result<Numbers, Memory>
    ensures { IfOk result (λ made. IsNumbersOf linked.now made.keys) }
{
    let mut made = HashSet::new(alloc);
    for row in linked.as_slice() {
        made.insert(key_of(row.link))?;
    }
    Ok(made)
}
