// Whether a transaction has a branch.
ghost use Rattle.std.specs.Prelude.{◌≡◌, IfOk};
ghost use Rattle.db_changes.specs.Touched.{Covers};
ghost use Rattle.meaning_system.specs.State.{is_empty};
ghost use Rattle.db_txn.specs.Branching.{has_branch as meant};

use db_changes::TouchedRows;
use db_moved::moved_links;
use dl_base::{LinkRow, List, Memory};
use sql_table::Tables;
use std::alloc::Global;

/// Whether a copy gives or takes a link of its base. It costs what `moved_links` does.
pub(crate) fn has_branch(
    alloc: Global,
    base: &Tables,
    copy: &Tables,
    touched: &TouchedRows,
) -> Result<bool, Memory>
    requires { Covers touched.now base.now copy.now }
    ensures { IfOk result (λ has. has ≡ meant base.now copy.now) }
{
    let (gives, takes) = moved_links(alloc, base, copy, touched)?;
    Ok(!(is_empty(&gives) && is_empty(&takes)))
}

fn is_empty(links: &List<LinkRow>) -> bool
    ensures { result ≡ is_empty links.now }
{
    links.len() == 0
}
