// Columns that the copies of a table share.
ghost use Rattle.std.specs.Prelude.{◌≡◌, IfOk};

use dl_base::{Column, Copied, List, Memory};
use std::alloc::Global;
use std::marker::Model;
use std::sync::Arc;

/// The columns of a table. Contracts see the list.
#[derive(Drop)]
pub(crate) struct Columns {
    held: Held,
}

// Sharing takes memory, and a table may be made without: such a table holds its own columns, and its first copy the shared ones.
#[derive(Drop)]
enum Held {
    Own(List<Column>),
    Shared(Arc<List<Column>>),
}

impl Model for Columns {
    ghost use Rattle.std.specs.Prelude.{List};
    ghost use Rattle.dl_base.specs.declared.column.Column.{Column};

    ghost Value = { List Column };

    ghost use Rattle.sql_table.specs.Columns.{list_of};

    ghost view = { λ c. list_of c.held };
}

impl Columns {
    /// Columns that nothing shares yet. It takes no memory.
    pub(crate) fn own(list: List<Column>) -> Columns
        ensures { result ≡ list }
    {
        Columns {
            held: Held::Own(list),
        }
    }

    /// Columns that each copy shares.
    pub(crate) fn shared(alloc: Global, list: List<Column>) -> Result<Columns, Memory>
        ensures { IfOk result (λ made. made ≡ list) }
    {
        Ok(Columns {
            held: Held::Shared(Arc::new(alloc, list)?),
        })
    }

    /// The columns in order.
    pub(crate) fn list(&self) -> &List<Column>
        ensures { result.now ≡ self.now }
    {
        match &self.held {
            Held::Own(list) => list,
            Held::Shared(list) => list,
        }
    }

    /// The same columns once more. It costs one count where they are shared, and else a copy, which is shared from then on.
    pub(crate) fn share(&self) -> Result<Columns, Memory>
        ensures { IfOk result (λ made. made ≡ self.now) }
    {
        match &self.held {
            Held::Own(list) => Columns::shared(list.allocator(), list.copy()?),
            Held::Shared(list) => Ok(Columns {
                held: Held::Shared(Arc::try_clone(list)?),
            }),
        }
    }
}
