// A row with its number, as a table holds it.
ghost use Rattle.std.specs.Prelude.{◌≡◌, IfOk};

use dl_base::{Copied, List, Memory, Row, Same};
use dl_pages::Ranked;
use std::alloc::Global;
use std::marker::Model;
use std::sync::Arc;

/// A row with its number. Contracts see the pair. Copies share the row, so a copy costs one count.
#[derive(Drop)]
pub(crate) struct Numbered {
    number: u64,
    row: Arc<Row>,
}

impl Model for Numbered {
    ghost use Rattle.std.specs.Prelude.{ℕ};
    ghost use Rattle.std.specs.Arc.{arc_value};
    ghost use Rattle.dl_base.specs.declared.value.Row.{Row};

    ghost Value = { ℕ × Row };

    ghost view = { λ n. (n.number, arc_value n.row) };
}

impl Numbered {
    pub(crate) fn of(alloc: Global, number: u64, row: Row) -> Result<Numbered, Memory>
        ensures { IfOk result (λ made. made ≡ (number, row)) }
    {
        Ok(Numbered {
            number,
            row: Arc::new(alloc, row)?,
        })
    }

    pub(crate) fn number(&self) -> u64
        ensures { result ≡ self.now.0 }
    {
        self.number
    }

    pub(crate) fn row(&self) -> &Row
        ensures { result.now ≡ self.now.1 }
    {
        &self.row
    }
}

impl Ranked for Numbered {
    ghost rank = { λ r. r.0 };

    fn rank(&self) -> u64 {
        self.number
    }

    fn prefetch(&self) {
        let _ = Arc::strong_count(&self.row);
    }
}

impl Copied for Numbered {
    fn copy(&self) -> Result<Numbered, Memory> {
        Ok(Numbered {
            number: self.number,
            row: Arc::try_clone(&self.row)?,
        })
    }
}

impl Same for Numbered {
    fn same(&self, other: &Numbered) -> bool {
        self.number() == other.number() && self.row().same(other.row())
    }
}

/// Rows with their numbers, each behind a count of its own.
pub(crate) fn shared_rows(alloc: Global, rows: List<(u64, Row)>) -> Result<List<Numbered>, Memory>
    ensures { IfOk result (λ made. made ≡ rows) }
{
    let mut made = List::empty(alloc);
    for row in rows.into_vec() {
        made.push(Numbered::of(alloc, row.0, row.1)?)?;
    }
    Ok(made)
}
