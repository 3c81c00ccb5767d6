// Which links of a target are lost, and the target without them.
ghost use Rattle.std.specs.Prelude.{◌≡◌, ◌++◌, ◌∷◌, [], ℕ, List, IfOk, OnOk, filter, map};
ghost use Rattle.std.specs.BTreeSet.{contains};
ghost use Rattle.std.specs.Cmp.Lexicographic.{slice_cmp};
ghost use Rattle.std.specs.List.{list_any};
ghost use Rattle.std.specs.Option.{option_copied, option_to_list};
ghost use Rattle.std.specs.Ordering.{nat_cmp};
ghost use Rattle.meaning_settling.specs.Keyed.{is_at};
ghost use Rattle.meaning_settling.specs.Settling.{link_key};
ghost use Rattle.meaning_tables.specs.Links.{cell_links};
ghost use Rattle.bk_losing.specs.Losing.{cell_without, loses_any, lost_by, row_set, table_lost, table_without};
ghost use Rattle.meaning_merge.specs.Restoring.{is_lost, lost_cells, lost_in, lost_of, without_cells, without_lost};

use dl_base::{
    Column, Copied, Kind, LinkNo, LinkRow, List, Lost, Memory, Name, Options, Path, Row, Value,
};
use fs_files::Files;
use sql_table::{RoomyTables, Table, Tables};
use std::alloc::Global;
use std::collections::BTreeSet;

/// The numbers of the links that a restore takes, and the files: they say which links of its target are lost. These are the links that
/// are taken with RECOVERY NO and whose paths have no file.
#[derive(Drop)]
pub struct Losing<'a> {
    taken: BTreeSet<[u64; 2]>,
    files: &'a Files,
}

impl<'a> Losing<'a> {
    /// Of the links that a restore takes, as `gives_takes` lists them, and the files as they are then, which are lent. The error is want of
    /// memory. It costs n log n for n links.
    pub fn of(alloc: Global, takes: &List<LinkRow>, files: &'a Files) -> Result<Losing<'a>, Memory>
        ensures { IfOk result (λ s. lost_by s ≡ is_lost files.now.files takes.now) }
    {
        let taken = numbers_of(alloc, takes)?;
        Ok(Losing { taken, files })
    }

    // Whether a link of the target is lost. It takes no memory.
    fn is_lost(&self, link: LinkNo, path: &Path, options: Options) -> bool
        ensures { result ≡ lost_by self.now (record { link = link; path = path.now; options = options }) }
    {
        let number = number_of(link);
        self.taken.contains(&number) && !options.recovery && self.files.look(path).is_none()
    }

    // The path of the link of a cell, where it is lost. It takes no memory.
    fn lost_path<'b>(&self, kind: Kind, value: &'b Value) -> Option<&'b Path>
        ensures { option_to_list (option_copied result) ≡ map (λ l. l.path) (filter (lost_by self.now) (cell_links kind value.now)) }
    {
        match kind {
            Kind::Linked(options) => match value {
                Value::Link(datalink) => match datalink.link {
                    Some(link) => self.path_if_lost(link, &datalink.path, options),
                    None => None,
                },
                Value::Null => None,
                Value::Int(_) => None,
                Value::Text(_) => None,
            },
            Kind::Int => None,
            Kind::Text(_) => None,
            Kind::Free => None,
        }
    }

    // The path of a link, where it is lost.
    fn path_if_lost<'b>(&self, link: LinkNo, path: &'b Path, options: Options) -> Option<&'b Path>
        ensures { option_to_list (option_copied result) ≡ map (λ l. l.path) (filter (lost_by self.now) (record { link = link; path = path.now; options = options } ∷ [])) }
    {
        if self.is_lost(link, path, options) {
            Some(path)
        } else {
            None
        }
    }

    /// The cells that are lost, in the order of the target's links, with their tables' and columns' names and the paths. The error is want
    /// of memory. It costs a look at each cell.
    pub fn cells(&self, alloc: Global, target: &Tables) -> Result<List<Lost>, Memory>
        ensures { IfOk result (λ made. made ≡ lost_cells (lost_by self.now) target.now) }
    {
        let mut made = List::empty(alloc);
        for i in 0..target.len() {
            match target.at(i) {
                Some((name, table)) => self.put_table(&mut made, name, table)?,
                None => return Ok(made),
            }
        }
        Ok(made)
    }

    fn put_table(&self, made: &mut List<Lost>, name: &Name, table: &Table) -> Result<(), Memory>
        ensures { OnOk result (made.new ≡ made.old ++ table_lost (lost_by self.now) (name.now, table.now)) }
    {
        for i in 0..table.len() {
            match table.at(i) {
                Some((number, row)) => self.put_row(made, name, number, table.columns(), row)?,
                None => return Ok(()),
            }
        }
        Ok(())
    }

    #[tactic(auto, using(crate::proofs::Cells::none_past_the_end))]
    fn put_row(
        &self,
        made: &mut List<Lost>,
        table: &Name,
        number: u64,
        columns: &List<Column>,
        row: &Row,
    ) -> Result<(), Memory>
        ensures { OnOk result (made.new ≡ made.old ++ lost_in (lost_by self.now) table.now number columns.now row.now.values) }
    {
        let values = row.values.as_slice();
        for (i, column) in columns.as_slice().iter().enumerate() {
            if values.len() <= i {
                return Ok(());
            }
            self.put_cell(made, table, number, column, &values[i])?;
        }
        Ok(())
    }

    // Puts a cell behind others, if it is lost.
    fn put_cell(
        &self,
        made: &mut List<Lost>,
        table: &Name,
        number: u64,
        column: &Column,
        value: &Value,
    ) -> Result<(), Memory>
        ensures { OnOk result (made.new ≡ made.old ++ map (lost_of table.now number column.now) (filter (lost_by self.now) (cell_links column.now.kind value.now))) }
    {
        match self.lost_path(column.kind, value) {
            Some(path) => {
                let table = table.copy()?;
                let column = column.name.copy()?;
                let path = path.copy()?;
                made.push(Lost {
                    table,
                    row: number,
                    column,
                    path,
                })?;
                Ok(())
            }
            None => Ok(()),
        }
    }

    /// The target with NULL in the place of each cell that is lost; it shares all other rows, and the columns. The error is want of memory.
    /// It costs a look at each cell, and for a row with a lost one the logarithm of how many rows there are.
    pub fn without(&self, target: &Tables) -> Result<Tables, Memory>
        ensures { IfOk result (λ made. made ≡ without_lost (lost_by self.now) target.now) }
    {
        let mut made = RoomyTables::of(target.copy()?);
        match self.set_tables(&mut made, target) {
            Ok(()) => Ok(made.into_tables()),
            Err(Memory) => {
                drop(made);
                Err(Memory)
            }
        }
    }

    // Puts each table without its lost cells in its place.
    fn set_tables(&self, made: &mut RoomyTables, target: &Tables) -> Result<(), Memory>
        requires { made.old.tables ≡ target.now }
        ensures { OnOk result (made.new.tables ≡ without_lost (lost_by self.now) target.now) }
    {
        for i in 0..target.len() {
            match target.at(i) {
                Some((name, table)) => made.put(name, self.table_without(table)?),
                None => return Ok(()),
            }
        }
        Ok(())
    }

    fn table_without(&self, table: &Table) -> Result<Table, Memory>
        ensures { IfOk result (λ made. made ≡ table_without (lost_by self.now) table.now) }
    {
        let mut made = table.copy()?;
        match self.set_rows(&mut made, table) {
            Ok(()) => Ok(made),
            Err(Memory) => {
                drop(made);
                Err(Memory)
            }
        }
    }

    // Puts each row without its lost cells in its place.
    fn set_rows(&self, made: &mut Table, table: &Table) -> Result<(), Memory>
        requires { made.old ≡ table.now }
        ensures { OnOk result (made.new ≡ table_without (lost_by self.now) table.now) }
    {
        for i in 0..table.len() {
            match table.at(i) {
                Some((number, row)) => self.set_row(made, table.columns(), number, row)?,
                None => return Ok(()),
            }
        }
        Ok(())
    }

    // Puts a row without its lost cells in its place, where it has such.
    fn set_row(
        &self,
        made: &mut Table,
        columns: &List<Column>,
        number: u64,
        row: &Row,
    ) -> Result<(), Memory>
        ensures { OnOk result (made.new ≡ record made.old { rows = row_set (lost_by self.now) columns.now made.old.rows number row.now }) }
    {
        if !self.row_loses(columns, row) {
            return Ok(());
        }
        let row = self.row_without(columns, row)?;
        made.set(number, row)?;
        Ok(())
    }

    // Whether a row has a cell that is lost.
    #[tactic(auto, using(crate::proofs::Without::none_loses))]
    fn row_loses(&self, columns: &List<Column>, row: &Row) -> bool
        ensures { result ≡ loses_any (lost_by self.now) columns.now row.now.values }
    {
        let values = row.values.as_slice();
        for (i, column) in columns.as_slice().iter().enumerate() {
            if values.len() <= i {
                return false;
            }
            if self.loses(column.kind, &values[i]) {
                return true;
            }
        }
        false
    }

    fn loses(&self, kind: Kind, value: &Value) -> bool
        ensures { result ≡ list_any (lost_by self.now) (cell_links kind value.now) }
    {
        self.lost_path(kind, value).is_some()
    }

    fn row_without(&self, columns: &List<Column>, row: &Row) -> Result<Row, Memory>
        ensures { IfOk result (λ made. made ≡ record { values = without_cells (lost_by self.now) columns.now row.now.values }) }
    {
        let mut values = List::empty(row.values.allocator());
        for (i, value) in row.values.as_slice().iter().enumerate() {
            values.push(self.value_without(columns.at(i), value)?)?;
        }
        Ok(Row { values })
    }

    // The value of a cell, in a column if there is one.
    fn value_without(&self, column: Option<&Column>, value: &Value) -> Result<Value, Memory>
        ensures { IfOk result (λ made. made ≡ cell_without (lost_by self.now) (option_copied column.entry) value.now) }
    {
        match column {
            Some(column) => {
                if self.loses(column.kind, value) {
                    return Ok(Value::Null);
                }
                value.copy()
            }
            None => value.copy(),
        }
    }
}

// The numbers of some links.
fn numbers_of(alloc: Global, links: &List<LinkRow>) -> Result<BTreeSet<[u64; 2]>, Memory>
    ensures { IfOk result (λ made. (n : List ℕ) → contains (slice_cmp nat_cmp) made n ≡ list_any (λ t. is_at (link_key t.link) n) links.now) }
{
    let mut made = BTreeSet::new(alloc);
    for link in links.as_slice() {
        let number = number_of(link.link);
        made.insert(number)?;
    }
    Ok(made)
}

fn number_of(link: LinkNo) -> [u64; 2]
    ensures { result ≡ link_key link }
{
    [link.tx, u64::from(link.k)]
}
