// Tables by name.
ghost use Rattle.std.specs.Prelude.{◌≡◌, ◌↔◌, IsTrue, ◌+◌, ◌++◌, ◌∷◌, [], None, Some, IfOk, OnOk, OnErr, length, map, drop, slice_get, is_some, MatchOption, ◌==◌};
ghost use Rattle.std.specs.Borrow.{sem};
ghost use Rattle.std.specs.Cmp.Lexicographic.{pointwise};
ghost use Rattle.std.specs.List.{IsDistinct};
ghost use Rattle.std.specs.Option.{option_copied, option_copied_mut, option_map};
ghost use Rattle.meaning_tables.specs.Tables.{Rows, table_of, with_table, without_table, without_row, new_table};
ghost use Rattle.sql_table.specs.Lending.{LendsTable};

use crate::{RoomyTables, Table};
use dl_base::{Column, Copied, List, Memory, Name, Same};
use std::alloc::Global;
use std::marker::Model;
use std::mem;

/// Tables by name. Contracts see the list of names and tables, in the order in which they were made.
///
/// A look-up is a binary search among the names in the order of their bytes.
#[derive(Drop)]
pub struct Tables {
    entries: RoomyTables,
}

impl Model for Tables {
    ghost use Rattle.meaning_tables.specs.Tables.{Tables as Named};

    ghost Value = { Named };

    ghost view = { λ t. t.entries.tables };
}

impl Tables {
    /// No tables. It takes no memory.
    pub fn empty(alloc: Global) -> Tables
        ensures { result ≡ [] }
    {
        Tables {
            entries: RoomyTables::empty(alloc),
        }
    }

    /// How many tables there are.
    pub fn len(&self) -> usize
        ensures value { result ≡ length self.now }
        ensures distinct { IsDistinct (pointwise ◌==◌) (map (λ t. t.0) self.now) }
    {
        self.entries.len()
    }

    /// The table at a place from 0, with its name; None past the last.
    pub fn at(&self, index: usize) -> Option<(&Name, &Table)>
        ensures value { option_map (λ t. (t.0.now, t.1.now)) result ≡ slice_get self.now index }
        ensures left { MatchOption result (drop index self.now ≡ []) (λ t. drop index self.now ≡ (t.0.now, t.1.now) ∷ drop (index + 1) self.now) }
    {
        self.entries.at(index)
    }

    /// The table of a name; None where no table has it. It takes no memory. The cost grows with the logarithm of the number of
    /// tables.
    pub fn table(&self, name: &Name) -> Option<&Table>
        ensures { option_copied result ≡ table_of self.now name.now }
    {
        self.entries.table(name)
    }

    /// The table of a name, for writing; None where no table has it. The other tables stay. It takes no memory.
    pub fn table_mut(&mut self, name: &Name) -> Option<&mut Table>
        ensures* writes_back { sem 𝓛 (LendsTable self.entry name.now result) }
        ensures value { option_copied_mut result ≡ table_of self.old name.now }
    {
        self.entries.table_mut(name)
    }

    /// Puts a table in the place of that of a name, and gives that one back; None where no table has the name, and then nothing
    /// has changed. It takes no memory.
    pub fn put(&mut self, name: &Name, table: Table) -> Option<Table>
        ensures before { result ≡ table_of self.old name.now }
        ensures after { self.new ≡ with_table self.old name.now table }
    {
        match self.table_mut(name) {
            Some(place) => Some(mem::replace(place, table)),
            None => {
                drop(table);
                None
            }
        }
    }

    /// Takes the row of a number out of the table of a name, where it stands; nothing changes where no table has the name, or no row
    /// the number. After an `Err` the tables are as they were. The cost grows with the logarithm of the number of rows; no
    /// copy of the table is made.
    pub fn unset(&mut self, name: &Name, number: u64) -> Result<(), Memory>
        ensures ok { (t : Rows) → table_of self.old name.now ≡ Some t → OnOk result (self.new ≡ with_table self.old name.now (record t { rows = without_row t.rows number })) }
        ensures none { table_of self.old name.now ≡ None → self.new ≡ self.old }
        ensures err { OnErr result (self.new ≡ self.old) }
    {
        match self.table_mut(name) {
            Some(table) => {
                let _ = table.unset(number)?;
                Ok(())
            }
            None => Ok(()),
        }
    }

    /// Makes a table behind the others, of version 0 and without rows, where no table has the name.
    pub fn add(&mut self, name: Name, columns: List<Column>) -> Result<(), Memory>
        requires { table_of self.old name ≡ None }
        ensures ok { OnOk result (self.new ≡ self.old ++ (name, new_table columns) ∷ []) }
        ensures err { OnErr result (self.new ≡ self.old) }
    {
        let table = Table::made(self.entries.allocator(), columns)?;
        self.entries.append(name, table)
    }

    /// Takes a table away; false exactly where no table has the name. It takes no memory.
    pub fn discard(&mut self, name: &Name) -> bool
        ensures found { result ≡ is_some (table_of self.old name.now) }
        ensures after { self.new ≡ without_table self.old name.now }
    {
        self.entries.remove(name)
    }

    /// The names, in order.
    pub fn names(&self) -> Result<List<Name>, Memory>
        ensures { IfOk result (λ made. made ≡ map (λ t. t.0) self.now) }
    {
        let mut made = List::empty(self.entries.allocator());
        for i in 0..self.len() {
            match self.at(i) {
                Some((name, _)) => made.push(name.copy()?)?,
                None => {}
            }
        }
        Ok(made)
    }

    // The same with room for more, and back. Neither takes memory.
    pub(crate) fn into_roomy(self) -> RoomyTables
        ensures { result.tables ≡ self }
    {
        let Tables { entries } = self;
        entries
    }

    pub(crate) fn of_roomy(entries: RoomyTables) -> Tables
        ensures { result ≡ entries.tables }
    {
        Tables { entries }
    }

    /// The same tables once more. They share their rows and columns with these, so the cost grows with their names alone.
    pub fn copy(&self) -> Result<Tables, Memory>
        ensures { IfOk result (λ made. made ≡ self.now) }
    {
        self.entries.copy()
    }
}

impl Copied for Tables {
    fn copy(&self) -> Result<Tables, Memory> {
        Tables::copy(self)
    }
}

// Whether two lists of tables have the same at a place.
fn same_at(tables: &Tables, others: &Tables, index: usize) -> bool
    ensures { IsTrue result ↔ (slice_get tables.now index ≡ slice_get others.now index) }
{
    match (tables.at(index), others.at(index)) {
        (Some((name, table)), Some((name2, table2))) => name.same(name2) && table.same(table2),
        (None, None) => true,
        _ => false,
    }
}

impl Same for Tables {
    #[tactic(auto, using(crate::proofs::Left::take_same))]
    fn same(&self, other: &Tables) -> bool {
        if self.len() != other.len() {
            return false;
        }
        for i in 0..self.len() {
            if !same_at(self, other, i) {
                return false;
            }
        }
        true
    }
}
