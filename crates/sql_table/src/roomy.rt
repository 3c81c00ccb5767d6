// Tables by name with room for more.
ghost use Rattle.std.specs.Prelude.{◌≡◌, ◌+◌, ◌≤◌, ◌<◌, ◌++◌, ◌∷◌, [], ℕ, get_or, None, IfOk, OnOk, OnErr, MatchOption, drop, is_some, length, map, slice_get, ◌==◌};
ghost use Rattle.std.specs.Borrow.{sem};
ghost use Rattle.std.specs.Cmp.Lexicographic.{pointwise};
ghost use Rattle.std.specs.List.{IsDistinct, position_or_len};
ghost use Rattle.std.specs.Option.{option_copied, option_copied_mut, option_map};
ghost use Rattle.meaning_tables.specs.Tables.{table_of, with_table, without_table};
ghost use Rattle.sql_table.specs.Lending.{LendsRoomy};
ghost use Rattle.sql_table.specs.Roomy.{AreOrdered, IsRank, lowered};

use crate::Table;
use crate::tables::Tables;
use dl_base::{Copied, Memory, Name};
use std::alloc::Global;
use std::marker::Model;
use std::mem;

/// Tables by name, which take in more without memory where there is room. Contracts see the list of names and tables, in the order in
/// which they were made, and for how many more there is room.
///
/// A look-up is a binary search among the names in the order of their bytes.
#[derive(Drop)]
pub struct RoomyTables {
    names: Vec<Name>,
    tables: Vec<Table>,
    // The places of the names, in the order of the names' bytes.
    order: Vec<usize>,
}

impl Model for RoomyTables {
    ghost use Rattle.std.specs.Prelude.{◌-◌, min, vec_len, vec_capacity};
    ghost use Rattle.std.specs.List.{zip};
    ghost use Rattle.sql_table.specs.Roomy.{ArePaired, AreOrdered, Roomy};

    ghost Value = { Roomy };

    ghost view = { λ t. record { tables = zip t.names.items t.tables.items; spare = min (min (vec_capacity t.names - vec_len t.names) (vec_capacity t.tables - vec_len t.tables)) (vec_capacity t.order - vec_len t.order) } };

    ghost invariant = { λ t. ArePaired t.names.items t.tables.items × AreOrdered t.names.items t.order.items };
}

impl RoomyTables {
    /// No tables. It takes no memory.
    pub(crate) fn empty(alloc: Global) -> RoomyTables
        ensures { result.tables ≡ [] }
    {
        RoomyTables {
            names: Vec::new(alloc),
            tables: Vec::new(alloc),
            order: Vec::new(alloc),
        }
    }

    /// These tables. It takes no memory.
    pub fn of(tables: Tables) -> RoomyTables
        ensures { result.tables ≡ tables }
    {
        tables.into_roomy()
    }

    /// The tables. It takes no memory.
    pub fn into_tables(self) -> Tables
        ensures { result ≡ self.tables }
    {
        Tables::of_roomy(self)
    }

    pub(crate) fn allocator(&self) -> Global {
        *self.names.allocator()
    }

    /// How many tables there are.
    pub fn len(&self) -> usize
        ensures value { result ≡ length self.now.tables }
        ensures distinct { IsDistinct (pointwise ◌==◌) (map (λ t. t.0) self.now.tables) }
    {
        self.names.len()
    }

    /// The table at a place from 0, with its name; None past the last.
    pub fn at(&self, index: usize) -> Option<(&Name, &Table)>
        ensures value { option_map (λ t. (t.0.now, t.1.now)) result ≡ slice_get self.now.tables index }
        ensures left { MatchOption result (drop index self.now.tables ≡ []) (λ t. drop index self.now.tables ≡ (t.0.now, t.1.now) ∷ drop (index + 1) self.now.tables) }
    {
        let name = self.names.get(index)?;
        let table = self.tables.get(index)?;
        Some((name, table))
    }

    /// The table of a name; None where no table has it. It takes no memory. The cost grows with the logarithm
    /// of the number of tables.
    pub fn table(&self, name: &Name) -> Option<&Table>
        ensures { option_copied result ≡ table_of self.now.tables name.now }
    {
        let place = place(&self.names, &self.order, name);
        self.tables.get(place)
    }

    // The table of a name, for writing.
    pub(crate) fn table_mut(&mut self, name: &Name) -> Option<&mut Table>
        ensures* writes_back { sem 𝓛 (LendsRoomy self.entry name.now result) }
        ensures value { option_copied_mut result ≡ table_of self.old.tables name.now }
    {
        let place = place(&self.names, &self.order, name);
        self.tables.get_mut(place)
    }

    /// The same tables once more. They share their rows and columns with these, so the cost grows with their names alone.
    pub fn copy(&self) -> Result<Tables, Memory>
        ensures { IfOk result (λ made. made ≡ self.now.tables) }
    {
        let mut made = RoomyTables::empty(self.allocator());
        for i in 0..self.len() {
            match self.at(i) {
                Some((name, table)) => made.put_copy(name, table)?,
                None => {}
            }
        }
        Ok(Tables::of_roomy(made))
    }

    // Puts a copy of a table under a copy of its name, behind the others.
    fn put_copy(&mut self, name: &Name, table: &Table) -> Result<(), Memory>
        requires { table_of self.old.tables name.now ≡ None }
        ensures { OnOk result (self.new.tables ≡ self.old.tables ++ (name.now, table.now) ∷ []) }
    {
        self.append(name.copy()?, table.copy()?)
    }

    // Puts a table behind the others, where no table has its name.
    pub(crate) fn append(&mut self, name: Name, table: Table) -> Result<(), Memory>
        requires { table_of self.old.tables name ≡ None }
        ensures ok { OnOk result (self.new.tables ≡ self.old.tables ++ (name, table) ∷ []) }
        ensures err { OnErr result (self.new.tables ≡ self.old.tables) }
    {
        match self.make_room(1) {
            Ok(()) => {
                self.add(name, table);
                Ok(())
            }
            Err(fault) => {
                drop(table);
                Err(fault)
            }
        }
    }

    /// Makes room for so many more tables.
    pub fn make_room(&mut self, count: usize) -> Result<(), Memory>
        ensures tables { self.new.tables ≡ self.old.tables }
        ensures room { OnOk result (count ≤ self.new.spare) }
        ensures spare { self.old.spare ≤ self.new.spare }
    {
        self.names.reserve(count)?;
        self.tables.reserve(count)?;
        self.order.reserve(count)?;
        Ok(())
    }

    /// Puts a table in the place of that of a name, if a table has it. It takes no memory.
    pub fn put(&mut self, name: &Name, table: Table)
        ensures tables { self.new.tables ≡ with_table self.old.tables name.now table }
        ensures spare { self.new.spare ≡ self.old.spare }
    {
        let _ = was_there(self.exchange(name, table));
    }

    // Puts a table in the place of that of a name, and gives that one back.
    fn exchange(&mut self, name: &Name, table: Table) -> Option<Table>
        ensures tables { self.new.tables ≡ with_table self.old.tables name.now table }
        ensures spare { self.new.spare ≡ self.old.spare }
    {
        match self.table_mut(name) {
            Some(place) => Some(mem::replace(place, table)),
            None => {
                drop(table);
                None
            }
        }
    }

    /// Takes the table of a name away, if a table has it. It takes no memory.
    pub fn discard(&mut self, name: &Name)
        ensures tables { self.new.tables ≡ without_table self.old.tables name.now }
        ensures spare { self.old.spare ≤ self.new.spare }
    {
        let _ = self.remove(name);
    }

    // Takes the table of a name away; false exactly where no table has the name.
    pub(crate) fn remove(&mut self, name: &Name) -> bool
        ensures found { result ≡ is_some (table_of self.old.tables name.now) }
        ensures tables { self.new.tables ≡ without_table self.old.tables name.now }
        ensures spare { self.old.spare ≤ self.new.spare }
    {
        let place = place(&self.names, &self.order, name);
        if place == self.names.len() {
            return false;
        }
        let rank = rank(&self.names, &self.order, name);
        let _ = self.order.remove(rank);
        lower(&mut self.order, place);
        drop(self.names.remove(place));
        drop(self.tables.remove(place));
        true
    }

    /// Puts a table behind the others, where no table has its name. It takes no memory.
    pub fn add(&mut self, name: Name, table: Table)
        requires new { table_of self.old.tables name ≡ None }
        requires room { 0 < self.old.spare }
        ensures tables { self.new.tables ≡ self.old.tables ++ (name, table) ∷ [] }
        ensures spare { self.old.spare ≤ self.new.spare + 1 }
    {
        let rank = rank(&self.names, &self.order, &name);
        let _ = self.order.insert(rank, self.names.len());
        self.names.push_reserved(name);
        self.tables.push_reserved(table);
    }
}

// The place of a name from 0, or how many names there are where it is none of them. `order` has the places of the names in the order
// of their bytes.
#[tactic(auto, using(crate::proofs::Ordered::place_found, crate::proofs::Ordered::place_none))]
fn place(names: &[Name], order: &[usize], name: &Name) -> usize
    requires { AreOrdered names.now order.now }
    ensures { result ≡ position_or_len (pointwise ◌==◌ name.now) names.now }
{
    let rank = rank(names, order, name);
    if rank < order.len() {
        let place = order[rank];
        if *name == names[place] {
            return place;
        }
    }
    names.len()
}

// How many names are less than a name.
#[tactic(auto, using(crate::proofs::Ordered::upto, crate::proofs::Ordered::down))]
fn rank(names: &[Name], order: &[usize], name: &Name) -> usize
    requires { AreOrdered names.now order.now }
    ensures { IsRank names.now order.now name.now result }
{
    let mut low = 0;
    let mut high = order.len();
    while low < high {
        let middle = low + (high - low) / 2;
        if names[order[middle]].bytes().cmp(name.bytes()).is_lt() {
            low = middle + 1;
        } else {
            high = middle;
        }
    }
    low
}

// Lowers by one each place behind a place.
fn lower(order: &mut [usize], place: usize)
    ensures each { length order.new ≡ length order.old }
    ensures at { (i : ℕ) → i < length order.old → get_or order.new i 0 ≡ lowered place (get_or order.old i 0) }
{
    for i in 0..order.len() {
        if place < order[i] {
            order[i] -= 1;
        }
    }
}

// Whether a table was there; it ends here.
fn was_there(table: Option<Table>) -> bool
    ensures { result ≡ is_some table }
{
    let was = table.is_some();
    drop(table);
    was
}
