// What a restore makes of the committed tables, once as the changes of its record and once as handles.
ghost use Rattle.std.specs.Prelude.{◌≡◌, ◌++◌, ◌∷◌, [], IfOk, IsTrue, OnOk, filter, map};
ghost use Rattle.std.specs.List.{filter_map};
ghost use Rattle.std.specs.Option.{option_copied, option_to_list};
ghost use Rattle.meaning_areas.specs.Same.{same_columns};
ghost use Rattle.meaning_merge.specs.Merging.{new_by};
ghost use Rattle.meaning_tables.specs.Tables.{table_of};
ghost use Rattle.bk_restore.specs.Handles.{dropped_handle, is_new_in, kept_handle, kept_of, restore_handles};
ghost use Rattle.db_changes.specs.Handles.{new_handle};
ghost use Rattle.db_replay.specs.Applying.{AreNew, is_new};
ghost use Rattle.db_replay.specs.Changes.{applied, apply};
ghost use Rattle.meaning_merge.specs.Restoring as restoring;

use crate::rows::row_changes;
use db_changes::all_rows;
use db_replay::Change;
use dl_base::{Copied, List, Memory, Name, Same};
use dl_codec::TableChange;
use sql_table::{RoomyTables, Table, Tables};
use std::alloc::Global;

/// The changes of a record, and handles of the tables that they make.
#[derive(Drop)]
pub struct Making {
    pub changes: List<TableChange>,
    pub handles: List<Change>,
}

impl Making {
    /// What leads from the committed tables to those of a target; the handles share what they have with the target's. It costs a look for
    /// each row of both, and the bytes of the rows that differ.
    pub fn of(alloc: Global, now: &Tables, later: &Tables) -> Result<Making, Memory>
        ensures changes { IfOk result (λ made. made.changes ≡ restoring.restore_changes now.now later.now) }
        ensures handles { IfOk result (λ made. made.handles ≡ restore_handles now.now later.now) }
    {
        let mut made = Making {
            changes: List::empty(alloc),
            handles: List::empty(alloc),
        };
        made.put_dropped(now, later)?;
        made.put_kept(now, later)?;
        made.put_new(now, later)?;
        Ok(made)
    }

    // Puts the committed tables that are not kept.
    fn put_dropped(&mut self, now: &Tables, later: &Tables) -> Result<(), Memory>
        ensures changes { OnOk result (self.new.changes ≡ self.old.changes ++ filter_map (λ t. restoring.dropped_change t (table_of later.now t.0)) now.now) }
        ensures handles { OnOk result (self.new.handles ≡ self.old.handles ++ filter_map (λ t. dropped_handle t (table_of later.now t.0)) now.now) }
    {
        for i in 0..now.len() {
            match now.at(i) {
                Some((name, table)) => self.put_if_dropped(name, table, later)?,
                None => return Ok(()),
            }
        }
        Ok(())
    }

    fn put_if_dropped(&mut self, name: &Name, table: &Table, later: &Tables) -> Result<(), Memory>
        ensures changes { OnOk result (self.new.changes ≡ self.old.changes ++ option_to_list (restoring.dropped_change (name.now, table.now) (table_of later.now name.now))) }
        ensures handles { OnOk result (self.new.handles ≡ self.old.handles ++ option_to_list (dropped_handle (name.now, table.now) (table_of later.now name.now))) }
    {
        if kept(name, table, later).is_some() {
            return Ok(());
        }
        self.changes.push(TableChange::Dropped(name.copy()?))?;
        self.handles.push(Change::Dropped(name.copy()?))?;
        Ok(())
    }

    // Puts the committed tables that are kept.
    fn put_kept(&mut self, now: &Tables, later: &Tables) -> Result<(), Memory>
        ensures changes { OnOk result (self.new.changes ≡ self.old.changes ++ filter_map (λ t. restoring.kept_change t (table_of later.now t.0)) now.now) }
        ensures handles { OnOk result (self.new.handles ≡ self.old.handles ++ filter_map (λ t. kept_handle t (table_of later.now t.0)) now.now) }
    {
        for i in 0..now.len() {
            match now.at(i) {
                Some((name, table)) => self.put_if_kept(name, table, later)?,
                None => return Ok(()),
            }
        }
        Ok(())
    }

    fn put_if_kept(&mut self, name: &Name, table: &Table, later: &Tables) -> Result<(), Memory>
        ensures changes { OnOk result (self.new.changes ≡ self.old.changes ++ option_to_list (restoring.kept_change (name.now, table.now) (table_of later.now name.now))) }
        ensures handles { OnOk result (self.new.handles ≡ self.old.handles ++ option_to_list (kept_handle (name.now, table.now) (table_of later.now name.now))) }
    {
        match kept(name, table, later) {
            Some(found) => {
                let rows = row_changes(self.changes.allocator(), table, found)?;
                let change = TableChange::Kept(name.copy()?, found.next_number(), rows);
                self.changes.push(change)?;
                self.handles
                    .push(Change::Kept(name.copy()?, found.copy()?))?;
                Ok(())
            }
            None => Ok(()),
        }
    }

    // Puts the tables of the target for which none is kept.
    fn put_new(&mut self, now: &Tables, later: &Tables) -> Result<(), Memory>
        ensures changes { OnOk result (self.new.changes ≡ self.old.changes ++ map new_by (restoring.new_in now.now later.now)) }
        ensures handles { OnOk result (self.new.handles ≡ self.old.handles ++ map new_handle (restoring.new_in now.now later.now)) }
    {
        for i in 0..later.len() {
            match later.at(i) {
                Some((name, table)) => self.put_if_new(now, name, table)?,
                None => return Ok(()),
            }
        }
        Ok(())
    }

    fn put_if_new(&mut self, now: &Tables, name: &Name, table: &Table) -> Result<(), Memory>
        ensures changes { OnOk result (self.new.changes ≡ self.old.changes ++ map new_by (filter (is_new_in now.now) ((name.now, table.now) ∷ []))) }
        ensures handles { OnOk result (self.new.handles ≡ self.old.handles ++ map new_handle (filter (is_new_in now.now) ((name.now, table.now) ∷ []))) }
    {
        if !is_new(now, name, table) {
            return Ok(());
        }
        self.changes
            .push(new_change(self.changes.allocator(), name, table)?)?;
        self.handles.push(Change::New(name.copy()?, table.copy()?))?;
        Ok(())
    }
}

// The table of a name in the target, where it has the columns of the committed one.
fn kept<'a>(name: &Name, table: &Table, later: &'a Tables) -> Option<&'a Table>
    ensures { option_copied result ≡ kept_of table.now (table_of later.now name.now) }
{
    match later.table(name) {
        Some(found) => {
            if columns_are_same(table, found) {
                Some(found)
            } else {
                None
            }
        }
        None => None,
    }
}

// Whether no committed table is kept for one of the target.
fn is_new(now: &Tables, name: &Name, table: &Table) -> bool
    ensures { result ≡ is_new_in now.now (name.now, table.now) }
{
    match now.table(name) {
        Some(was) => !columns_are_same(was, table),
        None => true,
    }
}

fn columns_are_same(was: &Table, now: &Table) -> bool
    ensures { result ≡ same_columns was.now now.now }
{
    was.columns().same(now.columns())
}

fn new_change(alloc: Global, name: &Name, table: &Table) -> Result<TableChange, Memory>
    ensures { IfOk result (λ made. made ≡ new_by (name.now, table.now)) }
{
    let rows = all_rows(alloc, table)?;
    let columns = table.columns().copy()?;
    let next = table.next_number();
    Ok(TableChange::New(name.copy()?, columns, next, rows))
}

/// The tables with those of handles put in; they share what they have. The cost grows with the tables and the handles.
pub(crate) fn with_handles(now: &Tables, handles: &List<Change>) -> Result<Tables, Memory>
    requires { AreNew now.now handles.now }
    ensures { IfOk result (λ made. made ≡ applied now.now handles.now) }
{
    let mut made = RoomyTables::of(now.copy()?);
    match put_all(&mut made, handles) {
        Ok(()) => Ok(made.into_tables()),
        Err(Memory) => {
            drop(made);
            Err(Memory)
        }
    }
}

fn put_all(tables: &mut RoomyTables, handles: &List<Change>) -> Result<(), Memory>
    requires { AreNew tables.old.tables handles.now }
    ensures { OnOk result (tables.new.tables ≡ applied tables.old.tables handles.now) }
{
    for change in handles.as_slice() {
        put(tables, change)?;
    }
    Ok(())
}

#[tactic(auto, using(crate::proofs::Named::none_there))]
fn put(tables: &mut RoomyTables, change: &Change) -> Result<(), Memory>
    requires { IsTrue (is_new tables.old.tables change.now) }
    ensures { OnOk result (tables.new.tables ≡ apply tables.old.tables change.now) }
{
    match change {
        Change::Dropped(name) => tables.discard(name),
        Change::Kept(name, table) => tables.put(name, table.copy()?),
        Change::New(name, table) => {
            tables.make_room(1)?;
            let name = name.copy()?;
            tables.add(name, table.copy()?);
        }
    }
    Ok(())
}
