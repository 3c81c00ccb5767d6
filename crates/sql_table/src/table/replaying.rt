// What the records of the area Rows ask of tables: a row of a given number in its place, a given next row number, and whether a
// link number stands.
ghost use Rattle.std.specs.Prelude.{◌≡◌, ◌<◌, None, IfOk, OnOk, OnErr, nat_lt};
ghost use Rattle.std.specs.Bool.{OnFalse, OnTrue};
ghost use Rattle.std.specs.List.{list_all, list_any};
ghost use Rattle.meaning_tables.specs.Links.{links, same_number};
ghost use Rattle.meaning_tables.specs.Tables.{Rise, row_of};
ghost use Rattle.sql_table.specs.Marks.{IsKept};
ghost use Rattle.sql_table.specs.Placing.{with_placed};

use super::{Below, Parts, Table, joined};
use crate::Tables;
use crate::index::with_entries;
use crate::key::Key;
use crate::link_rows::has_number;
use crate::numbered::Numbered;
use dl_base::{Column, LinkNo, List, Memory, Row};
use dl_pages::Pages;
use std::alloc::Global;

impl Table {
    /// Puts a row of a number that is below the next one: in the place of the row of the number, or between those of smaller and
    /// of greater numbers. After an `Err` the table is as it was. The cost grows with the logarithm of the number of rows.
    pub fn place_row(&mut self, number: u64, row: Row) -> Result<(), Memory>
        requires { number < self.old.next }
        ensures ok { OnOk result (self.new ≡ record self.old { rows = with_placed self.old.rows number row }) }
        ensures err { OnErr result (self.new ≡ self.old) }
    {
        // so it is known that row numbers rise
        let _ = self.next_number();
        match self.place(number) {
            Some(place) => self.exchange(place, number, row),
            None => self.squeeze_in(number, row),
        }
    }

    // Puts a row of a number that no row has.
    fn squeeze_in(&mut self, number: u64, row: Row) -> Result<(), Memory>
        requires below { number < self.old.next }
        requires new { row_of self.old.rows number ≡ None }
        ensures ok { OnOk result (self.new ≡ record self.old { rows = with_placed self.old.rows number row }) }
        ensures err { OnErr result (self.new ≡ self.old) }
    {
        let parts = squeezed(
            self.columns.list(),
            self.next,
            &self.rows,
            &self.links,
            &self.keys,
            number,
            row,
        )?;
        self.renew(self.next, parts);
        Ok(())
    }

    /// Sets the number that the next row gets; false exactly where a row has this number or a greater one, and then nothing has
    /// changed. It takes no memory. The cost grows with the logarithm of the number of rows.
    pub fn set_next_number(&mut self, next: u64) -> bool
        ensures above { result ≡ list_all (λ r. nat_lt r.0 next) self.old.rows }
        ensures set { OnTrue result (self.new ≡ record self.old { next = next }) }
        ensures kept { OnFalse result (self.new ≡ self.old) }
    {
        let above = self.rows.partition_point(&Below { number: next }) == self.rows.len();
        if above {
            self.next = next;
        }
        above
    }
}

impl Tables {
    /// Whether a cell of the tables has a link number. It takes no memory. The cost grows with the number of tables, and with the
    /// logarithm of the number of links of each.
    pub fn has_link(&self, link: LinkNo) -> bool
        ensures { result ≡ list_any (λ l. same_number link l.link) (links self.now) }
    {
        has_number(self, link)
    }
}

// The parts with one more row, of a number that none has.
fn squeezed(
    columns: &List<Column>,
    next: u64,
    rows: &Pages<Numbered>,
    links: &Pages<(LinkNo, u64)>,
    keys: &Pages<(Key, u64)>,
    number: u64,
    row: Row,
) -> Result<Parts, Memory>
    requires kept { IsKept columns.now next rows.now links.now keys.now }
    requires below { number < next }
    requires new { row_of rows.now number ≡ None }
    ensures rows { IfOk result (λ made. made.0 ≡ with_placed rows.now number row) }
    ensures kept { IfOk result (λ made. IsKept columns.now next made.0 made.1 made.2) }
{
    let alloc = columns.allocator();
    match with_entries(alloc, columns, links, keys, &row, number) {
        Ok(indexes) => joined(placed(alloc, next, rows, number, row), indexes),
        Err(fault) => {
            drop(row);
            Err(fault)
        }
    }
}

// Rows below a number, with one more, of a number that none has.
fn placed(
    alloc: Global,
    next: u64,
    rows: &Pages<Numbered>,
    number: u64,
    row: Row,
) -> Result<Pages<Numbered>, Memory>
    requires rise { Rise 0 next rows.now }
    requires new { row_of rows.now number ≡ None }
    ensures { IfOk result (λ made. made ≡ with_placed rows.now number row) }
{
    let _ = next;
    let place = rows.partition_point(&Below { number });
    let item = Numbered::of(alloc, number, row)?;
    rows.inserted(alloc, place, item)
}
