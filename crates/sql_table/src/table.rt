// One table.
ghost use Rattle.std.specs.Prelude.{◌≡◌, ◌<◌, None, Some, Ok, IfOk, OnOk, OnErr, length, slice_get, MatchOption, is_some, ◌+◌, ◌++◌, ◌∷◌, [], drop};
ghost use Rattle.std.specs.Option.{option_copied, option_map};
ghost use Rattle.std.specs.Result.{result_err};
ghost use Rattle.dl_base.specs.Limits.{most_rows, row_numbers};
ghost use Rattle.dl_pages.specs.Orders.{link_order};
ghost use Rattle.meaning_tables.specs.First.{first_number, has_key, has_link};
ghost use Rattle.meaning_tables.specs.Tables.{Rise, row_of, with_row, without_row, new_table, with_inserted};
ghost use Rattle.sql_table.specs.Entries.{AreEntriesOf};
ghost use Rattle.sql_table.specs.Marks.{IsIndex, IsKept, link_marks};
ghost use Rattle.sql_table.specs.Places.{IsPlace};
ghost use Rattle.sql_table.specs.declared.index.Entries.TheVariants as entries;

mod replaying;

use crate::columns::Columns;
use crate::index::{
    Entries, Indexes, entries_of, key_index, link_index, with_entries, with_other_entries,
    without_entries,
};
use crate::key::{Key, number_probe, text_probe};
use crate::numbered::{Numbered, shared_rows};
use dl_base::{Column, Copied, LinkNo, List, Memory, Row, Same, Value};
use dl_pages::{Pages, Predicate, least, remove_with_member};
use std::alloc::Global;
use std::marker::Model;
use std::mem;

/// Rows by number, and beside them the numbers of rows by link and by key.
type Parts = (Pages<Numbered>, Pages<(LinkNo, u64)>, Pages<(Key, u64)>);

/// A table. Contracts see its version, its columns, the next row number, and its rows in order of their numbers.
///
/// A copy shares rows and columns with its table, so it costs the same for each table; a change then copies the few pages that it
/// changes, and no other copy sees it.
#[derive(Drop)]
pub struct Table {
    version: u64,
    columns: Columns,
    next: u64,
    rows: Pages<Numbered>,
    links: Pages<(LinkNo, u64)>,
    keys: Pages<(Key, u64)>,
}

impl Model for Table {
    ghost use Rattle.meaning_tables.specs.Tables.{Rows};

    ghost Value = { Rows };

    ghost view = { λ t. record { version = t.version; columns = t.columns; next = t.next; rows = t.rows } };

    ghost use Rattle.sql_table.specs.Marks.{IsKept};

    ghost invariant = { λ t. IsKept t.columns t.next t.rows t.links t.keys };
}

impl Table {
    /// A table just made: version 0, no rows, and 1 as its next row number. It takes no memory.
    pub fn new(columns: List<Column>) -> Table
        ensures { result ≡ new_table columns }
    {
        Table::of(Columns::own(columns))
    }

    /// A table just made, whose copies share its columns from the start.
    pub(crate) fn made(alloc: Global, columns: List<Column>) -> Result<Table, Memory>
        ensures { IfOk result (λ made. made ≡ new_table columns) }
    {
        Ok(Table::of(Columns::shared(alloc, columns)?))
    }

    fn of(columns: Columns) -> Table
        ensures { result ≡ new_table columns }
    {
        Table {
            version: 0,
            columns,
            next: 1,
            rows: Pages::empty(),
            links: Pages::empty(),
            keys: Pages::empty(),
        }
    }

    /// A table of these rows, whose numbers rise and are below the next one. The cost grows with their number, times its logarithm
    /// where they have keys or links.
    pub fn with_rows(
        version: u64,
        columns: List<Column>,
        next: u64,
        rows: List<(u64, Row)>,
    ) -> Result<Table, Memory>
        requires { Rise 0 next rows }
        ensures { IfOk result (λ made. made ≡ record { version = version; columns = columns; next = next; rows = rows }) }
    {
        let alloc = columns.allocator();
        match parts_of(alloc, &columns, next, rows) {
            Ok(parts) => match Columns::shared(alloc, columns) {
                Ok(columns) => Ok(Table::of_parts(version, columns, next, parts)),
                Err(fault) => {
                    drop(parts);
                    Err(fault)
                }
            },
            Err(fault) => {
                drop(columns);
                Err(fault)
            }
        }
    }

    fn of_parts(version: u64, columns: Columns, next: u64, parts: Parts) -> Table
        requires { IsKept columns next parts.0 parts.1 parts.2 }
        ensures { result ≡ record { version = version; columns = columns; next = next; rows = parts.0 } }
    {
        let (rows, links, keys) = parts;
        Table {
            version,
            columns,
            next,
            rows,
            links,
            keys,
        }
    }

    /// The columns, in order.
    pub fn columns(&self) -> &List<Column>
        ensures { result.now ≡ self.now.columns }
    {
        self.columns.list()
    }

    /// The number of the commit that last changed the table; 0 before the first.
    pub fn version(&self) -> u64
        ensures { result ≡ self.now.version }
    {
        self.version
    }

    /// Gives the table a version. It takes no memory.
    pub fn set_version(&mut self, version: u64)
        ensures { self.new ≡ record self.old { version = version } }
    {
        self.version = version;
    }

    /// The number that the next row gets.
    pub fn next_number(&self) -> u64
        ensures value { result ≡ self.now.next }
        ensures numbered { Rise 0 self.now.next self.now.rows }
    {
        self.next
    }

    /// How many rows there are.
    pub fn len(&self) -> usize
        ensures value { result ≡ length self.now.rows }
        ensures numbered { Rise 0 self.now.next self.now.rows }
    {
        self.rows.len()
    }

    /// The row at a place from 0, with its number; None past the last. It takes no memory. The cost grows with the logarithm of
    /// the number of rows.
    pub fn at(&self, index: usize) -> Option<(u64, &Row)>
        ensures value { option_map (λ r. (r.0, r.1.now)) result ≡ slice_get self.now.rows index }
        ensures left { MatchOption result (drop index self.now.rows ≡ []) (λ r. drop index self.now.rows ≡ (r.0, r.1.now) ∷ drop (index + 1) self.now.rows) }
    {
        match self.rows.at(index) {
            Some(row) => Some((row.number(), row.row())),
            None => None,
        }
    }

    // The row of a number, and where it stands.
    fn find(&self, number: u64) -> Option<(usize, &Row)>
        ensures { MatchOption result (row_of self.now.rows number ≡ None) (λ r. IsPlace self.now.rows number r.0 × (row_of self.now.rows number ≡ Some r.1.now)) }
    {
        let (place, first) = self.rows.first_failing(&Below { number });
        match first {
            Some(row) => {
                if row.number() == number {
                    Some((place, row.row()))
                } else {
                    None
                }
            }
            None => None,
        }
    }

    // Where the row of a number stands.
    fn place(&self, number: u64) -> Option<usize>
        ensures { MatchOption result (row_of self.now.rows number ≡ None) (λ place. IsPlace self.now.rows number place) }
    {
        match self.find(number) {
            Some((place, _)) => Some(place),
            None => None,
        }
    }

    /// The row of a number; None where no row has it. It takes no memory. The cost grows with the logarithm of the number of rows.
    pub fn row(&self, number: u64) -> Option<&Row>
        ensures { option_copied result ≡ row_of self.now.rows number }
    {
        match self.find(number) {
            Some((_, row)) => Some(row),
            None => None,
        }
    }

    /// The number of the first row with a cell of a link number; None where no row has one. It takes no memory. The cost grows
    /// with the logarithm of the number of links.
    pub fn first_link(&self, link: LinkNo) -> Option<u64>
        ensures { result ≡ first_number (has_link self.now.columns link) self.now.rows }
    {
        least(&self.links, &link)
    }

    // The link numbers of rows, each with the number of its row, in order of link numbers.
    pub(crate) fn link_entries(&self) -> &Pages<(LinkNo, u64)>
        ensures numbered { Rise 0 self.now.next self.now.rows }
        ensures value { IsIndex link_order (link_marks self.now.columns) self.now.rows result.now }
    {
        &self.links
    }

    /// The least number of a row that has a value in a key column; None where no row has it there, as with NULL and a datalink,
    /// which no key is equal to. Where the table has exactly one key column, it is the row of that key. It takes no memory. The
    /// cost grows with the logarithm of the number of rows.
    pub fn by_key(&self, key: &Value) -> Option<u64>
        ensures { result ≡ first_number (has_key self.now.columns key.now) self.now.rows }
    {
        match key {
            Value::Int(z) => least(&self.keys, &number_probe(z)),
            Value::Text(text) => least(&self.keys, &text_probe(text.bytes())),
            Value::Null => None,
            Value::Link(_) => None,
        }
    }

    /// Puts a row at the end and gives its number, which no row had before: the table has fewer than 1,000,000 rows, and its next
    /// row number is below 2 to the 63rd. After an `Err` the table is as it was. The cost grows with the logarithm of the number
    /// of rows.
    pub fn put_next(&mut self, row: Row) -> Result<u64, Memory>
        requires few { length self.old.rows < most_rows }
        requires small { self.old.next < row_numbers }
        ensures ok { IfOk result (λ number. (number ≡ self.old.next) × (self.new ≡ with_inserted self.old row)) }
        ensures err { OnErr result (self.new ≡ self.old) }
    {
        let number = self.next;
        let parts = pushed(
            self.columns.list(),
            number,
            &self.rows,
            &self.links,
            &self.keys,
            row,
        )?;
        self.renew(number + 1, parts);
        Ok(number)
    }

    /// Puts a row in the place of that of a number; false where no row has the number, and then nothing has changed. After an
    /// `Err` the table is as it was. The cost grows with the logarithm of the number of rows.
    #[tactic(auto, using(crate::proofs::Numbers::is_there))]
    pub fn set(&mut self, number: u64, row: Row) -> Result<bool, Memory>
        ensures found { IfOk result (λ found. found ≡ is_some (row_of self.old.rows number)) }
        ensures ok { OnOk result (self.new ≡ record self.old { rows = with_row self.old.rows number row }) }
        ensures err { OnErr result (self.new ≡ self.old) }
    {
        match self.place(number) {
            Some(place) => {
                self.exchange(place, number, row)?;
                Ok(true)
            }
            None => Ok(false),
        }
    }

    /// Takes the row of a number out; false where no row has the number, and then nothing has changed. After an `Err` the table is
    /// as it was. The cost grows with the logarithm of the number of rows. Where the row has no link number and at most one key,
    /// pages that no copy shares are changed where they stand.
    #[tactic(auto, using(crate::proofs::Numbers::is_there))]
    pub fn unset(&mut self, number: u64) -> Result<bool, Memory>
        ensures found { IfOk result (λ found. found ≡ is_some (row_of self.old.rows number)) }
        ensures ok { OnOk result (self.new ≡ record self.old { rows = without_row self.old.rows number }) }
        ensures err { OnErr result (self.new ≡ self.old) }
    {
        match self.find(number) {
            Some((place, row)) => {
                let entries = entries_of(self.columns(), row)?;
                self.take_out(place, number, entries)?;
                Ok(true)
            }
            None => Ok(false),
        }
    }

    // Puts a row in the place of that of a number, which stands there.
    fn exchange(&mut self, place: usize, number: u64, row: Row) -> Result<(), Memory>
        requires { IsPlace self.old.rows number place }
        ensures ok { OnOk result (self.new ≡ record self.old { rows = with_row self.old.rows number row }) }
        ensures err { OnErr result (self.new ≡ self.old) }
    {
        let parts = exchanged(
            self.columns.list(),
            self.next,
            &self.rows,
            &self.links,
            &self.keys,
            place,
            number,
            row,
        )?;
        self.renew(self.next, parts);
        Ok(())
    }

    // Takes the row of a number out, which stands there, and of which the indexes have this.
    fn take_out(&mut self, place: usize, number: u64, entries: Entries) -> Result<(), Memory>
        requires at { IsPlace self.old.rows number place }
        requires entries { AreEntriesOf self.old.columns self.old.rows number entries }
        ensures ok { OnOk result (self.new ≡ record self.old { rows = without_row self.old.rows number }) }
        ensures err { OnErr result (self.new ≡ self.old) }
    {
        match entries {
            Entries::Nothing => self.take_plain(place, number),
            Entries::Key(key) => self.take_keyed(place, number, key),
            Entries::More => self.take_copied(place, number),
        }
    }

    // Takes the row of a number out, which stands there, and of which the indexes have nothing.
    fn take_plain(&mut self, place: usize, number: u64) -> Result<(), Memory>
        requires at { IsPlace self.old.rows number place }
        requires entries { AreEntriesOf self.old.columns self.old.rows number entries.Nothing }
        ensures ok { OnOk result (self.new ≡ record self.old { rows = without_row self.old.rows number }) }
        ensures err { OnErr result (self.new ≡ self.old) }
    {
        let _ = number;
        self.rows.remove(self.columns.list().allocator(), place)
    }

    // Takes the row of a number out, which stands there, and with it its key, where the indexes have this alone of it.
    fn take_keyed(&mut self, place: usize, number: u64, key: Key) -> Result<(), Memory>
        requires at { IsPlace self.old.rows number place }
        requires entries { AreEntriesOf self.old.columns self.old.rows number (entries.Key key) }
        ensures ok { OnOk result (self.new ≡ record self.old { rows = without_row self.old.rows number }) }
        ensures err { OnErr result (self.new ≡ self.old) }
    {
        let alloc = self.columns.list().allocator();
        let entry = (key, number);
        let taken = remove_with_member(alloc, &mut self.rows, place, &mut self.keys, &entry);
        drop(entry);
        taken
    }

    // Takes the row of a number out of copies of the parts, which come in their place.
    fn take_copied(&mut self, place: usize, number: u64) -> Result<(), Memory>
        requires { IsPlace self.old.rows number place }
        ensures ok { OnOk result (self.new ≡ record self.old { rows = without_row self.old.rows number }) }
        ensures err { OnErr result (self.new ≡ self.old) }
    {
        let parts = without(
            self.columns.list(),
            self.next,
            &self.rows,
            &self.links,
            &self.keys,
            place,
            number,
        )?;
        self.renew(self.next, parts);
        Ok(())
    }

    // Gives the table a next row number, and parts in the place of its own.
    fn renew(&mut self, next: u64, parts: Parts)
        requires { IsKept self.old.columns next parts.0 parts.1 parts.2 }
        ensures { self.new ≡ record self.old { next = next; rows = parts.0 } }
    {
        let (rows, links, keys) = parts;
        self.next = next;
        drop(mem::replace(&mut self.rows, rows));
        drop(mem::replace(&mut self.links, links));
        drop(mem::replace(&mut self.keys, keys));
    }

    // Its parts once more.
    fn share_parts(&self) -> Result<Parts, Memory>
        ensures rows { IfOk result (λ made. made.0 ≡ self.now.rows) }
        ensures kept { IfOk result (λ made. IsKept self.now.columns self.now.next made.0 made.1 made.2) }
    {
        let rows = self.rows.share()?;
        match self.share_indexes() {
            Ok((links, keys)) => Ok((rows, links, keys)),
            Err(fault) => {
                drop(rows);
                Err(fault)
            }
        }
    }

    fn share_indexes(&self) -> Result<Indexes, Memory>
        ensures { IfOk result (λ made. IsKept self.now.columns self.now.next self.now.rows made.0 made.1) }
    {
        let links = self.links.share()?;
        match self.keys.share() {
            Ok(keys) => Ok((links, keys)),
            Err(fault) => {
                drop(links);
                Err(fault)
            }
        }
    }
}

// The test of numbers that are below one.
#[derive(Drop)]
struct Below {
    number: u64,
}

impl Predicate<Numbered> for Below {
    ghost use Rattle.std.specs.Prelude.{nat_lt};

    ghost test = { λ b r. nat_lt r.0 b.number };

    fn passes(&self, item: &Numbered) -> bool {
        item.number() < self.number
    }

    ghost pivot = { λ b. b.number };

    fn pivot(&self) -> u64 {
        self.number
    }

    ghost use Rattle.std.proofs.Common.{arith};
    ghost use Rattle.std.proofs.lemmas.Bool.Decides.{nat_tests};

    ghost low = { λ b r less. Prim.grind (arith, nat_tests) };

    ghost high = { λ b r more. Prim.grind (arith, nat_tests) };
}

// The parts of rows whose numbers rise and are below the next one.
fn parts_of(
    alloc: Global,
    columns: &List<Column>,
    next: u64,
    rows: List<(u64, Row)>,
) -> Result<Parts, Memory>
    requires { Rise 0 next rows }
    ensures rows { IfOk result (λ made. made.0 ≡ rows) }
    ensures kept { IfOk result (λ made. IsKept columns.now next made.0 made.1 made.2) }
{
    let rows = Pages::of(alloc, shared_rows(alloc, rows)?)?;
    match indexes_of(alloc, columns, next, &rows) {
        Ok((links, keys)) => Ok((rows, links, keys)),
        Err(fault) => {
            drop(rows);
            Err(fault)
        }
    }
}

fn indexes_of(
    alloc: Global,
    columns: &List<Column>,
    next: u64,
    rows: &Pages<Numbered>,
) -> Result<Indexes, Memory>
    requires { Rise 0 next rows.now }
    ensures { IfOk result (λ made. IsKept columns.now next rows.now made.0 made.1) }
{
    let links = link_index(alloc, columns, next, rows)?;
    match key_index(alloc, columns, next, rows) {
        Ok(keys) => Ok((links, keys)),
        Err(fault) => {
            drop(links);
            Err(fault)
        }
    }
}

// The parts with one more row at the end.
fn pushed(
    columns: &List<Column>,
    number: u64,
    rows: &Pages<Numbered>,
    links: &Pages<(LinkNo, u64)>,
    keys: &Pages<(Key, u64)>,
    row: Row,
) -> Result<Parts, Memory>
    requires { IsKept columns.now number rows.now links.now keys.now }
    ensures rows { IfOk result (λ made. made.0 ≡ rows.now ++ (number, row) ∷ []) }
    ensures kept { IfOk result (λ made. IsKept columns.now (number + 1) made.0 made.1 made.2) }
{
    let alloc = columns.allocator();
    match with_entries(alloc, columns, links, keys, &row, number) {
        Ok(indexes) => joined(appended(alloc, rows, number, row), indexes),
        Err(fault) => {
            drop(row);
            Err(fault)
        }
    }
}

// The parts with another row in the place of one.
fn exchanged(
    columns: &List<Column>,
    next: u64,
    rows: &Pages<Numbered>,
    links: &Pages<(LinkNo, u64)>,
    keys: &Pages<(Key, u64)>,
    place: usize,
    number: u64,
    row: Row,
) -> Result<Parts, Memory>
    requires kept { IsKept columns.now next rows.now links.now keys.now }
    requires at { IsPlace rows.now number place }
    ensures after { IfOk result (λ made. made.0 ≡ with_row rows.now number row) }
    ensures kept { IfOk result (λ made. IsKept columns.now next made.0 made.1 made.2) }
{
    let alloc = columns.allocator();
    let before = rows.item(place).row();
    match with_other_entries(alloc, columns, links, keys, before, &row, number) {
        Ok(indexes) => joined(swapped(alloc, rows, place, number, row), indexes),
        Err(fault) => {
            drop(row);
            Err(fault)
        }
    }
}

// The parts without a row.
fn without(
    columns: &List<Column>,
    next: u64,
    rows: &Pages<Numbered>,
    links: &Pages<(LinkNo, u64)>,
    keys: &Pages<(Key, u64)>,
    place: usize,
    number: u64,
) -> Result<Parts, Memory>
    requires kept { IsKept columns.now next rows.now links.now keys.now }
    requires at { IsPlace rows.now number place }
    ensures after { IfOk result (λ made. made.0 ≡ without_row rows.now number) }
    ensures kept { IfOk result (λ made. IsKept columns.now next made.0 made.1 made.2) }
{
    let alloc = columns.allocator();
    let before = rows.item(place).row();
    let indexes = without_entries(alloc, columns, links, keys, before, number)?;
    joined(dropped(alloc, rows, place, number), indexes)
}

// Rows and their indexes. It takes no memory: the error is that of the rows.
fn joined(rows: Result<Pages<Numbered>, Memory>, indexes: Indexes) -> Result<Parts, Memory>
    ensures made { IfOk result (λ made. (rows ≡ Ok made.0) × (indexes ≡ (made.1, made.2))) }
    ensures memory { result_err result ≡ result_err rows }
{
    match rows {
        Ok(rows) => {
            let (links, keys) = indexes;
            Ok((rows, links, keys))
        }
        Err(fault) => {
            drop(indexes);
            Err(fault)
        }
    }
}

fn appended(
    alloc: Global,
    rows: &Pages<Numbered>,
    number: u64,
    row: Row,
) -> Result<Pages<Numbered>, Memory>
    ensures { IfOk result (λ made. made ≡ rows.now ++ (number, row) ∷ []) }
{
    let item = Numbered::of(alloc, number, row)?;
    rows.inserted(alloc, rows.len(), item)
}

fn swapped(
    alloc: Global,
    rows: &Pages<Numbered>,
    place: usize,
    number: u64,
    row: Row,
) -> Result<Pages<Numbered>, Memory>
    requires { IsPlace rows.now number place }
    ensures { IfOk result (λ made. made ≡ with_row rows.now number row) }
{
    let item = Numbered::of(alloc, number, row)?;
    rows.replaced(alloc, place, item)
}

fn dropped(
    alloc: Global,
    rows: &Pages<Numbered>,
    place: usize,
    number: u64,
) -> Result<Pages<Numbered>, Memory>
    requires { IsPlace rows.now number place }
    ensures { IfOk result (λ made. made ≡ without_row rows.now number) }
{
    let _ = number;
    rows.removed(alloc, place)
}

impl Copied for Table {
    fn copy(&self) -> Result<Table, Memory> {
        let columns = self.columns.share()?;
        match self.share_parts() {
            Ok(parts) => Ok(Table::of_parts(self.version, columns, self.next, parts)),
            Err(fault) => {
                drop(columns);
                Err(fault)
            }
        }
    }
}

impl Same for Table {
    fn same(&self, other: &Table) -> bool {
        self.version == other.version
            && self.next == other.next
            && self.columns.list().same(other.columns.list())
            && self.rows.same(&other.rows)
    }
}
