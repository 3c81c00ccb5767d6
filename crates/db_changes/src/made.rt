// What the commit of a transaction makes of tables.
ghost use Rattle.std.specs.Prelude.{◌≡◌, ◌==◌, ◌*◌, ◌++◌, ◌≤◌, IfOk, drop, filter, length, take};
ghost use Rattle.std.specs.Int.{to_be_bytes, w64};
ghost use Rattle.dl_base.specs.Limits.{most_tables};
ghost use Rattle.dl_codec.specs.Rows.{rows_record};
ghost use Rattle.dl_codec.specs.declared.rows.RowsRecord.TheVariants as records;
ghost use Rattle.db_replay.specs.Applying.{new_by, new_in};
ghost use Rattle.db_replay.specs.Changes.{all_at_version, at_version};
ghost use Rattle.meaning_merge.specs.Merging.{commit_changes};
ghost use Rattle.db_changes.specs.Handles.{NewLast, handles};
ghost use Rattle.db_changes.specs.Made.{changes_in, record_of, rooms_for};
ghost use Rattle.db_changes.specs.Touched.{Covers};

use crate::TouchedRows;
use crate::diff::{put_dropped, put_kept, put_new};
use db_replay::Change;
use dl_base::limits::MOST_TABLES;
use dl_base::{List, Memory};
use dl_codec::{RowsRecord, TableChange, put_rows_record, rows_records_have_one_spelling};
use sql_table::Tables;
use std::alloc::Global;
use std::marker::Model;

/// What the commit of a transaction makes of tables, before it has a number: the body of its record, and handles of its tables,
/// which share what they have with the tables that they were made of. Contracts see the transaction, whether it has a branch, the
/// changes of the record, the handles, and how many commits' room it takes: that of a commit is for at most 256 new tables.
#[derive(Drop)]
pub struct Made {
    tx: u64,
    branch: bool,
    // the record as that of commit 0
    body: List<u8>,
    handles: List<Change>,
    // contracts alone look at it
    rooms: usize,
}

impl Model for Made {
    ghost use Rattle.db_changes.specs.Made.{Making, changes_in};

    ghost Value = { Making };

    ghost view = { λ m. record { tx = m.tx; branch = m.branch; changes = changes_in m.body; handles = m.handles; rooms = m.rooms } };

    ghost use Rattle.db_changes.specs.Made.{IsMade};

    ghost invariant = { λ m. IsMade (record { tx = m.tx; branch = m.branch; changes = changes_in m.body; handles = m.handles; rooms = m.rooms }) m.body };
}

impl Made {
    /// What a transaction has made of the tables of its base: its copy, in which beside new and dropped tables only touched rows
    /// differ, and at most 256 tables are new: it takes the room of one commit. The error is want of memory. The cost is n log n in the
    /// number of tables, and grows with the touched rows, times the logarithm of the rows of their tables, and with the rows of new
    /// tables.
    #[tactic(auto, using(crate::proofs::Counting::few_new, crate::proofs::Counting::order_new, crate::proofs::Gathered::made_as))]
    pub fn new(
        alloc: Global,
        tx: u64,
        branch: bool,
        base: &Tables,
        copy: &Tables,
        touched: &TouchedRows,
    ) -> Result<Made, Memory>
        requires covers { Covers touched.now base.now copy.now }
        requires few { length (filter (λ t. t.1.version == 0) copy.now) ≤ most_tables }
        ensures { IfOk result (λ made. made ≡ record { tx = tx; branch = branch; changes = commit_changes base.now copy.now; handles = handles base.now copy.now; rooms = 1 }) }
    {
        let (changes, handles) = differences(alloc, base, copy, touched)?;
        Made::with_rooms(alloc, tx, branch, changes, handles, 1)
    }

    /// The commit of a record's changes, and of handles of the tables that they make, of which the new ones stand behind all others; it
    /// takes the room of as many commits as `rooms_for` tells. The error is want of memory. The cost grows with the bytes of the record
    /// and with the number of handles.
    pub fn of(
        alloc: Global,
        tx: u64,
        branch: bool,
        changes: List<TableChange>,
        handles: List<Change>,
    ) -> Result<Made, Memory>
        requires { NewLast handles }
        ensures { IfOk result (λ made. made ≡ record { tx = tx; branch = branch; changes = changes; handles = handles; rooms = rooms_for handles }) }
    {
        let rooms = rooms_for(&handles);
        Made::with_rooms(alloc, tx, branch, changes, handles, rooms)
    }

    // The commit of a record's changes and of these handles, which takes the room of so many commits.
    fn with_rooms(
        alloc: Global,
        tx: u64,
        branch: bool,
        changes: List<TableChange>,
        handles: List<Change>,
        rooms: usize,
    ) -> Result<Made, Memory>
        requires few { new_in handles ≤ rooms * most_tables }
        requires some { 1 ≤ rooms }
        requires order { NewLast handles }
        ensures { IfOk result (λ made. made ≡ record { tx = tx; branch = branch; changes = changes; handles = handles; rooms = rooms }) }
    {
        rows_records_have_one_spelling();
        let body = body_of(alloc, tx, branch, changes)?;
        Ok(Made {
            tx,
            branch,
            body,
            handles,
            rooms,
        })
    }

    /// The transaction. It takes no memory.
    pub fn tx(&self) -> u64
        ensures { result ≡ self.now.tx }
    {
        self.tx
    }

    /// Whether the transaction has a branch. It takes no memory.
    pub fn branch(&self) -> bool
        ensures { result ≡ self.now.branch }
    {
        self.branch
    }

    /// Whether it changes nothing. It takes no memory.
    pub fn is_empty(&self) -> bool
        ensures { result ≡ (length self.now.handles == 0) }
    {
        self.handles.len() == 0
    }

    /// The body of the record of this commit, and the handles of its tables with its number as version. It takes no memory, and costs
    /// no row.
    pub fn parts(self, number: u64) -> (List<u8>, List<Change>)
        ensures body { result.0 ≡ rows_record.spelling (record_of self number) }
        ensures fits { rows_record.fits (record_of self number) }
        ensures changes { changes_in result.0 ≡ self.changes }
        ensures handles { result.1 ≡ all_at_version number self.handles }

        // There is room for its new tables where there is room for so many commits, and they stand behind all others.
        ensures few { new_in self.handles ≤ self.rooms * most_tables }
        ensures some { 1 ≤ self.rooms }
        ensures order { NewLast self.handles }
    {
        rows_records_have_one_spelling();
        let Made { body, handles, .. } = self;
        (numbered(body, number), with_version(handles, number))
    }
}

/// How many commits' room is enough for a commit that makes these tables: one, and one more for each 256 of them that are new. It takes
/// no memory, and costs a look at each.
pub fn rooms_for(handles: &List<Change>) -> usize
    ensures { result ≡ rooms_for handles.now }
{
    let mut made = 0_usize;
    for change in handles.as_slice() {
        made += tables_made(change);
    }
    made / MOST_TABLES + 1
}

// How many tables a change makes that were not there.
fn tables_made(change: &Change) -> usize
    ensures { result ≡ new_by change.now }
{
    match change {
        Change::Dropped(_) => 0,
        Change::Kept(_, _) => 0,
        Change::New(_, _) => 1,
    }
}

// What a copy differs in from its base, as changes and as handles.
fn differences(
    alloc: Global,
    base: &Tables,
    copy: &Tables,
    touched: &TouchedRows,
) -> Result<(List<TableChange>, List<Change>), Memory>
    requires { Covers touched.now base.now copy.now }
    ensures changes { IfOk result (λ made. made.0 ≡ commit_changes base.now copy.now) }
    ensures handles { IfOk result (λ made. made.1 ≡ handles base.now copy.now) }
{
    let mut changes = List::empty(alloc);
    let mut handles = List::empty(alloc);
    put_dropped(&mut changes, &mut handles, base, copy)?;
    put_kept(&mut changes, &mut handles, base, copy, touched)?;
    put_new(&mut changes, &mut handles, copy)?;
    Ok((changes, handles))
}

// The body of a record of commit 0.
fn body_of(
    alloc: Global,
    tx: u64,
    branch: bool,
    changes: List<TableChange>,
) -> Result<List<u8>, Memory>
    ensures body { IfOk result (λ made. made ≡ rows_record.spelling (records.Commit tx 0 branch changes)) }
    ensures fits { IfOk result (λ made. rows_record.fits (records.Commit tx 0 branch changes)) }
{
    let mut made = List::empty(alloc);
    put_rows_record(&mut made, &RowsRecord::Commit(tx, 0, branch, changes))?;
    Ok(made)
}

// The body with another number of the commit, which stands behind a byte and the transaction's eight.
fn numbered(body: List<u8>, number: u64) -> List<u8>
    requires { 17 ≤ length body }
    ensures { result ≡ take 9 body ++ to_be_bytes w64 number ++ drop 17 body }
{
    let mut bytes = body.into_vec();
    bytes[9..17].copy_from_slice(&number.to_be_bytes());
    List::from_vec(bytes)
}

fn with_version(changes: List<Change>, version: u64) -> List<Change>
    ensures { result ≡ all_at_version version changes }
{
    let mut items = changes.into_vec();
    for change in items.iter_mut() {
        set_version(change, version);
    }
    List::from_vec(items)
}

fn set_version(change: &mut Change, version: u64)
    ensures { change.new ≡ at_version version change.old }
{
    match change {
        Change::Dropped(_) => {}
        Change::Kept(_, table) => table.set_version(version),
        Change::New(_, table) => table.set_version(version),
    }
}
