// A restore over the owners of the areas: what is made for it, and how it is written.
ghost use Rattle.std.specs.Prelude.{◌≡◌, ◌≢◌, ◌+◌, ◌^◌, ◌≤◌, ℕ, Err, IfOk, None, OnErr, OnOk, Some, length};
ghost use Rattle.std.specs.Result.{result_err};
ghost use Rattle.db_changes.specs.Handles.{NewLast};
ghost use Rattle.db_changes.specs.Made.{rooms_for};
ghost use Rattle.dl_areas.specs.Lists.{AreReady};
ghost use Rattle.dl_areas.specs.Writing.{Does, Ends};
ghost use Rattle.dl_base.specs.declared.answer.Answer.TheVariants as answers;
ghost use Rattle.dl_codec.specs.Rows.{rows_record};
ghost use Rattle.dl_codec.specs.declared.rows.RowsRecord.TheVariants as records;
ghost use Rattle.fm_manager.specs.Managed.{AreSpelled, Roomier, as_writes};
ghost use Rattle.meaning_areas.specs.Full.{draw_full};
ghost use Rattle.meaning_areas.specs.Lists.{folds_on};
ghost use Rattle.meaning_areas.specs.Stands.{kept_of};
ghost use Rattle.meaning_settling.specs.Settling as settling;
ghost use Rattle.meaning_system.specs.Writes.{prepared, whole_finish};
ghost use Rattle.sys_owners.specs.Owned.{folds_in, journals_of};
ghost use Rattle.sys_records.specs.Restoring.{ArePieces, ArePiecesSpelled, CanCommit, CanWrite, IsMadeFor, MaySettle, commit_part, moved_by, moved_in, moving, restore_part};
ghost use Rattle.sys_records.specs.Room.{HaveMoreRoom};
ghost use Rattle.sys_seats.specs.Seats.{all_of, gives_of, votes_of};

use crate::branch::{moves_links, write_prepared};
use crate::room::make_room;
use bk_restore::RestorePlan;
use db_changes::{Made, rooms_for};
use db_replay::Change;
use dl_areas::calls_follow_one_another;
use dl_base::{Answer, AppendFault, Bench, LinkRow, List, Lost, Memory, StepFault};
use dl_codec::{RowsRecord, TableChange, put_rows_record};
use fm_manager::{Manager, Pieces};
use fm_pieces::pieces_as_they_are_made;
use std::alloc::Global;
use sys_owners::Owners;
use sys_seats::Seats;

/// What is made for a restore before it is written: the cells that it loses, its commit, the links that this takes away and adds, whether
/// those with RECOVERY YES among the added are filled, and the pieces of its Finish, where a link is taken away or added.
#[derive(Drop)]
pub struct Restoration {
    pub lost: List<Lost>,
    pub made: Made,
    pub gives: List<LinkRow>,
    pub takes: List<LinkRow>,
    pub fill: bool,
    pub pieces: Option<Pieces>,
}

/// What is made for the restore of a plan, as the transaction of a number. Behind it there is room for its commit, however many tables
/// this makes, and for copies of the links that are given. The error is want of memory, also for a plan whose commit no record can have,
/// and where a file that is to be copied has 2^32 bytes or more; it leaves all as it was but for room. It costs the bytes of the commit's
/// record, its handles, a look at each transaction, n log n for n links, and the bytes of the files that are copied or filled.
pub fn make_restoration(
    alloc: Global,
    owners: &mut Owners,
    seats: &Seats,
    tx: u64,
    plan: RestorePlan,
) -> Result<Restoration, Memory>
    requires { NewLast plan.handles }
    ensures made { IfOk result (IsMadeFor owners.new tx plan) }
    ensures same { HaveMoreRoom owners.old owners.new }
    ensures commits { OnOk result (all_of votes_of seats.now + rooms_for plan.handles ≤ owners.new.store.spare) }
    ensures copies { OnOk result (all_of gives_of seats.now + length plan.gives ≤ owners.new.manager.archive.spare) }
{
    match pieces_behind_room(owners, seats, tx, &plan) {
        Ok(pieces) => restoration_of(alloc, owners, tx, plan, pieces),
        Err(Memory) => {
            drop(plan);
            Err(Memory)
        }
    }
}

// Makes room for the restore of a plan, and then the pieces of its Finish.
fn pieces_behind_room(
    owners: &mut Owners,
    seats: &Seats,
    tx: u64,
    plan: &RestorePlan,
) -> Result<Option<Pieces>, Memory>
    ensures pieces { IfOk result (ArePieces owners.new.manager tx (moved_by plan.now)) }
    ensures spelled { IfOk result (λ pieces. ArePiecesSpelled pieces) }
    ensures same { HaveMoreRoom owners.old owners.new }
    ensures commits { OnOk result (all_of votes_of seats.now + rooms_for plan.now.handles ≤ owners.new.store.spare) }
    ensures copies { OnOk result (all_of gives_of seats.now + length plan.now.gives ≤ owners.new.manager.archive.spare) }
{
    make_room(owners, seats, rooms_for(&plan.handles), plan.gives.len())?;
    let pieces = pieces_for(&mut owners.manager, tx, &plan.gives, &plan.takes, plan.fill)?;
    are_spelled(&pieces);
    Ok(pieces)
}

// What is made for a restore whose pieces are made. It changes nothing.
fn restoration_of(
    alloc: Global,
    owners: &Owners,
    tx: u64,
    plan: RestorePlan,
    pieces: Option<Pieces>,
) -> Result<Restoration, Memory>
    requires last { NewLast plan.handles }
    requires pieces { ArePieces owners.now.manager tx (moved_by plan) pieces }
    requires spelled { ArePiecesSpelled pieces }
    ensures { IfOk result (IsMadeFor owners.now tx plan) }
{
    let RestorePlan {
        lost,
        changes,
        handles,
        gives,
        takes,
        fill,
    } = plan;
    let branch = moves_links(&gives, &takes);
    match commit_for(alloc, owners, tx, branch, changes, handles) {
        Ok(made) => Ok(Restoration {
            lost,
            made,
            gives,
            takes,
            fill,
            pieces,
        }),
        Err(Memory) => {
            drop(lost);
            drop(gives);
            drop(takes);
            drop(pieces);
            Err(Memory)
        }
    }
}

// The pieces of the Finish of a restore, where it gives or takes a link.
fn pieces_for(
    manager: &mut Manager,
    tx: u64,
    gives: &List<LinkRow>,
    takes: &List<LinkRow>,
    fill: bool,
) -> Result<Option<Pieces>, Memory>
    ensures pieces { IfOk result (ArePieces manager.new tx (moving gives.now takes.now fill)) }
    ensures same { Roomier manager.old manager.new }
{
    if !moves_links(gives, takes) {
        return Ok(None);
    }
    let pieces = manager.pieces(tx, gives, takes, fill)?;
    Ok(Some(pieces))
}

// The records of pieces have spellings. The function does nothing.
fn are_spelled(pieces: &Option<Pieces>)
    ensures { ArePiecesSpelled pieces.now }
{
    if let Some(pieces) = pieces {
        pieces.are_spelled();
    }
}

// The commit of these changes, and of handles of the tables that they make, whose record as that of the next number has a spelling. The
// error is want of memory, also where it has none.
fn commit_for(
    alloc: Global,
    owners: &Owners,
    tx: u64,
    branch: bool,
    changes: List<TableChange>,
    handles: List<Change>,
) -> Result<Made, Memory>
    requires { NewLast handles }
    ensures made { IfOk result (λ made. made ≡ record { tx = tx; branch = branch; changes = changes; handles = handles; rooms = rooms_for handles }) }
    ensures fits { OnOk result (rows_record.fits (records.Commit tx (length owners.now.store.rows.commits + 1) branch changes)) }
{
    match next_number(owners) {
        Ok(number) => match spelled(alloc, tx, number, branch, changes) {
            Ok(changes) => Made::of(alloc, tx, branch, changes, handles),
            Err(Memory) => {
                drop(handles);
                Err(Memory)
            }
        },
        Err(Memory) => {
            drop(changes);
            drop(handles);
            Err(Memory)
        }
    }
}

// The number of the next commit. The error comes exactly where there is no such number. It takes no memory.
fn next_number(owners: &Owners) -> Result<u64, Memory>
    ensures number { IfOk result (λ number. number ≡ length owners.now.store.rows.commits + 1) }
    ensures memory { OnErr result (2 ^ 64 ≤ length owners.now.store.rows.commits + 1) }
{
    match owners.store.commits().checked_add(1) {
        Some(number) => Ok(number),
        None => Err(Memory),
    }
}

// The changes of the record of a commit, which has a spelling. The error is want of memory, also where it has none.
fn spelled(
    alloc: Global,
    tx: u64,
    number: u64,
    branch: bool,
    changes: List<TableChange>,
) -> Result<List<TableChange>, Memory>
    ensures same { IfOk result (λ made. made ≡ changes) }
    ensures fits { OnOk result (rows_record.fits (records.Commit tx number branch changes)) }
{
    let record = RowsRecord::Commit(tx, number, branch, changes);
    match spell(alloc, &record) {
        Ok(()) => match record {
            RowsRecord::Commit(_, _, _, changes) => Ok(changes),
            _ => unreachable!(),
        },
        Err(Memory) => {
            drop(record);
            Err(Memory)
        }
    }
}

// The record of a commit has a spelling. The error is want of memory, also where it has none.
fn spell(alloc: Global, commit: &RowsRecord) -> Result<(), Memory>
    ensures { OnOk result (rows_record.fits commit.now) }
{
    let mut body = List::empty(alloc);
    put_rows_record(&mut body, commit)
}

/// Writes a restore: its branch, where it has one, its commit, and its whole Finish; its number is drawn then, and the number of its commit
/// and the lost cells are answered. It takes its memory before it writes. The errors are `Full(Area)` where an area has no room for the
/// next record, and `Device`, behind which the areas are to be opened again, and want of memory. It costs the bytes of its records, the
/// tables, and a logarithm of the held links for each take.
pub fn write_restore<B: Bench>(
    owners: &mut Owners,
    bench: &mut B,
    restoration: Restoration,
) -> Result<Answer, StepFault>
    requires ready { AreReady (journals_of owners.old) (B.outside bench.old) }
    requires can { CanWrite owners.old restoration }
    ensures answer { IfOk result (λ told. told ≡ answers.Restored (length owners.old.store.rows.commits + 1) restoration.lost) }
    ensures folds { OnOk result (folds_on (Some (folds_in owners.old)) (restore_part (folds_in owners.old) restoration.made (moved_in restoration)) ≡ Some (folds_in owners.new)) }
    ensures drawn { OnOk result (owners.new.store.drawn ≡ owners.old.store.drawn + 1) }
    ensures commits { OnOk result (owners.old.store.spare ≤ owners.new.store.spare + restoration.made.rooms) }
    ensures copies { OnOk result (owners.old.manager.archive.spare ≤ owners.new.manager.archive.spare + length restoration.gives) }
    ensures memory { result ≡ Err StepFault.Memory → owners.new ≡ owners.old }
    ensures ends { Ends (journals_of owners.old) (journals_of owners.new) (as_writes (restore_part (folds_in owners.old) restoration.made (moved_in restoration))) (result_err result) (B.outside bench.old) (B.outside bench.new) }
    ensures spelled { result ≢ Err StepFault.Memory → AreSpelled (prepared restoration.made.tx (moved_in restoration)) }
{
    calls_follow_one_another::<B>();
    let tx = restoration.made.tx();
    match write_prepared(
        owners,
        bench,
        tx,
        &restoration.gives,
        &restoration.takes,
        restoration.fill,
    ) {
        Ok(()) => match commit_restore(owners, bench, restoration) {
            Ok(answer) => {
                count_drawn(owners);
                Ok(answer)
            }
            Err(fault) => Err(StepFault::from(fault)),
        },
        Err(fault) => {
            drop(restoration);
            Err(fault)
        }
    }
}

// The next number is drawn. It takes no memory.
fn count_drawn(owners: &mut Owners)
    requires { draw_full (owners.old.store.drawn + 1) ≡ None }
    ensures { owners.new ≡ record owners.old { store = record owners.old.store { drawn = owners.old.store.drawn + 1 } } }
{
    let _ = owners.store.draw();
}

// Writes the commit of a restore whose branch is written, where it has one, and its whole Finish. It takes no memory.
fn commit_restore<B: Bench>(
    owners: &mut Owners,
    bench: &mut B,
    restoration: Restoration,
) -> Result<Answer, AppendFault>
    requires ready { AreReady (journals_of owners.old) (B.outside bench.old) }
    requires can { CanCommit owners.old restoration }
    ensures answer { IfOk result (λ told. told ≡ answers.Restored (length owners.old.store.rows.commits + 1) restoration.lost) }
    ensures folds { OnOk result (folds_on (Some (folds_in owners.old)) (commit_part (folds_in owners.old) restoration.made (moved_in restoration)) ≡ Some (folds_in owners.new)) }
    ensures drawn { OnOk result (owners.new.store.drawn ≡ owners.old.store.drawn) }
    ensures commits { OnOk result (owners.old.store.spare ≤ owners.new.store.spare + restoration.made.rooms) }
    ensures copies { OnOk result (owners.old.manager.archive.spare ≤ owners.new.manager.archive.spare + length restoration.gives) }
    ensures does { Does (journals_of owners.old) (journals_of owners.new) (as_writes (commit_part (folds_in owners.old) restoration.made (moved_in restoration))) (result_err result) (B.outside bench.old) (B.outside bench.new) }
{
    calls_follow_one_another::<B>();
    let Restoration {
        lost,
        made,
        gives,
        takes,
        fill: _,
        pieces,
    } = restoration;
    drop(gives);
    drop(takes);
    match owners.store.commit(bench, made) {
        Ok(number) => match settle(owners, bench, pieces) {
            Ok(()) => Ok(Answer::Restored(number, lost)),
            Err(fault) => {
                drop(lost);
                Err(fault)
            }
        },
        Err(fault) => {
            drop(lost);
            drop(pieces);
            Err(fault)
        }
    }
}

// Writes the whole Finish of a restore whose commit is written, where it has a branch. It takes no memory.
fn settle<B: Bench>(
    owners: &mut Owners,
    bench: &mut B,
    pieces: Option<Pieces>,
) -> Result<(), AppendFault>
    requires ready { AreReady (journals_of owners.old) (B.outside bench.old) }
    requires can { (tx : ℕ) × (gone : settling.Moved) × MaySettle owners.old.manager owners.old.store.rows tx gone pieces }
    ensures folds { OnOk result ((tx : ℕ) (gone : settling.Moved) → MaySettle owners.old.manager owners.old.store.rows tx gone pieces
        → folds_on (Some (folds_in owners.old)) (whole_finish tx gone (kept_of (folds_in owners.old))) ≡ Some (folds_in owners.new)) }
    ensures drawn { OnOk result (owners.new.store.drawn ≡ owners.old.store.drawn) }
    ensures commits { OnOk result (owners.old.store.spare ≤ owners.new.store.spare) }
    ensures copies { OnOk result ((tx : ℕ) (gone : settling.Moved) → MaySettle owners.old.manager owners.old.store.rows tx gone pieces
        → owners.old.manager.archive.spare ≤ owners.new.manager.archive.spare + length gone.gives) }
    ensures does { (tx : ℕ) (gone : settling.Moved) → MaySettle owners.old.manager owners.old.store.rows tx gone pieces
        → Does (journals_of owners.old) (journals_of owners.new) (as_writes (whole_finish tx gone (kept_of (folds_in owners.old)))) (result_err result) (B.outside bench.old) (B.outside bench.new) }
{
    calls_follow_one_another::<B>();
    pieces_as_they_are_made();
    match pieces {
        Some(pieces) => sys_owners::finish(owners, bench, pieces),
        None => Ok(()),
    }
}
