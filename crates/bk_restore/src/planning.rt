// The plan of a restore.
ghost use Rattle.std.specs.Prelude.{◌≡◌, [], IfOk};
ghost use Rattle.std.specs.List.{list_any};
ghost use Rattle.db_replay.specs.Applying.{AreNew};
ghost use Rattle.db_replay.specs.Changes.{applied};
ghost use Rattle.meaning_areas.specs.Commits.{tables_after};
ghost use Rattle.meaning_merge.specs.Restoring.{is_lost, lost_cells, without_lost};
ghost use Rattle.meaning_system.specs.State.{State};
ghost use Rattle.bk_restore.specs.Planning.{HasOwned, IsPlanOf, IsPlanned, IsPlannedTo, tables_at};
ghost use Rattle.meaning_system.specs.Machine as machine;
ghost use Rattle.meaning_tables.specs.Links as meant;

use crate::changes::{Making, with_handles};
use bk_backup::Backups;
use bk_losing::{Losing, in_the_way};
use db_replay::Change;
use db_store::Store;
use dl_base::{LinkRow, List, Lost, Memory, Refusal, RestoreRefusal, Target};
use dl_codec::TableChange;
use fm_archive::Archive;
use fs_files::Files;
use sql_table::{Tables, gives_takes};
use std::alloc::Global;

/// What a restore does: the commit that it is, but for the numbers of this and of its transaction, and what the answer tells.
#[derive(Drop)]
pub struct RestorePlan {
    /// The cells that become NULL, since they are taken with RECOVERY NO and their paths have no file, in the order of the target's links.
    pub lost: List<Lost>,
    /// The changes of the record of the commit.
    pub changes: List<TableChange>,
    /// Handles of the tables that it makes, which get the number of the commit as their version; those of new tables stand last.
    pub handles: List<Change>,
    /// The links that the commit takes away, and those that it adds, as the record of its branch has them.
    pub gives: List<LinkRow>,
    pub takes: List<LinkRow>,
    /// Whether a link is taken with RECOVERY YES: then each such one's file is filled from the archive.
    pub fill: bool,
}

/// Why there is no restore, or what it does.
#[derive(Drop)]
pub enum Planned {
    Refused(Refusal),
    Ready(RestorePlan),
}

/// What a restore to a backup or a commit will do, where no session has a transaction. `unfinished` is the least number of a transaction
/// that is prepared or decided, if there is one. The refusals, in their order: Unfinished; NoTarget; InTheWay with the path of the first
/// link that is taken with RECOVERY YES and would be filled over other bytes, unless a link given with RECOVERY YES has the path. The
/// error is want of memory. It costs a look for each row of the target and of the committed tables, and n log n for n links that are
/// given and taken.
pub fn plan(
    alloc: Global,
    store: &Store,
    backups: &Backups,
    files: &Files,
    archive: &Archive,
    unfinished: Option<u64>,
    target: Target,
) -> Result<Planned, Memory>
    ensures { (s : State) → HasOwned s store.now backups.now files.now archive.now unfinished → IfOk result (IsPlanned s target) }
{
    if let Some(tx) = unfinished {
        return Ok(Planned::Refused(Refusal::Unfinished(tx)));
    }
    match target_tables(store, backups, target)? {
        Some(tables) => plan_to(alloc, store, files, archive, &tables),
        None => {
            let number = target_number(target);
            Ok(Planned::Refused(Refusal::Restore(RestoreRefusal::NoTarget(number))))
        }
    }
}

// The plan of a restore to these tables.
fn plan_to(
    alloc: Global,
    store: &Store,
    files: &Files,
    archive: &Archive,
    target: &Tables,
) -> Result<Planned, Memory>
    ensures { IfOk result (IsPlannedTo (tables_after [] store.now.rows.commits) files.now.files archive.now.copies target.now) }
{
    let now = store.committed().copy()?;
    let planned = plan_from(alloc, &now, files, archive, target);
    drop(now);
    planned
}

// The plan of a restore from these tables to those.
fn plan_from(
    alloc: Global,
    now: &Tables,
    files: &Files,
    archive: &Archive,
    target: &Tables,
) -> Result<Planned, Memory>
    ensures { IfOk result (IsPlannedTo now.now files.now.files archive.now.copies target.now) }
{
    let (gives, takes) = gives_takes(alloc, now, target)?;
    let planned = plan_if_clear(alloc, now, files, archive, &gives, &takes, target);
    drop(gives);
    drop(takes);
    planned
}

// The plan of a restore to a target to which these links are given and taken, unless something is in the way.
fn plan_if_clear(
    alloc: Global,
    now: &Tables,
    files: &Files,
    archive: &Archive,
    gives: &List<LinkRow>,
    takes: &List<LinkRow>,
    target: &Tables,
) -> Result<Planned, Memory>
    requires gives { gives.now ≡ meant.gives now.now target.now }
    requires takes { takes.now ≡ meant.takes now.now target.now }
    ensures { IfOk result (IsPlannedTo now.now files.now.files archive.now.copies target.now) }
{
    match in_the_way(alloc, files, archive, gives, takes)? {
        Some(path) => Ok(Planned::Refused(Refusal::Restore(RestoreRefusal::InTheWay(path)))),
        None => {
            let plan = cleared(alloc, now, files, takes, target)?;
            Ok(Planned::Ready(plan))
        }
    }
}

// The plan of a restore to a target to which these links are taken, and nothing is in the way.
fn cleared(
    alloc: Global,
    now: &Tables,
    files: &Files,
    takes: &List<LinkRow>,
    target: &Tables,
) -> Result<RestorePlan, Memory>
    ensures { IfOk result (IsPlanOf now.now (without_lost (is_lost files.now.files takes.now) target.now) (lost_cells (is_lost files.now.files takes.now) target.now)) }
{
    let losing = Losing::of(alloc, takes, files)?;
    let lost = losing.cells(alloc, target)?;
    let later = losing.without(target)?;
    plan_of(alloc, now, &later, lost)
}

// The plan of a restore to tables without lost cells.
fn plan_of(
    alloc: Global,
    now: &Tables,
    later: &Tables,
    lost: List<Lost>,
) -> Result<RestorePlan, Memory>
    ensures { IfOk result (IsPlanOf now.now later.now lost) }
{
    // so it is known that names differ
    let _ = now.len();
    let _ = later.len();
    let Making { changes, handles } = Making::of(alloc, now, later)?;
    let (gives, takes) = moved(alloc, now, &handles)?;
    let fill = is_any_filled(&takes);
    Ok(RestorePlan {
        lost,
        changes,
        handles,
        gives,
        takes,
        fill,
    })
}

// What the commit of these handles gives and takes.
fn moved(
    alloc: Global,
    now: &Tables,
    handles: &List<Change>,
) -> Result<(List<LinkRow>, List<LinkRow>), Memory>
    requires { AreNew now.now handles.now }
    ensures gives { IfOk result (λ m. m.0 ≡ meant.gives now.now (applied now.now handles.now)) }
    ensures takes { IfOk result (λ m. m.1 ≡ meant.takes now.now (applied now.now handles.now)) }
{
    let later = with_handles(now, handles)?;
    gives_takes(alloc, now, &later)
}

// Whether a link is taken with RECOVERY YES.
fn is_any_filled(takes: &List<LinkRow>) -> bool
    ensures { result ≡ list_any (λ t. t.options.recovery) takes.now }
{
    takes.as_slice().iter().any(|take| take.options.recovery)
}

// The tables of a backup, or those after a commit; None exactly where there is no such one. They share what they have with others, so
// the cost grows with the tables, and for a commit with the changes of the commits up to it.
fn target_tables(store: &Store, backups: &Backups, target: Target) -> Result<Option<Tables>, Memory>
    ensures { IfOk result (λ tables. tables ≡ tables_at store.now.rows.commits backups.now.backups target) }
{
    match target {
        Target::Backup(number) => match backups.image(number) {
            Some(tables) => Ok(Some(tables.copy()?)),
            None => Ok(None),
        },
        Target::Commit(number) => store.past(number),
    }
}

// The number of the backup or of the commit.
fn target_number(target: Target) -> u64
    ensures { result ≡ machine.target_number target }
{
    match target {
        Target::Backup(number) => number,
        Target::Commit(number) => number,
    }
}
