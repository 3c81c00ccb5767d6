// One line of a script.
ghost use Rattle.std.specs.Prelude.{◌≡◌, [], ℕ, suc, true, List as Bytes, Err, IfOk, OnOk, Option as Optional, drop};
ghost use Rattle.dl_areas.specs.Lists.{Lists};
ghost use Rattle.dl_base.specs.Outside.{AtEveryMoment, FaultCounted};
ghost use Rattle.dl_base.specs.declared.fault.Full.{Full};
ghost use Rattle.meaning_run.specs.Running.{Read, Run, met, pending_links, stores_copies};
ghost use Rattle.sys_owners.specs.Owned.{journals_of};
ghost use Rattle.meaning_script.specs.Expansion.{IsRead};
ghost use Rattle.meaning_system.specs.State.{State};
ghost use Rattle.sys_core.specs.Standing.{IsOf};
ghost use Rattle.sys_run.specs.Turning.{IsAtRead, IsInLine};
ghost use Rattle.sys_run.specs.Running.{HasGrown, IsAtLine, IsFullIn, IsInRun, IsPastLine, Stands, StandsAfter};

use crate::built::is_built;
use crate::sessions::Sessions;
use crate::turn::{refuse, take_turn};
use dl_areas::records_in_parts;
use dl_base::{Bench, Limit, LinkNo, List, Memory, Refusal, StepFault};
use meaning_run::{lines_take_few_steps, turns_follow_one_another};
use run_lines::read_line;
use run_script::{Line, Order};
use std::alloc::Global;
use sys_core::{Engine, an_archive_leaves_the_others_pending};

/// Does a line, which has this number, from 1: takes its steps one after another, and tells its answer. The errors are `Full`, `Device`, and
/// want of memory, each also behind steps of the line that are done.
pub fn do_line<B: Bench>(
    alloc: Global,
    engine: &mut Engine,
    sessions: &mut Sessions,
    bench: &mut B,
    number: u64,
    line: &[u8],
) -> Result<(), StepFault>
    requires stands { (first : ℕ) × (lists : Lists) × (before : Optional (Bytes ℕ)) × (r : Run) × (l : Read) × (more : Bytes Read) × Stands first lists before r engine.old sessions.old (B.outside bench.old) × IsAtLine number line.now r l more }

    // The line is told behind its steps, and the areas have their records.
    ensures done { OnOk result ((first : ℕ) (lists : Lists) (before : Optional (Bytes ℕ)) (r : Run) (l : Read) (more : Bytes Read) → Stands first lists before r engine.old sessions.old (B.outside bench.old) → IsAtLine number line.now r l more
        → (count : ℕ) × IsPastLine count number r more × StandsAfter count first lists before r engine.new sessions.new (B.outside bench.new) × HasGrown count r (journals_of engine.old.owners) engine.new) }

    // However it ends, each moment is one of the run.
    ensures history { (first : ℕ) (lists : Lists) (before : Optional (Bytes ℕ)) (r : Run) (l : Read) (more : Bytes Read) → Stands first lists before r engine.old sessions.old (B.outside bench.old) → IsAtLine number line.now r l more
        → AtEveryMoment (IsInRun (journals_of engine.old.owners) lists r before) (B.outside bench.old) (B.outside bench.new) }

    ensures full { (full : Full) → result ≡ Err (StepFault.Full full) → (first : ℕ) (lists : Lists) (before : Optional (Bytes ℕ)) (r : Run) (l : Read) (more : Bytes Read) → Stands first lists before r engine.old sessions.old (B.outside bench.old) → IsAtLine number line.now r l more
        → IsFullIn (journals_of engine.old.owners) lists r before full (B.outside bench.new) }
    ensures device { result ≡ Err StepFault.Device → FaultCounted (B.outside bench.old) (B.outside bench.new) }
    ensures clean { OnOk result ((B.outside bench.new).faults ≡ (B.outside bench.old).faults) }
{
    let counted = sessions.meet(alloc, line)?;
    let line = read_line(alloc, line)?;
    let done = do_read(alloc, engine, sessions, bench, number, &line, counted);
    drop(line);
    done
}

// Does a line as it is read, whose actor was counted, or is one too many.
fn do_read<B: Bench>(
    alloc: Global,
    engine: &mut Engine,
    sessions: &mut Sessions,
    bench: &mut B,
    number: u64,
    line: &Line,
    counted: bool,
) -> Result<(), StepFault>
    requires read { IsRead line.now }
    requires stands { (first : ℕ) × (lists : Lists) × (before : Optional (Bytes ℕ)) × (r : Run) × (l : Read) × (more : Bytes Read) × Stands first lists before (met r l.actor) engine.old sessions.old (B.outside bench.old) × IsAtRead number line.now counted r l more }
    ensures done { OnOk result ((first : ℕ) (lists : Lists) (before : Optional (Bytes ℕ)) (r : Run) (l : Read) (more : Bytes Read) → Stands first lists before (met r l.actor) engine.old sessions.old (B.outside bench.old) → IsAtRead number line.now counted r l more
        → (count : ℕ) × IsPastLine count number r more × StandsAfter count first lists before r engine.new sessions.new (B.outside bench.new) × HasGrown count r (journals_of engine.old.owners) engine.new) }
    ensures history { (first : ℕ) (lists : Lists) (before : Optional (Bytes ℕ)) (r : Run) (l : Read) (more : Bytes Read) → Stands first lists before (met r l.actor) engine.old sessions.old (B.outside bench.old) → IsAtRead number line.now counted r l more
        → AtEveryMoment (IsInRun (journals_of engine.old.owners) lists r before) (B.outside bench.old) (B.outside bench.new) }
    ensures full { (full : Full) → result ≡ Err (StepFault.Full full) → (first : ℕ) (lists : Lists) (before : Optional (Bytes ℕ)) (r : Run) (l : Read) (more : Bytes Read) → Stands first lists before (met r l.actor) engine.old sessions.old (B.outside bench.old) → IsAtRead number line.now counted r l more
        → IsFullIn (journals_of engine.old.owners) lists r before full (B.outside bench.new) }
    ensures device { result ≡ Err StepFault.Device → FaultCounted (B.outside bench.old) (B.outside bench.new) }
    ensures clean { OnOk result ((B.outside bench.new).faults ≡ (B.outside bench.old).faults) }
{
    if !counted {
        return refuse(
            alloc,
            sessions,
            bench,
            number,
            line,
            Refusal::Limit(Limit::Actors),
        );
    }
    if !is_built(line) {
        return refuse(alloc, sessions, bench, number, line, Refusal::NotBuilt);
    }
    take_turns(alloc, engine, sessions, bench, number, line)
}

// Takes turns until the line is told. A line takes at most five steps, or one for each link whose copy is pending and one more; these links
// are looked for once, and each step leaves those behind it.
fn take_turns<B: Bench>(
    alloc: Global,
    engine: &mut Engine,
    sessions: &mut Sessions,
    bench: &mut B,
    number: u64,
    line: &Line,
) -> Result<(), StepFault>
    requires read { IsRead line.now }
    requires stands { (first : ℕ) × (lists : Lists) × (before : Optional (Bytes ℕ)) × (r : Run) × (l : Read) × (more : Bytes Read) × Stands first lists before r engine.old sessions.old (B.outside bench.old) × IsInLine number line.now [] r l more }
    ensures done { OnOk result ((first : ℕ) (lists : Lists) (before : Optional (Bytes ℕ)) (r : Run) (l : Read) (more : Bytes Read) → Stands first lists before r engine.old sessions.old (B.outside bench.old) → IsInLine number line.now [] r l more
        → (count : ℕ) × IsPastLine (suc count) number r more × StandsAfter (suc count) first lists before r engine.new sessions.new (B.outside bench.new) × HasGrown (suc count) r (journals_of engine.old.owners) engine.new) }
    ensures history { (first : ℕ) (lists : Lists) (before : Optional (Bytes ℕ)) (r : Run) (l : Read) (more : Bytes Read) → Stands first lists before r engine.old sessions.old (B.outside bench.old) → IsInLine number line.now [] r l more
        → AtEveryMoment (IsInRun (journals_of engine.old.owners) lists r before) (B.outside bench.old) (B.outside bench.new) }
    ensures full { (full : Full) → result ≡ Err (StepFault.Full full) → (first : ℕ) (lists : Lists) (before : Optional (Bytes ℕ)) (r : Run) (l : Read) (more : Bytes Read) → Stands first lists before r engine.old sessions.old (B.outside bench.old) → IsInLine number line.now [] r l more
        → IsFullIn (journals_of engine.old.owners) lists r before full (B.outside bench.new) }
    ensures device { result ≡ Err StepFault.Device → FaultCounted (B.outside bench.old) (B.outside bench.new) }
    ensures clean { OnOk result ((B.outside bench.new).faults ≡ (B.outside bench.old).faults) }
{
    lines_take_few_steps();
    an_archive_leaves_the_others_pending();
    turns_follow_one_another();
    records_in_parts();
    let pending = waiting_for(alloc, engine, line)?;
    let waiting = pending.as_slice();
    let mut answers = List::empty(alloc);
    loop {
        match take_turn(
            alloc,
            engine,
            sessions,
            bench,
            number,
            line,
            behind(waiting, answers.len()),
            &mut answers,
        ) {
            Ok(true) => return Ok(()),
            Ok(false) => {}
            Err(fault) => return Err(fault),
        }
    }
}

// The links whose copies are pending, where the line stores them; else none.
fn waiting_for(alloc: Global, engine: &Engine, line: &Line) -> Result<List<LinkNo>, Memory>
    ensures { IfOk result (λ waiting. (first : ℕ) (s : State) → IsOf first engine.now s → stores_copies line.now ≡ true → waiting ≡ pending_links s) }
{
    if stores_copies(line) {
        return engine.pending();
    }
    Ok(List::empty(alloc))
}

// Whether the line is `! archive` or `! backup`.
fn stores_copies(line: &Line) -> bool
    ensures { result ≡ stores_copies line.now }
{
    matches!(line, Line::System(Order::Archive | Order::Backup))
}

// Those behind the first so many.
fn behind(waiting: &[LinkNo], count: usize) -> &[LinkNo]
    ensures { result.now ≡ drop count waiting.now }
{
    &waiting[count.min(waiting.len())..]
}
