// The lines of a script, one after another.
ghost use Rattle.std.specs.Prelude.{◌≡◌, ℕ, List as Bytes, Err, OnOk, Option as Optional};
ghost use Rattle.dl_areas.specs.Lists.{Lists};
ghost use Rattle.dl_base.specs.Outside.{AtEveryMoment, FaultCounted};
ghost use Rattle.dl_base.specs.declared.fault.Full.{Full};
ghost use Rattle.datalinks.specs.Lines.{IsAtScript, IsPastScript};
ghost use Rattle.meaning_run.specs.Running.{Run};
ghost use Rattle.sys_owners.specs.Owned.{journals_of};
ghost use Rattle.sys_run.specs.Running.{HasGrown, IsFullIn, IsInRun, Stands, StandsAfter};

use dl_areas::records_in_parts;
use dl_base::{Bench, StepFault};
use meaning_run::turns_follow_one_another;
use run_script::first_line;
use std::alloc::Global;
use sys_core::Engine;
use sys_run::{Sessions, do_line};

/// Does the lines of a script in order, and tells each answer.
pub(crate) fn run_lines<B: Bench>(
    alloc: Global,
    engine: &mut Engine,
    sessions: &mut Sessions,
    bench: &mut B,
    script: &[u8],
) -> Result<(), StepFault>
    requires stands { (first : ℕ) × (lists : Lists) × (before : Optional (Bytes ℕ)) × (r : Run) × Stands first lists before r engine.old sessions.old (B.outside bench.old) × IsAtScript script.now r }
    ensures done { OnOk result ((first : ℕ) (lists : Lists) (before : Optional (Bytes ℕ)) (r : Run) → Stands first lists before r engine.old sessions.old (B.outside bench.old) → IsAtScript script.now r
        → (count : ℕ) × IsPastScript count r × StandsAfter count first lists before r engine.new sessions.new (B.outside bench.new) × HasGrown count r (journals_of engine.old.owners) engine.new) }
    ensures history { (first : ℕ) (lists : Lists) (before : Optional (Bytes ℕ)) (r : Run) → Stands first lists before r engine.old sessions.old (B.outside bench.old) → IsAtScript script.now r
        → AtEveryMoment (IsInRun (journals_of engine.old.owners) lists r before) (B.outside bench.old) (B.outside bench.new) }
    ensures full { (full : Full) → result ≡ Err (StepFault.Full full) → (first : ℕ) (lists : Lists) (before : Optional (Bytes ℕ)) (r : Run) → Stands first lists before r engine.old sessions.old (B.outside bench.old) → IsAtScript script.now r
        → IsFullIn (journals_of engine.old.owners) lists r before full (B.outside bench.new) }
    ensures device { result ≡ Err StepFault.Device → FaultCounted (B.outside bench.old) (B.outside bench.new) }
    ensures clean { OnOk result ((B.outside bench.new).faults ≡ (B.outside bench.old).faults) }
{
    records_in_parts();
    turns_follow_one_another();
    let mut rest = script;
    let mut number: u64 = 1;
    while !rest.is_empty() {
        let (line, behind) = first_line(rest);
        match do_line(alloc, engine, sessions, bench, number, line) {
            Ok(()) => {}
            Err(fault) => return Err(fault),
        }
        rest = behind;
        number += 1;
    }
    Ok(())
}
