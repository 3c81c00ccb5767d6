// A command on one thread.
ghost use Rattle.std.specs.Prelude.{◌≡◌, ◌≤◌, ◌^◌, ℕ, List, [], Some, None, length, false};
ghost use Rattle.std.specs.List.{list_all};
ghost use Rattle.std.specs.Str.{is_utf8};
ghost use Rattle.dl_areas.specs.Opening.{IsInOpening};
ghost use Rattle.dl_base.specs.Limits.{most_script_bytes};
ghost use Rattle.dl_base.specs.Outside.{AtEveryMoment, CrashState, FaultCounted};
ghost use Rattle.dl_base.specs.Sources.{RoseFrom};
ghost use Rattle.dl_base.specs.declared.area.Area.{Area};
ghost use Rattle.dl_base.specs.declared.fault.Full.{Full};
ghost use Rattle.dl_base.specs.declared.step.Settings as told;
ghost use Rattle.meaning_areas.specs.Areas.{Areas, AreasStand};
ghost use Rattle.meaning_areas.specs.Stands.{Stored};
ghost use Rattle.datalinks.specs.Codes.{IsRunEnd, IsUsage, opening_end, step_end, script_end};
ghost use Rattle.datalinks.specs.Complete.{IsDone, WasRead, WasOpened, StandsNow};
ghost use Rattle.datalinks.specs.Run.{Begun, Begins, BeginsWith, HasRoom, IsFullAt, IsInside, IsNoStore, IsWholeRun};
ghost use Rattle.datalinks.specs.Script.{IsTooLong};
ghost use Rattle.run_args.specs.Words.{names_run, settings};
ghost use Rattle.sys_owners.specs.Owned.{AreTold};
ghost use Rattle.sys_recovery.specs.Left.{areas_of};
ghost use Rattle.sys_reopening.specs.Again.{EveryImageStands};

use crate::run::run_lines;
use crate::script::{ScriptFault, read_script};
use crate::status::Status;
use dl_areas::records_in_parts;
use dl_base::{Bench, Settings, Source, StepFault, Text};
use meaning_run::scripts_have_one_run;
use run_args::{WordsFault, read_words};
use std::alloc::Global;
use sys_core::steps_leave_other_sessions;
use sys_opening::OpenFault;
use sys_recovery::{stopped_steps_stand, what_is_written_is_read};
use sys_reopening::a_stopped_opening_stands;
use sys_run::Sessions;

/// Does the command that the words name, on one thread: `run` reads a script from the source, opens the five areas of the bench, does the
/// lines of the script in order, and tells their answers.
pub fn single<S: Source, B: Bench>(
    alloc: Global,
    words: &[Text],
    source: &mut S,
    bench: B,
) -> (Status, B)
    // Words that name no command lead to this end alone, or there is no memory; and nothing is touched. Words without `run`, and words that
    // are no UTF-8, lead to it whatever memory there is.
    ensures usage { result.0 ≡ Status.Usage → settings words.now ≡ None }
    ensures untouched { settings words.now ≡ None → IsUsage result.0 × (result.1 ≡ bench) × (source.new ≡ source.old) }
    ensures named { names_run words.now ≡ false → result.0 ≡ Status.Usage }
    ensures texts { list_all is_utf8 words.now ≡ false → result.0 ≡ Status.Usage }

    // At the end the script was read whole, each line was told, and the areas have what the opening and all steps wrote, which fits.
    ensures whole { result.0 ≡ Status.Done → (run : Begun) → Begins words.now (S.rest source.old) (B.outside bench) run
        → IsWholeRun run (B.outside bench) (B.outside result.1) × (S.rest source.new ≡ Some []) × (length run.script ≤ most_script_bytes) }

    // And no fault was counted on the way, by the bench or by the source: so no call that failed was made again and passed over.
    ensures clean { result.0 ≡ Status.Done → ((B.outside result.1).faults ≡ (B.outside bench).faults) × (S.faults source.new ≡ S.faults source.old) }

    // THE HEADLINE. However it ends, a crash at any moment, and after it, leaves in the areas what they had, the records of the opening and of
    // some of the turns, in their order, and the first of those of the next, all of which fit, and nothing else; the areas recover to the state
    // behind those turns, or, once the commit of a restore is among those first ones, to the state behind that turn; and what was told is not
    // behind those turns nor ahead of the next. Or it is a moment of the opening, and nothing is told.
    ensures history { (run : Begun) → Begins words.now (S.rest source.old) (B.outside bench) run
        → AtEveryMoment (IsInside run (B.outside bench)) (B.outside bench) (B.outside result.1) }

    // Where all that a crash might have left before stands for something, so does all that one leaves: the next run opens it.
    ensures recovers { (run : Begun) → Begins words.now (S.rest source.old) (B.outside bench) run
        → EveryImageStands (B.outside bench) → (p : CrashState) → (B.outside result.1).since (B.outside bench).moment p → (x : Stored) × AreasStand (areas_of p) x }

    // Every other end has its cause. Of an opening and of a step the first record that has no room is what is full, and those before it are there.
    ensures device { result.0 ≡ Status.Device → FaultCounted (B.outside bench) (B.outside result.1) }
    ensures source { result.0 ≡ Status.Source → RoseFrom (S.faults source.old) (S.faults source.new) × (result.1 ≡ bench) }
    ensures too_long { (n : ℕ) → result.0 ≡ Status.TooLong n → IsTooLong n (S.rest source.old) (S.rest source.new) × (result.1 ≡ bench) }
    ensures not_a_store { (area : Area) (place : ℕ) → result.0 ≡ Status.NotAStore area place → IsNoStore area place (B.outside bench) (B.outside result.1) }
    ensures full { (full : Full) → result.0 ≡ Status.Full full → (run : Begun) → Begins words.now (S.rest source.old) (B.outside bench) run → IsFullAt run full (B.outside bench) (B.outside result.1) }

    // Where the areas stand for nothing, no record is written and nothing told, however it ends: also at a fault or for want of memory.
    ensures unopened { (x : Areas) → AreTold x (B.outside bench) → ((s : Stored) → AreasStand x s → ⊥) → AtEveryMoment (IsInOpening (B.outside bench)) (B.outside bench) (B.outside result.1) × ((B.outside result.1).told ≡ (B.outside bench).told) }

    // A script that is too long, and areas that stand for nothing, lead to no end but their own, a fault or want of memory.
    ensures within { WasRead result.0 → (script : List ℕ) → S.rest source.old ≡ Some script → length script ≤ most_script_bytes }
    ensures stood { WasOpened result.0 → StandsNow (B.outside bench) }

    // With no cause of another end, the whole script was done, or memory was wanting.
    ensures complete { (run : Begun) → Begins words.now (S.rest source.old) (B.outside bench) run → length run.script ≤ most_script_bytes
        → HasRoom run (B.outside bench) (B.outside result.1) → (RoseFrom (S.faults source.old) (S.faults source.new) → ⊥) → IsDone result.0 }
{
    a_stopped_opening_stands::<B>();
    match read_words(alloc, words) {
        Ok(given) => command(alloc, given, source, bench),
        Err(WordsFault::Usage) => (Status::Usage, bench),
        Err(WordsFault::Memory) => (Status::Memory, bench),
    }
}

// Does a run of these settings.
fn command<S: Source, B: Bench>(
    alloc: Global,
    given: Settings,
    source: &mut S,
    bench: B,
) -> (Status, B)
    requires low { 1 ≤ given.limit }
    requires high { given.limit ≤ 2 ^ 63 }
    ensures no_usage { result.0 ≡ Status.Usage → ⊥ }
    ensures whole { result.0 ≡ Status.Done → (run : Begun) → BeginsWith given (S.rest source.old) (B.outside bench) run
        → IsWholeRun run (B.outside bench) (B.outside result.1) × (S.rest source.new ≡ Some []) × (length run.script ≤ most_script_bytes) }
    ensures clean { result.0 ≡ Status.Done → ((B.outside result.1).faults ≡ (B.outside bench).faults) × (S.faults source.new ≡ S.faults source.old) }
    ensures history { (run : Begun) → BeginsWith given (S.rest source.old) (B.outside bench) run → AtEveryMoment (IsInside run (B.outside bench)) (B.outside bench) (B.outside result.1) }
    ensures device { result.0 ≡ Status.Device → FaultCounted (B.outside bench) (B.outside result.1) }
    ensures source { result.0 ≡ Status.Source → RoseFrom (S.faults source.old) (S.faults source.new) × (result.1 ≡ bench) }
    ensures too_long { (n : ℕ) → result.0 ≡ Status.TooLong n → IsTooLong n (S.rest source.old) (S.rest source.new) × (result.1 ≡ bench) }
    ensures not_a_store { (area : Area) (place : ℕ) → result.0 ≡ Status.NotAStore area place → IsNoStore area place (B.outside bench) (B.outside result.1) }
    ensures unopened { (x : Areas) → AreTold x (B.outside bench) → ((s : Stored) → AreasStand x s → ⊥) → AtEveryMoment (IsInOpening (B.outside bench)) (B.outside bench) (B.outside result.1) × ((B.outside result.1).told ≡ (B.outside bench).told) }
    ensures full { (full : Full) → result.0 ≡ Status.Full full → (run : Begun) → BeginsWith given (S.rest source.old) (B.outside bench) run → IsFullAt run full (B.outside bench) (B.outside result.1) }
    ensures within { WasRead result.0 → (script : List ℕ) → S.rest source.old ≡ Some script → length script ≤ most_script_bytes }
    ensures stood { WasOpened result.0 → StandsNow (B.outside bench) }
    ensures complete { (run : Begun) → BeginsWith given (S.rest source.old) (B.outside bench) run → length run.script ≤ most_script_bytes
        → HasRoom run (B.outside bench) (B.outside result.1) → (RoseFrom (S.faults source.old) (S.faults source.new) → ⊥) → IsDone result.0 }
{
    match read_script(alloc, source) {
        Ok(script) => run(alloc, bench, given, &script),
        Err(fault) => {
            drop(given);
            (script_end(fault), bench)
        }
    }
}

// How a run ends whose script was not read.
fn script_end(fault: ScriptFault) -> Status
    ensures { result ≡ script_end fault }
{
    match fault {
        ScriptFault::Source => Status::Source,
        ScriptFault::TooLong(count) => Status::TooLong(count),
        ScriptFault::Memory => Status::Memory,
    }
}

// Does a script.
fn run<B: Bench>(alloc: Global, mut bench: B, given: Settings, script: &[u8]) -> (Status, B)
    requires low { 1 ≤ given.limit }
    requires high { given.limit ≤ 2 ^ 63 }
    ensures end { IsRunEnd result.0 }
    ensures whole { result.0 ≡ Status.Done → (run : Begun) → BeginsWith given (Some script.now) (B.outside bench) run → IsWholeRun run (B.outside bench) (B.outside result.1) }
    ensures clean { result.0 ≡ Status.Done → (B.outside result.1).faults ≡ (B.outside bench).faults }
    ensures history { (run : Begun) → BeginsWith given (Some script.now) (B.outside bench) run → AtEveryMoment (IsInside run (B.outside bench)) (B.outside bench) (B.outside result.1) }
    ensures device { result.0 ≡ Status.Device → FaultCounted (B.outside bench) (B.outside result.1) }
    ensures not_a_store { (area : Area) (place : ℕ) → result.0 ≡ Status.NotAStore area place → IsNoStore area place (B.outside bench) (B.outside result.1) }
    ensures unopened { (x : Areas) → AreTold x (B.outside bench) → ((s : Stored) → AreasStand x s → ⊥) → AtEveryMoment (IsInOpening (B.outside bench)) (B.outside bench) (B.outside result.1) × ((B.outside result.1).told ≡ (B.outside bench).told) }
    ensures full { (full : Full) → result.0 ≡ Status.Full full → (run : Begun) → BeginsWith given (Some script.now) (B.outside bench) run → IsFullAt run full (B.outside bench) (B.outside result.1) }
    ensures stood { WasOpened result.0 → StandsNow (B.outside bench) }
{
    records_in_parts();
    scripts_have_one_run();
    steps_leave_other_sessions();
    stopped_steps_stand();
    what_is_written_is_read();
    match sys_start::open(alloc, &mut bench, given) {
        Ok(mut engine) => {
            let mut sessions = Sessions::new(alloc);
            match run_lines(alloc, &mut engine, &mut sessions, &mut bench, script) {
                Ok(()) => {
                    drop(sessions);
                    drop(engine);
                    (Status::Done, bench)
                }
                Err(fault) => {
                    drop(sessions);
                    drop(engine);
                    (step_end(fault), bench)
                }
            }
        }
        Err(fault) => (opening_end(fault), bench),
    }
}

// How a run ends whose areas could not be opened.
fn opening_end(fault: OpenFault) -> Status
    ensures { result ≡ opening_end fault }
{
    match fault {
        OpenFault::Device => Status::Device,
        OpenFault::NotAStore(area, place) => Status::NotAStore(area, place),
        OpenFault::Full(full) => Status::Full(full),
        OpenFault::Memory => Status::Memory,
    }
}

// How a run ends whose step failed.
fn step_end(fault: StepFault) -> Status
    ensures { result ≡ step_end fault }
{
    match fault {
        StepFault::Device => Status::Device,
        StepFault::Full(full) => Status::Full(full),
        StepFault::Memory => Status::Memory,
    }
}
