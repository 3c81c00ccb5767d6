// One turn: a step of the machine for a line, or its telling.
ghost use Rattle.std.specs.Prelude.{◌≡◌, ◌≢◌, ◌∷◌, ◌++◌, [], ℕ, List as Items, Err, Some, Option as Optional, IfOk, OnOk};
ghost use Rattle.dl_areas.specs.Lists.{Lists};
ghost use Rattle.dl_base.specs.Outside.{AtEveryMoment, FaultCounted};
ghost use Rattle.dl_base.specs.declared.answer.Answer.TheVariants as answers;
ghost use Rattle.dl_base.specs.declared.fault.Full.{Full};
ghost use Rattle.meaning_run.specs.Running as running;
ghost use Rattle.meaning_run.specs.Running.{Read, Run, phase_in, told_by};
ghost use Rattle.meaning_script.specs.Expansion.{IsRead, expansion, meant};
ghost use Rattle.meaning_system.specs.State.{State, txn_of};
ghost use Rattle.sys_core.specs.Seated.{HasTxn};
ghost use Rattle.sys_core.specs.Standing.{IsOf};
ghost use Rattle.sys_core.specs.declared.engine.Engine as working;
ghost use Rattle.sys_owners.specs.Owned.{journals_of};
ghost use Rattle.sys_run.specs.Running.{AreOf, HasGrown, IsFullIn, IsInRun, Stands, StandsAfter};
ghost use Rattle.sys_run.specs.Sessions.{AreShown};
ghost use Rattle.sys_run.specs.Turning.{Goes, IsBetween, IsInLine, Sees};

use crate::sessions::Sessions;
use crate::step::{do_statement, do_step};
use db_txn::Txn;
use dl_areas::telling_leaves_the_areas;
use dl_base::{Answer, Bench, LinkNo, List, Memory, Phase, Refusal, StepFault};
use fs_command::FileLine;
use meaning_history::each_step_leads_on;
use meaning_restore::restores_go_on_with_the_history;
use run_expansion::{ActorState, Line, Next, expand};
use run_print::text;
use std::alloc::Global;
use sys_core::Engine;
use sys_recovery::{stopped_steps_stand, what_is_written_is_read};

// Takes the line's next step, whose answer it puts behind those before it, or tells the line. Whether it is told. The line sees the links
// that are given for those whose copies are pending.
pub(crate) fn take_turn<B: Bench>(
    alloc: Global,
    engine: &mut Engine,
    sessions: &mut Sessions,
    bench: &mut B,
    number: u64,
    line: &Line,
    waiting: &[LinkNo],
    answers: &mut List<Answer>,
) -> Result<bool, StepFault>
    requires read { IsRead line.now }
    requires stands { (first : ℕ) × (lists : Lists) × (before : Optional (Items ℕ)) × (r : Run) × (l : Read) × (more : Items Read) × Stands first lists before r engine.old sessions.old (B.outside bench.old) × IsInLine number line.now answers.old r l more × Sees r line.now answers.old waiting.now }
    ensures turned { IfOk result (λ told. (first : ℕ) (lists : Lists) (before : Optional (Items ℕ)) (r : Run) (l : Read) (more : Items Read) → Stands first lists before r engine.old sessions.old (B.outside bench.old) → IsInLine number line.now answers.old r l more → Sees r line.now answers.old waiting.now
        → StandsAfter 1 first lists before r engine.new sessions.new (B.outside bench.new) × HasGrown 1 r (journals_of engine.old.owners) engine.new × Goes told number line.now answers.new r l more) }
    ensures history { (first : ℕ) (lists : Lists) (before : Optional (Items ℕ)) (r : Run) (l : Read) (more : Items Read) → Stands first lists before r engine.old sessions.old (B.outside bench.old) → IsInLine number line.now answers.old r l more → Sees r line.now answers.old waiting.now
        → AtEveryMoment (IsInRun (journals_of engine.old.owners) lists r before) (B.outside bench.old) (B.outside bench.new) }
    ensures full { (full : Full) → result ≡ Err (StepFault.Full full) → (first : ℕ) (lists : Lists) (before : Optional (Items ℕ)) (r : Run) (l : Read) (more : Items Read) → Stands first lists before r engine.old sessions.old (B.outside bench.old) → IsInLine number line.now answers.old r l more → Sees r line.now answers.old waiting.now
        → IsFullIn (journals_of engine.old.owners) lists r before full (B.outside bench.new) }
    ensures device { result ≡ Err StepFault.Device → FaultCounted (B.outside bench.old) (B.outside bench.new) }
    ensures clean { OnOk result ((B.outside bench.new).faults ≡ (B.outside bench.old).faults) }
{
    what_is_written_is_read();
    stopped_steps_stand();
    each_step_leads_on();
    restores_go_on_with_the_history();
    match next_of(alloc, engine, sessions, line, waiting, answers)? {
        Next::Do(step) => {
            let answer = do_step(engine, &mut sessions.txns, bench, step)?;
            put(answers, answer)?;
            Ok(false)
        }
        Next::Statement(session, stmt) => {
            let answer = do_statement(engine, &mut sessions.txns, bench, session, stmt)?;
            put(answers, answer)?;
            Ok(false)
        }
        Next::Given(at) => {
            if let Some(answer) = answers.at(at) {
                tell(alloc, sessions, bench, number, line, answer)?;
            }
            Ok(true)
        }
        Next::Answered(answer) => {
            tell_owned(alloc, sessions, bench, number, line, answer)?;
            Ok(true)
        }
        Next::Nothing => Ok(true),
    }
}

fn put(answers: &mut List<Answer>, answer: Answer) -> Result<(), Memory>
    ensures { OnOk result (answers.new ≡ answers.old ++ answer ∷ []) }
{
    answers.push(answer)?;
    Ok(())
}

// What a line comes to behind these answers, where these links wait for copies.
fn next_of<'a>(
    alloc: Global,
    engine: &Engine,
    sessions: &Sessions,
    line: &'a Line,
    waiting: &[LinkNo],
    answers: &List<Answer>,
) -> Result<Next<'a>, Memory>
    requires read { IsRead line.now }
    ensures { IfOk result (λ next. (first : ℕ) (r : Run) → IsOf first engine.now r.state → AreOf r sessions.now → meant next ≡ expansion line.entry.now (running.actor_state r line.now) answers.now waiting.now) }
{
    let actor = actor_state(engine, sessions, line)?;
    expand(alloc, line, &actor, answers, waiting)
}

// How the actor of a line is.
fn actor_state(engine: &Engine, sessions: &Sessions, line: &Line) -> Result<ActorState, Memory>
    ensures { IfOk result (λ actor. (first : ℕ) (r : Run) → IsOf first engine.now r.state → AreOf r sessions.now → actor ≡ running.actor_state r line.now) }
{
    match line {
        Line::Session(name, _) => {
            let session = sessions.number_of(name);
            Ok(ActorState {
                session,
                phase: phase_of(engine, &sessions.txns, session),
                last: None,
            })
        }
        Line::File(FileLine::ReadOf(_, name)) => Ok(ActorState {
            session: 0,
            phase: None,
            last: sessions.last_of(name)?,
        }),
        _ => Ok(ActorState {
            session: 0,
            phase: None,
            last: None,
        }),
    }
}

// How far the transaction of a session is, if it has one.
fn phase_of(engine: &Engine, txns: &List<Txn>, session: u32) -> Option<Phase>
    ensures { (first : ℕ) (s : State) → IsOf first engine.now s → AreShown s txns.now → result ≡ phase_in (txn_of s session) }
{
    if session == 0 {
        return None;
    }
    match txns.at((session - 1) as usize) {
        Some(txn) => phase_in(engine, txn),
        None => None,
    }
}

fn phase_in(engine: &Engine, txn: &Txn) -> Option<Phase>
    ensures { (first : ℕ) (s : State) → IsOf first engine.now s → HasTxn s txn.now → result ≡ phase_in (txn_of s txn.now.session) }
{
    let tx = txn.tx()?;
    match engine.seats.get(tx) {
        Some(seat) => Some(seat.phase()),
        None => None,
    }
}

// Tells that a line is refused.
pub(crate) fn refuse<B: Bench>(
    alloc: Global,
    sessions: &mut Sessions,
    bench: &mut B,
    number: u64,
    line: &Line,
    why: Refusal,
) -> Result<(), StepFault>
    ensures told { OnOk result ((first : ℕ) (lists : Lists) (before : Optional (Items ℕ)) (r : Run) (w : working.Engine) (l : Read) (more : Items Read) → Stands first lists before r w sessions.old (B.outside bench.old) → l.line ≡ line.now → r.number ≡ number
        → Stands first lists before (told_by r l more (Some (answers.Refused why))) w sessions.new (B.outside bench.new)) }
    ensures history { (first : ℕ) (lists : Lists) (before : Optional (Items ℕ)) (r : Run) (w : working.Engine) (l : Read) (more : Items Read) → Stands first lists before r w sessions.old (B.outside bench.old) → l.line ≡ line.now → r.number ≡ number
        → AtEveryMoment (IsBetween lists r (told_by r l more (Some (answers.Refused why))) before) (B.outside bench.old) (B.outside bench.new) }
    ensures not_full { (full : Full) → result ≢ Err (StepFault.Full full) }
    ensures device { result ≡ Err StepFault.Device → FaultCounted (B.outside bench.old) (B.outside bench.new) }
    ensures clean { OnOk result ((B.outside bench.new).faults ≡ (B.outside bench.old).faults) }
{
    tell_owned(alloc, sessions, bench, number, line, Answer::Refused(why))
}

// Tells an answer that nobody needs behind its line.
fn tell_owned<B: Bench>(
    alloc: Global,
    sessions: &mut Sessions,
    bench: &mut B,
    number: u64,
    line: &Line,
    answer: Answer,
) -> Result<(), StepFault>
    ensures told { OnOk result ((first : ℕ) (lists : Lists) (before : Optional (Items ℕ)) (r : Run) (w : working.Engine) (l : Read) (more : Items Read) → Stands first lists before r w sessions.old (B.outside bench.old) → l.line ≡ line.now → r.number ≡ number
        → Stands first lists before (told_by r l more (Some answer)) w sessions.new (B.outside bench.new)) }
    ensures history { (first : ℕ) (lists : Lists) (before : Optional (Items ℕ)) (r : Run) (w : working.Engine) (l : Read) (more : Items Read) → Stands first lists before r w sessions.old (B.outside bench.old) → l.line ≡ line.now → r.number ≡ number
        → AtEveryMoment (IsBetween lists r (told_by r l more (Some answer)) before) (B.outside bench.old) (B.outside bench.new) }
    ensures not_full { (full : Full) → result ≢ Err (StepFault.Full full) }
    ensures device { result ≡ Err StepFault.Device → FaultCounted (B.outside bench.old) (B.outside bench.new) }
    ensures clean { OnOk result ((B.outside bench.new).faults ≡ (B.outside bench.old).faults) }
{
    let told = tell(alloc, sessions, bench, number, line, &answer);
    drop(answer);
    told
}

// Tells the answer of a line, and keeps what its session's name stands for then.
pub(crate) fn tell<B: Bench>(
    alloc: Global,
    sessions: &mut Sessions,
    bench: &mut B,
    number: u64,
    line: &Line,
    answer: &Answer,
) -> Result<(), StepFault>
    ensures told { OnOk result ((first : ℕ) (lists : Lists) (before : Optional (Items ℕ)) (r : Run) (w : working.Engine) (l : Read) (more : Items Read) → Stands first lists before r w sessions.old (B.outside bench.old) → l.line ≡ line.now → r.number ≡ number
        → Stands first lists before (told_by r l more (Some answer.now)) w sessions.new (B.outside bench.new)) }
    ensures history { (first : ℕ) (lists : Lists) (before : Optional (Items ℕ)) (r : Run) (w : working.Engine) (l : Read) (more : Items Read) → Stands first lists before r w sessions.old (B.outside bench.old) → l.line ≡ line.now → r.number ≡ number
        → AtEveryMoment (IsBetween lists r (told_by r l more (Some answer.now)) before) (B.outside bench.old) (B.outside bench.new) }
    ensures not_full { (full : Full) → result ≢ Err (StepFault.Full full) }
    ensures device { result ≡ Err StepFault.Device → FaultCounted (B.outside bench.old) (B.outside bench.new) }
    ensures clean { OnOk result ((B.outside bench.new).faults ≡ (B.outside bench.old).faults) }
{
    telling_leaves_the_areas::<B>();
    what_is_written_is_read();
    stopped_steps_stand();
    let text = text(alloc, number, answer, &sessions.names)?;
    sessions.keep_grid(line, answer)?;
    bench.say(text.bytes())?;
    Ok(())
}
