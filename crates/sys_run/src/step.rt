// One step of the machine, for a line.
ghost use Rattle.std.specs.Prelude.{◌≡◌, ◌≢◌, ℕ, [], true, length, position, Err, OnOk};
ghost use Rattle.db_txn.specs.Transaction.{is_evaluated};
ghost use Rattle.dl_areas.specs.Lists.{AreReady};
ghost use Rattle.dl_base.specs.declared.step.Step.TheVariants as steps;
ghost use Rattle.fm_manager.specs.Managed.{AreSpelled};
ghost use Rattle.meaning_system.specs.Machine as machine;
ghost use Rattle.meaning_system.specs.State.{State};
ghost use Rattle.meaning_system.specs.Writes.{writes};
ghost use Rattle.sys_core.specs.Standing.{IsOf};
ghost use Rattle.sys_core.specs.Steps.{Steps, StepsInMemory, as_step, draws};
ghost use Rattle.sys_owners.specs.Owned.{journals_of};
ghost use Rattle.sys_run.specs.Sessions.{AreShown, IsSession, IsStepOf, has_txn};

use db_txn::Txn;
use dl_base::{Answer, AppendFault, Bench, List, Step, StepFault, Stmt, Target};
use sys_core::{Engine, steps_leave_other_sessions};

/// Takes a step of the machine that some line asks for.
pub(crate) fn do_step<B: Bench>(
    engine: &mut Engine,
    txns: &mut List<Txn>,
    bench: &mut B,
    step: Step,
) -> Result<Answer, StepFault>
    requires ready { AreReady (journals_of engine.old.owners) (B.outside bench.old) }
    requires of { IsStepOf (length txns.old) step }
    requires stands { (first : ℕ) × (s : State) × IsOf first engine.old s × AreShown s txns.old }
    ensures steps { (first : ℕ) (s : State) → IsOf first engine.old s → AreShown s txns.old → Steps first step s engine.old engine.new result (B.outside bench.old) (B.outside bench.new) }
    ensures shown { (first : ℕ) (s : State) → IsOf first engine.old s → AreShown s txns.old → OnOk result (AreShown (machine.step s step).1 txns.new) }

    // Where a number is exhausted nothing is written.
    ensures spelled { result ≢ Err StepFault.Memory → (first : ℕ) (s : State) → IsOf first engine.old s → AreShown s txns.old → draws s step ≡ [] → AreSpelled (writes s step) }

    ensures count { length txns.new ≡ length txns.old }
{
    steps_leave_other_sessions();
    match step {
        Step::Begin(session) => begin(engine, txns, session),
        Step::Statement(session, stmt) => {
            let answered = do_statement(engine, txns, bench, session, &stmt);
            drop(stmt);
            answered
        }
        Step::Prepare(session) => prepare(engine, txns, bench, session),
        Step::Decide(session) => decide(engine, txns, bench, session),
        Step::Finish(session) => finish(engine, txns, bench, session),
        Step::Rollback(session) => roll_back(engine, txns, bench, session),
        Step::File(cmd) => engine.command(bench, cmd),
        Step::Archive(link) => engine.archive(bench, link),
        Step::Backup => engine.backup(bench),
        Step::Restore(target) => restore(engine, txns, bench, target),
        Step::Tick(seconds) => Ok(engine.tick(seconds)),
        Step::CrashManager | Step::CrashDatabase | Step::Resolve => unreachable!(),
    }
}

/// The same of a statement, which is the line's own.
pub(crate) fn do_statement<B: Bench>(
    engine: &mut Engine,
    txns: &mut List<Txn>,
    bench: &mut B,
    session: u32,
    stmt: &Stmt,
) -> Result<Answer, StepFault>
    requires ready { AreReady (journals_of engine.old.owners) (B.outside bench.old) }
    requires of { IsStepOf (length txns.old) (steps.Statement session stmt.now) }
    requires stands { (first : ℕ) × (s : State) × IsOf first engine.old s × AreShown s txns.old }
    ensures steps { (first : ℕ) (s : State) → IsOf first engine.old s → AreShown s txns.old → Steps first (steps.Statement session stmt.now) s engine.old engine.new result (B.outside bench.old) (B.outside bench.new) }
    ensures shown { (first : ℕ) (s : State) → IsOf first engine.old s → AreShown s txns.old → OnOk result (AreShown (machine.step s (steps.Statement session stmt.now)).1 txns.new) }
    ensures spelled { (first : ℕ) (s : State) → IsOf first engine.old s → AreShown s txns.old → AreSpelled (writes s (steps.Statement session stmt.now)) }
    ensures count { length txns.new ≡ length txns.old }
{
    state(engine, txns, session, stmt)
}

fn state(
    engine: &mut Engine,
    txns: &mut List<Txn>,
    session: u32,
    stmt: &Stmt,
) -> Result<Answer, StepFault>
    requires of { IsSession (length txns.old) session }
    requires plain { is_evaluated stmt.now ≡ true }
    requires stands { (first : ℕ) × (s : State) × IsOf first engine.old s × AreShown s txns.old }
    ensures steps { (first : ℕ) (s : State) → IsOf first engine.old s → AreShown s txns.old → StepsInMemory first (steps.Statement session stmt.now) s engine.old engine.new result }
    ensures shown { (first : ℕ) (s : State) → IsOf first engine.old s → AreShown s txns.old → OnOk result (AreShown (machine.step s (steps.Statement session stmt.now)).1 txns.new) }
    ensures count { length txns.new ≡ length txns.old }
{
    steps_leave_other_sessions();
    match txns.at_mut((session - 1) as usize) {
        Some(txn) => engine.statement(txn, stmt),
        None => unreachable!(),
    }
}

fn begin(engine: &mut Engine, txns: &mut List<Txn>, session: u32) -> Result<Answer, StepFault>
    requires of { IsSession (length txns.old) session }
    requires stands { (first : ℕ) × (s : State) × IsOf first engine.old s × AreShown s txns.old }
    ensures steps { (first : ℕ) (s : State) → IsOf first engine.old s → AreShown s txns.old → StepsInMemory first (steps.Begin session) s engine.old engine.new result }
    ensures shown { (first : ℕ) (s : State) → IsOf first engine.old s → AreShown s txns.old → OnOk result (AreShown (machine.step s (steps.Begin session)).1 txns.new) }
    ensures count { length txns.new ≡ length txns.old }
{
    steps_leave_other_sessions();
    match txns.at_mut((session - 1) as usize) {
        Some(txn) => engine.begin(txn),
        None => unreachable!(),
    }
}

fn prepare<B: Bench>(
    engine: &mut Engine,
    txns: &mut List<Txn>,
    bench: &mut B,
    session: u32,
) -> Result<Answer, StepFault>
    requires ready { AreReady (journals_of engine.old.owners) (B.outside bench.old) }
    requires of { IsSession (length txns.old) session }
    requires stands { (first : ℕ) × (s : State) × IsOf first engine.old s × AreShown s txns.old }
    ensures steps { (first : ℕ) (s : State) → IsOf first engine.old s → AreShown s txns.old → Steps first (steps.Prepare session) s engine.old engine.new result (B.outside bench.old) (B.outside bench.new) }
    ensures shown { (first : ℕ) (s : State) → IsOf first engine.old s → AreShown s txns.old → OnOk result (AreShown (machine.step s (steps.Prepare session)).1 txns.new) }
    ensures spelled { result ≢ Err StepFault.Memory → (first : ℕ) (s : State) → IsOf first engine.old s → AreShown s txns.old → AreSpelled (writes s (steps.Prepare session)) }
    ensures count { length txns.new ≡ length txns.old }
{
    steps_leave_other_sessions();
    match txns.at_mut((session - 1) as usize) {
        Some(txn) => engine.prepare(bench, txn),
        None => unreachable!(),
    }
}

fn decide<B: Bench>(
    engine: &mut Engine,
    txns: &mut List<Txn>,
    bench: &mut B,
    session: u32,
) -> Result<Answer, StepFault>
    requires ready { AreReady (journals_of engine.old.owners) (B.outside bench.old) }
    requires of { IsSession (length txns.old) session }
    requires stands { (first : ℕ) × (s : State) × IsOf first engine.old s × AreShown s txns.old }
    ensures steps { (first : ℕ) (s : State) → IsOf first engine.old s → AreShown s txns.old → Steps first (steps.Decide session) s engine.old engine.new result (B.outside bench.old) (B.outside bench.new) }
    ensures shown { (first : ℕ) (s : State) → IsOf first engine.old s → AreShown s txns.old → OnOk result (AreShown (machine.step s (steps.Decide session)).1 txns.new) }
    ensures spelled { (first : ℕ) (s : State) → IsOf first engine.old s → AreShown s txns.old → AreSpelled (writes s (steps.Decide session)) }
    ensures never { result ≢ Err StepFault.Memory }
    ensures count { length txns.new ≡ length txns.old }
{
    steps_leave_other_sessions();
    match txns.at_mut((session - 1) as usize) {
        Some(txn) => as_step(engine.decide(bench, txn)),
        None => unreachable!(),
    }
}

fn finish<B: Bench>(
    engine: &mut Engine,
    txns: &mut List<Txn>,
    bench: &mut B,
    session: u32,
) -> Result<Answer, StepFault>
    requires ready { AreReady (journals_of engine.old.owners) (B.outside bench.old) }
    requires of { IsSession (length txns.old) session }
    requires stands { (first : ℕ) × (s : State) × IsOf first engine.old s × AreShown s txns.old }
    ensures steps { (first : ℕ) (s : State) → IsOf first engine.old s → AreShown s txns.old → Steps first (steps.Finish session) s engine.old engine.new result (B.outside bench.old) (B.outside bench.new) }
    ensures shown { (first : ℕ) (s : State) → IsOf first engine.old s → AreShown s txns.old → OnOk result (AreShown (machine.step s (steps.Finish session)).1 txns.new) }
    ensures spelled { (first : ℕ) (s : State) → IsOf first engine.old s → AreShown s txns.old → AreSpelled (writes s (steps.Finish session)) }
    ensures never { result ≢ Err StepFault.Memory }
    ensures count { length txns.new ≡ length txns.old }
{
    steps_leave_other_sessions();
    match txns.at_mut((session - 1) as usize) {
        Some(txn) => as_step(engine.finish(bench, txn)),
        None => unreachable!(),
    }
}

fn roll_back<B: Bench>(
    engine: &mut Engine,
    txns: &mut List<Txn>,
    bench: &mut B,
    session: u32,
) -> Result<Answer, StepFault>
    requires ready { AreReady (journals_of engine.old.owners) (B.outside bench.old) }
    requires of { IsSession (length txns.old) session }
    requires stands { (first : ℕ) × (s : State) × IsOf first engine.old s × AreShown s txns.old }
    ensures steps { (first : ℕ) (s : State) → IsOf first engine.old s → AreShown s txns.old → Steps first (steps.Rollback session) s engine.old engine.new result (B.outside bench.old) (B.outside bench.new) }
    ensures shown { (first : ℕ) (s : State) → IsOf first engine.old s → AreShown s txns.old → OnOk result (AreShown (machine.step s (steps.Rollback session)).1 txns.new) }
    ensures spelled { (first : ℕ) (s : State) → IsOf first engine.old s → AreShown s txns.old → AreSpelled (writes s (steps.Rollback session)) }
    ensures never { result ≢ Err StepFault.Memory }
    ensures count { length txns.new ≡ length txns.old }
{
    steps_leave_other_sessions();
    match txns.at_mut((session - 1) as usize) {
        Some(txn) => as_step(engine.roll_back(bench, txn)),
        None => unreachable!(),
    }
}

fn restore<B: Bench>(
    engine: &mut Engine,
    txns: &List<Txn>,
    bench: &mut B,
    target: Target,
) -> Result<Answer, StepFault>
    requires ready { AreReady (journals_of engine.old.owners) (B.outside bench.old) }
    requires stands { (first : ℕ) × (s : State) × IsOf first engine.old s × AreShown s txns.now }
    ensures steps { (first : ℕ) (s : State) → IsOf first engine.old s → AreShown s txns.now → Steps first (steps.Restore target) s engine.old engine.new result (B.outside bench.old) (B.outside bench.new) }
    ensures spelled { result ≢ Err StepFault.Memory → (first : ℕ) (s : State) → IsOf first engine.old s → AreShown s txns.now → draws s (steps.Restore target) ≡ [] → AreSpelled (writes s (steps.Restore target)) }
{
    let busy = first_busy(txns);
    engine.restore(bench, busy, target)
}

// The first session, by its number, that has a transaction.
fn first_busy(txns: &List<Txn>) -> Option<u32>
    ensures { (s : State) → AreShown s txns.now → machine.first_session s ≡ result }
{
    let at = first_with_txn(txns.as_slice())?;
    match txns.at(at) {
        Some(txn) => Some(txn.session()),
        None => None,
    }
}

fn first_with_txn(txns: &[Txn]) -> Option<usize>
    ensures { result ≡ position has_txn txns.now }
{
    txns.iter().position(|txn| has_txn(txn))
}

fn has_txn(txn: &Txn) -> bool
    ensures { result ≡ has_txn txn.now }
{
    txn.tx().is_some()
}

// The result of a step that takes no memory.
fn as_step(answered: Result<Answer, AppendFault>) -> Result<Answer, StepFault>
    ensures { result ≡ as_step answered }
{
    match answered {
        Ok(answer) => Ok(answer),
        Err(fault) => Err(StepFault::from(fault)),
    }
}
