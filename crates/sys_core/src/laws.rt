// What a step leaves to other sessions. The function does nothing: it carries a law.
ghost use Rattle.dl_base.specs.declared.step.Settings as options;
ghost use Rattle.dl_base.specs.declared.step.Step as asked;
ghost use Rattle.db_txn.specs.Transaction as working;
ghost use Rattle.meaning_areas.specs.Stands.{Stored};
ghost use Rattle.meaning_system.specs.Machine.{start, step};
ghost use Rattle.meaning_system.specs.State.{State};
ghost use Rattle.sys_core.specs.Seated.{HasTxn};
ghost use Rattle.sys_core.specs.Sessions.{AreSeparate, IsOther};

/// A step of one session, and each step of none but a stop of the database, leave what the other sessions have of their transactions,
/// where each session has a transaction of its own. Each step keeps that, and a state with which a run begins has it.
pub fn steps_leave_other_sessions()
    ensures others { (s : State) (x : asked.Step) (v : working.Transaction) → AreSeparate s → IsOther x v.session → HasTxn s v → HasTxn (step s x).1 v }
    ensures kept { (s : State) (x : asked.Step) → AreSeparate s → AreSeparate (step s x).1 }
    ensures begin { (given : options.Settings) (x : Stored) → AreSeparate (start given x) }
{}
