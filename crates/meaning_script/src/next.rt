// What a line comes to, step by step.
use dl_base::{Answer, Phase, Step, Stmt, Text};

/// How the actor of a line is, at the moment.
#[derive(Drop)]
pub struct ActorState {
    /// The session's number, from 1.
    pub session: u32,
    /// How far its transaction is, if it has one.
    pub phase: Option<Phase>,
    /// What `$NAME` stands for: the text of the first cell of the first row of the last grid that the session was answered.
    pub last: Option<Text>,
}

/// What a line comes to.
#[derive(Drop)]
pub enum Next<'a> {
    /// It does one more step.
    Do(Step),
    /// It does the step `Statement` of a session, with the line's own statement.
    Statement(u32, &'a Stmt),
    /// It is answered as its step with this number was, counted from 0.
    Given(usize),
    /// It is answered what none of its steps was.
    Answered(Answer),
    /// It is answered nothing.
    Nothing,
}
