// The sessions of a script.
ghost use Rattle.std.specs.Prelude.{◌≡◌, ◌+◌, ◌<◌, ◌∷◌, ◌++◌, [], not, length, slice_get, Some, IfOk, OnOk};
ghost use Rattle.std.specs.FinMap as maps;
ghost use Rattle.std.specs.Option.{option_map, unwrap_or};
ghost use Rattle.db_txn.specs.Transaction.{vacant};
ghost use Rattle.dl_base.specs.Limits.{most_actors};
ghost use Rattle.dl_base.specs.Name.{IsName};
ghost use Rattle.meaning_run.specs.Running as running;
ghost use Rattle.meaning_script.specs.Actors.{actor_of, is_extra, is_user_mark, session_number, sessions};
ghost use Rattle.sys_run.specs.Running.{AreOf};
ghost use Rattle.sys_run.specs.Sessions.{is_seated};

use crate::grids::Grids;
use db_txn::Txn;
use dl_base::{Answer, Grid, List, Memory, Name, Text, Value};
use run_script::{Actors, Line, actor_of, session_number};
use std::alloc::Global;

/// What is kept of the sessions of a script, in the order in which they first appear: the transaction of each, and its name; who acts; and
/// what `$NAME` stands for. Contracts see each as its own contracts do.
#[derive(Drop)]
pub struct Sessions {
    pub txns: List<Txn>,
    pub names: List<Name>,
    pub actors: Actors,
    pub grids: Grids,
}

impl Sessions {
    /// Before the first line nobody has acted. It takes no memory.
    pub fn new(alloc: Global) -> Sessions
        ensures txns { result.txns ≡ [] }
        ensures names { result.names ≡ [] }
        ensures actors { result.actors ≡ [] }
        ensures grids { result.grids ≡ maps.empty }
    {
        Sessions {
            txns: List::empty(alloc),
            names: List::empty(alloc),
            actors: Actors::none(alloc),
            grids: Grids::none(alloc),
        }
    }

    /// Counts the actor of a line. False comes exactly where it is the 65th, which is not counted. A session that appears for the first time
    /// gets the next number, from 1, and has no transaction.
    pub(crate) fn meet(&mut self, alloc: Global, line: &[u8]) -> Result<bool, Memory>
        requires names { self.old.names ≡ sessions self.old.actors }
        requires count { length self.old.txns ≡ length self.old.names }
        ensures counted { IfOk result (λ b. b ≡ not (is_extra self.old.actors (actor_of line.now))) }
        ensures met { OnOk result ((r : running.Run) → AreOf r self.old → AreOf (running.met r (actor_of line.now)) self.new) }
    {
        let seated = is_seated(&self.actors, actor_of(line));
        if !self.actors.meet(alloc, line)? {
            return Ok(false);
        }
        match actor_of(line) {
            Some(name) if !seated => self.seat(alloc, name)?,
            _ => {}
        }
        Ok(true)
    }

    // A new session, of this name.
    fn seat(&mut self, alloc: Global, name: &[u8]) -> Result<(), Memory>
        requires name { IsName name.now }
        requires few { length self.old.names < most_actors }
        ensures names { OnOk result (self.new.names ≡ self.old.names ++ name.now ∷ []) }
        ensures txns { OnOk result (self.new.txns ≡ self.old.txns ++ vacant (length self.old.names + 1) ∷ []) }
        ensures actors { self.new.actors ≡ self.old.actors }
        ensures grids { self.new.grids ≡ self.old.grids }
    {
        let name = Name::of(alloc, name)?;
        let number = self.names.len() as u32 + 1;
        self.txns.push(Txn::vacant(alloc, number))?;
        self.names.push(name)?;
        Ok(())
    }

    /// The number of a session that acts; 0 of any other name.
    pub(crate) fn number_of(&self, name: &Name) -> u32
        ensures { result ≡ unwrap_or (session_number self.now.actors name.now) 0 }
    {
        session_number(&self.actors, name.bytes()).unwrap_or(0)
    }

    /// What the name of a session stands for, if for something.
    pub(crate) fn last_of(&self, name: &Name) -> Result<Option<Text>, Memory>
        ensures { IfOk result (λ text. text ≡ maps.get self.now.grids (unwrap_or (session_number self.now.actors name.now) 0)) }
    {
        match self.grids.get(self.number_of(name)) {
            Some(text) => Ok(Some(text.copy()?)),
            None => Ok(None),
        }
    }

    /// Keeps what the name of a session stands for, where a line of its own is answered a grid. The error is want of memory.
    pub(crate) fn keep_grid(&mut self, line: &Line, answer: &Answer) -> Result<(), Memory>
        ensures grids { OnOk result ((r : running.Run) → AreOf r self.old → self.new.grids ≡ running.grids_behind r line.now (Some answer.now)) }
        ensures txns { self.new.txns ≡ self.old.txns }
        ensures names { self.new.names ≡ self.old.names }
        ensures actors { self.new.actors ≡ self.old.actors }
    {
        match (line, answer) {
            (Line::Session(name, _), Answer::Rows(grid)) => {
                let text = first_text(grid)?;
                let session = session_number(&self.actors, name.bytes()).unwrap_or(0);
                self.grids.set(session, text)
            }
            _ => Ok(()),
        }
    }
}

// Whether an actor has its place already: a user, and a session that has acted. Nobody needs none.
fn is_seated(actors: &Actors, actor: Option<&[u8]>) -> bool
    ensures { result ≡ is_seated actors.now (option_map (λ a. a.now) actor.entry) }
{
    match actor {
        Some(actor) => is_user(actor) || session_number(actors, actor).is_some(),
        None => true,
    }
}

fn is_user(actor: &[u8]) -> bool
    ensures { result ≡ is_user_mark actor.now }
{
    match actor {
        [first, ..] => *first == b'@',
        [] => false,
    }
}

// The text of the first cell of the first row of a grid.
fn first_text(grid: &Grid) -> Result<Option<Text>, Memory>
    ensures { IfOk result (λ text. text ≡ running.first_cell (slice_get grid.now.rows 0)) }
{
    let Some(row) = grid.rows.at(0) else {
        return Ok(None);
    };
    match row.values.at(0) {
        Some(Value::Text(text)) => Ok(Some(text.copy()?)),
        _ => Ok(None),
    }
}
