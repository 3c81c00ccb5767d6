// Who acts in a script.
ghost use Rattle.std.specs.Prelude.{◌≡◌, ◌==◌, [], not, bytes_eq, IfOk, OnOk, OnErr};
ghost use Rattle.std.specs.List.{position};
ghost use Rattle.std.specs.Option.{option_map};
ghost use Rattle.meaning_script.specs.Actors.{actor_of, session_in, is_known, is_extra, with_actor, session_number, is_user_mark};

use crate::line::is_quiet;
use crate::outline::{colon, is_session, word_len};
use crate::user::is_user;
use dl_base::limits::{MOST_ACTORS, MOST_LINE_BYTES};
use dl_base::{List, Memory, Text};
use std::alloc::Global;
use std::marker::Model;

/// The actor of a line, as it stands at the line's front: `NAME` of a session, or `@USER`. A line has one also where the rest of it is
/// bad; blanks, comments, lines of the system, lines that are too long and lines whose first word is bad have none. It takes no
/// memory.
#[tactic(auto, unfolding(meaning_script::specs::Actors::actor_of))]
pub fn actor_of(line: &[u8]) -> Option<&[u8]>
    ensures { option_map (λ a. a.now) result ≡ actor_of line.now }
{
    if is_quiet(line) || line.len() > MOST_LINE_BYTES {
        return None;
    }
    match line {
        [] => None,
        [b'@', text @ ..] => {
            if is_user(&text[..word_len(text)]) {
                Some(&line[..word_len(text) + 1])
            } else {
                None
            }
        }
        _ => session_in(line),
    }
}

fn session_in(line: &[u8]) -> Option<&[u8]>
    ensures { option_map (λ a. a.now) result ≡ session_in line.now (position (λ b. b == 58) line.now) }
{
    let at = colon(line)?;
    if is_session(&line[..at]) {
        Some(&line[..at])
    } else {
        None
    }
}

/// The actors that lines have named so far, in order of first appearance, at most 64. Contracts see them as a list, each as
/// `actor_of` gives it.
#[derive(Drop)]
pub struct Actors {
    known: List<Text>,
}

impl Model for Actors {
    ghost use Rattle.std.specs.Prelude.{List, ℕ, ◌≤◌, length};
    ghost use Rattle.dl_base.specs.Limits.{most_actors};

    ghost Value = { List (List ℕ) };

    ghost view = { λ a. a.known };

    ghost invariant = { λ a. length a.known ≤ most_actors };
}

impl Actors {
    /// None yet. It takes no memory.
    pub fn none(alloc: Global) -> Actors
        ensures { result ≡ [] }
    {
        Actors {
            known: List::empty(alloc),
        }
    }

    /// Counts the actor of a line. False comes exactly where it is the 65th, which is not counted.
    pub fn meet(&mut self, alloc: Global, line: &[u8]) -> Result<bool, Memory>
        ensures known { OnOk result (self.new ≡ with_actor self.old (actor_of line.now)) }
        ensures counted { IfOk result (λ b. b ≡ not (is_extra self.old (actor_of line.now))) }
        ensures kept { OnErr result (self.new ≡ self.old) }
    {
        let Some(actor) = actor_of(line) else {
            return Ok(true);
        };
        if is_known(self.known.as_slice(), actor) {
            return Ok(true);
        }
        if self.known.len() >= MOST_ACTORS {
            return Ok(false);
        }
        let actor = Text::of(alloc, actor)?;
        self.known.push(actor)?;
        Ok(true)
    }
}

/// The number of a session, from 1, if one of this name acts. It takes no memory.
pub fn session_number(actors: &Actors, name: &[u8]) -> Option<u32>
    ensures { result ≡ session_number actors.now name.now }
{
    let known = actors.known.as_slice();
    let mut number = 1;
    'actors: for actor in known {
        if !is_user_mark(actor.bytes()) {
            if same(actor, name) {
                return Some(number);
            }
            number += 1;
        }
    }
    None
}

fn is_user_mark(actor: &[u8]) -> bool
    ensures { result ≡ is_user_mark actor.now }
{
    match actor {
        [first, ..] => *first == b'@',
        [] => false,
    }
}

fn is_known(actors: &[Text], actor: &[u8]) -> bool
    ensures { result ≡ is_known actors.now actor.now }
{
    actors.iter().any(|a| same(a, actor))
}

fn same(a: &Text, b: &[u8]) -> bool
    ensures { result ≡ bytes_eq b.now a.now }
{
    b == a.bytes()
}
