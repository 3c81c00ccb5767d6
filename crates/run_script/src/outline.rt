// What a line is, as far as it is no statement.
ghost use Rattle.std.specs.Prelude.{ℕ, ◌≡◌, ◌≤◌, ◌<◌, ◌+◌, ◌==◌, true, Some, length, take, drop, IfOk, IfSome};
ghost use Rattle.std.specs.List.{position};
ghost use Rattle.dl_base.specs.Limits.{most_line_bytes};
ghost use Rattle.dl_base.specs.Name.{IsName};
ghost use Rattle.fs_command.specs.Commands.{command, is_session};
ghost use Rattle.fs_command.specs.Words.{words_from};
ghost use Rattle.meaning_script.specs.Expansion.{IsRead};
ghost use Rattle.meaning_script.specs.Orders.{order};
ghost use Rattle.meaning_script.specs.Outlines.{bad_at, system_line, file_line, user_line, word_len, step_in, by_step, sentence, session_line, by_mark, outline, IsWithin};

use crate::line::is_quiet;
use crate::order::read_order;
use crate::user::{is_user, user_name};
use dl_base::limits::{MOST_ACTOR_NAME_BYTES, MOST_LINE_BYTES};
use dl_base::{Memory, Name, Refusal, is_name};
use fs_command::{CommandFault, next_word, read_command};
use meaning_script::{Line, Outline, Sentence};
use std::alloc::Global;

/// What a line of a script is. Its newline, and a carriage return before that, are no part of it.
///
/// Blanks alone and comments, which begin with `--`, are nothing, however long they are. A line of more than 65,536 bytes is
/// `BadLine(65537)`. `NAME:` and a statement or one of `!prepare`, `!decide` and `!finish` are lines of a session, `@USER` and a
/// command those of a user, `!` and an order those of the system; where the first word is none of these, the line is `BadLine(1)`.
/// Else a bad line's place is that of the first word that fits no line behind those before it, or one past the line's end where a
/// word is missing. Places count the bytes of the line from 1.
#[tactic(auto, unfolding(meaning_script::specs::Outlines::outline))]
pub fn read_outline(alloc: Global, line: &[u8]) -> Result<Outline, Memory>
    ensures exact { IfOk result (λ o. o ≡ outline line.now) }
    ensures within { IfOk result (IsWithin (length line.now)) }
{
    if is_quiet(line) {
        return Ok(Outline::Plain(Line::Nothing));
    }
    if line.len() > MOST_LINE_BYTES {
        return Ok(Outline::Plain(bad_at(MOST_LINE_BYTES as u64 + 1)));
    }
    by_mark(alloc, line)
}

fn by_mark(alloc: Global, line: &[u8]) -> Result<Outline, Memory>
    requires { length line.now ≤ most_line_bytes }
    ensures exact { IfOk result (λ o. o ≡ by_mark line.now) }
    ensures within { IfOk result (IsWithin (length line.now)) }
{
    match line {
        [] => Ok(Outline::Plain(bad_at(1))),
        [b'!', text @ ..] => Ok(Outline::Plain(system_line(text))),
        [b'@', text @ ..] => Ok(Outline::Plain(user_line(alloc, text)?)),
        [_, ..] => session_line(alloc, line),
    }
}

fn bad_at(place: u64) -> Line
    ensures { result ≡ bad_at place }
{
    Line::Bad(Refusal::BadLine(place))
}

fn system_line(text: &[u8]) -> Line
    requires { length text.now ≤ most_line_bytes }
    ensures exact { result ≡ system_line (order text.now) }
    ensures placed { IsRead result }
{
    match read_order(text) {
        Ok(order) => Line::System(order),
        Err(bad) => bad_at(bad.place + 1),
    }
}

/// How many bytes the first word has.
pub(crate) fn word_len(text: &[u8]) -> usize
    ensures value { result ≡ word_len text.now }
    ensures within { result ≤ length text.now }
{
    text.iter().take_while(|b| **b != b' ').count()
}

// What stands behind an `@`.
#[tactic(auto, unfolding(meaning_script::specs::Outlines::user_line))]
fn user_line(alloc: Global, text: &[u8]) -> Result<Line, Memory>
    requires { length text.now ≤ most_line_bytes }
    ensures exact { IfOk result (λ l. l ≡ user_line text.now) }
    ensures placed { IfOk result IsRead }
{
    let len = word_len(text);
    let (user, rest) = text.split_at(len);
    if !is_user(user) {
        return Ok(bad_at(1));
    }
    let user = user_name(alloc, user)?;
    command_line(alloc, user, len as u64 + 1, rest)
}

// A command behind so many bytes of the line.
fn command_line(alloc: Global, user: Name, before: u64, text: &[u8]) -> Result<Line, Memory>
    requires { before + length text.now ≤ most_line_bytes + 1 }
    ensures exact { IfOk result (λ l. l ≡ file_line before (command user text.now)) }
    ensures placed { IfOk result IsRead }
{
    match read_command(alloc, user, text) {
        Ok(line) => Ok(Line::File(line)),
        Err(CommandFault::BadCommand(place)) => Ok(bad_at(place + before)),
        Err(CommandFault::Memory) => Err(Memory),
    }
}

// Where the first colon stands.
pub(crate) fn colon(line: &[u8]) -> Option<usize>
    ensures value { result ≡ position (λ b. b == 58) line.now }
    ensures within { IfSome result (λ k. k < length line.now) }
{
    line.iter().position(|b| *b == b':')
}

/// Whether the bytes name a session.
#[tactic(auto, unfolding(fs_command::specs::Commands::is_session))]
pub(crate) fn is_session(name: &[u8]) -> bool
    ensures value { result ≡ is_session name.now }
    ensures name { result ≡ true → IsName name.now }
{
    is_name(name) && name.len() <= MOST_ACTOR_NAME_BYTES
}

#[tactic(auto, unfolding(meaning_script::specs::Outlines::session_line))]
fn session_line(alloc: Global, line: &[u8]) -> Result<Outline, Memory>
    requires { length line.now ≤ most_line_bytes }
    ensures exact { IfOk result (λ o. o ≡ session_line line.now) }
    ensures within { IfOk result (IsWithin (length line.now)) }
{
    let Some(at) = colon(line) else {
        return Ok(Outline::Plain(bad_at(1)));
    };
    if !is_session(&line[..at]) {
        return Ok(Outline::Plain(bad_at(1)));
    }
    said(alloc, line, at)
}

// What a session says whose name stands before the colon at an index.
fn said(alloc: Global, line: &[u8], at: usize) -> Result<Outline, Memory>
    requires at { at < length line.now }
    requires within { length line.now ≤ most_line_bytes }
    requires name { IsName (take at line.now) }
    ensures exact { IfOk result (λ o. o ≡ sentence (take at line.now) (at + 1) (drop (at + 1) line.now)) }
    ensures within { IfOk result (IsWithin (length line.now)) }
{
    let name = Name::of(alloc, &line[..at])?;
    Ok(sentence(name, at + 1, &line[at + 1..]))
}

// What stands behind the colon of a session, and behind so many bytes of the line.
#[tactic(auto, unfolding(meaning_script::specs::Outlines::sentence))]
fn sentence(name: Name, before: usize, text: &[u8]) -> Outline
    requires { before + length text.now ≤ most_line_bytes }
    ensures exact { result ≡ sentence name before text.now }
    ensures within { (len : ℕ) → before ≤ len → len ≤ most_line_bytes → IsWithin len result }
{
    let Ok(word) = next_word(text, 0) else {
        return Outline::Statement(name, before);
    };
    match step_in(&text[word.begin..word.end]) {
        Some(step) => step_line(name, before, step, text, word.end),
        None => Outline::Statement(name, before),
    }
}

fn step_in(word: &[u8]) -> Option<Sentence>
    ensures { result ≡ step_in word.now }
{
    if word == b"!prepare".as_slice() {
        return Some(Sentence::Prepare);
    }
    if word == b"!decide".as_slice() {
        return Some(Sentence::Decide);
    }
    if word == b"!finish".as_slice() {
        return Some(Sentence::Finish);
    }
    None
}

// A step of a session, where no word stands from an index on.
fn step_line(name: Name, before: usize, step: Sentence, text: &[u8], at: usize) -> Outline
    requires at { at ≤ length text.now }
    requires within { before + length text.now ≤ most_line_bytes }
    ensures exact { result ≡ by_step name before (Some step) (words_from at text.now) }
    ensures within { (len : ℕ) → IsWithin len result }
{
    match next_word(text, at) {
        Ok(word) => {
            drop(name);
            drop(step);
            Outline::Plain(bad_at((word.begin + 1 + before) as u64))
        }
        Err(_) => Outline::Plain(Line::Session(name, step)),
    }
}
