// The order that the text behind a `!` is.
ghost use Rattle.std.specs.Prelude.{◌≡◌, ◌≤◌, ◌<◌, ◌+◌, length, MatchResult, IfOk, Ok, Err};
ghost use Rattle.std.specs.Result.{IfErr};
ghost use Rattle.fs_command.specs.Words.{words_from};
ghost use Rattle.fs_command.specs.Commands.{IsReading, IsPlaceOf, word};
ghost use Rattle.meaning_script.specs.Orders.{order, number, tick, restore, crash, kept_in, crash_in, target};

use dl_base::{Target, number_in};
use fs_command::{BadPlace, misplaced, next_word, nothing_behind};
use meaning_script::{Kept, Order};

/// The order that a text behind a `!` is. A bad place counts the bytes of the text from 1. It takes no memory.
#[tactic(auto, unfolding(meaning_script::specs::Orders::order))]
pub(crate) fn read_order(text: &[u8]) -> Result<Order, BadPlace>
    ensures exact { IsReading result (order text.now) }
    ensures place { IfErr result (λ e. IsPlaceOf text.now e.place) }
{
    let verb = next_word(text, 0)?;
    let at = verb.end;
    let bytes = &text[verb.begin..verb.end];
    if bytes == b"tick".as_slice() {
        return tick(text, at);
    }
    if bytes == b"archive".as_slice() {
        return nothing_behind(Order::Archive, text, at);
    }
    if bytes == b"backup".as_slice() {
        return nothing_behind(Order::Backup, text, at);
    }
    if bytes == b"restore".as_slice() {
        return restore(text, at);
    }
    if bytes == b"crash".as_slice() {
        return crash(text, at);
    }
    if bytes == b"resolve".as_slice() {
        return nothing_behind(Order::Resolve, text, at);
    }
    Err(misplaced(verb.begin))
}

#[tactic(auto, unfolding(meaning_script::specs::Orders::tick))]
fn tick(text: &[u8], at: usize) -> Result<Order, BadPlace>
    requires { at ≤ length text.now }
    ensures exact { IsReading result (tick (length text.now + 1) (words_from at text.now)) }
    ensures place { IfErr result (λ e. IsPlaceOf text.now e.place) }
{
    let (seconds, end) = number_word(1_000_000_000, text, at)?;
    nothing_behind(Order::Tick(seconds), text, end)
}

#[tactic(auto, unfolding(meaning_script::specs::Orders::restore))]
fn restore(text: &[u8], at: usize) -> Result<Order, BadPlace>
    requires { at ≤ length text.now }
    ensures exact { IsReading result (restore (length text.now + 1) (words_from at text.now)) }
    ensures place { IfErr result (λ e. IsPlaceOf text.now e.place) }
{
    let word = next_word(text, at)?;
    let Some(kept) = kept_in(&text[word.begin..word.end]) else {
        return Err(misplaced(word.begin));
    };
    let (n, end) = number_word(9_999_999_999, text, word.end)?;
    nothing_behind(Order::Restore(target(kept, n)), text, end)
}

fn kept_in(word: &[u8]) -> Option<Kept>
    ensures { result ≡ kept_in word.now }
{
    if word == b"backup".as_slice() {
        return Some(Kept::Backup);
    }
    if word == b"commit".as_slice() {
        return Some(Kept::Commit);
    }
    None
}

fn target(kept: Kept, n: u64) -> Target
    ensures { result ≡ target kept n }
{
    match kept {
        Kept::Backup => Target::Backup(n),
        Kept::Commit => Target::Commit(n),
    }
}

#[tactic(auto, unfolding(meaning_script::specs::Orders::crash))]
fn crash(text: &[u8], at: usize) -> Result<Order, BadPlace>
    requires { at ≤ length text.now }
    ensures exact { IsReading result (crash (length text.now + 1) (words_from at text.now)) }
    ensures place { IfErr result (λ e. IsPlaceOf text.now e.place) }
{
    let word = next_word(text, at)?;
    let Some(order) = crash_in(&text[word.begin..word.end]) else {
        return Err(misplaced(word.begin));
    };
    nothing_behind(order, text, word.end)
}

fn crash_in(word: &[u8]) -> Option<Order>
    ensures { result ≡ crash_in word.now }
{
    if word == b"manager".as_slice() {
        return Some(Order::CrashManager);
    }
    if word == b"database".as_slice() {
        return Some(Order::CrashDatabase);
    }
    if word == b"both".as_slice() {
        return Some(Order::CrashBoth);
    }
    None
}

// The next word, which is a number of at most 10 digits up to a bound, and the index behind it.
fn number_word(most: u64, text: &[u8], at: usize) -> Result<(u64, usize), BadPlace>
    requires { at ≤ length text.now }
    ensures place { IfErr result (λ e. IsPlaceOf text.now e.place) }
    ensures within { IfOk result (λ n. n.1 ≤ length text.now) }
    ensures value { MatchResult result
        (λ n. number most (length text.now + 1) (words_from at text.now) ≡ Ok (n.0, words_from n.1 text.now))
        (λ e. number most (length text.now + 1) (words_from at text.now) ≡ Err e.place) }
{
    let word = next_word(text, at)?;
    match number_in(10, 0, most, &text[word.begin..word.end]) {
        Some(n) => Ok((n, word.end)),
        None => Err(misplaced(word.begin)),
    }
}
