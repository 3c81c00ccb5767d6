// A whole command line.
ghost use Rattle.std.specs.Prelude.{◌≡◌, ◌≤◌, MatchOption, IfOk, Err, map, codes, true, false, bytes_eq};
ghost use Rattle.std.specs.List.{list_all};
ghost use Rattle.std.specs.Str.{is_utf8};
ghost use Rattle.clap.specs.Words.{rows_of, found_of};
ghost use Rattle.run_args.specs.Command.{settings_in};
ghost use Rattle.run_args.specs.Words.{AnswersAs, most_area_bytes, names_run, settings};
ghost use Rattle.run_args.specs.declared.fault.WordsFault.TheVariants as faults;

use crate::fault::WordsFault;
use crate::split::{given, split};
use crate::values::{key_in, number_in, server_in};
use clap::ArgMatches;
use dl_base::{Memory, Settings, Text};
use std::alloc::Global;

/// The key where none is given: 32 zero bytes.
const NO_KEY: &str = "0000000000000000000000000000000000000000000000000000000000000000";

/// What the words of the command line say. The one command is `run`. Its options are `--server` (a lower-case letter, then up
/// to 63 lower-case letters and digits; `fs1`), `--key` (64 hexadecimal digits; zeros), `--now` (the moment, in seconds, up to
/// 2 to the 53rd; 0), `--life` (how long a token is good, 1 to 1,000,000,000 seconds; 60) and `--area` (how many bytes an area
/// may have, 1 to 2 to the 40th; 2 to the 40th). Each stands anywhere, at most once, as `--name value` or `--name=value`. The first
/// `--` ends them. A number has 1 to 20 decimal digits.
///
/// `Usage` comes only where the words say nothing, and always where `run` is not among them or one of them is no UTF-8.
#[tactic(auto, using(crate::proofs::Agree::agree, crate::proofs::Run::without_run))]
pub fn read_words(alloc: Global, words: &[Text]) -> Result<Settings, WordsFault>
    ensures exact { AnswersAs result (settings words.now) }
    ensures bounded { IfOk result (λ s. (1 ≤ s.limit) × (s.limit ≤ most_area_bytes)) }
    ensures texts { list_all is_utf8 words.now ≡ false → result ≡ Err faults.Usage }
    ensures named { names_run words.now ≡ false → result ≡ Err faults.Usage }
{
    if !names_run(words) || !are_texts(words) {
        return Err(WordsFault::Usage);
    }
    let Some(texts) = texts(alloc, words)? else {
        return Err(WordsFault::Usage);
    };
    let matches = split(alloc, texts.as_slice())?;
    settings_in(alloc, &matches)
}

#[tactic(auto, using(crate::proofs::Texts::is_text, crate::proofs::Texts::is_none))]
fn text_in(word: &Text) -> Option<&str>
    ensures { MatchOption result (is_utf8 word.now ≡ false) (λ s. (is_utf8 word.now ≡ true) × (s.now ≡ word.now)) }
{
    match str::from_utf8(word.bytes()) {
        Ok(text) => Some(text),
        Err(_) => None,
    }
}

fn is_text(word: &Text) -> bool
    ensures { result ≡ is_utf8 word.now }
{
    text_in(word).is_some()
}

fn is_run(word: &Text) -> bool
    ensures { result ≡ bytes_eq word.now (codes "run") }
{
    word.bytes() == b"run".as_slice()
}

fn names_run(words: &[Text]) -> bool
    ensures { result ≡ names_run words.now }
{
    words.iter().any(|word| is_run(word))
}

fn are_texts(words: &[Text]) -> bool
    ensures { result ≡ list_all is_utf8 words.now }
{
    words.iter().all(|word| is_text(word))
}

// The words as texts, where each is UTF-8.
fn texts<'a>(alloc: Global, words: &'a [Text]) -> Result<Option<Vec<&'a str>>, Memory>
    ensures { IfOk result (λ texts. MatchOption texts (list_all is_utf8 words.entry.now ≡ false)
        (λ t. (list_all is_utf8 words.entry.now ≡ true) × (map (λ s. s.now) t.items ≡ words.entry.now))) }
{
    let mut texts = Vec::new(alloc);
    'words: for word in words {
        match text_in(word) {
            Some(text) => texts.push(text)?,
            None => return Ok(None),
        }
    }
    Ok(Some(texts))
}

#[tactic(auto, unfolding(crate::specs::Command::settings_in))]
fn settings_in(alloc: Global, matches: &ArgMatches<'_>) -> Result<Settings, WordsFault>
    ensures exact { AnswersAs result (settings_in (rows_of (found_of matches.now))) }
    ensures bounded { IfOk result (λ s. (1 ≤ s.limit) × (s.limit ≤ most_area_bytes)) }
{
    if given(matches, "command", "") != "run" {
        return Err(WordsFault::Usage);
    }
    let server = server_in(alloc, given(matches, "server", "fs1").as_bytes())?;
    let key = key_in(given(matches, "key", NO_KEY).as_bytes()).ok_or(WordsFault::Usage)?;
    let now = number_in(0, 9_007_199_254_740_992, given(matches, "now", "0")).ok_or(
        WordsFault::Usage,
    )?;
    let life = number_in(1, 1_000_000_000, given(matches, "life", "60")).ok_or(WordsFault::Usage)?;
    let limit = number_in(
        1,
        1_099_511_627_776,
        given(matches, "area", "1099511627776"),
    )
    .ok_or(WordsFault::Usage)?;
    Ok(Settings {
        server,
        key,
        now,
        life,
        limit,
    })
}
