// The words split by clap, as one simple command of text values.
ghost use Rattle.std.specs.Prelude.{◌≡◌, IfOk, MatchResult, map, option_map, unwrap_or, true, false};
ghost use Rattle.clap.specs.Words.{app_of, with_rule, new_rule, rows_of, found_of, fault_of, matches_of, FailsBy, first_of};
ghost use Rattle.run_args.specs.Command.{option, bare, with_options, command, is_taken, found, given};
ghost use Rattle.run_args.specs.declared.fault.WordsFault.TheVariants as faults;

use crate::fault::WordsFault;
use clap::error::ErrorKind;
use clap::{Arg, ArgMatches, Command, Error};
use std::alloc::{AllocError, Global};

fn with_option<'a>(
    alloc: Global,
    command: Command<'a>,
    name: &'a str,
) -> Result<Command<'a>, AllocError>
    ensures { IfOk result (λ r. app_of r ≡ with_rule (app_of command.entry) (option name.entry.now)) }
{
    command.arg(Arg::new(alloc, name).long(name))
}

fn with_word<'a>(
    alloc: Global,
    command: Command<'a>,
    name: &'a str,
) -> Result<Command<'a>, AllocError>
    ensures { IfOk result (λ r. app_of r ≡ with_rule (app_of command.entry) (new_rule name.entry.now)) }
{
    command.arg(Arg::new(alloc, name))
}

fn bare<'a>(alloc: Global) -> Command<'a>
    ensures { app_of result ≡ bare }
{
    Command::new(alloc, "datalinks")
        .no_binary_name(true)
        .disable_help_flag(true)
        .disable_version_flag(true)
}

fn with_options<'a>(alloc: Global) -> Result<Command<'a>, AllocError>
    ensures { IfOk result (λ r. app_of r ≡ with_options) }
{
    let command = bare(alloc);
    let command = with_option(alloc, command, "server")?;
    let command = with_option(alloc, command, "key")?;
    let command = with_option(alloc, command, "now")?;
    let command = with_option(alloc, command, "life")?;
    with_option(alloc, command, "area")
}

fn command<'a>(alloc: Global) -> Result<Command<'a>, AllocError>
    ensures { IfOk result (λ r. app_of r ≡ command) }
{
    let command = with_options(alloc)?;
    with_word(alloc, command, "command")
}

fn matched<'a>(alloc: Global, words: &'a [&'a str]) -> Result<ArgMatches<'a>, Error>
    ensures kinds { FailsBy (fault_of command (map (λ s. s.now) words.entry.now)) result }
    ensures rows { IfOk result (λ m. rows_of (found_of m) ≡ matches_of command (map (λ s. s.now) words.entry.now)) }
{
    let command = command(alloc)?;
    command.try_get_matches_from(words)
}

/// What clap finds, or `Usage` where it finds a fault.
#[tactic(auto, unfolding(crate::specs::Command::is_taken, crate::specs::Command::found))]
pub(crate) fn split<'a>(alloc: Global, words: &'a [&'a str]) -> Result<ArgMatches<'a>, WordsFault>
    ensures taken { MatchResult result (λ _. is_taken (map (λ s. s.now) words.entry.now) ≡ true) (λ e. e ≡ faults.Usage → is_taken (map (λ s. s.now) words.entry.now) ≡ false) }
    ensures rows { IfOk result (λ m. rows_of (found_of m) ≡ found (map (λ s. s.now) words.entry.now)) }
{
    match matched(alloc, words) {
        Ok(matches) => Ok(matches),
        Err(error) => match error.kind() {
            ErrorKind::OutOfMemory => Err(WordsFault::Memory),
            _ => Err(WordsFault::Usage),
        },
    }
}

fn text_of<'a>(matches: &ArgMatches<'a>, name: &str) -> Option<&'a str>
    ensures { option_map (λ s. s.now) result ≡ first_of name.now (rows_of (found_of matches.now)) }
{
    matches.get_str(name)
}

/// The text of an option or of the positional word, or another text where it is not given.
pub(crate) fn given<'a>(matches: &ArgMatches<'a>, name: &str, default: &'a str) -> &'a str
    ensures { result.now ≡ given name.now default.entry.now (rows_of (found_of matches.now)) }
{
    text_of(matches, name).unwrap_or(default)
}
