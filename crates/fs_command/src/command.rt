// The command that a text is.
ghost use Rattle.std.specs.Prelude.{◌≡◌, ◌≤◌, ◌<◌, ◌+◌, ◌==◌, ◌∷◌, true, false, length, MatchOption, IfOk, Ok, Err, slice_range};
ghost use Rattle.std.specs.Result.{IfErr};
ghost use Rattle.fs_command.specs.Words.{words_from, word_at};
ghost use Rattle.fs_command.specs.Grammar.{names_session};
ghost use Rattle.fs_command.specs.Commands.{GivesLine, IsReading, IsPlaceIn, IsPlaceOf, command, is_command_path, is_session, create, write, delete, rename, chmod, read, list, asked, behind, source_in};

use crate::line::{BadPlace, CommandFault, FileLine};
use crate::word::{Span, flag_word, misplaced, next_word, nothing_behind, path_word};
use dl_base::limits::MOST_ACTOR_NAME_BYTES;
use dl_base::{FileCmd, FileWhat, Memory, Name, Path, Text, is_name, is_path};
use dl_token::read_token;
use std::alloc::Global;

/// What a user asks of the files by a text: all that stands behind the user on a file line. Its words are separated by one
/// or more spaces, which may stand before the first and behind the last word too; the content of `create` and `write` is
/// all behind the one space that follows the path.
///
/// A bad place counts the bytes of the text from 1, so its first byte is at 1, whether it is a space or not.
/// It reads each byte a fixed number of times.
#[tactic(auto, unfolding(crate::specs::Commands::command))]
pub fn read_command(alloc: Global, user: Name, text: &[u8]) -> Result<FileLine, CommandFault>
    ensures exact { GivesLine result (command user text.now) }
    ensures place { IfErr result (λ e. IsPlaceIn text.now e) }
{
    let verb = next_word(text, 0)?;
    let at = verb.end;
    let bytes = &text[verb.begin..verb.end];
    if bytes == b"create".as_slice() {
        return create(alloc, user, text, at);
    }
    if bytes == b"write".as_slice() {
        return write(alloc, user, text, at);
    }
    if bytes == b"delete".as_slice() {
        return delete(alloc, user, text, at);
    }
    if bytes == b"rename".as_slice() {
        return rename(alloc, user, text, at);
    }
    if bytes == b"chmod".as_slice() {
        return chmod(alloc, user, text, at);
    }
    if bytes == b"read".as_slice() {
        return read(alloc, user, text, at);
    }
    if bytes == b"list".as_slice() {
        return Ok(list(user, text, at)?);
    }
    Err(misplaced(verb.begin).into())
}

#[tactic(auto, unfolding(crate::specs::Commands::create))]
fn create(alloc: Global, user: Name, text: &[u8], at: usize) -> Result<FileLine, CommandFault>
    requires { at ≤ length text.now }
    ensures exact { GivesLine result (create user text.now (length text.now + 1) (words_from at text.now)) }
    ensures place { IfErr result (λ e. IsPlaceIn text.now e) }
{
    let word = path_word(text, at)?;
    let path = path_at(alloc, text, word)?;
    let content = content_behind(alloc, text, word)?;
    Ok(asked(user, FileWhat::Create(path, content)))
}

#[tactic(auto, unfolding(crate::specs::Commands::write))]
fn write(alloc: Global, user: Name, text: &[u8], at: usize) -> Result<FileLine, CommandFault>
    requires { at ≤ length text.now }
    ensures exact { GivesLine result (write user text.now (length text.now + 1) (words_from at text.now)) }
    ensures place { IfErr result (λ e. IsPlaceIn text.now e) }
{
    let word = path_word(text, at)?;
    let path = path_at(alloc, text, word)?;
    let content = content_behind(alloc, text, word)?;
    Ok(asked(user, FileWhat::Write(path, content)))
}

#[tactic(auto, unfolding(crate::specs::Commands::delete))]
fn delete(alloc: Global, user: Name, text: &[u8], at: usize) -> Result<FileLine, CommandFault>
    requires { at ≤ length text.now }
    ensures exact { GivesLine result (delete user (length text.now + 1) (words_from at text.now)) }
    ensures place { IfErr result (λ e. IsPlaceIn text.now e) }
{
    let word = path_word(text, at)?;
    let path = path_at(alloc, text, word)?;
    Ok(nothing_behind(asked(user, FileWhat::Delete(path)), text, word.end)?)
}

#[tactic(auto, unfolding(crate::specs::Commands::rename))]
fn rename(alloc: Global, user: Name, text: &[u8], at: usize) -> Result<FileLine, CommandFault>
    requires { at ≤ length text.now }
    ensures exact { GivesLine result (rename user (length text.now + 1) (words_from at text.now)) }
    ensures place { IfErr result (λ e. IsPlaceIn text.now e) }
{
    let from = path_word(text, at)?;
    let to = path_word(text, from.end)?;
    let old = path_at(alloc, text, from)?;
    let new = path_at(alloc, text, to)?;
    Ok(nothing_behind(asked(user, FileWhat::Rename(old, new)), text, to.end)?)
}

#[tactic(auto, unfolding(crate::specs::Commands::chmod))]
fn chmod(alloc: Global, user: Name, text: &[u8], at: usize) -> Result<FileLine, CommandFault>
    requires { at ≤ length text.now }
    ensures exact { GivesLine result (chmod user (length text.now + 1) (words_from at text.now)) }
    ensures place { IfErr result (λ e. IsPlaceIn text.now e) }
{
    let word = path_word(text, at)?;
    let (on, end) = flag_word(text, word.end)?;
    let path = path_at(alloc, text, word)?;
    Ok(nothing_behind(asked(user, FileWhat::Chmod(path, on)), text, end)?)
}

#[tactic(auto, unfolding(crate::specs::Commands::list))]
fn list(user: Name, text: &[u8], at: usize) -> Result<FileLine, BadPlace>
    requires { at ≤ length text.now }
    ensures exact { IsReading result (list user (length text.now + 1) (words_from at text.now)) }
    ensures place { IfErr result (λ e. IsPlaceOf text.now e.place) }
{
    nothing_behind(asked(user, FileWhat::List), text, at)
}

#[tactic(auto, unfolding(crate::specs::Commands::read))]
fn read(alloc: Global, user: Name, text: &[u8], at: usize) -> Result<FileLine, CommandFault>
    requires { at ≤ length text.now }
    ensures exact { GivesLine result (read user (length text.now + 1) (words_from at text.now)) }
    ensures place { IfErr result (λ e. IsPlaceIn text.now e) }
{
    let word = next_word(text, at)?;
    let Some(line) = source_of(alloc, user, &text[word.begin..word.end])? else {
        return Err(misplaced(word.begin).into());
    };
    Ok(nothing_behind(line, text, word.end)?)
}

// What a read asks of this word.
fn source_of(alloc: Global, user: Name, word: &[u8]) -> Result<Option<FileLine>, Memory>
    ensures { IfOk result (λ line. line ≡ source_in user word.now) }
{
    if let Some(name) = session_in(word) {
        return Ok(Some(FileLine::ReadOf(user, session(alloc, name)?)));
    }
    if let Some((path, token)) = read_token(alloc, word)? {
        return Ok(Some(asked(user, FileWhat::Read(path, Some(token)))));
    }
    if !is_path(word) {
        return Ok(None);
    }
    let path = Path::of(alloc, word)?;
    Ok(Some(asked(user, FileWhat::Read(path, None))))
}

#[tactic(auto, unfolding(crate::specs::Commands::is_session))]
fn is_session(name: &[u8]) -> bool
    ensures { result ≡ is_session name.now }
{
    is_name(name) && name.len() <= MOST_ACTOR_NAME_BYTES
}

// The name in `$NAME`.
fn session_in(word: &[u8]) -> Option<&[u8]>
    ensures { MatchOption result (names_session word.now ≡ false)
        (λ name. (is_session name.now ≡ true) × (word.now ≡ 36 ∷ name.now)) }
{
    if let [b'$', name @ ..] = word
        && is_session(name)
    {
        return Some(name);
    }
    None
}

#[tactic(auto, unfolding(crate::specs::Commands::is_session))]
fn session(alloc: Global, name: &[u8]) -> Result<Name, Memory>
    requires { is_session name.now ≡ true }
    ensures { IfOk result (λ made. made ≡ name.now) }
{
    Name::of(alloc, name)
}

fn asked(user: Name, what: FileWhat) -> FileLine
    ensures { result ≡ asked user what }
{
    FileLine::Command(FileCmd { user, what })
}

#[tactic(auto, unfolding(crate::specs::Commands::is_command_path))]
fn path_at(alloc: Global, text: &[u8], word: Span) -> Result<Path, Memory>
    requires within { (word.begin < word.end) × (word.end ≤ length text.now) }
    requires is_path { is_command_path (slice_range text.now word.begin word.end) ≡ true }
    ensures { IfOk result (λ path. path ≡ slice_range text.now word.begin word.end) }
{
    Path::of(alloc, &text[word.begin..word.end])
}

// All behind the one byte that follows a word.
fn content_behind(alloc: Global, text: &[u8], word: Span) -> Result<Text, Memory>
    requires within { (word.begin < word.end) × (word.end ≤ length text.now) }
    ensures { IfOk result (λ content. content ≡ behind text.now (word_at text.now word.begin word.end)) }
{
    if word.end == text.len() {
        return Text::of(alloc, &[]);
    }
    Text::of(alloc, &text[word.end + 1..])
}
