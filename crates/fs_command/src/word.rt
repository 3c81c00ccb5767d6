// The words of a command's text, one after another.
ghost use Rattle.std.specs.Prelude.{◌≡◌, ◌≤◌, ◌<◌, ◌+◌, ◌==◌, true, not, [], ◌∷◌, length, MatchResult, IfOk, Ok, Err};
ghost use Rattle.std.specs.List.{prefix_len, slice_range};
ghost use Rattle.std.specs.Result.{IfErr};
ghost use Rattle.fs_command.specs.Words.{words_from, word_at};
ghost use Rattle.fs_command.specs.Commands.{IsReading, IsPlaceOf, nothing, path, flag, is_command_path};

use crate::line::BadPlace;
use dl_base::is_path;
use dl_token::has_token_form;

/// Where a word stands: the index of its first byte, from 0, and the index behind its last.
#[derive(Clone, Copy)]
pub struct Span {
    pub begin: usize,
    pub end: usize,
}

/// The next word from an index on: bytes that are no spaces, behind spaces. The bad place is that behind the text's last byte, and
/// comes exactly where no word is left. It takes no memory.
pub fn next_word(text: &[u8], at: usize) -> Result<Span, BadPlace>
    requires { at ≤ length text.now }
    ensures place { IfErr result (λ e. IsPlaceOf text.now e.place) }
    ensures within { IfOk result (λ s. (at ≤ s.begin) × (s.begin < s.end) × (s.end ≤ length text.now)) }
    ensures value { MatchResult result
        (λ s. words_from at text.now ≡ word_at text.now s.begin s.end ∷ words_from s.end text.now)
        (λ e. (words_from at text.now ≡ []) × (e.place ≡ length text.now + 1)) }
{
    let begin = at + spaces(&text[at..]);
    let end = begin + word_len(&text[begin..]);
    if begin == end {
        return Err(BadPlace {
            place: text.len() as u64 + 1,
        });
    }
    Ok(Span { begin, end })
}

/// The next word, which is a path.
pub(crate) fn path_word(text: &[u8], at: usize) -> Result<Span, BadPlace>
    requires { at ≤ length text.now }
    ensures place { IfErr result (λ e. IsPlaceOf text.now e.place) }
    ensures within { IfOk result (λ s. (at ≤ s.begin) × (s.begin < s.end) × (s.end ≤ length text.now)) }
    ensures value { MatchResult result
        (λ s. path (length text.now + 1) (words_from at text.now) ≡ Ok (word_at text.now s.begin s.end, words_from s.end text.now))
        (λ e. path (length text.now + 1) (words_from at text.now) ≡ Err e.place) }
    ensures is_path { IfOk result (λ s. is_command_path (slice_range text.now s.begin s.end) ≡ true) }
{
    let word = next_word(text, at)?;
    if !is_command_path(&text[word.begin..word.end]) {
        return Err(misplaced(word.begin));
    }
    Ok(word)
}

/// The next word, which is `on` or `off`, and the index behind it.
pub(crate) fn flag_word(text: &[u8], at: usize) -> Result<(bool, usize), BadPlace>
    requires { at ≤ length text.now }
    ensures place { IfErr result (λ e. IsPlaceOf text.now e.place) }
    ensures within { IfOk result (λ f. f.1 ≤ length text.now) }
    ensures value { MatchResult result
        (λ f. flag (length text.now + 1) (words_from at text.now) ≡ Ok (f.0, words_from f.1 text.now))
        (λ e. flag (length text.now + 1) (words_from at text.now) ≡ Err e.place) }
{
    let word = next_word(text, at)?;
    let bytes = &text[word.begin..word.end];
    if bytes == b"on".as_slice() {
        return Ok((true, word.end));
    }
    if bytes == b"off".as_slice() {
        return Ok((false, word.end));
    }
    Err(misplaced(word.begin))
}

/// The value, where no word stands from an index on; else the place of the next word. It takes no memory.
pub fn nothing_behind<T: Drop>(value: T, text: &[u8], at: usize) -> Result<T, BadPlace>
    requires { at ≤ length text.now }
    ensures exact { IsReading result (nothing value (length text.now + 1) (words_from at text.now)) }
    ensures place { IfErr result (λ e. IsPlaceOf text.now e.place) }
{
    match next_word(text, at) {
        Ok(word) => Err(misplaced(word.begin)),
        Err(_) => Ok(value),
    }
}

/// That the word from this index, from 0, fits nothing: its place counts from 1.
pub fn misplaced(begin: usize) -> BadPlace
    requires { begin < usize.MAX }
    ensures { result.place ≡ begin + 1 }
{
    BadPlace {
        place: begin as u64 + 1,
    }
}

/// Whether the bytes are a path whose last name is not of the token form.
#[tactic(auto, unfolding(crate::specs::Commands::is_command_path))]
fn is_command_path(bytes: &[u8]) -> bool
    ensures { result ≡ is_command_path bytes.now }
{
    is_path(bytes) && !has_token_form(bytes)
}

fn spaces(bytes: &[u8]) -> usize
    ensures value { result ≡ prefix_len (λ b. b == 32) bytes.now }
    ensures within { result ≤ length bytes.now }
{
    bytes.iter().take_while(|b| **b == b' ').count()
}

fn word_len(bytes: &[u8]) -> usize
    ensures value { result ≡ prefix_len (λ b. not (b == 32)) bytes.now }
    ensures within { result ≤ length bytes.now }
{
    bytes.iter().take_while(|b| **b != b' ').count()
}
