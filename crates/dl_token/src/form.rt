// The form of a token before the last name of a text, and how such a text is read.
ghost use Rattle.std.specs.Prelude.{◌≡◌, ◌<◌, ◌≤◌, ◌^◌, ◌++◌, ◌+◌, ◌==◌, true, false, not, length, MatchOption, IfOk, Ok, None, drop, take};
ghost use Rattle.std.specs.List.{list_all, suffix_len};
ghost use Rattle.std.specs.Char.{is_ascii_digit};
ghost use Rattle.std.specs.Str.Parse.{AllDigits, digits_value};
ghost use Rattle.hex.specs.Hex.{decode_of};
ghost use Rattle.dl_token.specs.Tokens as meaning;

use dl_base::{Memory, Path, Token, is_path};
use hex::FromHex;
use std::alloc::Global;

/// Whether the last name of the text is of the token form. It takes no memory.
pub fn has_token_form(text: &[u8]) -> bool
    ensures { result ≡ meaning.has_token_form text.now }
{
    let (_, name) = parted(text);
    token_before(name).is_some()
}

/// The path and the token of a text whose last name begins with a token and a semicolon, and that is a path without them;
/// None exactly where the text is of no path and token. The text may be longer than a path.
#[tactic(auto, unfolding(crate::specs::Tokens::read_token))]
pub fn read_token(alloc: Global, text: &[u8]) -> Result<Option<(Path, Token)>, Memory>
    ensures value { IfOk result (λ read. read ≡ meaning.read_token text.now) }

    // Where the last name is not of the token form it takes no memory.
    ensures no_form { meaning.has_token_form text.now ≡ false → result ≡ Ok None }
{
    let (folder, name) = parted(text);
    let Some((token, more)) = token_before(name) else {
        return Ok(None);
    };
    let bytes = joined(alloc, folder, more)?;
    if !is_path(bytes.as_slice()) {
        return Ok(None);
    }
    let path = Path::of(alloc, bytes.as_slice())?;
    Ok(Some((path, token)))
}

// All up to the last slash, with it, and the last name.
pub(crate) fn parted(text: &[u8]) -> (&[u8], &[u8])
    ensures folder { result.0.now ≡ meaning.folder text.now }
    ensures name { result.1.now ≡ meaning.last_name text.now }
{
    text.split_at(text.len() - last_name_len(text))
}

// How many bytes follow the last slash, or how many there are where there is none.
fn last_name_len(text: &[u8]) -> usize
    ensures value { result ≡ suffix_len (λ b. not (b == 47)) text.now }
    ensures within { result ≤ length text.now }
{
    text.iter().rev().take_while(|b| **b != b'/').count()
}

fn joined(alloc: Global, first: &[u8], second: &[u8]) -> Result<Vec<u8>, Memory>
    ensures { IfOk result (λ both. both.items ≡ first.now ++ second.now) }
{
    let mut both = Vec::from_slice(alloc, first)?;
    both.extend_from_slice(second)?;
    Ok(both)
}

// The token that the name begins with, and what stands behind it and its semicolon.
#[tactic(auto, using(crate::proofs::Digits::front_digits, crate::proofs::Digits::front_length), unfolding(crate::specs::Tokens::begins_with_token))]
fn token_before(name: &[u8]) -> Option<(Token, &[u8])>
    ensures { MatchOption result (meaning.begins_with_token name.now ≡ false)
        (λ r. (meaning.begins_with_token name.now ≡ true) × (r.0 ≡ meaning.token_of name.now) × (r.1.now ≡ drop (meaning.digit_count name.now + 34) name.now)) }
{
    let (digits, behind) = name.split_at(digit_count(name));
    let expiry = expiry_of(digits)?;
    let (mac, more) = mac_before(behind)?;
    Some((Token { expiry, mac }, more))
}

fn digit_count(text: &[u8]) -> usize
    ensures { result ≡ meaning.digit_count text.now }
{
    text.iter().take_while(|b| b.is_ascii_digit()).count()
}

fn expiry_of(digits: &[u8]) -> Option<u64>
    requires { AllDigits 10 digits.now }
    ensures { MatchOption result (meaning.is_expiry digits.now ≡ false)
        (λ n. (meaning.is_expiry digits.now ≡ true) × (n ≡ digits_value 10 digits.now)) }
{
    if !has_no_leading_zero(digits) {
        return None;
    }
    number(digits)
}

fn has_no_leading_zero(digits: &[u8]) -> bool
    ensures { result ≡ meaning.has_no_leading_zero digits.now }
{
    match digits {
        [] => false,
        [_] => true,
        [first, ..] => *first != b'0',
    }
}

// The number that decimal digits write, where there is one and it is below 2 to the 64th.
#[tactic(auto, using(crate::proofs::Digits::digits_are_text))]
fn number(digits: &[u8]) -> Option<u64>
    requires { AllDigits 10 digits.now }
    ensures { MatchOption result ((0 < length digits.now) → 2 ^ 64 ≤ digits_value 10 digits.now)
        (λ n. (n ≡ digits_value 10 digits.now) × (0 < length digits.now)) }
{
    let text = str::from_utf8(digits).ok()?;
    text.parse::<u64>().ok()
}

// The 16 bytes behind a dot, and what stands behind them and a semicolon.
fn mac_before(bytes: &[u8]) -> Option<([u8; 16], &[u8])>
    ensures { MatchOption result (meaning.has_mac bytes.now ≡ false)
        (λ r. (meaning.has_mac bytes.now ≡ true) × (r.0 ≡ meaning.decoded (decode_of (take 32 (drop 1 bytes.now)))) × (r.1.now ≡ drop 34 bytes.now)) }
{
    let (dot, rest) = bytes.split_first()?;
    if *dot != b'.' || rest.len() < 32 {
        return None;
    }
    let (digits, behind) = rest.split_at(32);
    if !goes_on(behind) {
        return None;
    }
    let mac = mac_of(digits)?;
    Some((mac, &behind[1..]))
}

// The bytes of 32 lower-case hexadecimal digits.
fn mac_of(digits: &[u8]) -> Option<[u8; 16]>
    requires { length digits.now ≡ 32 }
    ensures { MatchOption result (list_all meaning.is_lower_hex digits.now ≡ false)
        (λ mac. (list_all meaning.is_lower_hex digits.now ≡ true) × (mac ≡ meaning.decoded (decode_of digits.now))) }
{
    if !are_lower_hex(digits) {
        return None;
    }
    <[u8; 16] as FromHex>::from_hex(digits).ok()
}

fn are_lower_hex(bytes: &[u8]) -> bool
    ensures { result ≡ list_all meaning.is_lower_hex bytes.now }
{
    bytes.iter().all(|b| is_lower_hex(*b))
}

fn is_lower_hex(b: u8) -> bool
    ensures { result ≡ meaning.is_lower_hex b }
{
    matches!(b, b'0'..=b'9' | b'a'..=b'f')
}

// A semicolon, and at least one byte more.
fn goes_on(bytes: &[u8]) -> bool
    ensures { result ≡ meaning.goes_on bytes.now }
{
    bytes.len() > 1 && bytes[0] == b';'
}
