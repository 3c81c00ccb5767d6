// The lexeme at the front of some bytes.
ghost use Rattle.std.specs.Prelude.{◌≡◌, ◌≤◌, ◌<◌, true, false, IfOk, IfSome, length, map};
ghost use Rattle.std.specs.List.{prefix_len, list_all};
ghost use Rattle.std.specs.Char.{is_ascii_digit, is_ascii_alphabetic, to_ascii_lowercase};
ghost use Rattle.dl_base.specs.Name.{is_name_byte};
ghost use Rattle.sql_lex.specs.Spelling.{is_literal_byte, begins};
ghost use Rattle.sql_lex.specs.Scan.{decimal_below, word_front, number_front, literal_text, literal_front, sign_front, front};

use crate::lexeme::LexKind;
use dl_base::limits::MOST_NAME_BYTES;
use dl_base::{Memory, Name, Text};
use std::alloc::Global;

/// The greatest number.
const MAX_NUMBER: u64 = 9_223_372_036_854_775_807;

const QUOTE: u8 = b'\'';

fn is_name_byte(b: u8) -> bool
    ensures { result ≡ is_name_byte b }
{
    b.is_ascii_alphabetic() || b.is_ascii_digit() || b == b'_'
}

fn is_literal_byte(b: u8) -> bool
    ensures { result ≡ is_literal_byte b }
{
    b >= 0x20 && b != 0x7f
}

fn word_len(bytes: &[u8]) -> usize
    ensures { result ≡ prefix_len is_name_byte bytes.now }
{
    bytes.iter().take_while(|b| is_name_byte(**b)).count()
}

fn digit_len(bytes: &[u8]) -> usize
    ensures { result ≡ prefix_len is_ascii_digit bytes.now }
{
    bytes.iter().take_while(|b| b.is_ascii_digit()).count()
}

// The bytes in lower case.
fn folded(alloc: Global, bytes: &[u8]) -> Result<Vec<u8>, Memory>
    ensures { IfOk result (λ made. made.items ≡ map to_ascii_lowercase bytes.now) }
{
    Ok(bytes.iter().map(|b| b.to_ascii_lowercase()).collect(alloc)?)
}

// The word that begins with a letter, unless it is too long.
#[tactic(auto, using(crate::proofs::Words::is_folded_name))]
fn word(alloc: Global, bytes: &[u8]) -> Result<Option<(LexKind, usize)>, Memory>
    requires { begins is_ascii_alphabetic bytes.now ≡ true }
    ensures { IfOk result (λ f. f ≡ word_front bytes.now) }
{
    let len = word_len(bytes);
    if len > MOST_NAME_BYTES {
        return Ok(None);
    }
    let folded = folded(alloc, &bytes[..len])?;
    let name = Name::of(alloc, folded.as_slice())?;
    Ok(Some((LexKind::Word(name), len)))
}

// The number that decimal digits say, unless it is too wide.
#[tactic(auto, using(crate::proofs::Loops::decimal_step, crate::proofs::Loops::too_wide, crate::proofs::Loops::digit_at))]
fn decimal(digits: &[u8]) -> Option<u64>
    requires { list_all is_ascii_digit digits.now ≡ true }
    ensures { result ≡ decimal_below digits.now }
{
    let mut value: u64 = 0;
    for digit in digits {
        let units = u64::from(*digit - b'0');
        if value > (MAX_NUMBER - units) / 10 {
            return None;
        }
        value = 10 * value + units;
    }
    Some(value)
}

#[tactic(auto, using(crate::proofs::Runs::run_all_digits))]
fn number(bytes: &[u8]) -> Option<(LexKind, usize)>
    ensures { result ≡ number_front bytes.now }
{
    let len = digit_len(bytes);
    let value = decimal(&bytes[..len])?;
    Some((LexKind::Number(value as i64), len))
}

// The text of a literal behind its first quote, and how many bytes there are up to its end.
fn literal_text(alloc: Global, bytes: &[u8]) -> Result<Option<(Text, usize)>, Memory>
    ensures text { IfOk result (λ t. t ≡ literal_text false bytes.now) }
    ensures within { IfOk result (λ t. IfSome t (λ t. t.1 ≤ length bytes.now)) }
{
    let mut text = Vec::new(alloc);
    let mut quote = false;
    for (i, b) in bytes.iter().enumerate() {
        if *b == QUOTE {
            if quote {
                text.push(QUOTE)?;
            }
            quote = !quote;
        } else if quote {
            return Ok(Some((Text::from_vec(text), i)));
        } else if is_literal_byte(*b) {
            text.push(*b)?;
        } else {
            return Ok(None);
        }
    }
    Ok(quote.then_some((Text::from_vec(text), bytes.len())))
}

fn literal(alloc: Global, bytes: &[u8]) -> Result<Option<(LexKind, usize)>, Memory>
    ensures { IfOk result (λ f. f ≡ literal_front (literal_text false bytes.now)) }
{
    match literal_text(alloc, bytes)? {
        None => Ok(None),
        Some((text, len)) => Ok(Some((LexKind::Literal(text), len + 1))),
    }
}

fn sign(first: u8, rest: &[u8]) -> Option<(LexKind, usize)>
    ensures { result ≡ sign_front first rest.now }
{
    let (place, len) = match first {
        b'<' => match rest {
            [b'>', ..] => (10, 2),
            [b'=', ..] => (12, 2),
            _ => (11, 1),
        },
        b'>' => match rest {
            [b'=', ..] => (14, 2),
            _ => (13, 1),
        },
        b'(' => (0, 1),
        b')' => (1, 1),
        b',' => (2, 1),
        b'.' => (3, 1),
        b';' => (4, 1),
        b'*' => (5, 1),
        b'+' => (6, 1),
        b'-' => (7, 1),
        b'/' => (8, 1),
        b'=' => (9, 1),
        _ => return None,
    };
    Some((LexKind::Sign(place), len))
}

#[tactic(auto, unfolding(crate::specs::Scan::front))]
fn at_front(alloc: Global, bytes: &[u8]) -> Result<Option<(LexKind, usize)>, Memory>
    ensures { IfOk result (λ f. f ≡ front bytes.now) }
{
    let [first, rest @ ..] = bytes else {
        return Ok(None);
    };
    if first.is_ascii_alphabetic() {
        word(alloc, bytes)
    } else if first.is_ascii_digit() {
        Ok(number(bytes))
    } else if *first == QUOTE {
        literal(alloc, rest)
    } else {
        Ok(sign(*first, rest))
    }
}

/// The lexeme at the front, and how many bytes spell it. Only those bytes and the one behind them are read.
pub fn front_lexeme(alloc: Global, bytes: &[u8]) -> Result<Option<(LexKind, usize)>, Memory>
    ensures exact { IfOk result (λ f. f ≡ front bytes.now) }
    ensures within { IfOk result (λ f. IfSome f (λ f. (0 < f.1) × (f.1 ≤ length bytes.now))) }
{
    at_front(alloc, bytes)
}
