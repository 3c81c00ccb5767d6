// The number that a text of decimal digits is, as the options of the command line and the orders of a script write it.
ghost use Rattle.std.specs.Prelude.{◌≡◌, ◌≤◌, ◌<◌, ◌^◌, length, MatchOption};
ghost use Rattle.std.specs.Char.{is_ascii_digit};
ghost use Rattle.std.specs.List.{list_all};
ghost use Rattle.std.specs.Str.Parse.{AllDigits, digits_value};
ghost use Rattle.dl_base.specs.Digits.{is_number, number_in};

/// The number that a text of decimal digits writes, where it has one digit at least and no more than `most_digits`, and the number
/// is neither below `least` nor above `most`; else nothing. There is no sign, and zeros may stand in front.
#[tactic(auto, using(crate::proofs::DigitTexts::number_digits), unfolding(crate::specs::Digits::is_number, crate::specs::Digits::number_in))]
pub fn number_in(most_digits: usize, least: u64, most: u64, bytes: &[u8]) -> Option<u64>
    ensures { result ≡ number_in most_digits least most bytes.now }
{
    if !is_number(most_digits, bytes) {
        return None;
    }
    match value_of(bytes) {
        Some(number) if least <= number && number <= most => Some(number),
        _ => None,
    }
}

#[tactic(auto, unfolding(crate::specs::Digits::is_number))]
fn is_number(most_digits: usize, bytes: &[u8]) -> bool
    ensures { result ≡ is_number most_digits bytes.now }
{
    !bytes.is_empty() && bytes.len() <= most_digits && are_digits(bytes)
}

fn are_digits(bytes: &[u8]) -> bool
    ensures { result ≡ list_all is_ascii_digit bytes.now }
{
    bytes.iter().all(|b| b.is_ascii_digit())
}

// The number that decimal digits write, where it is below 2 to the 64th.
#[tactic(auto, using(crate::proofs::DigitTexts::digits_are_text))]
fn value_of(digits: &[u8]) -> Option<u64>
    requires some { 0 < length digits.now }
    requires digits { AllDigits 10 digits.now }
    ensures { MatchOption result (2 ^ 64 ≤ digits_value 10 digits.now) (λ n. n ≡ digits_value 10 digits.now) }
{
    let text = str::from_utf8(digits).ok()?;
    text.parse::<u64>().ok()
}
