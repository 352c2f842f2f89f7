//! The words of a line.
ghost use Rattle.std.specs.Prelude.{◌≡◌, IfOk, option_map};
ghost use Rattle.lines.specs.Words.{first_word, only_word, number_of, begins_with_0, transaction_number, end_number, moment_at, is_expiry, expiry_of, meter_of};

use hub_rows::LAST_NUMBER;
use ocpp_types::{Mem, Moment, Text, number_of_digits};
use std::alloc::Global;

/// The most digits of a number in a line.
const MAX_DIGITS: usize = 12;

/// The first word of a text, and what follows the one space after it. `None` where the text has no
/// space or begins with one.
pub fn first_word(text: &str) -> Option<(&str, &str)>
    ensures { option_map (λ p. (p.0.now, p.1.now)) result ≡ first_word text.now }
{
    let (word, rest) = text.split_once(' ')?;
    if word.is_empty() {
        return None;
    }
    Some((word, rest))
}

/// The whole text, where it is one word.
pub fn only_word(text: &str) -> Option<&str>
    ensures { option_map (λ w. w.now) result ≡ only_word text.now }
{
    match text.split_once(' ') {
        Some(_) => None,
        None if text.is_empty() => None,
        None => Some(text),
    }
}

/// The whole text as a name, where it is one word.
pub fn name_of(alloc: Global, rest: &str) -> Mem<Option<Text>>
    ensures { IfOk result (λ n. n ≡ only_word rest.now) }
{
    match only_word(rest) {
        Some(word) => Ok(Some(Text::copy_of(alloc, word)?)),
        None => Ok(None),
    }
}

/// The moment of a text of 1 to 12 decimal digits, `None` past the year 9999.
pub fn moment_at(text: &str) -> Option<Moment>
    ensures { result ≡ moment_at text.now }
{
    Moment::new(number_of(text)?)
}

/// Whether a word is an expiry: `-` or a moment.
pub fn is_expiry(word: &str) -> bool
    ensures { result ≡ is_expiry word.now }
{
    word == "-" || moment_at(word).is_some()
}

/// An expiry, none for `-`.
pub fn expiry_of(word: &str) -> Option<Moment>
    ensures { result ≡ expiry_of word.now }
{
    if word == "-" { None } else { moment_at(word) }
}

/// A meter, none for `-`. `None` where the word is neither.
pub fn meter_of(word: &str) -> Option<Option<u64>>
    ensures { result ≡ meter_of word.now }
{
    if word == "-" {
        return Some(None);
    }
    Some(Some(number_of(word)?))
}

/// The number that a text of 1 to 12 decimal digits is.
pub fn number_of(text: &str) -> Option<u64>
    ensures { result ≡ number_of text.now }
{
    number_of_digits(text, MAX_DIGITS)
}

/// The number of a transaction, 1 to 2147483647, in decimal without a 0 in front.
pub fn transaction_number(text: &str) -> Option<u32>
    ensures { result ≡ transaction_number text.now }
{
    if begins_with_0(text) {
        return None;
    }
    match u32::try_from(number_of(text)?) {
        Ok(number) if number <= LAST_NUMBER => Some(number),
        _ => None,
    }
}

/// How far numbers go, by 1 to 12 decimal digits: no number is past 2147483647.
pub fn end_number(text: &str) -> Option<u32>
    ensures { result ≡ end_number text.now }
{
    Some(number_of(text)?.min(u64::from(LAST_NUMBER)) as u32)
}

fn begins_with_0(text: &str) -> bool
    ensures { result ≡ begins_with_0 text.now }
{
    matches!(text.as_bytes(), [b'0', ..])
}
