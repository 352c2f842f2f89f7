//! What is read in place of an integer.
ghost use Rattle.std.specs.Prelude.{◌≡◌};
ghost use Rattle.std.specs.Char.{is_ascii_digit};
ghost use Rattle.std.specs.List.{list_all};
ghost use Rattle.json.specs.Value.{value_view};
ghost use Rattle.repairs.specs.Integers.{is_number, number_or, is_digits, integer};

use crate::texts::{whole, without_zeros};
use json::Value;

/// A number without its fraction, where that is zeros, and a text of decimal digits as their
/// number. What is neither is kept.
pub(crate) fn integer(value: Value<'_>) -> Value<'_>
    ensures { value_view result ≡ integer (value_view value.entry) }
{
    match value {
        Value::Number(text) => number_or(whole(text), Value::Number(text)),
        Value::String(text) if is_digits(text) => {
            number_or(without_zeros(text), Value::String(text))
        }
        other => other,
    }
}

/// The number of that text. Where the text is none, the other value.
fn number_or<'a>(text: &'a str, other: Value<'a>) -> Value<'a>
    ensures { value_view result ≡ number_or text.now (value_view other.entry) }
{
    if is_number(text) {
        Value::Number(text)
    } else {
        other
    }
}

/// Whether a text is a number of JSON, and no more.
fn is_number(text: &str) -> bool
    ensures { result ≡ is_number text.now }
{
    json::is_number(text)
}

fn is_digits(text: &str) -> bool
    ensures { result ≡ is_digits text.now }
{
    !text.is_empty() && are_digits(text)
}

fn are_digits(text: &str) -> bool
    ensures { result ≡ list_all is_ascii_digit text.now }
{
    text.bytes().all(|byte| byte.is_ascii_digit())
}
