//! What is read in place of a text, or as one.
ghost use Rattle.std.specs.Prelude.{◌≡◌};
ghost use Rattle.json.specs.Value.{value_view};
ghost use Rattle.repairs.specs.Texts.{shortened, whole, without_zeros, of_text, value_text, time, is_zero};
ghost use Rattle.std.specs.List.{list_all};

use json::Value;
use ocpp_types::parse_time;

/// The first characters of a text, at most so many.
pub(crate) fn shortened(text: &str, most: usize) -> &str
    ensures { result.now ≡ shortened most text.now }
{
    let mut rest = text.chars();
    for _ in 0..most {
        if rest.next().is_none() {
            return text;
        }
    }
    &text[..text.len() - rest.as_str().len()]
}

/// What stands before the first point, where all that stands after it is zeros.
pub(crate) fn whole(text: &str) -> &str
    ensures { result.now ≡ whole text.now }
{
    match text.split_once('.') {
        Some((whole, fraction)) if are_zeros(fraction) => whole,
        _ => text,
    }
}

fn are_zeros(text: &str) -> bool
    ensures { result ≡ list_all is_zero text.now }
{
    text.bytes().all(|byte| byte == b'0')
}

/// Digits without the zeros that they begin with. The last digit stays.
pub(crate) fn without_zeros(text: &str) -> &str
    ensures { result.now ≡ without_zeros text.now }
{
    let mut digits = text;
    while let Some(rest) = digits.strip_prefix('0') {
        if rest.is_empty() {
            return digits;
        }
        digits = rest;
    }
    digits
}

/// A text of at most so many characters. What is no text is kept.
pub(crate) fn at_most(most: usize, value: Value<'_>) -> Value<'_>
    ensures { value_view result ≡ of_text (shortened most) (value_view value.entry) }
{
    match value {
        Value::String(text) => Value::String(shortened(text, most)),
        other => other,
    }
}

/// The value of a reading (OCPP 1.6, section 7.43, SampledValue): a number is read as its text.
pub(crate) fn value_text(value: Value<'_>) -> Value<'_>
    ensures { value_view result ≡ value_text (value_view value.entry) }
{
    match value {
        Value::Number(text) => Value::String(text),
        other => other,
    }
}

/// A time. What can't be read as one is read as the text `now`.
pub(crate) fn time<'a>(now: &'a str, value: Value<'a>) -> Value<'a>
    ensures { value_view result ≡ time now.now (value_view value.entry) }
{
    match value {
        Value::Null => Value::Null,
        Value::String(text) if parse_time(text).is_some() => Value::String(text),
        _ => Value::String(now),
    }
}
