//! Numbers of readings (docs/RULES.md, Readings).
ghost use Rattle.std.specs.Prelude.{◌≡◌, ◌≤◌, ◌<◌, ◌-◌, ◌*◌, ◌^◌, IfSome};
ghost use Rattle.std.specs.Str.Parse.{without_leading_plus};
ghost use Rattle.ocpp_types.specs.Micro.{scale, whole_billionths, fraction_billionths, billionths, thousandth, magnitude, micro};

use crate::digits::number_of_digits;
use crate::unit_of_measure::UnitOfMeasure;

/// The most digits of a reading before its point.
const WHOLE_DIGITS: usize = 12;

/// The most digits of a reading after its point.
const FRACTION_DIGITS: usize = 9;

/// The number of a reading, in millionths of its base unit. The text is an optional `+` or `-`, 1
/// to 12 decimal digits, and optionally a point with 1 to 9 decimal digits after it. kWh, kvarh,
/// kW, kVA and kvar are 1000 of their base unit, every other unit is its own, and no unit counts as
/// one. `None` for any other text, and where that isn't a whole number of millionths. The form of
/// the text and the scales are this project's choice.
pub fn read_micro(text: &str, unit: Option<UnitOfMeasure>) -> Option<i128>
    ensures { result ≡ micro text.now unit }
{
    match text.strip_prefix('-') {
        Some(rest) => Some(-(magnitude(rest, unit)? as i128)),
        None => Some(magnitude(without_plus(text), unit)? as i128),
    }
}

fn without_plus(text: &str) -> &str
    ensures { result.now ≡ without_leading_plus text.now }
{
    text.strip_prefix('+').unwrap_or(text)
}

fn magnitude(text: &str, unit: Option<UnitOfMeasure>) -> Option<u128>
    ensures value { result ≡ magnitude text.now unit }
    ensures within { IfSome result (λ n. n < 10 ^ 24) }
{
    thousandth(billionths(text)? * scale(unit))
}

fn scale(unit: Option<UnitOfMeasure>) -> u128
    ensures value { result ≡ scale unit }
    ensures within { result ≤ 1000 }
{
    match unit {
        Some(
            UnitOfMeasure::KWh
            | UnitOfMeasure::Kvarh
            | UnitOfMeasure::KW
            | UnitOfMeasure::KVA
            | UnitOfMeasure::Kvar,
        ) => 1000,
        _ => 1,
    }
}

fn thousandth(number: u128) -> Option<u128>
    ensures value { result ≡ thousandth number }
    ensures within { IfSome result (λ n. n ≤ number) }
{
    if number % 1000 == 0 {
        Some(number / 1000)
    } else {
        None
    }
}

fn billionths(text: &str) -> Option<u128>
    ensures value { result ≡ billionths text.now }
    ensures within { IfSome result (λ n. n < 10 ^ 21) }
{
    match text.split_once('.') {
        Some((whole, fraction)) => Some(whole_billionths(whole)? + fraction_billionths(fraction)?),
        None => whole_billionths(text),
    }
}

fn whole_billionths(text: &str) -> Option<u128>
    ensures value { result ≡ whole_billionths text.now }
    ensures within { IfSome result (λ n. n ≤ (10 ^ 12 - 1) * 10 ^ 9) }
{
    Some(number_of_digits(text, WHOLE_DIGITS)? as u128 * 1_000_000_000)
}

fn fraction_billionths(text: &str) -> Option<u128>
    ensures value { result ≡ fraction_billionths text.now }
    ensures within { IfSome result (λ n. n < 10 ^ 9) }
{
    let digits = number_of_digits(text, FRACTION_DIGITS)?;
    let missing = FRACTION_DIGITS - text.len();
    Some((digits * 10_u64.pow(missing as u32)) as u128)
}
