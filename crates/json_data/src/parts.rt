//! The parts of a value, by its data.
ghost use Rattle.std.specs.Prelude.{◌≡◌, is_some, option_map, option_and_then};
ghost use Rattle.serde_json.specs.Find.{get, as_null, as_bool, as_integer, as_number, as_i64, as_u64, as_str, as_array, as_object};
ghost use Rattle.json_data.specs.View.{view, items_view};

use crate::numbers::number_of;
use json::Value;

/// The member of that name, the last one where it comes twice.
pub fn member_of<'v, 'a>(object: &'v Value<'a>, name: &str) -> Option<&'v Value<'a>>
    ensures { option_map (λ v. view v.now) result ≡ get name.now (view object.now) }
{
    object.get(name)
}

/// Whether the value is `null`.
pub fn is_null(value: &Value<'_>) -> bool
    ensures { result ≡ is_some (as_null (view value.now)) }
{
    value.is_null()
}

/// Whether the value is an object.
pub fn is_object(value: &Value<'_>) -> bool
    ensures { result ≡ is_some (as_object (view value.now)) }
{
    matches!(value, Value::Object(_))
}

/// The text that a value is.
pub fn text_of<'a>(value: &Value<'a>) -> Option<&'a str>
    ensures { option_map (λ s. s.now) result ≡ as_str (view value.now) }
{
    value.as_str()
}

/// The truth value that a value is.
pub fn truth_of(value: &Value<'_>) -> Option<bool>
    ensures { result ≡ as_bool (view value.now) }
{
    value.as_bool()
}

/// The integer that a value is: a number that `serde_json` holds as a signed or unsigned integer of
/// 64 bits. One written with a fraction or an exponent, `-0`, and one past 64 bits are floats to it.
pub fn integer_of(value: &Value<'_>) -> Option<i128>
    ensures { result ≡ option_and_then as_integer (as_number (view value.now)) }
{
    let Value::Number(text) = value else {
        return None;
    };
    number_of(text)?.as_i128()
}

/// The unsigned integer of 64 bits that a value is, as `serde_json` holds it.
pub fn unsigned_of(value: &Value<'_>) -> Option<u64>
    ensures { result ≡ option_and_then as_u64 (as_number (view value.now)) }
{
    let Value::Number(text) = value else {
        return None;
    };
    number_of(text)?.as_u64()
}

/// The signed integer of 64 bits that a value is, as `serde_json` holds it.
pub fn signed_of(value: &Value<'_>) -> Option<i64>
    ensures { result ≡ option_and_then as_i64 (as_number (view value.now)) }
{
    let Value::Number(text) = value else {
        return None;
    };
    number_of(text)?.as_i64()
}

/// The items of a list.
pub fn items_of<'v, 'a>(value: &'v Value<'a>) -> Option<&'v [Value<'a>]>
    ensures { option_map (λ vs. items_view vs.now) result ≡ as_array (view value.now) }
{
    match value {
        Value::Array(items) => Some(items.as_slice()),
        _ => None,
    }
}
