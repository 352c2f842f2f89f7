//! What is read in place of a name.
ghost use Rattle.std.specs.Prelude.{◌≡◌, option_map};
ghost use Rattle.json.specs.Value.{value_view};
ghost use Rattle.repairs.specs.Names.{names, same_letters, alike, is_blank, named, named_or, named_if_any, is_unnamed};

use json::Value;
use ocpp_types::Named;

/// The first of the names that the text is, without the blanks around it and but for the case of
/// ASCII letters.
fn alike<T: Named>(text: &str) -> Option<&'static str>
    ensures { option_map (λ name. name.now) result ≡ alike (names T.names) text.now }
{
    let wanted = text.trim();
    for (name, _) in T::table() {
        if same_letters(name, wanted) {
            return Some(name);
        }
    }
    None
}

fn same_letters(name: &str, text: &str) -> bool
    ensures { result ≡ same_letters name.now text.now }
{
    name.eq_ignore_ascii_case(text)
}

fn is_blank(text: &str) -> bool
    ensures { result ≡ is_blank text.now }
{
    text.trim().is_empty()
}

/// The name that is alike. Where none is, the value is kept.
pub(crate) fn named<'a, T: Named>(value: Value<'a>) -> Value<'a>
    ensures { value_view result ≡ named (names T.names) (value_view value.entry) }
{
    match value {
        Value::String(text) => Value::String(alike::<T>(text).unwrap_or(text)),
        other => other,
    }
}

/// The name that is alike. Where none is, the default; null counts as no member.
pub(crate) fn named_or<'a, T: Named>(default: &'static str, value: Value<'a>) -> Value<'a>
    ensures { value_view result
        ≡ named_or default.now (names T.names) (value_view value.entry) }
{
    match value {
        Value::Null => Value::Null,
        Value::String(text) => Value::String(alike::<T>(text).unwrap_or(default)),
        _ => Value::String(default),
    }
}

/// As `named`, and a text of blanks is left out.
pub(crate) fn named_if_any<'a, T: Named>(value: Value<'a>) -> Option<Value<'a>>
    ensures { option_map (λ v. value_view v) result
        ≡ named_if_any (names T.names) (value_view value.entry) }
{
    match value {
        Value::String(text) if is_blank(text) => None,
        other => Some(named::<T>(other)),
    }
}

/// Whether the value stands where a name should, and no name is alike. Null and blanks count as no
/// member.
pub(crate) fn is_unnamed<T: Named>(value: &Value<'_>) -> bool
    ensures { result ≡ is_unnamed (names T.names) (value_view value.now) }
{
    match value {
        Value::Null => false,
        Value::String(text) => !is_blank(text) && alike::<T>(text).is_none(),
        _ => true,
    }
}
