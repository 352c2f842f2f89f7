//! Repaired values as texts.
ghost use Rattle.std.specs.Prelude.{◌≡◌, IfOk, string_bytes};
ghost use Rattle.json.specs.Print.{print};
ghost use Rattle.json.specs.Tree.{HasNumbers, json_tokens};
ghost use Rattle.json.specs.Value.{value_view};

use json::{Value, to_vec};
use ocpp_types::Mem;
use std::alloc::Global;

/// The text of a value.
pub(crate) fn text_of(alloc: Global, value: &Value<'_>) -> Mem<String>
    requires { HasNumbers (value_view value.now) }
    ensures { IfOk result (λ text. string_bytes text ≡ print (json_tokens (value_view value.now))) }
{
    let bytes = to_vec(alloc, value)?;
    Ok(String::from_utf8(bytes).unwrap())
}
