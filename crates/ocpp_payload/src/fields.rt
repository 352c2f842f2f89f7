//! The members of a payload.
ghost use Rattle.std.specs.Prelude.{◌≡◌};
ghost use Rattle.std.specs.Option.{option_map};
ghost use Rattle.json_data.specs.View.{view};
ghost use Rattle.ocpp_payload.specs.Fields.{present, required, optional, with_default};
ghost use Rattle.ocpp_payload.specs.Gives.{Gives};

use crate::fault::{ReadResult, refused};
use crate::kind::Kind;
use json::Value;
use json_data::{is_null, member_of};
use ocpp_types::ErrorCode;
use std::alloc::Global;

/// Reads a member that has to be there.
pub fn required<K: Kind>(
    alloc: Global,
    object: &Value<'_>,
    field: &'static str,
    kind: K,
) -> ReadResult<K::Out>
    ensures { Gives result (required (K.reads kind) field.now (view object.now)) }
{
    match present(object, field) {
        Some(value) => kind.read(alloc, field, value),
        None => refused(ErrorCode::OccurenceConstraintViolation, field),
    }
}

/// Reads a member that may be missing.
pub fn optional<K: Kind>(
    alloc: Global,
    object: &Value<'_>,
    field: &'static str,
    kind: K,
) -> ReadResult<Option<K::Out>>
    ensures { Gives result (optional (K.reads kind) field.now (view object.now)) }
{
    match present(object, field) {
        Some(value) => Ok(Some(kind.read(alloc, field, value)?)),
        None => Ok(None),
    }
}

/// Reads a member that counts as sent with that value where it is missing.
pub fn with_default<K: Kind>(
    alloc: Global,
    object: &Value<'_>,
    field: &'static str,
    kind: K,
    default: K::Out,
) -> ReadResult<K::Out>
    ensures { Gives result (with_default default (K.reads kind) field.now (view object.now)) }
{
    Ok(optional(alloc, object, field, kind)?.unwrap_or(default))
}

/// The value of a member, unless it is missing or `null`.
fn present<'v, 'a>(object: &'v Value<'a>, field: &str) -> Option<&'v Value<'a>>
    ensures { option_map (λ v. view v.now) result ≡ present field.now (view object.now) }
{
    match member_of(object, field) {
        Some(value) if is_null(value) => None,
        found => found,
    }
}
