//! Values as they are bound to the parameters of a statement.
ghost use Rattle.std.specs.Prelude.{◌≡◌, ◌<◌, ◌^◌, option_map, pos, nat_lt, IfOk, IfSome, IsErr, IsOk, OnErr, OnOk};
ghost use Rattle.ocpp_types.specs.TagKey.{key_of};
ghost use Rattle.sql_rows.specs.Kept.{IsAdded, rows_changed};

use hub_rows::StoreFault;
use ocpp_types::{Mem, Moment, Named, TagKey, Text};
use sql_rows::told;
use sqlite::{Error, ErrorCode};
use std::alloc::Global;

pub(crate) fn lent(text: &Option<Text>) -> Option<&str>
    ensures { option_map (λ t. t.now) result ≡ text.now }
{
    text.as_ref().map(|text| text.as_str())
}

pub(crate) fn lent_key(key: &Option<TagKey>) -> Option<&str>
    ensures { option_map (λ t. t.now) result ≡ key.now }
{
    key.as_ref().map(|key| key.as_str())
}

/// The key of a tag that may be missing.
pub(crate) fn key_if_any(alloc: Global, tag: &Option<Text>) -> Mem<Option<TagKey>>
    ensures { IfOk result (λ key. key ≡ option_map key_of tag.now) }
{
    match tag {
        Some(tag) => Ok(Some(TagKey::of(alloc, tag.as_str())?)),
        None => Ok(None),
    }
}

pub(crate) fn seconds(moment: Moment) -> i64
    ensures { result ≡ pos moment }
{
    moment.seconds() as i64
}

/// A count, if it is below 2^63.
pub(crate) fn number_of(count: u64) -> Option<i64>
    ensures number { IfSome result (λ n. n ≡ pos count) }
    ensures small { IfSome result (λ _. count < 2 ^ 63) }
{
    if count > i64::MAX as u64 {
        return None;
    }
    Some(count as i64)
}

pub(crate) fn seconds_if_any(moment: &Option<Moment>) -> Option<i64>
    ensures { result ≡ option_map pos moment.now }
{
    moment.map(seconds)
}

pub(crate) fn name_if_any<T: Named>(value: &Option<T>) -> Option<&'static str>
    ensures { option_map (λ t. t.now) result ≡ option_map T.name_of value.now }
{
    match value {
        Some(value) => Some(value.name()),
        None => None,
    }
}

/// What a statement did, as a store tells it.
pub(crate) fn done(ran: Result<usize, Error>) -> Result<(), StoreFault>
    ensures ok { OnOk result (IsOk ran) }
    ensures err { OnErr result (IsErr ran) }
{
    ran.map(|_| ()).map_err(|error| told(error))
}

/// Whether a statement changed rows, as a store tells it.
pub(crate) fn changed_any(ran: Result<usize, Error>) -> Result<bool, StoreFault>
    ensures ok { OnOk result (IsOk ran) }
    ensures any { IfOk result (λ any. any ≡ nat_lt 0 (rows_changed ran)) }
    ensures err { OnErr result (IsErr ran) }
{
    ran.map(|rows| rows > 0).map_err(|error| told(error))
}

/// Whether a row was added, which a constraint may refuse, as a store tells it.
pub(crate) fn added(ran: Result<usize, Error>) -> Result<bool, StoreFault>
    ensures ok { IfOk result (λ is_added. IsAdded is_added ran) }
    ensures err { OnErr result (IsErr ran) }
{
    match ran {
        Ok(_) => Ok(true),
        Err(Error::SqliteFailure(ErrorCode::ConstraintViolation(_))) => Ok(false),
        Err(error) => Err(told(error)),
    }
}
