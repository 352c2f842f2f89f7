//! Columns of an answer, read as typed values. A column that holds anything else answers Failed.
ghost use Rattle.std.specs.Prelude.{◌≡◌, Some, IfOk};
ghost use Rattle.sqlite_value.specs.Order.{column};
ghost use Rattle.hub_rows.specs.Reservations.{shifted};
ghost use Rattle.ocpp_types.specs.Named.{named as by_name};
ghost use Rattle.sql_rows.specs.Values.{text_in, text_if_any, flag_in, count_in, count_if_any, number_in, number_if_any, name_if_any};
ghost use Rattle.sql_rows.specs.Told.{told};

use hub_rows::{ReservationId, StoreFault};
use ocpp_types::{Moment, Named, TagKey, Text};
use sqlite::{Error, ErrorCode, Row};
use std::alloc::Global;

/// A fault of the database, as a store tells it.
pub fn told(error: Error) -> StoreFault
    ensures { result ≡ told error }
{
    match error {
        Error::SqliteFailure(ErrorCode::OutOfMemory) => StoreFault::NoMemory,
        Error::SqliteFailure(ErrorCode::OperationInterrupted) => StoreFault::TooLong,
        _ => StoreFault::Failed,
    }
}

pub(crate) fn text(row: &Row, at: usize) -> Result<Text, StoreFault>
    ensures { IfOk result (λ t. t ≡ text_in (column row.now at)) }
{
    row.get::<String>(at).map(Text::from).map_err(told)
}

pub(crate) fn text_if_any(row: &Row, at: usize) -> Result<Option<Text>, StoreFault>
    ensures { IfOk result (λ t. t ≡ text_if_any (column row.now at)) }
{
    match row.get::<Option<String>>(at) {
        Ok(Some(text)) => Ok(Some(Text::from(text))),
        Ok(None) => Ok(None),
        Err(error) => Err(told(error)),
    }
}

/// A key of an id tag, which has to be the key of itself.
pub(crate) fn key(alloc: Global, row: &Row, at: usize) -> Result<TagKey, StoreFault>
    ensures { IfOk result (λ k. k ≡ text_in (column row.now at)) }
{
    let text = text(row, at)?;
    let key = TagKey::of(alloc, text.as_str())?;
    if key.as_str() == text.as_str() {
        Ok(key)
    } else {
        Err(StoreFault::Failed)
    }
}

pub(crate) fn flag(row: &Row, at: usize) -> Result<bool, StoreFault>
    ensures { IfOk result (λ b. b ≡ flag_in (column row.now at)) }
{
    row.get::<bool>(at).map_err(told)
}

pub(crate) fn count(row: &Row, at: usize) -> Result<u32, StoreFault>
    ensures { IfOk result (λ n. n ≡ count_in (column row.now at)) }
{
    row.get::<u32>(at).map_err(told)
}

/// A number from 0 on.
pub(crate) fn whole(row: &Row, at: usize) -> Result<u64, StoreFault>
    ensures { IfOk result (λ n. n ≡ count_in (column row.now at)) }
{
    row.get::<u64>(at).map_err(told)
}

pub(crate) fn connector(row: &Row, at: usize) -> Result<u8, StoreFault>
    ensures { IfOk result (λ n. n ≡ count_in (column row.now at)) }
{
    let count = count(row, at)?;
    if count <= 255 {
        Ok(count as u8)
    } else {
        Err(StoreFault::Failed)
    }
}

pub(crate) fn number(row: &Row, at: usize) -> Result<i64, StoreFault>
    ensures { IfOk result (λ n. n ≡ number_in (column row.now at)) }
{
    row.get::<i64>(at).map_err(told)
}

/// A number of 32 bits.
pub(crate) fn number_if_any(row: &Row, at: usize) -> Result<Option<i32>, StoreFault>
    ensures { IfOk result (λ n. n ≡ number_if_any (column row.now at)) }
{
    row.get::<Option<i32>>(at).map_err(told)
}

pub(crate) fn reservation_id(row: &Row, at: usize) -> Result<ReservationId, StoreFault>
    ensures { IfOk result (λ id. id ≡ shifted (number_in (column row.now at))) }
{
    match row.get::<i32>(at) {
        Ok(id) => Ok(ReservationId::new(id)),
        Err(error) => Err(told(error)),
    }
}

pub(crate) fn moment(row: &Row, at: usize) -> Result<Moment, StoreFault>
    ensures { IfOk result (λ m. m ≡ count_in (column row.now at)) }
{
    match row.get::<u64>(at) {
        Ok(seconds) => Moment::new(seconds).ok_or(StoreFault::Failed),
        Err(error) => Err(told(error)),
    }
}

pub(crate) fn moment_if_any(row: &Row, at: usize) -> Result<Option<Moment>, StoreFault>
    ensures { IfOk result (λ m. m ≡ count_if_any (column row.now at)) }
{
    match row.get::<Option<u64>>(at) {
        Ok(Some(seconds)) => match Moment::new(seconds) {
            Some(moment) => Ok(Some(moment)),
            None => Err(StoreFault::Failed),
        },
        Ok(None) => Ok(None),
        Err(error) => Err(told(error)),
    }
}

/// A value by its name.
pub(crate) fn named<T: Named>(row: &Row, at: usize) -> Result<T, StoreFault>
    ensures { IfOk result (λ x. by_name T.names (text_in (column row.now at)) ≡ Some x) }
{
    let text = text(row, at)?;
    match T::of(text.as_str()) {
        Some(value) => Ok(value),
        None => Err(StoreFault::Failed),
    }
}

pub(crate) fn named_if_any<T: Named>(row: &Row, at: usize) -> Result<Option<T>, StoreFault>
    ensures { IfOk result (λ x. x ≡ name_if_any T.names (column row.now at)) }
{
    match text_if_any(row, at)? {
        Some(text) => match T::of(text.as_str()) {
            Some(value) => Ok(Some(value)),
            None => Err(StoreFault::Failed),
        },
        None => Ok(None),
    }
}
