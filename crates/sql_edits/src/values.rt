//! Edits of meter values.
ghost use Rattle.std.specs.Prelude.{◌≡◌, ◌+◌, IfOk, length};
ghost use Rattle.hub_rows.specs.Changes.{with_meter_values};
ghost use Rattle.hub_rows.specs.MeterValues.{numbers_taken};
ghost use Rattle.meter_values.specs.Written.{text_of};
ghost use Rattle.sqlite.specs.Held.{state};
ghost use Rattle.sql_rows.specs.Kept.{Edits, EditsIn, IsPutIn};
ghost use Rattle.sql_rows.specs.TypedTables.{meter_values};

use crate::binds::done;
use hub_rows::{MeterValue, StoreFault};
use meter_values::write_sampled;
use sqlite::{Alter, Connection, params};
use std::alloc::Global;

/// How many readings a meter value has.
pub(crate) fn count_of(value: &MeterValue) -> Result<u32, StoreFault>
    ensures { IfOk result (λ n. n ≡ length value.now.sampled) }
{
    u32::try_from(value.sampled.as_slice().len()).map_err(|_| StoreFault::Failed)
}

/// Puts the row of a meter value, with the number and the text of its readings.
fn put_row<S: Alter>(
    conn: &mut Connection<S>,
    op: &str,
    station: &str,
    first: u32,
    value: &MeterValue,
    count: u32,
    sampled: &str,
) -> Result<(), StoreFault>
    requires count { count ≡ length value.now.sampled }
    requires text { sampled.now ≡ text_of value.now.sampled }
    ensures edits { EditsIn (IsPutIn meter_values (record { op = op.now; station = station.now; first = first; value = value.now })) (state S.Store conn.old) (state S.Store conn.new) result }
{
    done(conn.execute(
        sql_tables::meter_values::ADD,
        params![
            op,
            station,
            first,
            u32::from(value.connector),
            value.transaction,
            value.at,
            count,
            sampled
        ],
    ))
}

/// Puts a meter value.
pub(crate) fn put_value<S: Alter>(
    conn: &mut Connection<S>,
    alloc: Global,
    op: &str,
    station: &str,
    first: u32,
    value: &MeterValue,
) -> Result<(), StoreFault>
    ensures edits { EditsIn (IsPutIn meter_values (record { op = op.now; station = station.now; first = first; value = value.now })) (state S.Store conn.old) (state S.Store conn.new) result }
{
    let count = count_of(value)?;
    let text = write_sampled(alloc, value.sampled.as_slice())?;
    put_row(conn, op, station, first, value, count, text.as_str())
}

/// The number after those that a meter value takes from the first on. It is within 32 bits, or else this answers Failed.
fn number_after(first: u32, value: &MeterValue) -> Result<u32, StoreFault>
    ensures { IfOk result (λ n. n ≡ first + numbers_taken value.now) }
{
    let taken = count_of(value)?.max(1);
    first.checked_add(taken).ok_or(StoreFault::Failed)
}

/// Puts meter values of a station, whose readings are numbered from the first number on.
pub(crate) fn put_values<S: Alter>(
    conn: &mut Connection<S>,
    alloc: Global,
    op: &str,
    station: &str,
    first: u32,
    values: &[MeterValue],
) -> Result<(), StoreFault>
    ensures edits { Edits (λ rows. record rows { meter_values = with_meter_values op.now station.now first values.now rows.meter_values }) (state S.Store conn.old) (state S.Store conn.new) result }
{
    let mut number = first;
    'values: for value in values {
        put_value(conn, alloc, op, station, number, value)?;
        number = number_after(number, value)?;
    }
    Ok(())
}
