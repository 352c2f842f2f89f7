//! Readings that an earlier schema kept one by one in hub_reading, each of which becomes a meter value.
ghost use Rattle.std.specs.Prelude.{◌≡◌, IfOk, length};
ghost use Rattle.meter_values.specs.Written.{text_of};
ghost use Rattle.sql_rows.specs.Kept.{AsksInsideIn, IsDropped, IsPutIn, MakesIf, MakesIn, ShowsAnyInside, is_between};
ghost use Rattle.sql_rows.specs.Opening.{StaysInside, as_meter_value};
ghost use Rattle.sql_rows.specs.TypedTable.{rows_in};
ghost use Rattle.sql_rows.specs.TypedTables.{meter_values, readings};
ghost use Rattle.sql_edits.specs.Moving.{AreMoved, IsAnyRow, IsKeptFrom, IsMoved, IsUnmoved, IsUnmovedFrom};

use crate::binds::done;
use crate::values::count_of;
use hub_rows::{LAST_NUMBER, MeterValue, MeterValueRow, StoreFault};
use meter_values::write_sampled;
use ocpp_types::Listed;
use sql_rows::{ReadingRow, first_row};
use sqlite::{Alter, Error, Row, Transaction, params};
use std::alloc::Global;

/// The first form of a database that keeps meter values.
const VALUES_FORM: u32 = 5;

fn find_any<S: Alter>(tx: &mut Transaction<'_, S>) -> Result<Vec<Row>, Error>
    ensures shows { ShowsAnyInside S.Store (λ v. v.items) readings tx.old tx.new result }
    ensures stays { StaysInside S.Store tx.old tx.new result }
{
    tx.query_all(sql_tables::readings::ANY, &[])
}

/// One of the readings that are left.
fn any_reading<S: Alter>(tx: &mut Transaction<'_, S>) -> Result<Option<ReadingRow>, StoreFault>
    ensures asks { AsksInsideIn S.Store tx.old tx.new result (λ db row. IsAnyRow (rows_in readings db) row) }
    ensures stays { StaysInside S.Store tx.old tx.new result }
{
    first_row(find_any(tx))
}

/// Drops the reading of a station with that number.
fn drop_reading<S: Alter>(
    tx: &mut Transaction<'_, S>,
    op: &str,
    station: &str,
    number: u32,
) -> Result<(), StoreFault>
    ensures makes { MakesIn S.Store (IsDropped readings (is_between (λ r. r.op) (λ r. r.station) (λ r. r.number) op.now station.now number number)) tx.old tx.new result }
    ensures stays { StaysInside S.Store tx.old tx.new result }
{
    done(tx.execute(
        sql_tables::readings::DROP,
        params![op, station, number, number],
    ))
}

/// The meter value of a reading. One with a number past the last, which no version wrote, answers Failed.
fn as_meter_value(alloc: Global, row: ReadingRow) -> Result<MeterValueRow, StoreFault>
    ensures { IfOk result (λ value. value ≡ as_meter_value row) }
{
    if row.number > LAST_NUMBER {
        return Err(StoreFault::Failed);
    }
    Ok(MeterValueRow {
        op: row.op,
        station: row.station,
        first: row.number,
        value: MeterValue {
            connector: row.connector,
            transaction: row.transaction,
            at: row.at,
            sampled: Listed::one(alloc, row.sampled)?,
        },
    })
}

/// Puts the row of a meter value, with the number and the text of its readings.
fn put_row<S: Alter>(
    tx: &mut Transaction<'_, S>,
    row: &MeterValueRow,
    count: u32,
    sampled: &str,
) -> Result<(), StoreFault>
    requires count { count ≡ length row.now.value.sampled }
    requires text { sampled.now ≡ text_of row.now.value.sampled }
    ensures makes { MakesIn S.Store (IsPutIn meter_values row.now) tx.old tx.new result }
    ensures stays { StaysInside S.Store tx.old tx.new result }
{
    done(tx.execute(
        sql_tables::meter_values::ADD,
        params![
            row.op.as_str(),
            row.station.as_str(),
            row.first,
            u32::from(row.value.connector),
            row.value.transaction,
            row.value.at,
            count,
            sampled
        ],
    ))
}

/// Puts a meter value.
fn put_moved<S: Alter>(
    tx: &mut Transaction<'_, S>,
    alloc: Global,
    row: &MeterValueRow,
) -> Result<(), StoreFault>
    ensures makes { MakesIn S.Store (IsPutIn meter_values row.now) tx.old tx.new result }
    ensures stays { StaysInside S.Store tx.old tx.new result }
{
    let count = count_of(&row.value)?;
    let text = write_sampled(alloc, row.value.sampled.as_slice())?;
    put_row(tx, row, count, text.as_str())
}

/// Moves a reading.
fn move_reading<S: Alter>(
    tx: &mut Transaction<'_, S>,
    alloc: Global,
    row: ReadingRow,
) -> Result<(), StoreFault>
    ensures makes { MakesIn S.Store (IsMoved row) tx.old tx.new result }
    ensures stays { StaysInside S.Store tx.old tx.new result }
{
    let row = as_meter_value(alloc, row)?;
    let (op, station) = (row.op.as_str(), row.station.as_str());
    drop_reading(tx, op, station, row.first)?;
    put_moved(tx, alloc, &row)
}

/// Moves all readings of hub_reading to hub_meter_value, where there is no meter value yet.
fn move_readings<S: Alter>(tx: &mut Transaction<'_, S>, alloc: Global) -> Result<(), StoreFault>
    ensures makes { MakesIf S.Store IsUnmoved AreMoved tx.old tx.new result }
    ensures stays { StaysInside S.Store tx.old tx.new result }
{
    'readings: for _ in 0..u64::MAX {
        match any_reading(tx)? {
            Some(row) => move_reading(tx, alloc, row)?,
            None => return Ok(()),
        }
    }
    Err(StoreFault::Failed)
}

/// Moves the readings of a database of that form to meter values, if it kept them one by one: inside a transaction, which
/// is rolled back after an error.
pub fn move_from<S: Alter>(
    tx: &mut Transaction<'_, S>,
    alloc: Global,
    form: u32,
) -> Result<(), StoreFault>
    ensures makes { MakesIf S.Store (IsUnmovedFrom form) (IsKeptFrom form) tx.old tx.new result }
    ensures stays { StaysInside S.Store tx.old tx.new result }
{
    if form >= VALUES_FORM {
        return Ok(());
    }
    move_readings(tx, alloc)
}
