//! The meter values of a station that an order to forget looks at, read one by one.
ghost use Rattle.std.specs.Prelude.{◌≡◌, ◌++◌, ◌-◌, ◌==◌, ◌||◌, nat_le, None, OnOk};
ghost use Rattle.sqlite.specs.Held.{state};
ghost use Rattle.hub_rows.specs.Forgetting.{count_readings, oldest_values};
ghost use Rattle.hub_rows.specs.MeterValues.{meter_values_in};
ghost use Rattle.hub_rows.specs.declared.forgettable.TheConstants.{MAX_FORGOTTEN};
ghost use Rattle.sql_rows.specs.Kept.{Asks};

use crate::station_values::after_page;
use crate::values::next_value;
use hub_rows::{MAX_FORGOTTEN, MAX_READINGS, MeterValueRow, StoreFault, oldest_values};
use ocpp_types::{Listed, Mem};
use sqlite::{Alter, Connection};
use std::alloc::Global;

/// Whether an order to forget stops, after `count` meter values and with `left` readings to go.
fn is_enough(left: usize, count: usize) -> bool
    ensures { result ≡ (left == 0) || nat_le MAX_FORGOTTEN count }
{
    left == 0 || count >= MAX_FORGOTTEN
}

/// Adds a page of meter values, and subtracts their readings from `left`.
fn add_values(
    values: &mut Vec<MeterValueRow>,
    page: Listed<MeterValueRow>,
    left: &mut usize,
) -> Mem<()>
    ensures added { OnOk result (values.new.items ≡ values.old.items ++ page) }
    ensures left { OnOk result (left.new ≡ left.old - count_readings page) }
{
    for row in page.into_vec() {
        *left = left.saturating_sub(row.value.sampled.as_slice().len());
        values.push(row)?;
    }
    Ok(())
}

/// Reads the first meter values of a station, up to the one after those that an order to forget looks at. It reads no
/// further row, since a row with many readings is expensive.
pub(crate) fn first_values<S: Alter>(
    conn: &mut Connection<S>,
    alloc: Global,
    op: &str,
    station: &str,
) -> Result<Listed<MeterValueRow>, StoreFault>
    ensures asks { Asks (state S.Store conn.old) (state S.Store conn.new) result (λ rows list. oldest_values list ≡ oldest_values (meter_values_in op.now station.now None rows.meter_values)) }
{
    let mut values = Vec::new(alloc);
    let mut left = MAX_READINGS;
    let mut next = Some(0);
    'values: while let Some(first) = next {
        let is_last = is_enough(left, values.len());
        let value = next_value(conn, op, station, first)?;
        next = after_page(1, first, value.as_slice())?;
        add_values(&mut values, value, &mut left)?;
        if is_last {
            return Ok(Listed::from(values));
        }
    }
    Ok(Listed::from(values))
}

/// Keeps the meter values that an order to forget looks at.
pub(crate) fn oldest_values_of(rows: Listed<MeterValueRow>) -> Listed<MeterValueRow>
    ensures { result ≡ oldest_values rows }
{
    let count = oldest_values(rows.as_slice()).len();
    let mut rows = rows.into_vec();
    rows.truncate(count);
    Listed::from(rows)
}
