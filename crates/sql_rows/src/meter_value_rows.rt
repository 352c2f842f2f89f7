//! Meter values, read from their columns.
ghost use Rattle.std.specs.Prelude.{◌≡◌, IfOk};
ghost use Rattle.sqlite_value.specs.Order.{column};
ghost use Rattle.sql_rows.specs.TypedTables.{meter_values, sampled_of};

use crate::columns::{connector, count, number, number_if_any, text};
use crate::stored::Stored;
use hub_rows::{MeterValue, MeterValueRow, StoreFault};
use meter_values::read_sampled;
use ocpp_types::{Listed, SampledValue};
use sqlite::Row;
use std::alloc::Global;

impl Stored for MeterValueRow {
    ghost use Rattle.sql_rows.specs.TypedTables.{meter_values};

    ghost read = { meter_values.read };

    fn read(alloc: Global, row: &Row) -> Result<MeterValueRow, StoreFault> {
        Ok(MeterValueRow {
            op: text(row, 0)?,
            station: text(row, 1)?,
            first: count(row, 2)?,
            value: value(alloc, row)?,
        })
    }
}

fn value(alloc: Global, row: &Row) -> Result<MeterValue, StoreFault>
    ensures { IfOk result (λ v. v ≡ (meter_values.read row.now).value) }
{
    Ok(MeterValue {
        connector: connector(row, 3)?,
        transaction: number_if_any(row, 4)?,
        at: number(row, 5)?,
        sampled: sampled(alloc, row)?,
    })
}

/// The sampled values, of which there are as many as the row says.
fn sampled(alloc: Global, row: &Row) -> Result<Listed<SampledValue>, StoreFault>
    ensures { IfOk result (λ s. s ≡ sampled_of (column row.now 7)) }
{
    let many = count(row, 6)?;
    let text = text(row, 7)?;
    match read_sampled(alloc, text.as_str())? {
        Some(sampled) if sampled.as_slice().len() == many as usize => Ok(sampled),
        _ => Err(StoreFault::Failed),
    }
}
