//! The rows of hub_reading, up to schema 3.
ghost use Rattle.std.specs.Prelude.{◌≡◌, IfOk};
ghost use Rattle.sql_rows.specs.TypedTables.{readings};

use crate::columns::{connector, count, named, named_if_any, number, number_if_any, text};
use crate::stored::Stored;
use hub_rows::{Keyed, StoreFault};
use ocpp_types::{SampledValue, Text};
use sqlite::Row;
use std::alloc::Global;
use std::cmp::Ordering;

/// A reading of a station. Its key is `op`, `station` and `number`.
#[derive(Drop)]
pub struct ReadingRow {
    /// The operator that hosts the station.
    pub op: Text,
    pub station: Text,
    /// 1 to 2147483647, counted by station.
    pub number: u32,
    /// 0 is the station's main meter.
    pub connector: u8,
    /// The `transactionId` as sent. It may match no transaction on record.
    pub transaction: Option<i32>,
    /// When the station says that it was so: milliseconds since 1970.
    pub at: i64,
    pub sampled: SampledValue,
}

impl Keyed for ReadingRow {
    ghost use Rattle.sql_rows.specs.TypedTables.{readings};

    ghost key = { readings.key };

    fn compare(&self, other: &ReadingRow) -> Ordering {
        self.op
            .cmp(&other.op)
            .then(self.station.cmp(&other.station))
            .then(self.number.cmp(&other.number))
    }
}

impl Stored for ReadingRow {
    ghost use Rattle.sql_rows.specs.TypedTables.{readings};

    ghost read = { readings.read };

    fn read(alloc: Global, row: &Row) -> Result<ReadingRow, StoreFault> {
        Ok(ReadingRow {
            op: text(row, 0)?,
            station: text(row, 1)?,
            number: count(row, 2)?,
            connector: connector(row, 3)?,
            transaction: number_if_any(row, 4)?,
            at: number(row, 5)?,
            sampled: sampled(row)?,
        })
    }
}

fn sampled(row: &Row) -> Result<SampledValue, StoreFault>
    ensures { IfOk result (λ s. s ≡ (readings.read row.now).sampled) }
{
    Ok(SampledValue {
        context: named(row, 6)?,
        format: named(row, 7)?,
        measurand: named(row, 8)?,
        phase: named_if_any(row, 9)?,
        location: named(row, 10)?,
        unit: named_if_any(row, 11)?,
        value: text(row, 12)?,
    })
}
