//! What of a station's history may go.
ghost use Rattle.std.specs.Prelude.{◌≡◌, map, IfOk};
ghost use Rattle.hub_rows.specs.Forgetting.{count_readings, has_no_rows, numbers_of, up_to};

use crate::meter_value_row::MeterValueRow;
use crate::tx_row::TxRow;
use ocpp_types::{Listed, Mem};
use std::alloc::Global;

/// The most rows that an order to forget looks at.
pub const MAX_FORGOTTEN: usize = 250;

/// The readings after which an order to forget looks at no further meter value.
pub const MAX_READINGS: usize = 1000;

/// Rows of a station's history.
#[derive(Drop)]
pub struct History {
    pub meter_values: Listed<MeterValueRow>,
    pub transactions: Listed<TxRow>,
}

/// Meter values of a station by the numbers of their first readings, and transactions by their numbers.
#[derive(Drop)]
pub struct Forgettable {
    pub meter_values: Listed<u32>,
    pub transactions: Listed<u32>,
}

impl History {
    /// Whether it has no rows.
    pub fn is_empty(&self) -> bool
        ensures { result ≡ has_no_rows self.now }
    {
        self.meter_values.as_slice().is_empty() && self.transactions.as_slice().is_empty()
    }

    /// How many readings it has.
    pub fn count_readings(&self) -> u128
        ensures { result ≡ count_readings self.now.meter_values }
    {
        let mut count = 0;
        for row in self.meter_values.as_slice() {
            count += row.value.sampled.as_slice().len() as u128;
        }
        count
    }

    /// Those of its meter values that begin at or before that reading, and its transactions up to that number.
    pub fn up_to(self, reading: u32, transaction: u32) -> History
        ensures { result ≡ up_to reading transaction self }
    {
        let mut meter_values = self.meter_values.into_vec();
        meter_values.retain(|row| row.first <= reading);
        let mut transactions = self.transactions.into_vec();
        transactions.retain(|row| row.number <= transaction);
        History {
            meter_values: Listed::from(meter_values),
            transactions: Listed::from(transactions),
        }
    }

    /// The numbers of the rows.
    pub fn numbers(&self, alloc: Global) -> Mem<Forgettable>
        ensures { IfOk result (λ f. f ≡ numbers_of self.now) }
    {
        Ok(Forgettable {
            meter_values: first_numbers(alloc, self.meter_values.as_slice())?,
            transactions: tx_numbers(alloc, self.transactions.as_slice())?,
        })
    }
}

fn first_numbers(alloc: Global, rows: &[MeterValueRow]) -> Mem<Listed<u32>>
    ensures { IfOk result (λ l. l ≡ map (λ r. r.first) rows.now) }
{
    let numbers: Vec<u32> = rows.iter().map(|row| row.first).collect(alloc)?;
    Ok(Listed::from(numbers))
}

fn tx_numbers(alloc: Global, rows: &[TxRow]) -> Mem<Listed<u32>>
    ensures { IfOk result (λ l. l ≡ map (λ t. t.number) rows.now) }
{
    let numbers: Vec<u32> = rows.iter().map(|row| row.number).collect(alloc)?;
    Ok(Listed::from(numbers))
}
