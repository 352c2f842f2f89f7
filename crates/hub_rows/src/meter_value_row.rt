//! The record of the readings that a meter showed at one time.
ghost use Rattle.std.specs.Prelude.{◌≡◌};
ghost use Rattle.hub_rows.specs.MeterValues.{is_sent_with};

use crate::ordered::Keyed;
use ocpp_types::{Listed, SampledValue, Text};
use std::cmp::Ordering;

/// A meter value of a station. Its readings are numbered from `first` on, one after the other. Its key is `op`, `station` and
/// `first`.
#[derive(Drop)]
pub struct MeterValueRow {
    /// The operator that hosts the station.
    pub op: Text,
    pub station: Text,
    /// 1 to 2147483647, counted by station.
    pub first: u32,
    pub value: MeterValue,
}

/// What a meter showed at one time (OCPP 1.6, section 7.33, MeterValue), with the connector and the transaction of its
/// message.
#[derive(Drop)]
pub struct MeterValue {
    /// 0 is the station's main meter.
    pub connector: u8,
    /// The `transactionId` as sent. It may match no transaction on record.
    pub transaction: Option<i32>,
    /// When the station says that it was so: milliseconds since 1970.
    pub at: i64,
    /// In the order in which they were sent.
    pub sampled: Listed<SampledValue>,
}

impl Keyed for MeterValueRow {
    ghost use Rattle.hub_rows.specs.Rows.{meter_value_key};

    ghost key = { meter_value_key };

    fn compare(&self, other: &MeterValueRow) -> Ordering {
        self.op
            .cmp(&other.op)
            .then(self.station.cmp(&other.station))
            .then(self.first.cmp(&other.first))
    }
}

/// Whether a meter value was sent with that number of a transaction, or with any.
pub fn is_sent_with(wanted: Option<u64>, transaction: Option<i32>) -> bool
    ensures { result ≡ is_sent_with wanted transaction }
{
    match (wanted, transaction) {
        (None, _) => true,
        (Some(_), None) => false,
        (Some(wanted), Some(transaction)) => transaction as i128 == wanted as i128,
    }
}
