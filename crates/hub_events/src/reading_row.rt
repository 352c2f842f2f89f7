//! A reading as it is listed.

use ocpp_types::{SampledValue, Text};

/// A reading of a meter value.
#[derive(Drop)]
pub struct ReadingRow {
    pub station: Text,
    pub number: u64,
    /// The connector, the transaction and the time of its meter value.
    pub connector: u8,
    pub transaction: Option<i32>,
    pub at: i64,
    pub sampled: SampledValue,
}
