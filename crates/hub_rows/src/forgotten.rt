//! Whether a row of a station's history may go.
ghost use Rattle.std.specs.Prelude.{◌≡◌, length, option_map};
ghost use Rattle.hub_rows.specs.Forgetting.{goes_with, is_over, oldest, oldest_values, until_readings};

use crate::forgettable::{MAX_FORGOTTEN, MAX_READINGS};
use crate::meter_value_row::MeterValueRow;
use crate::tx_row::TxRow;
use ocpp_types::Moment;

impl TxRow {
    /// Whether it was stopped, and recorded as such, before a moment.
    pub fn is_over(&self, until: Moment) -> bool
        ensures { result ≡ is_over until self.now }
    {
        match &self.stop {
            Some(stop) => stop.moment.seconds() < until.seconds(),
            None => false,
        }
    }
}

/// Whether a meter value of that time may go: with its transaction, or by its own time where it names none on record.
pub fn goes_with(until: Moment, at: i64, tx: Option<&TxRow>) -> bool
    ensures { result ≡ goes_with until at (option_map (λ t. t.now) tx.entry) }
{
    match tx {
        Some(tx) => tx.is_over(until),
        None => (at as i128) < (until.seconds() * 1000) as i128,
    }
}

/// The first `MAX_FORGOTTEN` of a station's rows, or fewer, without its last row.
pub fn oldest<R>(rows: &[R]) -> &[R]
    ensures { result.now ≡ oldest rows.now }
{
    let (but_last, _) = rows.split_at(rows.len().saturating_sub(1));
    let (oldest, _) = but_last.split_at(but_last.len().min(MAX_FORGOTTEN));
    oldest
}

/// The meter values that an order to forget looks at: those of `oldest`, up to the one that brings their readings to
/// `MAX_READINGS`.
pub fn oldest_values(rows: &[MeterValueRow]) -> &[MeterValueRow]
    ensures { result.now ≡ oldest_values rows.now }
{
    let rows = oldest(rows);
    let (oldest, _) = rows.split_at(count_until(rows, MAX_READINGS));
    oldest
}

/// The length of the shortest prefix of `rows` that has at least `readings` readings, or of all `rows`.
#[tactic(auto, using(crate::proofs::Steps::drop_here))]
fn count_until(rows: &[MeterValueRow], readings: usize) -> usize
    ensures { result ≡ length (until_readings readings rows.now) }
{
    let mut left = readings;
    let mut count = 0;
    for row in rows {
        if left == 0 {
            return count;
        }
        left = left.saturating_sub(row.value.sampled.as_slice().len());
        count += 1;
    }
    count
}
