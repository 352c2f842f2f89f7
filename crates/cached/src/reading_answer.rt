//! Answers on the numbers of stations' last readings.
ghost use Rattle.std.specs.Prelude.{◌≡◌, ◌<◌, ◌+◌, true, IfOk, IfSome, length, option_map};
ghost use Rattle.hub_rows.specs.MeterValues.{all_taken};
ghost use Rattle.cached.specs.ReadingAnswers.{changed_readings, IsAt, IsLastAfter, IsNewLast};

use crate::answer::{Answer, Numbered};
use crate::station_answer::digest;
use hub_rows::{Change, Edit, MeterValue, TransactionEdit};
use ocpp_types::{Mem, Text};
use std::alloc::Global;

/// The number of a station's last reading, 0 where it has none.
#[derive(Drop)]
pub struct ReadingAnswer {
    op: Text,
    station: Text,
    last: u32,
}

impl ReadingAnswer {
    /// The answer, with copies of what it is about.
    pub fn of(alloc: Global, op: &str, station: &str, last: u32) -> Mem<ReadingAnswer>
        ensures about { IfOk result (λ answer. IsAt op.now station.now answer) }
        ensures last { IfOk result (λ answer. answer.last ≡ last) }
    {
        Ok(ReadingAnswer {
            op: Text::copy_of(alloc, op)?,
            station: Text::copy_of(alloc, station)?,
            last,
        })
    }

    /// The answer on the station to which a change adds readings, once it is made. `None` where it adds none, or
    /// without memory.
    pub fn after(alloc: Global, change: &Change<'_>) -> Option<ReadingAnswer>
        ensures { IfSome result (IsLastAfter change.now.op.now change.now.edit.now) }
    {
        let Edit::Transactions(edit) = change.edit else {
            return None;
        };
        let (station, last) = last_added(edit)?;
        ReadingAnswer::of(alloc, change.op.as_str(), station.as_str(), last).ok()
    }

    /// What was answered.
    pub fn last(&self) -> u32
        ensures { result ≡ self.now.last }
    {
        self.last
    }

    /// Whether it is of that station.
    pub fn is_about(&self, op: &str, station: &str) -> bool
        ensures { result ≡ true → IsAt op.now station.now self.now }
    {
        self.op.as_str() == op && self.station.as_str() == station
    }
}

impl Answer for ReadingAnswer {
    ghost use Rattle.cached.specs.ReadingAnswers.{digest_of_reading, IsLast};

    ghost is_right = { IsLast };

    ghost digest = { digest_of_reading };

    fn digest(&self) -> u64 {
        digest(self.op.as_str(), self.station.as_str())
    }
}

impl Numbered for ReadingAnswer {
    fn touched(change: &Change<'_>) -> Option<u64> {
        let station = changed_readings(change.edit)?;
        Some(digest(change.op.as_str(), station.as_str()))
    }
}

/// The station whose readings an edit changes.
fn changed_readings(edit: &Edit) -> Option<&Text>
    ensures { option_map (λ s. s.now) result ≡ changed_readings edit.now }
{
    match edit {
        Edit::Transactions(
            TransactionEdit::TxStopped { station, .. }
            | TransactionEdit::MeterValuesAdded { station, .. }
            | TransactionEdit::Forgotten { station, .. },
        ) => Some(station),
        _ => None,
    }
}

/// The station to which an edit adds readings, and the number of the last of them.
fn last_added(edit: &TransactionEdit) -> Option<(&Text, u32)>
    ensures { IfSome result (λ added. IsNewLast edit.now added.0.now added.1) }
{
    match edit {
        TransactionEdit::TxStopped {
            station,
            first,
            values,
            ..
        } => Some((station, last_of(*first, values.as_slice())?)),
        TransactionEdit::MeterValuesAdded {
            station,
            first,
            values,
        } => Some((station, last_of(*first, values.as_slice())?)),
        _ => None,
    }
}

/// The number of the last reading of some meter values, if there are any. Their first reading has that number.
fn last_of(first: u32, values: &[MeterValue]) -> Option<u32>
    ensures { IfSome result (λ last. (0 < length values.now) × (last + 1 ≡ first + all_taken values.now)) }
{
    if values.is_empty() {
        return None;
    }
    let mut next = first;
    for value in values {
        let taken = u32::try_from(value.sampled.as_slice().len().max(1)).ok()?;
        next = next.checked_add(taken)?;
    }
    next.checked_sub(1)
}
