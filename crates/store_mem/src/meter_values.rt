//! Meter values, kept station by station.
ghost use Rattle.std.specs.Prelude.{◌≡◌, ◌+◌, ◌≤◌, [], None, filter, IfOk, OnOk, OnErr};
ghost use Rattle.std.specs.List.{AllByRecursion};
ghost use Rattle.std.proofs.Props.{props};
ghost use Rattle.hub_rows.specs.Changes.{with_meter_values};
ghost use Rattle.hub_rows.specs.Forgetting.{is_one_of};
ghost use Rattle.hub_rows.specs.Keyed.{without};
ghost use Rattle.hub_rows.specs.MeterValues.{all_taken, is_sent_with, last_number, last_reading_in, meter_value_rows, meter_values_in};
ghost use Rattle.hub_rows.specs.Transactions.{AreNext};
ghost use Rattle.hub_rows.specs.WellFormed.{IsGoodMeterValue};
ghost use Rattle.store_mem.specs.NamedGroups.{all_rows, AreGrouped};

use crate::named_groups::NamedGroup;
use crate::near::Near;
use crate::station_copies::{copy_of_row, copy_of_value};
use crate::station_rows::{append_rows, drop_numbers, rows_of};
use hub_rows::{MeterValue, MeterValueRow, is_sent_with};
use ocpp_types::{Listed, Mem, Text};
use std::alloc::Global;

/// The meter values of all operators.
#[derive(Drop)]
pub struct MeterValues {
    alloc: Global,
    /// All of them, by their stations.
    pub rows: Vec<NamedGroup<MeterValueRow>>,
    /// Where a station's group is looked for first.
    near: Near,
    ghost by_station: { AreGrouped (λ r. r.op) (λ r. r.station) (λ r. r.first) rows.items } by { Prim.hlevel props },
}

impl MeterValues {
    /// No meter values, which take no memory yet.
    pub fn new(alloc: Global) -> MeterValues
        ensures { all_rows result.rows.items ≡ [] }
    {
        MeterValues {
            alloc,
            rows: Vec::new(alloc),
            near: Near::new(alloc),
        }
    }

    /// From now on the station's row is at that index, by which its group is looked for.
    pub fn look_near(&mut self, near: usize)
        ensures { all_rows self.new.rows.items ≡ all_rows self.old.rows.items }
    {
        self.near.look(near);
    }

    /// Adds copies of meter values after those of their station, their readings numbered from the first number on.
    pub fn add(&mut self, op: &Text, station: &Text, first: u32, values: &[MeterValue]) -> Mem<()>
        requires { AreNext (last_reading_in op.now station.now (all_rows self.old.rows.items)) first (all_taken values.now) }
        ensures ok { OnOk result (all_rows self.new.rows.items ≡ with_meter_values op.now station.now first values.now (all_rows self.old.rows.items)) }
        ensures err { OnErr result (all_rows self.new.rows.items ≡ all_rows self.old.rows.items) }
    {
        if values.is_empty() {
            return Ok(());
        }
        self.near.make_room(self.alloc);
        let rows = numbered(self.alloc, op, station, first, values)?;
        append_rows(&mut self.rows, Some(&self.near), op, station, rows)
    }

    /// The meter values of a station, of all or of those sent with the number of a transaction.
    pub fn of_station(
        &self,
        op: &str,
        station: &str,
        transaction: Option<u64>,
    ) -> Mem<Listed<MeterValueRow>>
        ensures { IfOk result (λ rows. rows ≡ meter_values_in op.now station.now transaction (all_rows self.now.rows.items)) }
    {
        sent_with(self.alloc, self.rows_of(op, station), transaction)
    }

    /// All meter values of a station, lent.
    pub fn rows_of(&self, op: &str, station: &str) -> &[MeterValueRow]
        ensures { result.now ≡ meter_values_in op.now station.now None (all_rows self.now.rows.items) }
    {
        rows_of(&self.rows, Some(&self.near), op, station)
    }

    /// Drops the meter values of a station that have these first numbers, which can't fail.
    pub fn forget(&mut self, op: &str, station: &str, numbers: &[u32])
        ensures { all_rows self.new.rows.items ≡ without (λ r. r.op) op.now (is_one_of (λ r. r.station) (λ r. r.first) station.now numbers.now) (all_rows self.old.rows.items) }
    {
        drop_numbers(&mut self.rows, op, station, numbers);
    }

    /// The number of a station's last reading, 0 where there is none.
    pub fn last_number(&self, op: &str, station: &str) -> u32
        requires { AllByRecursion IsGoodMeterValue (all_rows self.now.rows.items) }
        ensures { result ≡ last_reading_in op.now station.now (all_rows self.now.rows.items) }
    {
        match self.rows_of(op, station).last() {
            Some(row) => last_number(row),
            None => 0,
        }
    }
}

/// The number of the last reading of a meter value.
fn last_number(row: &MeterValueRow) -> u32
    requires { IsGoodMeterValue row.now }
    ensures { result ≡ last_number row.now }
{
    row.first + row.value.sampled.as_slice().len().saturating_sub(1) as u32
}

#[tactic(auto, using(hub_rows::proofs::Steps::drop_here))]
/// Copies of meter values of a station as rows, their readings numbered from the first number on.
fn numbered(
    alloc: Global,
    op: &Text,
    station: &Text,
    first: u32,
    values: &[MeterValue],
) -> Mem<Vec<MeterValueRow>>
    requires { first + all_taken values.now ≤ 2147483648 }
    ensures { IfOk result (λ rows. rows.items ≡ meter_value_rows op.now station.now first values.now) }
{
    let mut rows = Vec::new(alloc);
    let mut number = first;
    for value in values {
        rows.push(MeterValueRow {
            op: op.clone()?,
            station: station.clone()?,
            first: number,
            value: copy_of_value(alloc, value)?,
        })?;
        number += value.sampled.as_slice().len().max(1) as u32;
    }
    Ok(rows)
}

#[tactic(auto, using(hub_rows::proofs::Steps::drop_here))]
fn sent_with(
    alloc: Global,
    rows: &[MeterValueRow],
    transaction: Option<u64>,
) -> Mem<Listed<MeterValueRow>>
    ensures { IfOk result (λ chosen. chosen ≡ filter (λ r. is_sent_with transaction r.value.transaction) rows.now) }
{
    let mut chosen = Listed::new(alloc);
    for row in rows {
        if is_sent_with(transaction, row.value.transaction) {
            chosen.push(copy_of_row(alloc, row)?)?;
        }
    }
    Ok(chosen)
}
