//! Copies of what a station has: its rows, its local list and its meter values.
ghost use Rattle.std.specs.Prelude.{◌≡◌, IfOk};
ghost use Rattle.std.specs.List.Sorted.{IsStrictlySortedBy};
ghost use Rattle.std.specs.Str.{bytes_eq};
ghost use Rattle.hub_rows.specs.Keyed.{by_key, those};
ghost use Rattle.hub_rows.specs.Lookups.{local_list_in};
ghost use Rattle.hub_rows.specs.Rows.{list_key};

use crate::copies::copies;
use hub_rows::{ListRow, LocalList, MeterValue, MeterValueRow, NamedRow, row_of};
use ocpp_types::{Listed, Mem};
use std::alloc::Global;

/// Copies of the rows of one station.
#[tactic(auto, using(hub_rows::proofs::Steps::drop_here))]
pub fn copies_of_station<R: NamedRow + Clone>(
    alloc: Global,
    rows: &[R],
    op: &str,
    station: &str,
) -> Mem<Listed<R>>
    requires { (row copy : R) → R.is_clone row copy → copy ≡ row }
    ensures { IfOk result (λ l. l ≡ those R.op op.now (λ r. bytes_eq (R.name r) station.now) rows.now) }
{
    let mut list = Listed::new(alloc);
    for row in rows {
        if row.op() == op && row.name() == station {
            list.push(row.clone()?)?;
        }
    }
    Ok(list)
}

/// A copy of the local list of a station.
pub fn local_list_of(
    alloc: Global,
    rows: &[ListRow],
    op: &str,
    station: &str,
) -> Mem<Option<LocalList>>
    requires { IsStrictlySortedBy (by_key list_key) rows.now }
    ensures { IfOk result (λ l. l ≡ local_list_in op.now station.now rows.now) }
{
    match row_of(rows, op, station) {
        Some(row) => Ok(Some(copy_of(alloc, &row.list)?)),
        None => Ok(None),
    }
}

/// A copy of a local list.
pub fn copy_of(alloc: Global, list: &LocalList) -> Mem<LocalList>
    ensures { IfOk result (λ copy. copy ≡ list.now) }
{
    Ok(LocalList {
        version: list.version,
        entries: copies(alloc, list.entries.as_slice())?,
    })
}

/// A copy of a meter value with its station and its first number.
pub fn copy_of_row(alloc: Global, row: &MeterValueRow) -> Mem<MeterValueRow>
    ensures { IfOk result (λ copy. copy ≡ row.now) }
{
    Ok(MeterValueRow {
        op: row.op.clone()?,
        station: row.station.clone()?,
        first: row.first,
        value: copy_of_value(alloc, &row.value)?,
    })
}

/// A copy of a meter value.
pub fn copy_of_value(alloc: Global, value: &MeterValue) -> Mem<MeterValue>
    ensures { IfOk result (λ copy. copy ≡ value.now) }
{
    Ok(MeterValue {
        connector: value.connector,
        transaction: value.transaction,
        at: value.at,
        sampled: copies(alloc, value.sampled.as_slice())?,
    })
}
