//! The rows of transactions as they begin and are stopped.
ghost use Rattle.std.specs.Prelude.{◌≡◌, ◌==◌, if◌then◌else◌, map, IfOk};
ghost use Rattle.std.specs.List.Sorted.{IsStrictlySortedBy};
ghost use Rattle.hub_rows.specs.Changes.{tx_row, with_stop};
ghost use Rattle.hub_rows.specs.Keyed.{by_key, changed, number_key};
ghost use Rattle.hub_rows.specs.Transactions.{is_tx};
ghost use Rattle.store_mem.specs.NamedGroups.{all_rows, AreGrouped};

use crate::named_groups::{NamedGroup, place_at};
use crate::near::Near;
use crate::station_rows::place_of_number;
use hub_rows::{Start, Stop, TxRow};
use ocpp_types::{Mem, Text};

/// The record of a transaction that begins.
pub fn started(op: &Text, station: &Text, number: u32, start: &Start) -> Mem<TxRow>
    ensures { IfOk result (λ r. r ≡ tx_row op.now station.now number start.now) }
{
    Ok(TxRow {
        op: op.clone()?,
        station: station.clone()?,
        number,
        start: start.clone()?,
        stop: None,
    })
}

/// Stops a transaction, if it is there. The group of its station is looked for first where `near` says.
pub fn stop_tx(
    groups: &mut Vec<NamedGroup<TxRow>>,
    near: Option<&Near>,
    op: &str,
    station: &str,
    number: u32,
    stop: Stop,
)
    requires { AreGrouped (λ r. r.op) (λ r. r.station) (λ r. r.number) groups.old.items }
    ensures groups { AreGrouped (λ r. r.op) (λ r. r.station) (λ r. r.number) groups.new.items }
    ensures rows { all_rows groups.new.items
        ≡ changed (λ r. r.op) op.now (is_tx station.now number) (with_stop stop) (all_rows groups.old.items) }
{
    if let Ok(place) = place_at(groups.as_slice(), near, op, station) {
        stop_in_group(&mut groups[place], number, stop);
    }
}

fn stop_in_group(group: &mut NamedGroup<TxRow>, number: u32, stop: Stop)
    requires { IsStrictlySortedBy (by_key (number_key (λ r. r.number))) group.old.rows.items }
    ensures op { group.new.op ≡ group.old.op }
    ensures name { group.new.name ≡ group.old.name }
    ensures rows { group.new.rows.items
        ≡ map (λ r. if r.number == number then with_stop stop r else r) group.old.rows.items }
{
    if let Ok(place) = place_of_number(group.rows.as_slice(), number) {
        stop_row(&mut group.rows[place], stop);
    }
}

fn stop_row(row: &mut TxRow, stop: Stop)
    ensures { row.new ≡ with_stop stop row.old }
{
    row.stop = Some(stop);
}
