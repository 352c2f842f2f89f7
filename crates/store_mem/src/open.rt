//! The open transactions, by their operators and by the keys of the tags in use.
ghost use Rattle.std.specs.Prelude.{◌≡◌, ℕ, List, [], ◌∷◌, ◌&&◌, if◌then◌else◌, not, filter, option_map, true, IfOk, OnOk};
ghost use Rattle.std.specs.List.Sorted.{IsStrictlySortedBy};
ghost use Rattle.std.specs.Str.{bytes_eq};
ghost use Rattle.hub_rows.specs.Changes.{with_stop};
ghost use Rattle.hub_rows.specs.Keyed.{by_key, changed, found, put};
ghost use Rattle.hub_rows.specs.Places.{IsPlace};
ghost use Rattle.hub_rows.specs.Transactions.{counts, is_tx};
ghost use Rattle.hub_rows.specs.Rows.{tx_key};
ghost use Rattle.hub_rows.specs.declared.tx_row.Stop.{Stop};
ghost use Rattle.store_mem.specs.NamedGroups.{all_rows, AreGrouped, rows_at, AreInPlace, HasRoomAt};
ghost use Rattle.store_mem.specs.Open.{open_key, open_of, has_at, has_other, is_excepted, is_open_tx, tx_of, txs_of, AreOpens};

use crate::copies::copy;
use crate::named_groups::{NamedGroup, drop_if_empty, make_room_at, put_at};
use crate::near::Near;
use crate::station_rows::row_of_number;
use hub_rows::{Keyed, TxKey, TxRow, place_of_name};
use ocpp_types::{Listed, Mem, TagKey, Text};
use std::alloc::Global;
use std::cmp::Ordering;

/// An open transaction of an operator.
#[derive(Drop)]
pub struct OpenRow {
    pub station: Text,
    pub number: u32,
}

impl Keyed for OpenRow {
    ghost key = { open_key };

    fn compare(&self, other: &OpenRow) -> Ordering {
        self.station
            .cmp(&other.station)
            .then(self.number.cmp(&other.number))
    }
}

/// What is kept of a transaction while it is open.
pub fn open_of(row: &TxRow) -> Mem<OpenRow>
    ensures { IfOk result (λ o. o ≡ open_of row.now) }
{
    Ok(OpenRow {
        station: row.station.clone()?,
        number: row.number,
    })
}

/// Whether one of some transactions is not the one left out. Of two, one is not.
pub fn has_other(opens: &[OpenRow], except: &Option<TxKey>) -> bool
    requires { IsStrictlySortedBy (by_key open_key) opens.now }
    ensures { result ≡ has_other except.now opens.now }
{
    match opens {
        [] => false,
        [row] => !is_left_out(row, except),
        [_, _, ..] => true,
    }
}

/// Whether one of some transactions is of a station, by a binary search.
pub fn has_at(opens: &[OpenRow], station: &str) -> bool
    requires { IsStrictlySortedBy (by_key open_key) opens.now }
    ensures { result ≡ has_at station.now opens.now }
{
    opens
        .binary_search_by(|row| row.station.as_str().cmp(station))
        .is_ok()
}

/// Copies of the transactions of an operator that some open ones name.
#[tactic(auto, using(hub_rows::proofs::Steps::drop_here))]
pub fn txs_of(
    alloc: Global,
    groups: &[NamedGroup<TxRow>],
    op: &str,
    opens: &[OpenRow],
) -> Mem<Listed<TxRow>>
    requires { AreGrouped (λ r. r.op) (λ r. r.station) (λ r. r.number) groups.now }
    ensures { IfOk result (λ l. l ≡ txs_of op.now (all_rows groups.now) opens.now) }
{
    let mut list = Listed::new(alloc);
    for row in opens {
        if let Some(tx) = tx_of(groups, op, row)? {
            list.push(tx)?;
        }
    }
    Ok(list)
}

fn tx_of(groups: &[NamedGroup<TxRow>], op: &str, row: &OpenRow) -> Mem<Option<TxRow>>
    requires { AreGrouped (λ r. r.op) (λ r. r.station) (λ r. r.number) groups.now }
    ensures { IfOk result (λ r. r ≡ tx_of op.now (all_rows groups.now) row.now) }
{
    match row_of_number(groups, None, op, row.station.as_str(), row.number) {
        Some(tx) => Ok(Some(copy(tx)?)),
        None => Ok(None),
    }
}

fn is_left_out(row: &OpenRow, except: &Option<TxKey>) -> bool
    ensures { result ≡ is_excepted except.now row.now }
{
    match except {
        Some(except) => {
            row.station.as_str() == except.station.as_str() && row.number == except.number
        }
        None => false,
    }
}

/// The key of a transaction's tag. The group of its station is looked for first where `near` says.
fn tag_of<'a>(
    groups: &'a [NamedGroup<TxRow>],
    near: Option<&Near>,
    op: &str,
    station: &str,
    number: u32,
) -> Option<&'a TagKey>
    requires { AreGrouped (λ r. r.op) (λ r. r.station) (λ r. r.number) groups.now }
    ensures { option_map (λ k. k.now) result
        ≡ option_map (λ r. r.start.id.key) (found (λ r. r.op) op.now (is_tx station.now number) (all_rows groups.now)) }
{
    row_of_number(groups, near, op, station, number).map(|row| &row.start.id.key)
}

/// Makes room for a transaction among those by which the tag of a key is in use, if it counts.
pub fn make_room_if(
    alloc: Global,
    opens: &mut Vec<NamedGroup<OpenRow>>,
    op: &str,
    key: &str,
    counts: bool,
) -> Mem<()>
    requires { AreInPlace opens.old.items }
    ensures in_place { AreInPlace opens.new.items }
    ensures rows { (b n : List ℕ) → rows_at b n opens.new.items ≡ rows_at b n opens.old.items }
    ensures room { OnOk result (counts ≡ true → HasRoomAt op.now key.now opens.new.items) }
{
    if counts {
        make_room_at(alloc, opens, None, op, key)
    } else {
        Ok(())
    }
}

/// Puts a transaction among those by which the tag of a key is in use, if it counts. There is room
/// for it, so that it can't fail.
pub fn put_counted(
    opens: &mut Vec<NamedGroup<OpenRow>>,
    op: &str,
    key: &str,
    row: OpenRow,
    counts: bool,
)
    requires in_place { AreInPlace opens.old.items }
    requires room { counts ≡ true → HasRoomAt op.now key.now opens.old.items }
    requires sorted { IsStrictlySortedBy (by_key open_key) (rows_at op.now key.now opens.old.items) }
    ensures in_place { AreInPlace opens.new.items }
    ensures rows { (b n : List ℕ) → rows_at b n opens.new.items
        ≡ (if bytes_eq op.now b && (counts && bytes_eq key.now n) then put (by_key open_key) row (rows_at b n opens.old.items) else rows_at b n opens.old.items) }
{
    if counts {
        put_at(opens, None, op, key, row);
    }
}

/// Removes a transaction, which then is stopped, from those by which its tag is in use. The group of its station is looked
/// for first where `near` says.
pub fn close_tag(
    opens: &mut Vec<NamedGroup<OpenRow>>,
    groups: &[NamedGroup<TxRow>],
    near: Option<&Near>,
    op: &str,
    station: &str,
    number: u32,
)
    requires groups { AreGrouped (λ r. r.op) (λ r. r.station) (λ r. r.number) groups.now }
    requires sorted { IsStrictlySortedBy (by_key tx_key) (all_rows groups.now) }
    requires opens { AreOpens counts (λ r. r.start.id.key) opens.old.items (all_rows groups.now) }
    ensures { (stop : Stop) → AreOpens counts (λ r. r.start.id.key) opens.new.items (changed (λ r. r.op) op.now (is_tx station.now number) (with_stop stop) (all_rows groups.now)) }
{
    if let Some(key) = tag_of(groups, near, op, station, number) {
        close(opens, op, key.as_str(), station, number);
    }
}

/// Removes a transaction from those under a name, if it is there, and their group if it was the
/// last one.
pub fn close(opens: &mut Vec<NamedGroup<OpenRow>>, op: &str, name: &str, station: &str, number: u32)
    requires in_place { AreInPlace opens.old.items }
    requires sorted { IsStrictlySortedBy (by_key open_key) (rows_at op.now name.now opens.old.items) }
    ensures in_place { AreInPlace opens.new.items }
    ensures rows { (b n : List ℕ) → rows_at b n opens.new.items
        ≡ (if bytes_eq op.now b && bytes_eq name.now n then filter (λ o. not (is_open_tx station.now number o)) (rows_at b n opens.old.items) else rows_at b n opens.old.items) }
{
    if let Ok(place) = place_of_name(opens.as_slice(), op, name) {
        close_in(&mut opens[place].rows, station, number);
        drop_if_empty(opens, op, name);
    }
}

fn close_in(rows: &mut Vec<OpenRow>, station: &str, number: u32)
    requires { IsStrictlySortedBy (by_key open_key) rows.old.items }
    ensures { rows.new.items ≡ filter (λ o. not (is_open_tx station.now number o)) rows.old.items }
{
    if let Ok(place) = place_of(rows, station, number) {
        let _closed = rows.remove(place);
    }
}

fn place_of(rows: &[OpenRow], station: &str, number: u32) -> Result<usize, usize>
    requires { IsStrictlySortedBy (by_key open_key) rows.now }
    ensures { IsPlace open_key (station.now ∷ (number ∷ []) ∷ []) rows.now result }
{
    rows.binary_search_by(|row| {
        row.station
            .as_str()
            .cmp(station)
            .then(row.number.cmp(&number))
    })
}
