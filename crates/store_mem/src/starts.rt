//! The starts of each station in the order of their times, to find one that was sent before.
ghost use Rattle.std.specs.Prelude.{◌≡◌, ℕ, List, [], ◌∷◌, ◌&&◌, if◌then◌else◌, not, filter, unsigned_abs, IfOk};
ghost use Rattle.std.specs.List.Sorted.{IsStrictlySortedBy};
ghost use Rattle.std.specs.Str.{bytes_eq};
ghost use Rattle.hub_rows.specs.Forgetting.{has_number};
ghost use Rattle.hub_rows.specs.Keyed.{by_key, text_cmp};
ghost use Rattle.hub_rows.specs.Places.{IsPlace, IsGapAt};
ghost use Rattle.hub_rows.specs.Transactions.{is_start};
ghost use Rattle.store_mem.specs.NamedGroups.{rows_at, AreInPlace};
ghost use Rattle.store_mem.specs.Starts.{code, sign, start_key, start_of, number_of};

use crate::named_groups::{NamedGroup, drop_if_empty};
use crate::numbers::{greatest, is_none_of};
use hub_rows::{Keyed, StartKey, TxRow, place_of_name};
use ocpp_types::Mem;
use std::cmp::Ordering;

/// How a transaction of a station began, and its number.
#[derive(Drop)]
pub struct StartRow {
    pub start: StartKey,
    pub number: u32,
}

impl Keyed for StartRow {
    ghost key = { start_key };

    fn compare(&self, other: &StartRow) -> Ordering {
        compare_starts(&self.start, &other.start).then(self.number.cmp(&other.number))
    }
}

/// The order of starts: by their times, and where those are equal by what else tells them apart.
fn compare_starts(start: &StartKey, other: &StartKey) -> Ordering
    ensures { result ≡ text_cmp (code start.now) (code other.now) }
{
    let at = compare_numbers(start.at, other.at);
    let meter_start = compare_numbers(start.meter_start, other.meter_start);
    at.then(meter_start)
        .then(start.connector.cmp(&other.connector))
        .then(start.key.as_str().cmp(other.key.as_str()))
}

/// Signed numbers by their sizes, and where those are equal by their signs.
fn compare_numbers(number: i64, other: i64) -> Ordering
    ensures { result ≡ text_cmp (unsigned_abs number ∷ sign number ∷ []) (unsigned_abs other ∷ sign other ∷ []) }
{
    number
        .unsigned_abs()
        .cmp(&other.unsigned_abs())
        .then(sign(number).cmp(&sign(other)))
}

fn sign(number: i64) -> u8
    ensures { result ≡ sign number }
{
    if number.is_negative() { 1 } else { 0 }
}

/// What is kept of a start.
pub fn start_of(row: &TxRow) -> Mem<StartRow>
    ensures { IfOk result (λ s. s ≡ start_of row.now) }
{
    Ok(StartRow {
        start: row.start.id.clone()?,
        number: row.number,
    })
}

/// Drops the starts of a station's transactions that have these numbers, which can't fail.
pub fn drop_starts(groups: &mut Vec<NamedGroup<StartRow>>, op: &str, station: &str, numbers: &[u32])
    requires { AreInPlace groups.old.items }
    ensures in_place { AreInPlace groups.new.items }
    ensures rows { (b n : List ℕ) → rows_at b n groups.new.items
        ≡ (if bytes_eq op.now b && bytes_eq station.now n then filter (λ s. not (has_number numbers.now s.number)) (rows_at b n groups.old.items) else rows_at b n groups.old.items) }
{
    if let Ok(place) = place_of_name(groups.as_slice(), op, station) {
        drop_in(&mut groups[place].rows, numbers);
        drop_if_empty(groups, op, station);
    }
}

fn drop_in(rows: &mut Vec<StartRow>, numbers: &[u32])
    ensures { rows.new.items ≡ filter (λ s. not (has_number numbers.now s.number)) rows.old.items }
{
    let last = greatest(numbers);
    rows.retain(|row| is_none_of(numbers, last, row.number));
}

/// The number of the first of a station's transactions that began so, by a binary search.
pub fn number_of(rows: &[StartRow], start: &StartKey) -> Option<u32>
    requires { IsStrictlySortedBy (by_key start_key) rows.now }
    ensures { result ≡ number_of start.now rows.now }
{
    match rows.get(first_place(rows, start)) {
        Some(row) if is_start(start, &row.start) => Some(row.number),
        _ => None,
    }
}

/// How many rows are before all that began so.
fn first_place(rows: &[StartRow], start: &StartKey) -> usize
    requires { IsStrictlySortedBy (by_key start_key) rows.now }
    ensures { IsGapAt start_key (code start.now ∷ []) rows.now result }
{
    match place_of_start(rows, start) {
        Ok(place) | Err(place) => place,
    }
}

/// The place that a row with that start and a number below all others would go to. No row is there.
fn place_of_start(rows: &[StartRow], start: &StartKey) -> Result<usize, usize>
    requires { IsStrictlySortedBy (by_key start_key) rows.now }
    ensures { IsPlace start_key (code start.now ∷ []) rows.now result }
{
    rows.binary_search_by(|row| compare_starts(&row.start, start).then(Ordering::Greater))
}

fn is_start(wanted: &StartKey, start: &StartKey) -> bool
    ensures { result ≡ is_start wanted.now start.now }
{
    start.connector == wanted.connector
        && start.key.as_str() == wanted.key.as_str()
        && start.meter_start == wanted.meter_start
        && start.at == wanted.at
}
