//! Rows that are kept station by station, in the order of their numbers.
ghost use Rattle.std.specs.Prelude.{◌≡◌, ◌<◌, ◌≤◌, nat_le, ◌==◌, ◌&&◌, ℕ, List, [], ◌∷◌, ◌++◌, length, drop, filter, find, map, not, option_map, OnOk, OnErr};
ghost use Rattle.std.specs.List.{AllByRecursion};
ghost use Rattle.std.specs.List.Sorted.{IsStrictlySortedBy};
ghost use Rattle.std.specs.Str.{bytes_eq};
ghost use Rattle.hub_rows.specs.Forgetting.{has_number, is_one_of};
ghost use Rattle.hub_rows.specs.Keyed.{by_key, found, greatest, numbered_key, put, put_all, those, without, number_key};
ghost use Rattle.hub_rows.specs.Places.{IsPlace};
ghost use Rattle.store_mem.specs.NamedGroups.{all_rows, AreOf, AreGrouped, HasRoomAt};

use crate::named_groups::{NamedGroup, place_at, rows_at};
use crate::near::Near;
use crate::numbers::{greatest, is_none_of};
use hub_rows::{MeterValueRow, TxOwnerRow, TxRow, place_of_name};
use ocpp_types::{Mem, Text};
use std::alloc::AllocError;

/// A row whose key is its operator, its station and a number.
pub trait NumberedRow: Drop {
    ghost op: { Self → List ℕ };

    ghost station: { Self → List ℕ };

    ghost number: { Self → ℕ };

    /// Its operator.
    fn op(&self) -> &str
        ensures { result.now ≡ op self.now };

    /// Its station.
    fn station(&self) -> &str
        ensures { result.now ≡ station self.now };

    /// Its number among the rows of its station.
    fn number(&self) -> u32
        ensures { result ≡ number self.now };
}

impl NumberedRow for TxRow {
    ghost op = { λ r. r.op };

    ghost station = { λ r. r.station };

    ghost number = { λ r. r.number };

    fn op(&self) -> &str {
        self.op.as_str()
    }

    fn station(&self) -> &str {
        self.station.as_str()
    }

    fn number(&self) -> u32 {
        self.number
    }
}

impl NumberedRow for MeterValueRow {
    ghost op = { λ r. r.op };

    ghost station = { λ r. r.station };

    ghost number = { λ r. r.first };

    fn op(&self) -> &str {
        self.op.as_str()
    }

    fn station(&self) -> &str {
        self.station.as_str()
    }

    fn number(&self) -> u32 {
        self.first
    }
}

impl NumberedRow for TxOwnerRow {
    ghost op = { λ r. r.op };

    ghost station = { λ r. r.station };

    ghost number = { λ r. r.number };

    fn op(&self) -> &str {
        self.op.as_str()
    }

    fn station(&self) -> &str {
        self.station.as_str()
    }

    fn number(&self) -> u32 {
        self.number
    }
}

/// The rows of a station, whose group is looked for first where `near` says.
pub fn rows_of<'a, R: NumberedRow>(
    groups: &'a [NamedGroup<R>],
    near: Option<&Near>,
    op: &str,
    station: &str,
) -> &'a [R]
    requires { AreGrouped R.op R.station R.number groups.now }
    ensures rows { result.now ≡ those R.op op.now (λ r. bytes_eq (R.station r) station.now) (all_rows groups.now) }
    ensures sorted { IsStrictlySortedBy (by_key (number_key R.number)) result.now }
{
    rows_at(groups, near, op, station)
}

/// The index of the row of a number among those of a station, or else its place.
pub fn place_of_number<R: NumberedRow>(rows: &[R], number: u32) -> Result<usize, usize>
    requires { IsStrictlySortedBy (by_key (number_key R.number)) rows.now }
    ensures { IsPlace (number_key R.number) ((number ∷ []) ∷ []) rows.now result }
{
    rows.binary_search_by(|row| row.number().cmp(&number))
}

/// The row of a number of a station, whose group is looked for first where `near` says.
pub fn row_of_number<'a, R: NumberedRow>(
    groups: &'a [NamedGroup<R>],
    near: Option<&Near>,
    op: &str,
    station: &str,
    number: u32,
) -> Option<&'a R>
    requires { AreGrouped R.op R.station R.number groups.now }
    ensures { option_map (λ r. r.now) result
        ≡ found R.op op.now (λ r. bytes_eq (R.station r) station.now && R.number r == number) (all_rows groups.now) }
{
    row_in(rows_of(groups, near, op, station), number)
}

/// The row of a number among those of a station.
pub fn row_in<R: NumberedRow>(rows: &[R], number: u32) -> Option<&R>
    requires { IsStrictlySortedBy (by_key (number_key R.number)) rows.now }
    ensures { option_map (λ r. r.now) result ≡ find (λ r. R.number r == number) rows.now }
{
    match place_of_number(rows, number) {
        Ok(place) => Some(&rows[place]),
        Err(_) => None,
    }
}

/// The rows of a station from a number on, by a binary search. Its group is looked for first where `near` says.
pub fn rows_from<'a, R: NumberedRow>(
    groups: &'a [NamedGroup<R>],
    near: Option<&Near>,
    op: &str,
    station: &str,
    first: u32,
) -> &'a [R]
    requires { AreGrouped R.op R.station R.number groups.now }
    ensures { result.now
        ≡ those R.op op.now (λ r. bytes_eq (R.station r) station.now && nat_le first (R.number r)) (all_rows groups.now) }
{
    let rows = rows_of(groups, near, op, station);
    &rows[place_from(rows, first)..]
}

/// How many of the rows of a station are before those from a number on.
fn place_from<R: NumberedRow>(rows: &[R], first: u32) -> usize
    requires { IsStrictlySortedBy (by_key (number_key R.number)) rows.now }
    ensures in_range { result ≤ length rows.now }
    ensures from { filter (λ r. nat_le first (R.number r)) rows.now ≡ drop result rows.now }
{
    match place_of_number(rows, first) {
        Ok(place) | Err(place) => place,
    }
}

/// The greatest number among the rows of a station, 0 where there are none.
pub fn last_number<R: NumberedRow>(rows: &[R]) -> u32
    requires { IsStrictlySortedBy (by_key (number_key R.number)) rows.now }
    ensures { result ≡ greatest (map R.number rows.now) }
{
    match rows.last() {
        Some(row) => row.number(),
        None => 0,
    }
}

/// Adds rows of a station after those that it has. Its group is looked for first where `near` says.
pub fn append_rows<R: NumberedRow>(
    groups: &mut Vec<NamedGroup<R>>,
    near: Option<&Near>,
    op: &Text,
    station: &Text,
    rows: Vec<R>,
) -> Mem<()>
    requires groups { AreGrouped R.op R.station R.number groups.old.items }
    requires new { AreOf R.op R.station R.number op.now station.now rows.items }
    requires behind { AllByRecursion (λ r. greatest (map R.number (those R.op op.now (λ x. bytes_eq (R.station x) station.now) (all_rows groups.old.items))) < R.number r) rows.items }
    ensures groups { AreGrouped R.op R.station R.number groups.new.items }
    ensures ok { OnOk result (all_rows groups.new.items ≡ put_all (by_key (numbered_key R.op R.station R.number)) rows.items (all_rows groups.old.items)) }
    ensures err { OnErr result (all_rows groups.new.items ≡ all_rows groups.old.items) }
{
    match place_at(groups.as_slice(), near, op.as_str(), station.as_str()) {
        Ok(place) => extend_group(&mut groups[place], rows)?,
        Err(place) => {
            let group = NamedGroup {
                op: op.clone()?,
                name: station.clone()?,
                rows,
            };
            groups.insert(place, group)?;
        }
    }
    Ok(())
}

fn extend_group<R: NumberedRow>(group: &mut NamedGroup<R>, rows: Vec<R>) -> Result<(), AllocError>
    ensures op { group.new.op ≡ group.old.op }
    ensures name { group.new.name ≡ group.old.name }
    ensures ok { OnOk result (group.new.rows.items ≡ group.old.rows.items ++ rows.items) }
    ensures err { OnErr result (group.new.rows.items ≡ group.old.rows.items) }
{
    let mut rows = rows;
    group.rows.append(&mut rows)
}

/// Drops the rows of a station that have these numbers, in one pass over its rows, which can't fail.
pub fn drop_numbers<R: NumberedRow>(
    groups: &mut Vec<NamedGroup<R>>,
    op: &str,
    station: &str,
    numbers: &[u32],
)
    requires { AreGrouped R.op R.station R.number groups.old.items }
    ensures groups { AreGrouped R.op R.station R.number groups.new.items }
    ensures rows { all_rows groups.new.items ≡ without R.op op.now (is_one_of R.station R.number station.now numbers.now) (all_rows groups.old.items) }
{
    if let Ok(place) = place_of_name(groups.as_slice(), op, station) {
        drop_in_group(&mut groups[place], numbers);
    }
}

fn drop_in_group<R: NumberedRow>(group: &mut NamedGroup<R>, numbers: &[u32])
    ensures op { group.new.op ≡ group.old.op }
    ensures name { group.new.name ≡ group.old.name }
    ensures rows { group.new.rows.items ≡ filter (λ r. not (has_number numbers.now (R.number r))) group.old.rows.items }
{
    let last = greatest(numbers);
    let rows = &mut group.rows;
    rows.retain(|row| is_none_of(numbers, last, row.number()));
}

/// Puts a row behind those of its station, whose group is looked for first where `near` says. There is room for it, so
/// that it can't fail.
pub fn put_last<R: NumberedRow>(groups: &mut Vec<NamedGroup<R>>, near: Option<&Near>, row: R)
    requires groups { AreGrouped R.op R.station R.number groups.old.items }
    requires room { HasRoomAt (R.op row) (R.station row) groups.old.items }
    requires behind { greatest (map R.number (those R.op (R.op row) (λ x. bytes_eq (R.station x) (R.station row)) (all_rows groups.old.items))) < R.number row }
    ensures groups { AreGrouped R.op R.station R.number groups.new.items }
    ensures rows { all_rows groups.new.items ≡ put (by_key (numbered_key R.op R.station R.number)) row (all_rows groups.old.items) }
{
    match place_at(groups.as_slice(), near, row.op(), row.station()) {
        Ok(place) => groups[place].rows.push_reserved(row),
        Err(_) => unreachable!(),
    }
}
