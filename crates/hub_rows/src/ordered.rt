//! Vectors of rows in the order of their keys.
ghost use Rattle.std.specs.Prelude.{◌≡◌, ℕ, ◌<◌, List, IsOk, OnOk, OnErr, vec_len, vec_capacity};
ghost use Rattle.std.specs.List.Sorted.{IsStrictlySortedBy};
ghost use Rattle.hub_rows.specs.Keyed.{by_key, put};
ghost use Rattle.hub_rows.specs.Places.{IsPlace};

use std::alloc::AllocError;
use std::cmp::Ordering;

/// A row with a key.
pub trait Keyed: Drop {
    /// Its key: the operator, and what tells the operator's rows apart.
    ghost key: { Self → List (List ℕ) };

    /// The order of the keys, part by part.
    fn compare(&self, other: &Self) -> Ordering
        ensures { result ≡ by_key key self.now other.now };
}

/// The index of the row with that row's key, or else the index that it would go to. The look-up
/// is a binary search.
fn place_of<R: Keyed>(rows: &[R], row: &R) -> Result<usize, usize>
    requires { IsStrictlySortedBy (by_key R.key) rows.now }
    ensures { IsPlace R.key (R.key row.now) rows.now result }
{
    rows.binary_search_by(|other| other.compare(row))
}

/// Puts a row at its place, or in place of the one with its key.
pub fn put_row<R: Keyed>(rows: &mut Vec<R>, row: R) -> Result<(), AllocError>
    requires { IsStrictlySortedBy (by_key R.key) rows.old.items }
    ensures ok { OnOk result (rows.new.items ≡ put (by_key R.key) row rows.old.items) }
    ensures err { OnErr result (rows.new.items ≡ rows.old.items) }
    ensures room { vec_len rows.old < vec_capacity rows.old → IsOk result }
{
    match place_of(rows, &row) {
        Ok(place) => {
            rows[place] = row;
            Ok(())
        }
        Err(place) => {
            rows.insert(place, row)?;
            Ok(())
        }
    }
}

/// The same where there is room for one more row, which can't fail.
pub fn put_ready<R: Keyed>(rows: &mut Vec<R>, row: R)
    requires sorted { IsStrictlySortedBy (by_key R.key) rows.old.items }
    requires room { vec_len rows.old < vec_capacity rows.old }
    ensures { rows.new.items ≡ put (by_key R.key) row rows.old.items }
{
    match put_row(rows, row) {
        Ok(()) => {}
        Err(_) => unreachable!(),
    }
}
