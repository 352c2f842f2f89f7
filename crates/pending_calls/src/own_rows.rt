//! The rows of one operator, where rows are in the order of their operators and names.
ghost use Rattle.std.specs.Prelude.{◌≡◌, ◌≢◌, ◌≤◌, false, length, take, drop};
ghost use Rattle.std.specs.List.{AllByRecursion};
ghost use Rattle.std.specs.List.Sorted.{IsStrictlySortedBy};
ghost use Rattle.std.specs.Str.{bytes_eq};
ghost use Rattle.std.specs.declared.cmp.Ordering.TheVariants as ordering;
ghost use Rattle.hub_rows.specs.Keyed.{by_key, own, pair_key, text_cmp};

use hub_rows::{NamedRow, place_of_name};

/// The rows of an operator, by two binary searches.
pub fn own_rows<'a, R: NamedRow>(rows: &'a [R], op: &str) -> &'a [R]
    requires { IsStrictlySortedBy (by_key (pair_key R.op R.name)) rows.now }
    ensures { result.now ≡ own R.op op.now rows.now }
{
    let rows = &rows[first_place(rows, op)..];
    let end = rows.partition_point(|row| row.op() == op);
    &rows[..end]
}

/// How many rows are before all of an operator.
fn first_place<R: NamedRow>(rows: &[R], op: &str) -> usize
    requires { IsStrictlySortedBy (by_key (pair_key R.op R.name)) rows.now }
    ensures in_range { result ≤ length rows.now }
    ensures before { AllByRecursion (λ r. bytes_eq (R.op r) op.now ≡ false) (take result rows.now) }
    ensures from { AllByRecursion (λ r. text_cmp (R.op r) op.now ≢ ordering.Less) (drop result rows.now) }
{
    match place_of_name(rows, op, "") {
        Ok(place) | Err(place) => place,
    }
}
