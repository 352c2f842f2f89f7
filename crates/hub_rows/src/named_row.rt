//! Rows of an operator and one name: where these are the key, found and removed.
ghost use Rattle.std.specs.Prelude.{◌≡◌, ℕ, List, [], ◌∷◌, ◌<◌, ◌&&◌, length, true, option_map, IsTrue};
ghost use Rattle.std.specs.List.{HoldsAt};
ghost use Rattle.std.specs.List.Sorted.{IsStrictlySortedBy};
ghost use Rattle.std.specs.Str.{bytes_eq};
ghost use Rattle.hub_rows.specs.Keyed.{by_key, found, without, pair_key};
ghost use Rattle.hub_rows.specs.Places.{IsPlace};

use ocpp_types::Boxed;
use std::hash::{BuildHasher, BuildHasherDefault, FoldHasher};

/// A row whose key is its operator and one name, or begins with them.
pub trait NamedRow: Drop {
    ghost op: { Self → List ℕ };

    ghost name: { Self → List ℕ };

    /// The operator.
    fn op(&self) -> &str
        ensures { result.now ≡ op self.now };

    /// The name: that of its station, or the key of its tag.
    fn name(&self) -> &str
        ensures { result.now ≡ name self.now };
}

impl<R: NamedRow> NamedRow for Boxed<R> {
    ghost op = { R.op };

    ghost name = { R.name };

    fn op(&self) -> &str {
        self.as_ref().op()
    }

    fn name(&self) -> &str {
        self.as_ref().name()
    }
}

/// A number that is made of an operator and a name. Others may have the same.
pub fn name_digest(op: &str, name: &str) -> u64 {
    let hasher: BuildHasherDefault<FoldHasher> = BuildHasherDefault::new();
    hasher.hash_one((op, name))
}

/// The index of a row, or else the index that it would go to, by a binary search.
pub fn place_of_name<R: NamedRow>(rows: &[R], op: &str, name: &str) -> Result<usize, usize>
    requires { IsStrictlySortedBy (by_key (pair_key R.op R.name)) rows.now }
    ensures { IsPlace (pair_key R.op R.name) (op.now ∷ name.now ∷ []) rows.now result }
{
    rows.binary_search_by(|row| {
        if row.op() == op {
            row.name().cmp(name)
        } else {
            row.op().cmp(op)
        }
    })
}

/// The same as `place_of_name`. The row is looked for at the index `near` first, so that no search is made where it is
/// there.
pub fn place_near<R: NamedRow>(
    rows: &[R],
    near: usize,
    op: &str,
    name: &str,
) -> Result<usize, usize>
    requires { IsStrictlySortedBy (by_key (pair_key R.op R.name)) rows.now }
    ensures { IsPlace (pair_key R.op R.name) (op.now ∷ name.now ∷ []) rows.now result }
{
    if is_at(rows, near, op, name) {
        return Ok(near);
    }
    place_of_name(rows, op, name)
}

/// Whether the row of an operator and a name is at an index.
fn is_at<R: NamedRow>(rows: &[R], at: usize, op: &str, name: &str) -> bool
    ensures { IsTrue result → (at < length rows.now)
        × HoldsAt (λ r. (bytes_eq (R.op r) op.now && bytes_eq (R.name r) name.now) ≡ true) rows.now at }
{
    at < rows.len() && is_of(&rows[at], op, name)
}

/// Whether a row is that of an operator and a name.
fn is_of<R: NamedRow>(row: &R, op: &str, name: &str) -> bool
    ensures { result ≡ (bytes_eq (R.op row.now) op.now && bytes_eq (R.name row.now) name.now) }
{
    row.op() == op && row.name() == name
}

/// The row of an operator and a name.
pub fn row_of<'a, R: NamedRow>(rows: &'a [R], op: &str, name: &str) -> Option<&'a R>
    requires { IsStrictlySortedBy (by_key (pair_key R.op R.name)) rows.now }
    ensures { option_map (λ r. r.now) result ≡ found R.op op.now (λ r. bytes_eq (R.name r) name.now) rows.now }
{
    match place_of_name(rows, op, name) {
        Ok(place) => Some(&rows[place]),
        Err(_) => None,
    }
}

/// The same as `row_of`. The row is looked for at the index `near` first.
pub fn row_near<'a, R: NamedRow>(rows: &'a [R], near: usize, op: &str, name: &str) -> Option<&'a R>
    requires { IsStrictlySortedBy (by_key (pair_key R.op R.name)) rows.now }
    ensures { option_map (λ r. r.now) result ≡ found R.op op.now (λ r. bytes_eq (R.name r) name.now) rows.now }
{
    match place_near(rows, near, op, name) {
        Ok(place) => Some(&rows[place]),
        Err(_) => None,
    }
}

/// Removes the row of an operator and a name, if it is there.
pub fn remove_row<R: NamedRow>(rows: &mut Vec<R>, op: &str, name: &str)
    requires { IsStrictlySortedBy (by_key (pair_key R.op R.name)) rows.old.items }
    ensures { rows.new.items ≡ without R.op op.now (λ r. bytes_eq (R.name r) name.now) rows.old.items }
{
    if let Ok(place) = place_of_name(rows, op, name) {
        let _removed = rows.remove(place);
    }
}
