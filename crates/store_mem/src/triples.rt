//! Rows in groups whose keys are the names of their groups and two texts more: found, and removed.
ghost use Rattle.std.specs.Prelude.{◌≡◌, [], ◌∷◌};
ghost use Rattle.std.specs.List.Sorted.{IsStrictlySortedBy};
ghost use Rattle.hub_rows.specs.Keyed.{by_key, key_cmp, without};
ghost use Rattle.hub_rows.specs.Places.{IsPlace};
ghost use Rattle.store_mem.specs.Groups.{all_of, is_row, AreGroups};

use crate::groups::{Group, GroupedRow, place_of_group};
use std::cmp::Ordering;

/// A row whose key is the name of its group and two texts more.
pub trait TripleRow: GroupedRow {
    /// How the rest of its key is to two texts.
    fn compare_rest(&self, second: &str, third: &str) -> Ordering
        ensures { result ≡ key_cmp (Self.rest self.now) (second.now ∷ third.now ∷ []) };
}

/// The index of a row, or else the index that it would go to, by a binary search.
pub fn place_of_row<R: TripleRow>(
    rows: &[R],
    name: &str,
    second: &str,
    third: &str,
) -> Result<usize, usize>
    requires { IsStrictlySortedBy (by_key R.key) rows.now }
    ensures { IsPlace R.key (name.now ∷ second.now ∷ third.now ∷ []) rows.now result }
{
    rows.binary_search_by(|row| { row.group().cmp(name).then(row.compare_rest(second, third)) })
}

/// Removes a row from its group, if it is there.
pub fn drop_row<R: TripleRow>(groups: &mut Vec<Group<R>>, name: &str, second: &str, third: &str)
    requires { AreGroups R.key R.group groups.old.items }
    ensures groups { AreGroups R.key R.group groups.new.items }
    ensures rows { all_of groups.new.items
        ≡ without R.group name.now (is_row R.rest second.now third.now) (all_of groups.old.items) }
{
    if let Ok(place) = place_of_group(groups.as_slice(), name) {
        drop_in_group(&mut groups[place].rows, name, second, third);
    }
}

/// Removes a row, if it is there.
pub fn drop_in_group<R: TripleRow>(rows: &mut Vec<R>, name: &str, second: &str, third: &str)
    requires { IsStrictlySortedBy (by_key R.key) rows.old.items }
    ensures { rows.new.items
        ≡ without R.group name.now (is_row R.rest second.now third.now) rows.old.items }
{
    if let Ok(place) = place_of_row(rows.as_slice(), name, second, third) {
        let _dropped = rows.remove(place);
    }
}
