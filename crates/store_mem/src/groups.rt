//! Rows that are kept in groups by the first part of their keys, so that a change of one group
//! moves no row of another.
ghost use Rattle.std.specs.Prelude.{◌≡◌, ℕ, ◌<◌, List, [], ◌∷◌, OnOk, OnErr, vec_len, vec_capacity};
ghost use Rattle.std.specs.List.{AllByRecursion};
ghost use Rattle.std.specs.List.Sorted.{IsStrictlySortedBy};
ghost use Rattle.hub_rows.specs.Keyed.{by_key, own, put};
ghost use Rattle.hub_rows.specs.Places.{IsPlace};
ghost use Rattle.store_mem.specs.Groups.{name_key, all_of, AreGroups, HasRoom};

use hub_rows::{Keyed, TagRow, put_ready};
use ocpp_types::{Mem, Text};
use std::alloc::Global;

/// A row that is kept in the group of the first part of its key.
pub trait GroupedRow: Keyed {
    /// The name of its group.
    ghost group: { Self → List ℕ };

    /// What tells the rows of a group apart.
    ghost rest: { Self → List (List ℕ) };

    /// The name of its group.
    fn group(&self) -> &str
        ensures { result.now ≡ group self.now };

    /// The key is the name of the group, and the rest.
    ghost splits: { (r : Self) → Self.key r ≡ group r ∷ rest r };
}

impl GroupedRow for TagRow {
    ghost use Rattle.std.specs.Prelude.{refl};
    ghost use Rattle.hub_rows.specs.Rows.{tag_rest};

    ghost group = { λ r. r.op };

    ghost rest = { tag_rest };

    fn group(&self) -> &str {
        self.op.as_str()
    }

    ghost splits = { λ r. refl };
}

/// The rows of one name, in the order of their keys.
#[derive(Drop)]
pub struct Group<R> {
    pub name: Text,
    pub rows: Vec<R>,
}

/// The index of a group, or else the index that it would go to, by a binary search.
pub fn place_of_group<R: Drop>(groups: &[Group<R>], name: &str) -> Result<usize, usize>
    requires { IsStrictlySortedBy (by_key name_key) groups.now }
    ensures { IsPlace name_key (name.now ∷ []) groups.now result }
{
    groups.binary_search_by(|group| group.name.as_str().cmp(name))
}

/// The rows of a name.
pub fn rows_of_group<'a, R: GroupedRow>(groups: &'a [Group<R>], name: &str) -> &'a [R]
    requires { AreGroups R.key R.group groups.now }
    ensures rows { result.now ≡ own R.group name.now (all_of groups.now) }
    ensures mine { AllByRecursion (λ r. R.group r ≡ name.now) result.now }
    ensures sorted { IsStrictlySortedBy (by_key R.key) result.now }
{
    match place_of_group(groups, name) {
        Ok(place) => groups[place].rows.as_slice(),
        Err(_) => &[],
    }
}

/// Makes room for one more row of a name, whose group may be made for it.
pub fn make_room<R: GroupedRow>(alloc: Global, groups: &mut Vec<Group<R>>, name: &str) -> Mem<()>
    requires { AreGroups R.key R.group groups.old.items }
    ensures groups { AreGroups R.key R.group groups.new.items }
    ensures rows { all_of groups.new.items ≡ all_of groups.old.items }
    ensures room { OnOk result (HasRoom name.now groups.new.items) }
{
    match place_of_group(groups.as_slice(), name) {
        Ok(place) => make_room_in(&mut groups[place].rows),
        Err(place) => {
            let rows = Vec::with_capacity(alloc, 1)?;
            let name = Text::copy_of(alloc, name)?;
            groups.insert(place, Group { name, rows })?;
            Ok(())
        }
    }
}

/// Makes room for one more row.
pub fn make_room_in<R: Drop>(rows: &mut Vec<R>) -> Mem<()>
    ensures rows { rows.new.items ≡ rows.old.items }
    ensures room { OnOk result (vec_len rows.new < vec_capacity rows.new) }
{
    rows.reserve(1)?;
    Ok(())
}

/// Puts a row at its place in its group, or in place of the one with its key. There is room for
/// it, so that it can't fail.
pub fn put_in_room<R: GroupedRow>(groups: &mut Vec<Group<R>>, row: R)
    requires groups { AreGroups R.key R.group groups.old.items }
    requires room { HasRoom (R.group row) groups.old.items }
    ensures groups { AreGroups R.key R.group groups.new.items }
    ensures rows { all_of groups.new.items ≡ put (by_key R.key) row (all_of groups.old.items) }
{
    match place_of_group(groups.as_slice(), row.group()) {
        Ok(place) => put_ready(&mut groups[place].rows, row),
        Err(_) => unreachable!(),
    }
}

/// Puts a row at its place in its group, or in place of the one with its key.
pub fn put_in_group<R: GroupedRow>(alloc: Global, groups: &mut Vec<Group<R>>, row: R) -> Mem<()>
    requires { AreGroups R.key R.group groups.old.items }
    ensures groups { AreGroups R.key R.group groups.new.items }
    ensures ok { OnOk result (all_of groups.new.items ≡ put (by_key R.key) row (all_of groups.old.items)) }
    ensures err { OnErr result (all_of groups.new.items ≡ all_of groups.old.items) }
{
    make_room(alloc, groups, row.group())?;
    put_in_room(groups, row);
    Ok(())
}
