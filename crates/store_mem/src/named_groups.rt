//! Rows that are kept in groups, each of an operator and a name, so that a change of one group
//! moves no row of another.
ghost use Rattle.std.specs.Prelude.{◌≡◌, ℕ, List, [], ◌∷◌, ◌&&◌, if◌then◌else◌, OnOk};
ghost use Rattle.std.specs.List.Sorted.{IsStrictlySortedBy};
ghost use Rattle.std.specs.Str.{bytes_eq};
ghost use Rattle.hub_rows.specs.Keyed.{by_key, put};
ghost use Rattle.hub_rows.specs.Places.{IsPlace};
ghost use Rattle.store_mem.specs.NamedGroups.{group_key, rows_at, all_rows, AreGrouped, AreInPlace, HasRoomAt};

use crate::groups::make_room_in;
use crate::near::Near;
use hub_rows::{Keyed, NamedRow, place_near, place_of_name, put_ready};
use ocpp_types::{Mem, Text};
use std::alloc::Global;

/// The rows of an operator under one name.
#[derive(Drop)]
pub struct NamedGroup<R> {
    pub op: Text,
    pub name: Text,
    pub rows: Vec<R>,
}

impl<R: Drop> NamedRow for NamedGroup<R> {
    ghost op = { λ s. s.op };

    ghost name = { λ s. s.name };

    fn op(&self) -> &str {
        self.op.as_str()
    }

    fn name(&self) -> &str {
        self.name.as_str()
    }
}

/// The index of a group, or else the index that it would go to. It is looked for first where `near` says, which keeps
/// where it is found.
pub fn place_at<R: Drop>(
    groups: &[NamedGroup<R>],
    near: Option<&Near>,
    op: &str,
    name: &str,
) -> Result<usize, usize>
    requires { AreInPlace groups.now }
    ensures { IsPlace group_key (op.now ∷ name.now ∷ []) groups.now result }
{
    let Some(near) = near else {
        return place_of_name(groups, op, name);
    };
    let place = place_near(groups, near.first(), op, name);
    if let Ok(found) = place {
        near.keep(found);
    }
    place
}

/// The rows of an operator under a name, whose group is looked for first where `near` says.
pub fn rows_at<'a, R: Drop>(
    groups: &'a [NamedGroup<R>],
    near: Option<&Near>,
    op: &str,
    name: &str,
) -> &'a [R]
    requires { AreInPlace groups.now }
    ensures { result.now ≡ rows_at op.now name.now groups.now }
{
    match place_at(groups, near, op, name) {
        Ok(place) => groups[place].rows.as_slice(),
        Err(_) => &[],
    }
}

/// Makes room for one more row under a name, whose group may be made for it. It is looked for first where
/// `near` says.
pub fn make_room_at<R: Drop>(
    alloc: Global,
    groups: &mut Vec<NamedGroup<R>>,
    near: Option<&Near>,
    op: &str,
    name: &str,
) -> Mem<()>
    requires { AreInPlace groups.old.items }
    ensures in_place { AreInPlace groups.new.items }
    ensures rows { (b n : List ℕ) → rows_at b n groups.new.items ≡ rows_at b n groups.old.items }
    ensures grouped { (o n : R → List ℕ) (number : R → ℕ) → AreGrouped o n number groups.old.items
        → AreGrouped o n number groups.new.items × (all_rows groups.new.items ≡ all_rows groups.old.items) }
    ensures room { OnOk result (HasRoomAt op.now name.now groups.new.items) }
{
    match place_at(groups.as_slice(), near, op, name) {
        Ok(place) => make_room_in(&mut groups[place].rows),
        Err(place) => {
            let group = NamedGroup {
                op: Text::copy_of(alloc, op)?,
                name: Text::copy_of(alloc, name)?,
                rows: Vec::with_capacity(alloc, 1)?,
            };
            groups.insert(place, group)?;
            Ok(())
        }
    }
}

/// Puts a row at its place among those under its name, whose group is looked for first where `near` says. There is
/// room for it, so that it can't fail.
pub fn put_at<R: Keyed>(
    groups: &mut Vec<NamedGroup<R>>,
    near: Option<&Near>,
    op: &str,
    name: &str,
    row: R,
)
    requires in_place { AreInPlace groups.old.items }
    requires room { HasRoomAt op.now name.now groups.old.items }
    requires sorted { IsStrictlySortedBy (by_key R.key) (rows_at op.now name.now groups.old.items) }
    ensures in_place { AreInPlace groups.new.items }
    ensures rows { (b n : List ℕ) → rows_at b n groups.new.items
        ≡ (if bytes_eq op.now b && bytes_eq name.now n then put (by_key R.key) row (rows_at b n groups.old.items) else rows_at b n groups.old.items) }
{
    match place_at(groups.as_slice(), near, op, name) {
        Ok(place) => put_ready(&mut groups[place].rows, row),
        Err(_) => unreachable!(),
    }
}

/// Removes the group of a name, if no row is left in it.
pub fn drop_if_empty<R: Drop>(groups: &mut Vec<NamedGroup<R>>, op: &str, name: &str)
    requires { AreInPlace groups.old.items }
    ensures in_place { AreInPlace groups.new.items }
    ensures rows { (b n : List ℕ) → rows_at b n groups.new.items ≡ rows_at b n groups.old.items }
{
    if let Ok(place) = place_of_name(groups.as_slice(), op, name) {
        if groups[place].rows.is_empty() {
            let _empty = groups.remove(place);
        }
    }
}
