//! Grants in the order of their receivers.
ghost use Rattle.std.specs.Prelude.{◌≡◌, ◌≤◌, not, length, take, drop, filter, find, option_map};
ghost use Rattle.std.specs.List.{AllByRecursion};
ghost use Rattle.std.specs.List.Sorted.{IsStrictlySortedBy};
ghost use Rattle.std.specs.Str.{bytes_eq};
ghost use Rattle.hub_rows.specs.Keyed.{by_key, without};
ghost use Rattle.hub_rows.specs.Places.{AllBelow};
ghost use Rattle.store_mem.specs.Groups.{all_of, AreGroups};
ghost use Rattle.store_mem.specs.Received.{receiver_key, receiver_rest, is_of, least_key, IsFrom};

use crate::groups::{Group, GroupedRow};
use crate::triples::{TripleRow, drop_in_group, place_of_row};
use hub_rows::{GrantRow, Keyed};
use std::cmp::Ordering;

/// A grant, in the order of its receiver: by the key of the tag, then by its owner.
#[derive(Drop)]
pub struct Received {
    pub grant: GrantRow,
}

impl Keyed for Received {
    ghost key = { receiver_key };

    fn compare(&self, other: &Received) -> Ordering {
        let (grant, other) = (&self.grant, &other.grant);
        grant
            .to
            .cmp(&other.to)
            .then(grant.key.as_str().cmp(other.key.as_str()))
            .then(grant.op.cmp(&other.op))
    }
}

impl GroupedRow for Received {
    ghost use Rattle.std.specs.Prelude.{refl};

    ghost group = { λ r. r.grant.to };

    ghost rest = { receiver_rest };

    fn group(&self) -> &str {
        self.grant.to.as_str()
    }

    ghost splits = { λ r. refl };
}

impl TripleRow for Received {
    fn compare_rest(&self, second: &str, third: &str) -> Ordering {
        let GrantRow { key, op, .. } = &self.grant;
        key.as_str().cmp(second).then(op.as_str().cmp(third))
    }
}

impl GroupedRow for GrantRow {
    ghost use Rattle.std.specs.Prelude.{refl};
    ghost use Rattle.hub_rows.specs.Rows.{grant_rest};

    ghost group = { λ r. r.op };

    ghost rest = { grant_rest };

    fn group(&self) -> &str {
        self.op.as_str()
    }

    ghost splits = { λ r. refl };
}

impl TripleRow for GrantRow {
    fn compare_rest(&self, second: &str, third: &str) -> Ordering {
        self.key
            .as_str()
            .cmp(second)
            .then(self.to.as_str().cmp(third))
    }
}

/// The first of the grants of one receiver that is of the tag of a key, by a binary search.
pub fn first_of_key<'a>(rows: &'a [Received], to: &str, key: &str) -> Option<&'a Received>
    requires mine { AllByRecursion (λ r. r.grant.to ≡ to.now) rows.now }
    requires sorted { IsStrictlySortedBy (by_key receiver_key) rows.now }
    ensures { option_map (λ r. r.now) result ≡ find (λ r. bytes_eq r.grant.key key.now) rows.now }
{
    let rows = &rows[first_place(rows, to, key)..];
    let first = rows.first()?;
    if first.grant.key.as_str() != key {
        return None;
    }
    Some(first)
}

/// How many of the grants of one receiver are before all of the tag of a key.
fn first_place(rows: &[Received], to: &str, key: &str) -> usize
    requires { IsStrictlySortedBy (by_key receiver_key) rows.now }
    ensures in_range { result ≤ length rows.now }
    ensures before { AllBelow receiver_key (least_key to.now key.now) (take result rows.now) }
    ensures from { AllByRecursion (IsFrom (least_key to.now key.now)) (drop result rows.now) }
{
    match place_of_row(rows, to, key, "") {
        Ok(place) | Err(place) => place,
    }
}

/// Removes all grants of a tag from the groups of their receivers.
pub fn drop_from_each(groups: &mut Vec<Group<Received>>, key: &str, op: &str)
    requires { AreGroups receiver_key (λ r. r.grant.to) groups.old.items }
    ensures groups { AreGroups receiver_key (λ r. r.grant.to) groups.new.items }
    ensures rows { all_of groups.new.items ≡ filter (λ r. not (is_of key.now op.now r)) (all_of groups.old.items) }
{
    for group in groups.iter_mut() {
        drop_from(group, key, op);
    }
}

fn drop_from(group: &mut Group<Received>, key: &str, op: &str)
    requires { IsStrictlySortedBy (by_key receiver_key) group.old.rows.items }
    ensures name { group.new.name ≡ group.old.name }
    ensures rows { group.new.rows.items ≡ without (λ r. r.grant.to) group.old.name (is_of key.now op.now) group.old.rows.items }
{
    drop_in_group(&mut group.rows, group.name.as_str(), key, op);
}
