//! Id tags, kept in groups by their operators.
ghost use Rattle.std.specs.Prelude.{◌≡◌, [], ◌∷◌, IfOk, OnOk, OnErr, option_map};
ghost use Rattle.std.specs.List.Sorted.{IsStrictlySortedBy};
ghost use Rattle.std.specs.Str.{bytes_eq};
ghost use Rattle.std.proofs.Props.{props};
ghost use Rattle.hub_rows.specs.Keyed.{by_key, own, put, without};
ghost use Rattle.hub_rows.specs.Places.{IsPlace};
ghost use Rattle.hub_rows.specs.Rows.{tag_key, tag_rest};
ghost use Rattle.hub_rows.specs.Tags.{own_tag_in, effective_tag, is_blocked, is_parent_blocked};
ghost use Rattle.store_mem.specs.Groups.{all_of, AreGroups};
ghost use Rattle.store_mem.specs.Tags.{row_of_key};

use crate::groups::{Group, place_of_group, put_in_group, rows_of_group};
use hub_rows::{Info, TagRow, remove_row};
use ocpp_types::{Mem, TagKey, Text, copied};
use std::alloc::Global;

/// The id tags of all operators.
#[derive(Drop)]
pub struct Tags {
    alloc: Global,
    /// By their operators.
    pub groups: Vec<Group<TagRow>>,
    ghost by_operator: { AreGroups tag_key (λ r. r.op) groups.items } by { Prim.hlevel props },
}

impl Tags {
    /// No tags, which take no memory yet.
    pub fn new(alloc: Global) -> Tags
        ensures { all_of result.groups.items ≡ [] }
    {
        Tags {
            alloc,
            groups: Vec::new(alloc),
        }
    }

    /// Keeps a tag, in place of the one with its key.
    pub fn put(&mut self, tag: TagRow) -> Mem<()>
        ensures ok { OnOk result (all_of self.new.groups.items ≡ put (by_key tag_key) tag (all_of self.old.groups.items)) }
        ensures err { OnErr result (all_of self.new.groups.items ≡ all_of self.old.groups.items) }
    {
        put_in_group(self.alloc, &mut self.groups, tag)
    }

    /// Removes the tag of a key, if it is there.
    pub fn drop_one(&mut self, op: &str, key: &str)
        ensures { all_of self.new.groups.items ≡ without (λ r. r.op) op.now (λ r. bytes_eq r.key key.now) (all_of self.old.groups.items) }
    {
        drop_tag(&mut self.groups, op, key);
    }

    /// The tags of an operator.
    pub fn of_operator(&self, op: &str) -> &[TagRow]
        ensures { result.now ≡ own (λ r. r.op) op.now (all_of self.now.groups.items) }
    {
        rows_of_group(&self.groups, op)
    }

    /// The tag of a key as it counts: blocked by itself or by its parent.
    pub fn own_tag(&self, op: &str, key: &TagKey) -> Mem<Option<Info>>
        ensures { IfOk result (λ t. t ≡ own_tag_in op.now key.now (all_of self.now.groups.items)) }
    {
        tag_of_key(self.alloc, rows_of_group(&self.groups, op), key)
    }
}

/// The tag of a key as it counts, among those of one operator.
fn tag_of_key(alloc: Global, tags: &[TagRow], key: &TagKey) -> Mem<Option<Info>>
    requires { IsStrictlySortedBy (by_key tag_rest) tags.now }
    ensures { IfOk result (λ t. t ≡ effective_tag (λ k. row_of_key k tags.now) key.now) }
{
    let Some(row) = row_of_key(tags, key.as_str()) else {
        return Ok(None);
    };
    let tag = &row.tag;
    let by_parent = has_blocked_parent(alloc, tags, &tag.parent)?;
    Ok(Some(Info {
        text: tag.text.clone()?,
        parent: copied(&tag.parent)?,
        blocked: tag.blocked || by_parent,
        expiry: tag.expiry,
        owner: None,
    }))
}

/// Whether a tag's parent is blocked, among the tags of one operator.
fn has_blocked_parent(alloc: Global, tags: &[TagRow], parent: &Option<Text>) -> Mem<bool>
    requires { IsStrictlySortedBy (by_key tag_rest) tags.now }
    ensures { IfOk result (λ b. b ≡ is_parent_blocked (λ key. is_blocked (row_of_key key tags.now)) parent.now) }
{
    let Some(parent) = parent else {
        return Ok(false);
    };
    let key = TagKey::of(alloc, parent.as_str())?;
    Ok(is_blocked(row_of_key(tags, key.as_str())))
}

/// The row of a key among those of one operator.
fn row_of_key<'a>(tags: &'a [TagRow], key: &str) -> Option<&'a TagRow>
    requires { IsStrictlySortedBy (by_key tag_rest) tags.now }
    ensures { option_map (λ r. r.now) result ≡ row_of_key key.now tags.now }
{
    match place_of_key(tags, key) {
        Ok(place) => Some(&tags[place]),
        Err(_) => None,
    }
}

/// The index of the row of a key among those of one operator, or else the index that it would go to, by a binary search.
fn place_of_key(tags: &[TagRow], key: &str) -> Result<usize, usize>
    requires { IsStrictlySortedBy (by_key tag_rest) tags.now }
    ensures { IsPlace tag_rest (key.now ∷ []) tags.now result }
{
    tags.binary_search_by(|row| row.key.as_str().cmp(key))
}

fn is_blocked(row: Option<&TagRow>) -> bool
    ensures { result ≡ is_blocked (option_map (λ r. r.now) row.entry) }
{
    match row {
        Some(row) => row.tag.blocked,
        None => false,
    }
}

fn drop_tag(groups: &mut Vec<Group<TagRow>>, op: &str, key: &str)
    requires { AreGroups tag_key (λ r. r.op) groups.old.items }
    ensures groups { AreGroups tag_key (λ r. r.op) groups.new.items }
    ensures rows { all_of groups.new.items
        ≡ without (λ r. r.op) op.now (λ r. bytes_eq r.key key.now) (all_of groups.old.items) }
{
    if let Ok(place) = place_of_group(groups.as_slice(), op) {
        remove_row(&mut groups[place].rows, op, key);
    }
}
