//! The id tags that are granted to an operator.
ghost use Rattle.std.specs.Prelude.{◌≡◌, IfOk};
ghost use Rattle.std.specs.List.{filter_map};
ghost use Rattle.hub_rows.specs.Grants.{entry_by, granted_in, granted_tag_in, info_by};
ghost use Rattle.hub_rows.specs.WellFormed.{AreGood, IsGoodGrant};
ghost use Rattle.hub_rows.specs.Rows.{grant_key};
ghost use Rattle.store_mem.specs.Groups.{all_of};

use crate::grants::Grants;
use crate::groups::rows_of_group;
use crate::received::{Received, first_of_key};
use crate::tags::Tags;
use hub_rows::{GrantRow, GrantedTag, Info};
use ocpp_types::{Listed, Mem};
use std::alloc::Global;

/// The tag of a key that is granted to an operator: that of the first owner.
pub fn granted_tag(tags: &Tags, grants: &Grants, op: &str, key: &str) -> Mem<Option<Info>>
    requires { AreGood grant_key (IsGoodGrant (all_of tags.now.groups.items)) (all_of grants.now.given.items) }
    ensures { IfOk result (λ t. t ≡ granted_tag_in op.now key.now (all_of tags.now.groups.items) (all_of grants.now.given.items)) }
{
    let rows = rows_of_group(&grants.received, op);
    match first_of_key(rows, op, key) {
        Some(first) => info_by(tags, &first.grant),
        None => Ok(None),
    }
}

/// The tags that are granted to an operator, in the order of their keys, then of their owners.
pub fn granted(alloc: Global, tags: &Tags, grants: &Grants, op: &str) -> Mem<Listed<GrantedTag>>
    ensures { IfOk result (λ l. l ≡ granted_in op.now (all_of tags.now.groups.items) (all_of grants.now.given.items)) }
{
    entries_by(alloc, tags, rows_of_group(&grants.received, op))
}

/// The tags as they count by some grants.
#[tactic(auto, using(hub_rows::proofs::Steps::drop_here))]
fn entries_by(alloc: Global, tags: &Tags, rows: &[Received]) -> Mem<Listed<GrantedTag>>
    ensures { IfOk result (λ l. l ≡ filter_map (λ r. entry_by (all_of tags.now.groups.items) r.grant) rows.now) }
{
    let mut list = Listed::new(alloc);
    for row in rows {
        if let Some(entry) = entry_by(tags, &row.grant)? {
            list.push(entry)?;
        }
    }
    Ok(list)
}

fn entry_by(tags: &Tags, grant: &GrantRow) -> Mem<Option<GrantedTag>>
    ensures { IfOk result (λ e. e ≡ entry_by (all_of tags.now.groups.items) grant.now) }
{
    let Some(info) = info_by(tags, grant)? else {
        return Ok(None);
    };
    Ok(Some(GrantedTag {
        key: grant.key.clone()?,
        owner: grant.op.clone()?,
        info,
    }))
}

/// The owner's tag, as it counts by a grant.
fn info_by(tags: &Tags, grant: &GrantRow) -> Mem<Option<Info>>
    ensures { IfOk result (λ i. i ≡ info_by (all_of tags.now.groups.items) grant.now) }
{
    let Some(info) = tags.own_tag(grant.op.as_str(), &grant.key)? else {
        return Ok(None);
    };
    let owner = grant.op.clone()?;
    Ok(Some(info.granted(owner, grant.until)))
}
