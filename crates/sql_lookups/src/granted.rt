//! Id tags that are granted to an operator.
ghost use Rattle.std.specs.Prelude.{◌≡◌, ◌++◌, [], OnOk};
ghost use Rattle.std.specs.List.{cons_option, filter_map};
ghost use Rattle.sqlite.specs.Held.{state};
ghost use Rattle.hub_rows.specs.Grants.{entry_by, granted_in, granted_tag_in, grants_to, info_by, received_key};
ghost use Rattle.hub_rows.specs.Keyed.{by_key, first, in_order};
ghost use Rattle.sql_rows.specs.Kept.{Asks};

use crate::grants::{list_received, received_of_key};
use crate::tags::own_tag;
use hub_rows::{GrantRow, GrantedTag, Info, Keyed, StoreFault};
use ocpp_types::{Listed, Mem};
use sql_rows::{Stored, listed};
use sqlite::{Alter, Connection, Row};
use std::alloc::Global;
use std::cmp::Ordering;
use std::marker::Model;

/// A grant, in the order of its receiver: by the tag's key, then by the owner. A contract sees it
/// as the grant.
#[derive(Drop)]
struct Received {
    grant: GrantRow,
}

impl Model for Received {
    ghost use Rattle.hub_rows.specs.declared.grant_row.GrantRow.{GrantRow};

    ghost Value = { GrantRow };

    ghost view = { λ r. r.grant };
}

impl Keyed for Received {
    ghost use Rattle.hub_rows.specs.Grants.{received_key};

    ghost key = { received_key };

    fn compare(&self, other: &Received) -> Ordering {
        let (grant, other) = (&self.grant, &other.grant);
        grant
            .to
            .cmp(&other.to)
            .then(grant.key.as_str().cmp(other.key.as_str()))
            .then(grant.op.cmp(&other.op))
    }
}

impl Stored for Received {
    ghost use Rattle.sql_rows.specs.TypedTables.{grants};

    ghost read = { grants.read };

    fn read(alloc: Global, row: &Row) -> Result<Received, StoreFault> {
        let grant = GrantRow::read(alloc, row)?;
        Ok(Received { grant })
    }
}

impl Received {
    fn as_grant(&self) -> &GrantRow
        ensures { result.now ≡ self.now }
    {
        &self.grant
    }
}

/// The grants to an operator, in the order of the tags' keys, then of the owners.
fn grants_received<S: Alter>(
    conn: &mut Connection<S>,
    to: &str,
) -> Result<Listed<Received>, StoreFault>
    ensures asks { Asks (state S.Store conn.old) (state S.Store conn.new) result (λ rows list. list ≡ in_order (by_key received_key) (grants_to to.now rows.grants)) }
{
    listed(list_received(conn, to))
}

/// The tag of a grant, as it counts for the receiver.
fn info_of<S: Alter>(
    conn: &mut Connection<S>,
    alloc: Global,
    grant: &GrantRow,
) -> Result<Option<Info>, StoreFault>
    ensures asks { Asks (state S.Store conn.old) (state S.Store conn.new) result (λ rows info. info ≡ info_by rows.tags grant.now) }
{
    match own_tag(conn, alloc, grant.op.as_str(), grant.key.as_str())? {
        Some(info) => Ok(Some(info.granted(grant.op.clone()?, grant.until))),
        None => Ok(None),
    }
}

/// The same with the key and the owner.
fn entry_of<S: Alter>(
    conn: &mut Connection<S>,
    alloc: Global,
    grant: &GrantRow,
) -> Result<Option<GrantedTag>, StoreFault>
    ensures asks { Asks (state S.Store conn.old) (state S.Store conn.new) result (λ rows entry. entry ≡ entry_by rows.tags grant.now) }
{
    match info_of(conn, alloc, grant)? {
        Some(info) => Ok(Some(GrantedTag {
            key: grant.key.clone()?,
            owner: grant.op.clone()?,
            info,
        })),
        None => Ok(None),
    }
}

/// Adds an entry, if there is one.
fn add_entry(list: &mut Listed<GrantedTag>, entry: Option<GrantedTag>) -> Mem<()>
    ensures { OnOk result (list.new ≡ list.old ++ cons_option entry []) }
{
    match entry {
        Some(entry) => list.push(entry),
        None => Ok(()),
    }
}

/// The tag of the first of some grants whose tag is there.
fn first_info<S: Alter>(
    conn: &mut Connection<S>,
    alloc: Global,
    grants: &[GrantRow],
) -> Result<Option<Info>, StoreFault>
    ensures asks { Asks (state S.Store conn.old) (state S.Store conn.new) result (λ rows info. info ≡ first (filter_map (info_by rows.tags) grants.now)) }
{
    'grants: for grant in grants {
        let info = info_of(conn, alloc, grant)?;
        if info.is_some() {
            return Ok(info);
        }
    }
    Ok(None)
}

/// The entries of some grants.
fn entries<S: Alter>(
    conn: &mut Connection<S>,
    alloc: Global,
    grants: &[Received],
) -> Result<Listed<GrantedTag>, StoreFault>
    ensures asks { Asks (state S.Store conn.old) (state S.Store conn.new) result (λ rows list. list ≡ filter_map (entry_by rows.tags) grants.now) }
{
    let mut list = Listed::new(alloc);
    'grants: for grant in grants {
        let entry = entry_of(conn, alloc, grant.as_grant())?;
        add_entry(&mut list, entry)?;
    }
    Ok(list)
}

/// The id tag of a key that is granted to an operator: that of the first owner.
pub fn granted_tag<S: Alter>(
    conn: &mut Connection<S>,
    alloc: Global,
    op: &str,
    key: &str,
) -> Result<Option<Info>, StoreFault>
    ensures asks { Asks (state S.Store conn.old) (state S.Store conn.new) result (λ rows info. info ≡ granted_tag_in op.now key.now rows.tags rows.grants) }
{
    let grants = received_of_key(conn, op, key)?;
    first_info(conn, alloc, grants.as_slice())
}

/// The id tags that are granted to an operator.
pub fn granted<S: Alter>(
    conn: &mut Connection<S>,
    alloc: Global,
    op: &str,
) -> Result<Listed<GrantedTag>, StoreFault>
    ensures asks { Asks (state S.Store conn.old) (state S.Store conn.new) result (λ rows list. list ≡ granted_in op.now rows.tags rows.grants) }
{
    let grants = grants_received(conn, op)?;
    entries(conn, alloc, grants.as_slice())
}
