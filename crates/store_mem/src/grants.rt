//! Grants of id tags, kept in groups by their owners and once more by their receivers.
ghost use Rattle.std.specs.Prelude.{◌≡◌, [], not, filter, OnOk, OnErr};
ghost use Rattle.std.specs.Str.{bytes_eq};
ghost use Rattle.std.proofs.Props.{props};
ghost use Rattle.hub_rows.specs.Grants.{has_grant_in, is_grant};
ghost use Rattle.hub_rows.specs.Keyed.{by_key, put, without};
ghost use Rattle.hub_rows.specs.Rows.{grant_key};
ghost use Rattle.store_mem.specs.Groups.{all_of, AreGroups};
ghost use Rattle.store_mem.specs.Received.{receiver_key, AreReceived};

use crate::copies::copy;
use crate::groups::{Group, make_room, place_of_group, put_in_room, rows_of_group};
use crate::received::{Received, drop_from_each};
use crate::triples::{drop_row, place_of_row};
use hub_rows::GrantRow;
use ocpp_types::Mem;
use std::alloc::Global;

/// The grants of all operators.
#[derive(Drop)]
pub struct Grants {
    alloc: Global,
    /// By their owners.
    pub given: Vec<Group<GrantRow>>,
    /// The same by their receivers.
    pub received: Vec<Group<Received>>,
    ghost by_owner: { AreGroups grant_key (λ r. r.op) given.items } by { Prim.hlevel props },
    ghost by_receiver: { AreGroups receiver_key (λ r. r.grant.to) received.items } by { Prim.hlevel props },
    ghost same: { AreReceived (all_of received.items) (all_of given.items) } by { Prim.hlevel props },
}

impl Grants {
    /// No grants, which take no memory yet.
    pub fn new(alloc: Global) -> Grants
        ensures { all_of result.given.items ≡ [] }
    {
        Grants {
            alloc,
            given: Vec::new(alloc),
            received: Vec::new(alloc),
        }
    }

    /// Keeps a grant, in place of the one with its key.
    pub fn put(&mut self, grant: GrantRow) -> Mem<()>
        ensures ok { OnOk result (all_of self.new.given.items ≡ put (by_key grant_key) grant (all_of self.old.given.items)) }
        ensures err { OnErr result (all_of self.new.given.items ≡ all_of self.old.given.items) }
    {
        make_room(self.alloc, &mut self.given, grant.op.as_str())?;
        make_room(self.alloc, &mut self.received, grant.to.as_str())?;
        let received = Received {
            grant: copy(&grant)?,
        };
        put_in_room(&mut self.received, received);
        put_in_room(&mut self.given, grant);
        Ok(())
    }

    /// Removes the grant of a tag to one operator, if it is there.
    pub fn drop_one(&mut self, op: &str, key: &str, to: &str)
        ensures { all_of self.new.given.items ≡ without (λ r. r.op) op.now (is_grant key.now to.now) (all_of self.old.given.items) }
    {
        drop_row(&mut self.received, to, key, op);
        drop_row(&mut self.given, op, key, to);
    }

    /// Removes all grants of a tag.
    pub fn drop_of_tag(&mut self, op: &str, key: &str)
        ensures { all_of self.new.given.items ≡ without (λ r. r.op) op.now (λ r. bytes_eq r.key key.now) (all_of self.old.given.items) }
    {
        drop_from_each(&mut self.received, key, op);
        drop_given(&mut self.given, op, key);
    }

    /// Whether an operator granted its tag of a key to another.
    pub fn has(&self, op: &str, key: &str, to: &str) -> bool
        ensures { result ≡ has_grant_in op.now key.now to.now (all_of self.now.given.items) }
    {
        let rows = rows_of_group(&self.given, op);
        place_of_row(rows, op, key, to).is_ok()
    }
}

fn drop_given(groups: &mut Vec<Group<GrantRow>>, op: &str, key: &str)
    requires { AreGroups grant_key (λ r. r.op) groups.old.items }
    ensures groups { AreGroups grant_key (λ r. r.op) groups.new.items }
    ensures rows { all_of groups.new.items
        ≡ without (λ r. r.op) op.now (λ r. bytes_eq r.key key.now) (all_of groups.old.items) }
{
    if let Ok(place) = place_of_group(groups.as_slice(), op) {
        drop_key(&mut groups[place].rows, key);
    }
}

fn drop_key(rows: &mut Vec<GrantRow>, key: &str)
    ensures { rows.new.items ≡ filter (λ r. not (bytes_eq r.key key.now)) rows.old.items }
{
    rows.retain(|row| row.key.as_str() != key);
}
