//! The uses of granted id tags, kept in groups by the owners of the tags.
ghost use Rattle.std.specs.Prelude.{◌≡◌, ◌≤◌, [], IfOk, IsOk, OnOk};
ghost use Rattle.std.proofs.Props.{props};
ghost use Rattle.hub_rows.specs.Keyed.{own};
ghost use Rattle.hub_rows.specs.Rows.{use_key};
ghost use Rattle.hub_rows.specs.Transactions.{last_of_all};
ghost use Rattle.hub_rows.specs.Uses.{last_use_in, next_use, with_use};
ghost use Rattle.store_mem.specs.Groups.{all_of, AreGroups};
ghost use Rattle.store_mem.specs.Uses.{HasRoomFor};

use crate::groups::{Group, GroupedRow, make_room, put_in_room, rows_of_group};
use hub_rows::{LAST_NUMBER, Stop, TxRow, UseRow};
use ocpp_types::{Mem, Text};
use std::alloc::Global;

impl GroupedRow for UseRow {
    ghost use Rattle.std.specs.Prelude.{refl};
    ghost use Rattle.hub_rows.specs.Rows.{use_rest};

    ghost group = { λ r. r.op };

    ghost rest = { use_rest };

    fn group(&self) -> &str {
        self.op.as_str()
    }

    ghost splits = { λ r. refl };
}

/// The uses of all owners.
#[derive(Drop)]
pub struct Uses {
    alloc: Global,
    /// By their owners.
    pub groups: Vec<Group<UseRow>>,
    ghost by_owner: { AreGroups use_key (λ r. r.op) groups.items } by { Prim.hlevel props },
}

impl Uses {
    /// No uses, which take no memory yet.
    pub fn new(alloc: Global) -> Uses
        ensures { all_of result.groups.items ≡ [] }
    {
        Uses {
            alloc,
            groups: Vec::new(alloc),
        }
    }

    /// The uses of an owner's tags, in the order of their numbers.
    pub fn of_owner(&self, owner: &str) -> &[UseRow]
        ensures { result.now ≡ own (λ r. r.op) owner.now (all_of self.now.groups.items) }
    {
        rows_of_group(&self.groups, owner)
    }

    /// The number of an owner's last use, 0 where there is none.
    pub fn last_number(&self, owner: &str) -> u32
        ensures { result ≡ last_use_in owner.now (all_of self.now.groups.items) }
    {
        match rows_of_group(&self.groups, owner).last() {
            Some(row) => row.number,
            None => 0,
        }
    }

    /// Makes room for a use, if there is one.
    pub fn make_room_for(&mut self, row: &Option<UseRow>) -> Mem<()>
        ensures rows { all_of self.new.groups.items ≡ all_of self.old.groups.items }
        ensures room { OnOk result (HasRoomFor row.now self.new.groups.items) }
    {
        match row {
            Some(row) => make_room(self.alloc, &mut self.groups, row.op.as_str()),
            None => Ok(()),
        }
    }

    /// Puts a use at its place, if there is one. There is room for it, so that it can't fail.
    pub fn put_ready(&mut self, row: Option<UseRow>)
        requires { HasRoomFor row self.old.groups.items }
        ensures { all_of self.new.groups.items ≡ with_use row (all_of self.old.groups.items) }
    {
        if let Some(row) = row {
            put_in_room(&mut self.groups, row);
        }
    }
}

/// The use of a stopped transaction that follows the owner's last one, unless that has the last number of all. There is
/// none then, and no fault.
pub fn next_use(
    owner: &Text,
    last: u32,
    host: &Text,
    row: &TxRow,
    stop: &Stop,
) -> Mem<Option<UseRow>>
    ensures next { IfOk result (λ u. u ≡ next_use owner.now last host.now row.now stop.now) }
    ensures spent { last_of_all ≤ last → IsOk result }
{
    if last >= LAST_NUMBER {
        return Ok(None);
    }
    let id = &row.start.id;
    Ok(Some(UseRow {
        op: owner.clone()?,
        number: last + 1,
        host: host.clone()?,
        key: id.key.clone()?,
        moment: stop.moment,
        wh: stop.meter_stop.saturating_sub(id.meter_start),
    }))
}
