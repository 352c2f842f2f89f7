//! The owners of the id tags with which transactions began, where other operators granted them.
ghost use Rattle.std.specs.Prelude.{◌≡◌, [], IfOk, OnOk, option_map};
ghost use Rattle.std.proofs.Props.{props};
ghost use Rattle.hub_rows.specs.Forgetting.{is_one_of};
ghost use Rattle.hub_rows.specs.Keyed.{without};
ghost use Rattle.hub_rows.specs.Uses.{owner_in};
ghost use Rattle.store_mem.specs.NamedGroups.{all_rows, AreGrouped};
ghost use Rattle.store_mem.specs.TxOwners.{owner_row, with_row, HasRoomFor, IsBehind};

use crate::named_groups::{NamedGroup, make_room_at};
use crate::near::Near;
use crate::station_rows::{drop_numbers, put_last, row_of_number};
use hub_rows::TxOwnerRow;
use ocpp_types::{Mem, Text};
use std::alloc::Global;

/// The owners of the tags of all operators' transactions.
#[derive(Drop)]
pub struct TxOwners {
    alloc: Global,
    /// All of them, by the stations of the transactions.
    pub rows: Vec<NamedGroup<TxOwnerRow>>,
    /// Where a station's group is looked for first.
    near: Near,
    ghost by_station: { AreGrouped (λ r. r.op) (λ r. r.station) (λ r. r.number) rows.items } by { Prim.hlevel props },
}

impl TxOwners {
    /// No owners, which take no memory yet.
    pub fn new(alloc: Global) -> TxOwners
        ensures { all_rows result.rows.items ≡ [] }
    {
        TxOwners {
            alloc,
            rows: Vec::new(alloc),
            near: Near::new(alloc),
        }
    }

    /// From now on the station's row is at that index, by which its group is looked for.
    pub fn look_near(&mut self, near: usize)
        ensures { all_rows self.new.rows.items ≡ all_rows self.old.rows.items }
    {
        self.near.look(near);
    }

    /// The owner of a transaction's tag, if another operator granted it.
    pub fn owner(&self, op: &str, station: &str, number: u32) -> Option<&Text>
        ensures { option_map (λ o. o.now) result ≡ owner_in op.now station.now number (all_rows self.now.rows.items) }
    {
        row_of_number(&self.rows, Some(&self.near), op, station, number).map(|row| &row.owner)
    }

    /// Makes room for a row, if there is one.
    pub fn make_room_for(&mut self, row: &Option<TxOwnerRow>) -> Mem<()>
        ensures rows { all_rows self.new.rows.items ≡ all_rows self.old.rows.items }
        ensures room { OnOk result (HasRoomFor row.now self.new.rows.items) }
    {
        match row {
            Some(row) => {
                let (op, station) = (row.op.as_str(), row.station.as_str());
                self.near.make_room(self.alloc);
                make_room_at(self.alloc, &mut self.rows, Some(&self.near), op, station)
            }
            None => Ok(()),
        }
    }

    /// Drops the owners of a station's transactions that have these numbers, which can't fail.
    pub fn forget(&mut self, op: &str, station: &str, numbers: &[u32])
        ensures { all_rows self.new.rows.items ≡ without (λ r. r.op) op.now (is_one_of (λ r. r.station) (λ r. r.number) station.now numbers.now) (all_rows self.old.rows.items) }
    {
        drop_numbers(&mut self.rows, op, station, numbers);
    }

    /// Puts a row behind those of its station, if there is one. There is room for it, so that it can't fail.
    pub fn put_ready(&mut self, row: Option<TxOwnerRow>)
        requires room { HasRoomFor row self.old.rows.items }
        requires behind { IsBehind row (all_rows self.old.rows.items) }
        ensures { all_rows self.new.rows.items ≡ with_row row (all_rows self.old.rows.items) }
    {
        if let Some(row) = row {
            put_last(&mut self.rows, Some(&self.near), row);
        }
    }
}

/// The row of a transaction that begins, if another operator granted its tag.
pub fn owner_row(
    op: &Text,
    station: &Text,
    number: u32,
    owner: &Option<Text>,
) -> Mem<Option<TxOwnerRow>>
    ensures { IfOk result (λ r. r ≡ owner_row op.now station.now number owner.now) }
{
    match owner {
        Some(owner) => Ok(Some(TxOwnerRow {
            op: op.clone()?,
            station: station.clone()?,
            number,
            owner: owner.clone()?,
        })),
        None => Ok(None),
    }
}
