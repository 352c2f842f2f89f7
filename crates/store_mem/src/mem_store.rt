//! The store in memory.
ghost use Rattle.std.specs.Prelude.{◌≡◌};
ghost use Rattle.std.proofs.Props.{props};
ghost use Rattle.hub_rows.specs.Rows.{no_rows};
ghost use Rattle.hub_rows.specs.WellFormed.{WellFormedRows};
ghost use Rattle.store_mem.specs.Lists.{rows_in};

use crate::copies::{copies, own_copies};
use crate::granted::{granted, granted_tag};
use crate::groups::rows_of_group;
use crate::lists::Lists;
use crate::readers::reader_of;
use crate::reservations::reserved_until;
use crate::station_copies::{copies_of_station, local_list_of};
use crate::stations::{ANYWHERE, place_of_station, registration_of};
use hub_rows::{
    Change, ConnectorRow, Flush, GrantRow, GrantedTag, History, Info, LocalList, MeterValueRow,
    Reader, ReaderRow, Recovered, Registration, ReportRow, ReservationId, ReservationRow, StartKey,
    StationRow, Store, StoreFault, TagRow, TxKey, TxRow, TxState, UseRow,
};
use ocpp_types::{Listed, Moment, TagKey};
use std::alloc::Global;

/// Records in memory. It is always clean, and fails only where memory is refused.
#[derive(Drop)]
pub struct MemStore {
    lists: Lists,
    ghost good: { WellFormedRows (rows_in lists) } by { Prim.hlevel props },
}

impl MemStore {
    /// A store with no records, which takes no memory yet.
    pub fn new(alloc: Global) -> MemStore
        ensures { (⟦<MemStore as Store>⟧.view result).rows ≡ no_rows }
    {
        MemStore {
            lists: Lists::new(alloc),
        }
    }
}

impl Store for MemStore {
    ghost view = { λ s. record { rows = rows_in s.lists; failures = 0; clean = Unit {0}; sound = Unit {0}; was_sound = λ clean. clean; may_find = λ _. Unit {0} } };

    ghost well_formed = { λ s _. s.good };

    fn station(&mut self, op: &str, station: &str) -> Result<Option<Registration>, StoreFault> {
        self.station_near(op, station, ANYWHERE)
    }

    fn station_near(
        &mut self,
        op: &str,
        station: &str,
        near: usize,
    ) -> Result<Option<Registration>, StoreFault> {
        let near = place_of_station(&self.lists.stations, near, op, station);
        self.lists.look_near(near);
        Ok(registration_of(&self.lists.stations, near, op, station))
    }

    fn own_tag(&mut self, op: &str, key: &TagKey) -> Result<Option<Info>, StoreFault> {
        Ok(self.lists.tags.own_tag(op, key)?)
    }

    fn granted_tag(&mut self, op: &str, key: &TagKey) -> Result<Option<Info>, StoreFault> {
        let Lists { tags, grants, .. } = &self.lists;
        Ok(granted_tag(tags, grants, op, key.as_str())?)
    }

    fn has_grant(&mut self, op: &str, key: &TagKey, to: &str) -> Result<bool, StoreFault> {
        Ok(self.lists.grants.has(op, key.as_str(), to))
    }

    fn is_used(
        &mut self,
        op: &str,
        key: &TagKey,
        except: &Option<TxKey>,
    ) -> Result<bool, StoreFault> {
        let txs = &self.lists.transactions;
        Ok(txs.is_used(op, key.as_str(), except))
    }

    fn same_start(
        &mut self,
        op: &str,
        station: &str,
        start: &StartKey,
    ) -> Result<Option<u32>, StoreFault> {
        Ok(self.lists.transactions.same_start(op, station, start))
    }

    fn tx(&mut self, op: &str, station: &str, number: u32) -> Result<Option<TxState>, StoreFault> {
        Ok(self.lists.transactions.state(op, station, number))
    }

    fn has_open(&mut self, op: &str, station: &str) -> Result<bool, StoreFault> {
        Ok(self.lists.transactions.has_open(op, station))
    }

    fn last_tx(&mut self, op: &str, station: &str) -> Result<u32, StoreFault> {
        Ok(self.lists.transactions.last_number(op, station))
    }

    fn last_reading(&mut self, op: &str, station: &str) -> Result<u32, StoreFault> {
        Ok(self.lists.meter_values.last_number(op, station))
    }

    fn reserved_until(
        &mut self,
        op: &str,
        station: &str,
        id: ReservationId,
    ) -> Result<Option<Moment>, StoreFault> {
        Ok(reserved_until(&self.lists.reservations, op, station, id))
    }

    fn local_list(&mut self, op: &str, station: &str) -> Result<Option<LocalList>, StoreFault> {
        Ok(local_list_of(self.lists.alloc, &self.lists.local_lists, op, station)?)
    }

    fn stations(&mut self, op: &str) -> Result<Listed<StationRow>, StoreFault> {
        Ok(own_copies(self.lists.alloc, &self.lists.stations, op)?)
    }

    fn tags(&mut self, op: &str) -> Result<Listed<TagRow>, StoreFault> {
        Ok(copies(self.lists.alloc, self.lists.tags.of_operator(op))?)
    }

    fn grants_out(&mut self, op: &str) -> Result<Listed<GrantRow>, StoreFault> {
        let given = rows_of_group(&self.lists.grants.given, op);
        Ok(copies(self.lists.alloc, given)?)
    }

    fn granted(&mut self, op: &str) -> Result<Listed<GrantedTag>, StoreFault> {
        let Lists { tags, grants, .. } = &self.lists;
        Ok(granted(self.lists.alloc, tags, grants, op)?)
    }

    fn connectors(&mut self, op: &str, station: &str) -> Result<Listed<ConnectorRow>, StoreFault> {
        Ok(copies_of_station(self.lists.alloc, &self.lists.connectors, op, station)?)
    }

    fn txs(&mut self, op: &str, station: &str, first: u32) -> Result<Listed<TxRow>, StoreFault> {
        let rows = self.lists.transactions.of_station(op, station, first);
        Ok(copies(self.lists.alloc, rows)?)
    }

    fn open_txs(&mut self, op: &str) -> Result<Listed<TxRow>, StoreFault> {
        Ok(self.lists.transactions.open_copies(op)?)
    }

    fn forgettable(
        &mut self,
        op: &str,
        station: &str,
        until: Moment,
    ) -> Result<History, StoreFault> {
        Ok(self.lists.forgettable(op, station, until)?)
    }

    fn meter_values(
        &mut self,
        op: &str,
        station: &str,
        transaction: Option<u64>,
    ) -> Result<Listed<MeterValueRow>, StoreFault> {
        let values = &self.lists.meter_values;
        Ok(values.of_station(op, station, transaction)?)
    }

    fn reservations(
        &mut self,
        op: &str,
        station: &str,
    ) -> Result<Listed<ReservationRow>, StoreFault> {
        Ok(copies_of_station(self.lists.alloc, &self.lists.reservations, op, station)?)
    }

    fn reports(&mut self, op: &str, station: &str) -> Result<Listed<ReportRow>, StoreFault> {
        Ok(copies_of_station(self.lists.alloc, &self.lists.reports, op, station)?)
    }

    fn uses(&mut self, op: &str) -> Result<Listed<UseRow>, StoreFault> {
        Ok(copies(self.lists.alloc, self.lists.uses.of_owner(op))?)
    }

    fn reader(&mut self, op: &str, station: &str) -> Result<Reader, StoreFault> {
        Ok(reader_of(&self.lists.readers, op, station))
    }

    fn readers(&mut self, op: &str) -> Result<Listed<ReaderRow>, StoreFault> {
        Ok(own_copies(self.lists.alloc, &self.lists.readers, op)?)
    }

    fn apply(&mut self, change: &Change<'_>, _when: Flush) -> Result<(), StoreFault> {
        Ok(self.lists.make(change.op, change.edit)?)
    }

    /// No change waits.
    fn flush(&mut self) -> Result<(), StoreFault> {
        Ok(())
    }

    fn recover(&mut self) -> Result<Recovered, StoreFault> {
        Ok(Recovered::Whole)
    }
}
