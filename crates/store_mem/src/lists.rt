//! The lists that the store keeps.
ghost use Rattle.std.specs.Prelude.{◌≡◌, IfOk};
ghost use Rattle.hub_rows.specs.Lookups.{forgettable_in};
ghost use Rattle.hub_rows.specs.Rows.{no_rows};
ghost use Rattle.hub_rows.specs.Uses.{settled_use};
ghost use Rattle.store_mem.specs.Lists.{rows_in};

use crate::forgettable::forgettable;
use crate::grants::Grants;
use crate::meter_values::MeterValues;
use crate::tags::Tags;
use crate::transactions::Transactions;
use crate::tx_owners::TxOwners;
use crate::uses::{Uses, next_use};
use hub_rows::{
    ConnectorRow, History, ListRow, ReaderRow, ReportRow, ReservationRow, StationRow, Stop, UseRow,
};
use ocpp_types::{Mem, Moment, Text};
use std::alloc::Global;

/// The records of all operators, each kind in the order of its keys or in groups.
#[derive(Drop)]
pub struct Lists {
    pub alloc: Global,
    pub stations: Vec<StationRow>,
    pub connectors: Vec<ConnectorRow>,
    pub tags: Tags,
    pub grants: Grants,
    pub transactions: Transactions,
    pub meter_values: MeterValues,
    pub reservations: Vec<ReservationRow>,
    pub local_lists: Vec<ListRow>,
    pub reports: Vec<ReportRow>,
    pub tx_owners: TxOwners,
    pub uses: Uses,
    pub readers: Vec<ReaderRow>,
}

impl Lists {
    /// No records, which take no memory yet.
    pub fn new(alloc: Global) -> Lists
        ensures { rows_in result ≡ no_rows }
    {
        Lists {
            alloc,
            stations: Vec::new(alloc),
            connectors: Vec::new(alloc),
            tags: Tags::new(alloc),
            grants: Grants::new(alloc),
            transactions: Transactions::new(alloc),
            meter_values: MeterValues::new(alloc),
            reservations: Vec::new(alloc),
            local_lists: Vec::new(alloc),
            reports: Vec::new(alloc),
            tx_owners: TxOwners::new(alloc),
            uses: Uses::new(alloc),
            readers: Vec::new(alloc),
        }
    }

    /// From now on what is kept by stations is looked for at that index first.
    pub fn look_near(&mut self, near: usize)
        ensures { rows_in self.new ≡ rows_in self.old }
    {
        self.transactions.look_near(near);
        self.meter_values.look_near(near);
        self.tx_owners.look_near(near);
    }

    /// What of a station's history may go before a moment.
    pub fn forgettable(&self, op: &str, station: &str, until: Moment) -> Mem<History>
        ensures { IfOk result (λ f. f ≡ forgettable_in op.now station.now until (rows_in self.now)) }
    {
        let txs = self.transactions.rows_of(op, station);
        let values = self.meter_values.rows_of(op, station);
        forgettable(self.alloc, until, txs, values)
    }

    /// The use that the stop of a transaction settles, if another operator granted its tag.
    pub fn settled_use(
        &self,
        op: &Text,
        station: &Text,
        number: u32,
        stop: &Stop,
    ) -> Mem<Option<UseRow>>
        ensures { IfOk result (λ u. u ≡ settled_use op.now station.now number stop.now (rows_in self.now)) }
    {
        let txs = &self.transactions;
        let Some(owner) = self.tx_owners.owner(op.as_str(), station.as_str(), number) else {
            return Ok(None);
        };
        let Some(row) = txs.row(op.as_str(), station.as_str(), number) else {
            return Ok(None);
        };
        let last = self.uses.last_number(owner.as_str());
        next_use(owner, last, op, row, stop)
    }
}
