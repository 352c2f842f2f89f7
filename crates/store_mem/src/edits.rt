//! The changes that the store in memory makes.
ghost use Rattle.std.specs.Prelude.{◌≡◌, OnOk, OnErr};
ghost use Rattle.hub_rows.specs.Changes.{edit, EditFits};
ghost use Rattle.hub_rows.specs.declared.change.Edit.TheVariants.{Stations, Tags, Transactions, Holdings};
ghost use Rattle.hub_rows.specs.declared.change.StationEdit.TheVariants.{StationAdded, PolicySet, ReaderSet, ConnectorSeen, ReportSeen};
ghost use Rattle.hub_rows.specs.declared.change.TransactionEdit.TheVariants.{Forgotten};
ghost use Rattle.hub_rows.specs.WellFormed.{WellFormedRows};
ghost use Rattle.store_mem.specs.Lists.{rows_in};

use crate::copies::copy;
use crate::lists::Lists;
use crate::reservations::{drop_named, drop_reservation};
use crate::station_copies::copy_of;
use crate::stations::{StationChange, change_station};
use crate::tx_owners::owner_row;
use hub_rows::{
    ConnectorReport, ConnectorRow, Edit, Forgettable, GrantRow, HoldingEdit, ListRow, Reader,
    ReaderRow, ReportRow, ReportedStatus, ReservationRow, StationEdit, StationRow, TagEdit, TagRow,
    TransactionEdit, put_row,
};
use ocpp_types::{Mem, Moment, Policy, State, Text};

impl Lists {
    /// Makes a change that fits.
    pub fn make(&mut self, op: &Text, change: &Edit) -> Mem<()>
        requires good { WellFormedRows (rows_in self.old) }
        requires fits { EditFits op.now change.now (rows_in self.old) }
        ensures ok { OnOk result (rows_in self.new ≡ edit op.now change.now (rows_in self.old)) }
        ensures err { OnErr result (rows_in self.new ≡ rows_in self.old) }
    {
        match change {
            Edit::Stations(change) => self.edit_stations(op, change),
            Edit::Tags(change) => self.edit_tags(op, change),
            Edit::Transactions(change) => self.edit_transactions(op, change),
            Edit::Holdings(change) => self.edit_holdings(op, change),
        }
    }

    fn edit_stations(&mut self, op: &Text, change: &StationEdit) -> Mem<()>
        requires { WellFormedRows (rows_in self.old) }
        ensures ok { OnOk result (rows_in self.new ≡ edit op.now (Stations change.now) (rows_in self.old)) }
        ensures err { OnErr result (rows_in self.new ≡ rows_in self.old) }
    {
        match change {
            StationEdit::StationAdded {
                station,
                policy,
                interval,
            } => self.add_station(op, station, *policy, *interval)?,
            StationEdit::BootSeen {
                station,
                boot,
                state,
            } => {
                let (boot, state) = (boot.clone()?, *state);
                let booted = StationChange::Booted { boot, state };
                change_station(&mut self.stations, op, station, booted);
            }
            StationEdit::PolicySet {
                station,
                policy,
                interval,
            } => self.set_policy(op, station, *policy, *interval),
            StationEdit::ReaderSet { station, reader } => self.put_reader(op, station, *reader)?,
            StationEdit::StationDropped { station } => {
                self.drop_station(op.as_str(), station.as_str());
            }
            StationEdit::ConnectorSeen {
                station,
                connector,
                report,
            } => self.put_connector(op, station, *connector, report)?,
            StationEdit::ReportSeen {
                station,
                status,
                moment,
            } => self.put_report(op, station, *status, *moment)?,
        }
        Ok(())
    }

    /// Adds a station, which is Fresh.
    fn add_station(&mut self, op: &Text, station: &Text, policy: Policy, interval: u32) -> Mem<()>
        requires { WellFormedRows (rows_in self.old) }
        ensures ok { OnOk result (rows_in self.new ≡ edit op.now (Stations (StationAdded station.now policy interval)) (rows_in self.old)) }
        ensures err { OnErr result (rows_in self.new ≡ rows_in self.old) }
    {
        let row = StationRow {
            op: op.clone()?,
            station: station.clone()?,
            policy,
            interval,
            state: State::Fresh,
            boot: None,
        };
        put_row(&mut self.stations, row)?;
        Ok(())
    }

    /// Sets what a station's next boot is answered, which can't fail.
    fn set_policy(&mut self, op: &Text, station: &Text, policy: Policy, interval: u32)
        requires { WellFormedRows (rows_in self.old) }
        ensures { rows_in self.new ≡ edit op.now (Stations (PolicySet station.now policy interval)) (rows_in self.old) }
    {
        let set = StationChange::PolicySet { policy, interval };
        change_station(&mut self.stations, op, station, set);
    }

    /// Keeps a report on a connector, in place of the one before.
    fn put_connector(
        &mut self,
        op: &Text,
        station: &Text,
        connector: u8,
        report: &ConnectorReport,
    ) -> Mem<()>
        requires { WellFormedRows (rows_in self.old) }
        ensures ok { OnOk result (rows_in self.new ≡ edit op.now (Stations (ConnectorSeen station.now connector report.now)) (rows_in self.old)) }
        ensures err { OnErr result (rows_in self.new ≡ rows_in self.old) }
    {
        let row = ConnectorRow {
            op: op.clone()?,
            station: station.clone()?,
            connector,
            report: copy(report)?,
        };
        put_row(&mut self.connectors, row)?;
        Ok(())
    }

    /// Keeps a report of an upload or an update, in place of the one of its kind.
    fn put_report(
        &mut self,
        op: &Text,
        station: &Text,
        status: ReportedStatus,
        moment: Moment,
    ) -> Mem<()>
        requires { WellFormedRows (rows_in self.old) }
        ensures ok { OnOk result (rows_in self.new ≡ edit op.now (Stations (ReportSeen station.now status moment)) (rows_in self.old)) }
        ensures err { OnErr result (rows_in self.new ≡ rows_in self.old) }
    {
        let row = ReportRow {
            op: op.clone()?,
            station: station.clone()?,
            status,
            moment,
        };
        put_row(&mut self.reports, row)?;
        Ok(())
    }

    /// Keeps how the requests of a station are read.
    fn put_reader(&mut self, op: &Text, station: &Text, reader: Reader) -> Mem<()>
        requires { WellFormedRows (rows_in self.old) }
        ensures ok { OnOk result (rows_in self.new ≡ edit op.now (Stations (ReaderSet station.now reader)) (rows_in self.old)) }
        ensures err { OnErr result (rows_in self.new ≡ rows_in self.old) }
    {
        let row = ReaderRow {
            op: op.clone()?,
            station: station.clone()?,
            reader,
        };
        put_row(&mut self.readers, row)?;
        Ok(())
    }

    fn edit_tags(&mut self, op: &Text, change: &TagEdit) -> Mem<()>
        ensures ok { OnOk result (rows_in self.new ≡ edit op.now (Tags change.now) (rows_in self.old)) }
        ensures err { OnErr result (rows_in self.new ≡ rows_in self.old) }
    {
        match change {
            TagEdit::TagPut { key, tag } => self.tags.put(TagRow {
                op: op.clone()?,
                key: key.clone()?,
                tag: tag.clone()?,
            })?,
            TagEdit::TagDropped { key } => {
                let (op, key) = (op.as_str(), key.as_str());
                self.grants.drop_of_tag(op, key);
                self.tags.drop_one(op, key);
            }
            TagEdit::GrantPut { key, to, until } => self.grants.put(GrantRow {
                op: op.clone()?,
                key: key.clone()?,
                to: to.clone()?,
                until: *until,
            })?,
            TagEdit::GrantDropped { key, to } => {
                let (op, key) = (op.as_str(), key.as_str());
                self.grants.drop_one(op, key, to.as_str());
            }
        }
        Ok(())
    }

    fn edit_transactions(&mut self, op: &Text, change: &TransactionEdit) -> Mem<()>
        requires good { WellFormedRows (rows_in self.old) }
        requires fits { EditFits op.now (Transactions change.now) (rows_in self.old) }
        ensures ok { OnOk result (rows_in self.new ≡ edit op.now (Transactions change.now) (rows_in self.old)) }
        ensures err { OnErr result (rows_in self.new ≡ rows_in self.old) }
    {
        match change {
            TransactionEdit::TxStarted {
                station,
                number,
                start,
                owner,
            } => {
                let owner = owner_row(op, station, *number, owner)?;
                self.tx_owners.make_room_for(&owner)?;
                self.transactions.start(op, station, *number, start)?;
                self.tx_owners.put_ready(owner);
                let (op, station) = (op.as_str(), station.as_str());
                drop_named(&mut self.reservations, op, station, start.reservation);
            }
            TransactionEdit::TxStopped {
                station,
                number,
                stop,
                first,
                values,
            } => {
                let settled = self.settled_use(op, station, *number, stop)?;
                let stop = stop.clone()?;
                self.uses.make_room_for(&settled)?;
                self.meter_values
                    .add(op, station, *first, values.as_slice())?;
                let (op, station) = (op.as_str(), station.as_str());
                self.transactions.stop(op, station, *number, stop);
                self.uses.put_ready(settled);
            }
            TransactionEdit::MeterValuesAdded {
                station,
                first,
                values,
            } => self
                .meter_values
                .add(op, station, *first, values.as_slice())?,
            TransactionEdit::Forgotten { station, rows } => {
                self.forget(op.as_str(), station.as_str(), rows);
            }
        }
        Ok(())
    }

    /// Drops what is forgotten of a station's history, which can't fail.
    fn forget(&mut self, op: &str, station: &str, rows: &Forgettable)
        requires { EditFits op.now (Transactions (Forgotten station.now rows.now)) (rows_in self.old) }
        ensures { rows_in self.new ≡ edit op.now (Transactions (Forgotten station.now rows.now)) (rows_in self.old) }
    {
        let transactions = rows.transactions.as_slice();
        self.transactions.forget(op, station, transactions);
        self.meter_values
            .forget(op, station, rows.meter_values.as_slice());
        self.tx_owners.forget(op, station, transactions);
    }

    fn edit_holdings(&mut self, op: &Text, change: &HoldingEdit) -> Mem<()>
        requires { WellFormedRows (rows_in self.old) }
        ensures ok { OnOk result (rows_in self.new ≡ edit op.now (Holdings change.now) (rows_in self.old)) }
        ensures err { OnErr result (rows_in self.new ≡ rows_in self.old) }
    {
        match change {
            HoldingEdit::ReservationPut {
                station,
                id,
                reservation,
            } => {
                let row = ReservationRow {
                    op: op.clone()?,
                    station: station.clone()?,
                    id: *id,
                    reservation: reservation.clone()?,
                };
                put_row(&mut self.reservations, row)?;
            }
            HoldingEdit::ReservationDropped { station, id } => {
                let (op, station) = (op.as_str(), station.as_str());
                drop_reservation(&mut self.reservations, op, station, *id);
            }
            HoldingEdit::ListSet { station, list } => {
                let row = ListRow {
                    op: op.clone()?,
                    station: station.clone()?,
                    list: copy_of(self.alloc, list)?,
                };
                put_row(&mut self.local_lists, row)?;
            }
        }
        Ok(())
    }
}
