//! Changes of records.

use crate::connector_row::ConnectorReport;
use crate::forgettable::Forgettable;
use crate::list_row::LocalList;
use crate::meter_value_row::MeterValue;
use crate::reader_row::Reader;
use crate::report_row::ReportedStatus;
use crate::reservation_row::{Reservation, ReservationId};
use crate::station_row::Boot;
use crate::tag_row::Tag;
use crate::tx_row::{Start, Stop};
use ocpp_types::{Listed, Moment, Policy, State, TagKey, Text};

/// A change of one operator's records, lent to a store, which makes it whole or not at all.
#[derive(Clone, Copy, Drop)]
pub struct Change<'a> {
    pub op: &'a Text,
    pub edit: &'a Edit,
}

/// What changes.
#[derive(Drop)]
pub enum Edit {
    Stations(StationEdit),
    Tags(TagEdit),
    Transactions(TransactionEdit),
    Holdings(HoldingEdit),
}

/// What changes of a station, or of what it reports.
#[derive(Drop)]
pub enum StationEdit {
    /// A new station, which is Fresh.
    StationAdded {
        station: Text,
        policy: Policy,
        interval: u32,
    },
    /// A boot of a station, in place of the one before, and the state that it leads to.
    BootSeen {
        station: Text,
        boot: Boot,
        state: State,
    },
    /// What a station's next boot is answered.
    PolicySet {
        station: Text,
        policy: Policy,
        interval: u32,
    },
    /// How the requests of a station are read.
    ReaderSet {
        station: Text,
        reader: Reader,
    },
    /// A station is gone, with its connectors, reservations, local list, reports and reader. What is left of its history stays.
    StationDropped {
        station: Text,
    },
    /// A report on a connector, in place of the one before.
    ConnectorSeen {
        station: Text,
        connector: u8,
        report: ConnectorReport,
    },
    /// A report of an upload or an update, in place of the one of its kind.
    ReportSeen {
        station: Text,
        status: ReportedStatus,
        moment: Moment,
    },
}

/// What changes of an id tag, or of its grants.
#[derive(Drop)]
pub enum TagEdit {
    /// An id tag, in place of the one with its key, whose grants it keeps.
    TagPut {
        key: TagKey,
        tag: Tag,
    },
    /// The id tag of that key is gone, with its grants.
    TagDropped {
        key: TagKey,
    },
    /// A grant of an id tag to another operator, in place of the one before.
    GrantPut {
        key: TagKey,
        to: Text,
        until: Option<Moment>,
    },
    /// The grant of an id tag to that operator is gone.
    GrantDropped {
        key: TagKey,
        to: Text,
    },
}

/// What changes of transactions, or of meter values.
#[derive(Drop)]
pub enum TransactionEdit {
    /// A new transaction, and the operator that granted the tag with which it began. The reservation that it names
    /// is gone.
    TxStarted {
        station: Text,
        number: u32,
        start: Start,
        owner: Option<Text>,
    },
    /// The stop of an open transaction, and the meter values that came with it, their readings numbered from `first`.
    /// Where another operator granted the tag with which it began, that operator's uses gain one.
    TxStopped {
        station: Text,
        number: u32,
        stop: Stop,
        first: u32,
        values: Listed<MeterValue>,
    },
    /// New meter values of a station, their readings numbered from `first`.
    MeterValuesAdded {
        station: Text,
        first: u32,
        values: Listed<MeterValue>,
    },
    /// These rows of a station are gone, and the owners of these transactions' tags.
    Forgotten {
        station: Text,
        rows: Forgettable,
    },
}

/// What changes of a reservation, or of a local list.
#[derive(Drop)]
pub enum HoldingEdit {
    /// A reservation, in place of the one with its id.
    ReservationPut {
        station: Text,
        id: ReservationId,
        reservation: Reservation,
    },
    /// The reservation of that id is gone.
    ReservationDropped {
        station: Text,
        id: ReservationId,
    },
    /// The local list of a station, in place of the one before.
    ListSet {
        station: Text,
        list: LocalList,
    },
}
