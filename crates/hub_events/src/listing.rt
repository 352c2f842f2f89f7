//! Lists of an operator's records, and their rows.
ghost use Rattle.std.specs.Prelude.{◌≡◌};
ghost use Rattle.hub_events.specs.declared.listing.Row.{Row};
ghost use Rattle.hub_events.specs.declared.listing.Row.TheVariants as shown;

use crate::reading_row::ReadingRow;
use hub_rows::{
    ConnectorRow, GrantRow, GrantedTag, LocalTag, ReaderRow, ReportRow, ReservationRow, StationRow,
    TagRow, TxRow, UseRow,
};
use ocpp_types::{Moment, Text};

/// A list of an operator's records.
#[derive(Drop)]
pub enum Listing {
    /// Its stations.
    Stations,
    /// Its id tags.
    Tags,
    /// What it granted to other operators.
    Grants,
    /// The id tags that are granted to it.
    Granted,
    /// The uses of its id tags at the stations of other operators.
    Uses,
    /// How its stations are read, where it chose that.
    Readers,
    /// The connectors of a station that were reported on.
    Connectors {
        station: Text,
    },
    /// The open transactions of all its stations.
    OpenTransactions,
    /// The transactions of a station from that number on.
    Transactions {
        station: Text,
        first: u32,
    },
    /// All readings of a station, or those that were sent with the number of a transaction.
    Readings {
        station: Text,
        transaction: Option<u64>,
    },
    /// The reservations at a station that count at the moment.
    Reservations {
        station: Text,
    },
    /// The local list of a station.
    LocalList {
        station: Text,
    },
    /// The last reports of a station on an upload and on an update.
    Reports {
        station: Text,
    },
    /// What an order to forget the history of a station before a moment would take.
    Forgettable {
        station: Text,
        until: Moment,
    },
}

/// A row that an operator is answered: of a listing, or what was forgotten.
#[derive(Drop)]
pub enum Row {
    Station(StationRow),
    Tag(TagRow),
    /// What the operator granted.
    Grant(GrantRow),
    /// What is granted to the operator.
    Granted(GrantedTag),
    /// A use of an id tag of the operator at another operator's station.
    Use(UseRow),
    Connector(ConnectorRow),
    Transaction(TxRow),
    Reading(ReadingRow),
    Reservation(ReservationRow),
    /// The version of a station's local list, 0 where it has none.
    LocalList {
        station: Text,
        version: u32,
    },
    /// An entry of a station's local list.
    LocalTag {
        station: Text,
        entry: LocalTag,
    },
    Report(ReportRow),
    Reader(ReaderRow),
    /// A connected station, and how many calls are in flight and waiting there.
    Connection {
        station: Text,
        calls: usize,
    },
    /// How many transactions and readings of a station were forgotten.
    Forgotten {
        station: Text,
        transactions: usize,
        readings: u128,
    },
}

/// A record that listings show.
pub trait Shown: Drop {
    /// It as a row.
    ghost as_row: { Self → Row };

    fn into_row(self) -> Row
        ensures { result ≡ as_row self };
}

impl Shown for StationRow {
    ghost as_row = { shown.Station };

    fn into_row(self) -> Row {
        Row::Station(self)
    }
}

impl Shown for TagRow {
    ghost as_row = { shown.Tag };

    fn into_row(self) -> Row {
        Row::Tag(self)
    }
}

impl Shown for GrantRow {
    ghost as_row = { shown.Grant };

    fn into_row(self) -> Row {
        Row::Grant(self)
    }
}

impl Shown for GrantedTag {
    ghost as_row = { shown.Granted };

    fn into_row(self) -> Row {
        Row::Granted(self)
    }
}

impl Shown for UseRow {
    ghost as_row = { shown.Use };

    fn into_row(self) -> Row {
        Row::Use(self)
    }
}

impl Shown for ConnectorRow {
    ghost as_row = { shown.Connector };

    fn into_row(self) -> Row {
        Row::Connector(self)
    }
}

impl Shown for TxRow {
    ghost as_row = { shown.Transaction };

    fn into_row(self) -> Row {
        Row::Transaction(self)
    }
}

impl Shown for ReservationRow {
    ghost as_row = { shown.Reservation };

    fn into_row(self) -> Row {
        Row::Reservation(self)
    }
}

impl Shown for ReaderRow {
    ghost as_row = { shown.Reader };

    fn into_row(self) -> Row {
        Row::Reader(self)
    }
}

impl Shown for ReportRow {
    ghost as_row = { shown.Report };

    fn into_row(self) -> Row {
        Row::Report(self)
    }
}

impl Shown for ReadingRow {
    ghost as_row = { shown.Reading };

    fn into_row(self) -> Row {
        Row::Reading(self)
    }
}
