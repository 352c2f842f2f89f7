//! What the hub is handed.

use crate::listing::Listing;
use hub_rows::{Reader, Tag};
use id_tags::Grant;
use ocpp_types::{Boxed, Moment, Policy, Text};
use operator_cmds::Command;

/// One event. Each carries its moment; moments need not grow.
#[derive(Drop)]
pub enum Event {
    /// Something happens at an operator.
    At {
        op: Text,
        moment: Moment,
        what: What,
    },
    /// Time has passed, for all operators: calls that were sent too long ago end.
    Tick {
        moment: Moment,
    },
}

/// What happens at an operator, and when.
#[derive(Clone, Copy, Drop)]
pub struct OperatorEvent<'a> {
    /// The operator.
    pub op: &'a Text,
    /// The moment of the event.
    pub moment: Moment,
    /// What happens.
    pub what: &'a What,
}

/// What happens at an operator.
#[derive(Drop)]
pub enum What {
    /// A station has connected.
    Connect {
        station: Text,
    },
    /// A station's connection has ended.
    Disconnect {
        station: Text,
    },
    /// A station has sent a text.
    Frame {
        station: Text,
        text: Text,
    },
    /// The operator sends a command to a station.
    Do {
        station: Text,
        command: Boxed<Command>,
    },
    /// The operator edits its records.
    Admin(Admin),
    /// The operator asks for a list of its records.
    List(Listing),
    /// The operator asks which of its stations are connected.
    Connections,
    /// The operator drops a station.
    DropStation {
        station: Text,
    },
    /// The operator forgets the history of a station before a moment, with ends no more of it than up to these.
    Forget {
        station: Text,
        until: Moment,
        ends: Option<HistoryEnds>,
    },
}

/// How far a station's history goes: up to the reading of a number, and up to the transaction of a number.
#[derive(Clone, Copy, Drop)]
pub struct HistoryEnds {
    pub reading: u32,
    pub transaction: u32,
}

/// An operator's edit of its records.
#[derive(Drop)]
pub enum Admin {
    /// A new station, with its policy and its heartbeat interval in seconds.
    StationAdd {
        station: Text,
        policy: Policy,
        interval: u64,
    },
    /// An id tag, in place of the one with its key.
    TagPut {
        tag: Boxed<Tag>,
    },
    /// The id tag of that text's key is dropped.
    TagDrop {
        tag: Text,
    },
    /// An id tag of the operator is granted to another.
    Grant(Grant),
    /// The grant of the id tag of that text's key to that operator is taken back.
    Revoke {
        tag: Text,
        to: Text,
    },
    /// What a station's next boot is answered, and its heartbeat interval in seconds.
    StationPolicy {
        station: Text,
        policy: Policy,
        interval: u64,
    },
    /// How the requests of a station are read.
    StationReader {
        station: Text,
        reader: Reader,
    },
    /// An open transaction of a station is closed, with its meter in Wh, or else by its readings.
    TransactionClose {
        station: Text,
        number: u32,
        meter_stop: Option<u64>,
    },
}
