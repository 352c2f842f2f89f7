//! The record of a transaction.
ghost use Rattle.std.specs.Prelude.{◌≡◌};

use crate::ordered::Keyed;
use ocpp_types::{AuthorizationStatus, Moment, Reason, TagKey, Text};
use std::cmp::Ordering;

/// The last number that a transaction, a reading, a use or a call can have.
pub const LAST_NUMBER: u32 = i32::MAX as u32;

/// A transaction of a station. Its key is `op`, `station` and `number`.
#[derive(Clone, Drop)]
pub struct TxRow {
    /// The operator that hosts the station.
    pub op: Text,
    pub station: Text,
    /// 1 to 2147483647, counted by station.
    pub number: u32,
    pub start: Start,
    /// It is open while there is none.
    pub stop: Option<Stop>,
}

/// What tells the starts of a station apart. A station that has missed the answer to a start sends
/// the same again (OCPP 1.6, section 3.7.1).
#[derive(Clone, Drop)]
pub struct StartKey {
    pub connector: u8,
    pub key: TagKey,
    /// In Wh.
    pub meter_start: i64,
    /// When the station says that it began: milliseconds since 1970.
    pub at: i64,
}

/// How a transaction began (OCPP 1.6, StartTransaction.req).
#[derive(Clone, Drop)]
pub struct Start {
    pub id: StartKey,
    /// The tag as it was sent.
    pub tag: Text,
    pub reservation: Option<i32>,
    /// How the tag was judged.
    pub status: AuthorizationStatus,
    /// When the start came.
    pub begun: Moment,
}

/// How a transaction ended (OCPP 1.6, StopTransaction.req).
#[derive(Clone, Drop)]
pub struct Stop {
    /// In Wh.
    pub meter_stop: i64,
    /// When the station says that it ended: milliseconds since 1970.
    pub at: i64,
    pub reason: Reason,
    /// The tag as it was sent.
    pub tag: Option<Text>,
    /// When the stop came.
    pub moment: Moment,
}

/// The owner of the id tag with which a transaction began, where another operator granted it and the start was
/// Accepted. Its key is `op`, `station` and `number`.
#[derive(Clone, Drop)]
pub struct TxOwnerRow {
    /// The operator that hosts the station.
    pub op: Text,
    pub station: Text,
    /// The number of the transaction.
    pub number: u32,
    pub owner: Text,
}

/// What tells the transactions of an operator apart.
#[derive(Drop)]
pub struct TxKey {
    pub station: Text,
    pub number: u32,
}

/// The part of a transaction's record that rules ask for.
#[derive(Clone, Copy, Debug, PartialEq, Eq)]
pub struct TxState {
    pub connector: u8,
    /// In Wh.
    pub meter_start: i64,
    pub is_open: bool,
}

impl TxRow {
    ghost use Rattle.hub_rows.specs.Transactions.{is_open, counts, state_of};

    /// Whether it hasn't been stopped.
    pub fn is_open(&self) -> bool
        ensures { result ≡ is_open self.now }
    {
        self.stop.is_none()
    }

    /// Whether it is open and began Accepted, so that its tag is in use.
    pub fn counts(&self) -> bool
        ensures { result ≡ counts self.now }
    {
        self.is_open() && matches!(self.start.status, AuthorizationStatus::Accepted)
    }

    /// What rules ask of it.
    pub fn state(&self) -> TxState
        ensures { result ≡ state_of self.now }
    {
        TxState {
            connector: self.start.id.connector,
            meter_start: self.start.id.meter_start,
            is_open: self.is_open(),
        }
    }
}

impl Keyed for TxRow {
    ghost use Rattle.hub_rows.specs.Rows.{tx_key};

    ghost key = { tx_key };

    fn compare(&self, other: &TxRow) -> Ordering {
        self.op
            .cmp(&other.op)
            .then(self.station.cmp(&other.station))
            .then(self.number.cmp(&other.number))
    }
}

impl Keyed for TxOwnerRow {
    ghost use Rattle.hub_rows.specs.Rows.{tx_owner_key};

    ghost key = { tx_owner_key };

    fn compare(&self, row: &TxOwnerRow) -> Ordering {
        self.op
            .cmp(&row.op)
            .then(self.station.cmp(&row.station))
            .then(self.number.cmp(&row.number))
    }
}
