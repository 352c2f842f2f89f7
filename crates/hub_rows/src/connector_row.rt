//! The record of a connector.

use crate::named_row::NamedRow;
use crate::ordered::Keyed;
use ocpp_types::{ChargePointErrorCode, ChargePointStatus, Text};
use std::cmp::Ordering;

/// A connector of a station, as the station reported it last. Its key is `op`, `station` and
/// `connector`.
#[derive(Clone, Drop)]
pub struct ConnectorRow {
    /// The operator that hosts the station.
    pub op: Text,
    pub station: Text,
    /// 0 is the station itself.
    pub connector: u8,
    pub report: ConnectorReport,
}

/// What a station reports of a connector (OCPP 1.6, StatusNotification.req).
#[derive(Clone, Drop)]
pub struct ConnectorReport {
    pub status: ChargePointStatus,
    pub error_code: ChargePointErrorCode,
    /// When the station says that it was so, or else when it came: milliseconds since 1970.
    pub at: i64,
    pub info: Option<Text>,
    pub vendor_id: Option<Text>,
    pub vendor_error_code: Option<Text>,
}

impl Keyed for ConnectorRow {
    ghost use Rattle.hub_rows.specs.Rows.{connector_key};

    ghost key = { connector_key };

    fn compare(&self, other: &ConnectorRow) -> Ordering {
        self.op
            .cmp(&other.op)
            .then(self.station.cmp(&other.station))
            .then(self.connector.cmp(&other.connector))
    }
}

impl NamedRow for ConnectorRow {
    ghost op = { λ r. r.op };

    ghost name = { λ r. r.station };

    fn op(&self) -> &str {
        self.op.as_str()
    }

    fn name(&self) -> &str {
        self.station.as_str()
    }
}
