//! The record of what a station reported of an upload or an update.
ghost use Rattle.std.specs.Prelude.{◌≡◌};
ghost use Rattle.hub_rows.specs.Reports.{kind_of, reported_name};

use crate::named_row::NamedRow;
use crate::ordered::Keyed;
use ocpp_types::{DiagnosticsStatus, FirmwareStatus, Moment, Named, Text};
use std::cmp::Ordering;

/// The last report of a kind. Its key is `op`, `station` and the kind of `status`.
#[derive(Clone, Drop)]
pub struct ReportRow {
    /// The operator that hosts the station.
    pub op: Text,
    pub station: Text,
    pub status: ReportedStatus,
    /// When it came.
    pub moment: Moment,
}

/// What a station reports of an upload of diagnostics or of a firmware update (OCPP 1.6,
/// DiagnosticsStatusNotification.req and FirmwareStatusNotification.req).
#[derive(Clone, Copy, Debug, PartialEq, Eq)]
pub enum ReportedStatus {
    Diagnostics(DiagnosticsStatus),
    Firmware(FirmwareStatus),
}

impl ReportedStatus {
    /// The name of its kind, which tells the reports of a station apart.
    pub fn kind(&self) -> &'static str
        ensures { result.now ≡ kind_of self.now }
    {
        match self {
            ReportedStatus::Diagnostics(_) => "Diagnostics",
            ReportedStatus::Firmware(_) => "Firmware",
        }
    }

    /// The name of the status (OCPP 1.6, types DiagnosticsStatus and FirmwareStatus).
    pub fn name(&self) -> &'static str
        ensures { result.now ≡ reported_name self.now }
    {
        match self {
            ReportedStatus::Diagnostics(status) => status.name(),
            ReportedStatus::Firmware(status) => status.name(),
        }
    }
}

impl Keyed for ReportRow {
    ghost use Rattle.hub_rows.specs.Rows.{report_key};

    ghost key = { report_key };

    fn compare(&self, other: &ReportRow) -> Ordering {
        self.op
            .cmp(&other.op)
            .then(self.station.cmp(&other.station))
            .then(self.status.kind().cmp(other.status.kind()))
    }
}

impl NamedRow for ReportRow {
    ghost op = { λ r. r.op };

    ghost name = { λ r. r.station };

    fn op(&self) -> &str {
        self.op.as_str()
    }

    fn name(&self) -> &str {
        self.station.as_str()
    }
}
