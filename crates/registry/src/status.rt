//! Reports on connectors (OCPP 1.6, section 4.9; docs/RULES.md, Connectors).
ghost use Rattle.std.specs.Prelude.{◌≡◌, IfOk};
ghost use Rattle.registry.specs.Status.{status_rule, report_of};

use crate::decision::{Decision, Reply};
use crate::station_at::StationAt;
use hub_rows::{ConnectorReport, Edit, StationEdit};
use ocpp_payload::{Conf, StatusNotification};
use ocpp_types::{Boxed, Mem, Moment};
use std::alloc::Global;

/// A report on a connector takes the place of the one before. It is of the time that was sent
/// with it, or else of the moment.
pub fn on_status(
    alloc: Global,
    at: &StationAt<'_>,
    request: Boxed<StatusNotification>,
) -> Mem<Decision>
    ensures { IfOk result (λ d. d ≡ status_rule at.now.station.now request at.now.moment) }
{
    let request = request.into_inner();
    let connector = request.connector_id;
    let edit = Edit::Stations(StationEdit::ConnectorSeen {
        station: at.station.clone()?,
        connector,
        report: report_of(request, at.moment),
    });
    Ok(Decision {
        reply: Reply::Conf(Conf::Empty),
        edit: Some(Boxed::new(alloc, edit)?),
    })
}

/// What a request reports.
fn report_of(request: StatusNotification, moment: Moment) -> ConnectorReport
    ensures { result ≡ report_of request moment }
{
    ConnectorReport {
        status: request.status,
        error_code: request.error_code,
        at: request.timestamp.unwrap_or(moment.seconds() as i64 * 1000),
        info: request.info,
        vendor_id: request.vendor_id,
        vendor_error_code: request.vendor_error_code,
    }
}
