//! Reports of uploads of diagnostics and of firmware updates (OCPP 1.6, sections 4.4 and 4.5;
//! docs/RULES.md, Reports).
ghost use Rattle.std.specs.Prelude.{◌≡◌, IfOk};
ghost use Rattle.registry.specs.Report.{report_rule};

use crate::decision::{Decision, Reply};
use crate::station_at::StationAt;
use hub_rows::{Edit, ReportedStatus, StationEdit};
use ocpp_payload::Conf;
use ocpp_types::{Boxed, Mem};
use std::alloc::Global;

/// A report takes the place of the one of its kind, with the moment at which it came.
pub fn on_report(alloc: Global, at: &StationAt<'_>, status: ReportedStatus) -> Mem<Decision>
    ensures { IfOk result (λ d. d ≡ report_rule at.now.station.now status at.now.moment) }
{
    let edit = Edit::Stations(StationEdit::ReportSeen {
        station: at.station.clone()?,
        status,
        moment: at.moment,
    });
    Ok(Decision {
        reply: Reply::Conf(Conf::Empty),
        edit: Some(Boxed::new(alloc, edit)?),
    })
}
