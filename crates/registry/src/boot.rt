//! Boots and heartbeats (OCPP 1.6, sections 4.2 and 4.6; docs/RULES.md, Boots and policies).
ghost use Rattle.std.specs.Prelude.{◌≡◌, IfOk};
ghost use Rattle.registry.specs.Boot.{boot_rule, heartbeat_rule, state_after};

use crate::decision::{Decision, Reply};
use crate::station_at::StationAt;
use hub_rows::{Boot, Edit, Registration, StationEdit};
use ocpp_payload::Conf;
use ocpp_types::{BootNotification, Boxed, Mem, Moment, Policy, State};
use std::alloc::Global;

/// A boot of a station is answered with the moment, the station's interval and its policy, which is
/// its state afterwards. Its texts take the place of those of the boot before.
pub fn on_boot(
    alloc: Global,
    at: &StationAt<'_>,
    registration: Registration,
    texts: Boxed<BootNotification>,
) -> Mem<Decision>
    ensures { IfOk result (λ d. d ≡ boot_rule at.now.station.now registration texts at.now.moment) }
{
    let moment = at.moment;
    let reply = Conf::BootNotification {
        current_time: moment,
        interval: registration.interval,
        status: registration.policy,
    };
    let edit = Edit::Stations(StationEdit::BootSeen {
        station: at.station.clone()?,
        boot: Boot { texts, moment },
        state: state_after(registration.policy),
    });
    Ok(Decision {
        reply: Reply::Conf(reply),
        edit: Some(Boxed::new(alloc, edit)?),
    })
}

fn state_after(policy: Policy) -> State
    ensures { result ≡ state_after policy }
{
    match policy {
        Policy::Accepted => State::Accepted,
        Policy::Pending => State::Pending,
        Policy::Rejected => State::Rejected,
    }
}

/// A heartbeat is answered with the moment, and changes nothing.
pub fn on_heartbeat(moment: Moment) -> Decision
    ensures { result ≡ heartbeat_rule moment }
{
    Decision {
        reply: Reply::Conf(Conf::Heartbeat {
            current_time: moment,
        }),
        edit: None,
    }
}
