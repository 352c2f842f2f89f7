//! The requests of an operator (docs/RULES.md, Requests of operators).
ghost use Rattle.std.specs.Prelude.{◌≡◌, IfOk};
ghost use Rattle.hub_rows.specs.Reads.{OnlyReads};
ghost use Rattle.hub_rows.specs.Lookups.{lookups_at};
ghost use Rattle.hub_rows.specs.Operators.{is_hosted};
ghost use Rattle.operator_plans.specs.Requests.{admin_rule};

use charging::plan_close;
use hub_events::Admin;
use hub_rows::{Edit, Store, StoreFault};
use id_tags::{plan_drop, plan_grant, plan_put, plan_revoke};
use ocpp_types::{Moment, Refusal, Text};
use registry::{StationAt, Terms, plan_add, plan_policy, plan_reader};
use std::alloc::Global;

/// The edit that an operator's request asks for, or the refusal of its rule. `hosted` are the
/// hosted operators.
#[inline(never)]
pub fn decide_admin<S: Store>(
    alloc: Global,
    store: &mut S,
    op: &Text,
    admin: &Admin,
    moment: Moment,
    hosted: &[Text],
) -> Result<Result<Edit, Refusal>, StoreFault>
    ensures reads { OnlyReads S.view store.old store.new result }
    ensures decision { (S.view store.new).clean → IfOk result (λ p. p
        ≡ admin_rule (is_hosted hosted.now) admin.now moment (lookups_at op.now (S.view store.old).rows)) }
{
    let name = op.as_str();
    match admin {
        Admin::StationAdd {
            station,
            policy,
            interval,
        } => {
            let terms = Terms {
                policy: *policy,
                interval: *interval,
            };
            plan_add(alloc, store, name, station.as_str(), terms)
        }
        Admin::StationPolicy {
            station,
            policy,
            interval,
        } => {
            let terms = Terms {
                policy: *policy,
                interval: *interval,
            };
            plan_policy(alloc, store, name, station.as_str(), terms)
        }
        Admin::StationReader { station, reader } => {
            plan_reader(alloc, store, name, station.as_str(), *reader)
        }
        Admin::TagPut { tag } => Ok(plan_put(alloc, tag.as_ref())?),
        Admin::TagDrop { tag } => plan_drop(alloc, store, name, tag.as_str()),
        Admin::Grant(grant) => plan_grant(alloc, store, name, grant, hosted),
        Admin::Revoke { tag, to } => plan_revoke(alloc, store, name, tag.as_str(), to),
        Admin::TransactionClose {
            station,
            number,
            meter_stop,
        } => {
            let at = StationAt {
                op,
                station,
                moment,
            };
            plan_close(alloc, store, &at, *number, *meter_stop)
        }
    }
}
