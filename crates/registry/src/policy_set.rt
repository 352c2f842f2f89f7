//! Policies of stations (docs/RULES.md, Boots and policies).
ghost use Rattle.std.specs.Prelude.{◌≡◌, Err, IfOk};
ghost use Rattle.hub_rows.specs.Reads.{OnlyReads};
ghost use Rattle.hub_rows.specs.Lookups.{lookups_at};
ghost use Rattle.registry.specs.PolicySet.{is_kept_from, is_rejected, policy_rule};

use crate::station_added::{MAX_INTERVAL, Terms};
use hub_rows::{Edit, StationEdit, Store, StoreFault};
use ocpp_types::{FieldName, Policy, Refusal, Text};
use std::alloc::Global;

/// The edit that sets what a station's next boot is answered, or the first refusal that applies:
/// NoSuchStation, BadField `interval` past 86400 seconds, HasOpenTransactions where the policy is
/// Rejected and a transaction of the station is open. The station's state stays as it is.
pub fn plan_policy<S: Store>(
    alloc: Global,
    store: &mut S,
    op: &str,
    station: &str,
    terms: Terms,
) -> Result<Result<Edit, Refusal>, StoreFault>
    ensures reads { OnlyReads S.view store.old store.new result }
    ensures plan { (S.view store.new).clean → IfOk result (λ p. p
        ≡ policy_rule station.now terms.policy terms.interval (lookups_at op.now (S.view store.old).rows)) }
{
    if store.station(op, station)?.is_none() {
        return Ok(Err(Refusal::NoSuchStation));
    }
    if terms.interval > MAX_INTERVAL as u64 {
        return Ok(Err(Refusal::BadField(FieldName::new("interval"))));
    }
    if is_kept_from(store, op, station, terms.policy)? {
        return Ok(Err(Refusal::HasOpenTransactions));
    }
    Ok(Ok(Edit::Stations(StationEdit::PolicySet {
        station: Text::copy_of(alloc, station)?,
        policy: terms.policy,
        interval: terms.interval as u32,
    })))
}

/// Whether an open transaction of a station keeps it from that policy.
fn is_kept_from<S: Store>(
    store: &mut S,
    op: &str,
    station: &str,
    policy: Policy,
) -> Result<bool, StoreFault>
    ensures reads { OnlyReads S.view store.old store.new result }
    ensures found { (S.view store.new).clean → IfOk result (λ k. k
        ≡ is_kept_from station.now policy (lookups_at op.now (S.view store.old).rows)) }
{
    if is_rejected(policy) {
        return store.has_open(op, station);
    }
    Ok(false)
}

fn is_rejected(policy: Policy) -> bool
    ensures { result ≡ is_rejected policy }
{
    matches!(policy, Policy::Rejected)
}
