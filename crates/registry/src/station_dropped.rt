//! Stations that are dropped (docs/RULES.md, Boots and policies).
ghost use Rattle.std.specs.Prelude.{◌≡◌, Err, IfOk};
ghost use Rattle.hub_rows.specs.Reads.{OnlyReads};
ghost use Rattle.hub_rows.specs.Lookups.{lookups_at};
ghost use Rattle.registry.specs.StationDropped.{is_needed, station_drop_rule};

use crate::station_at::StationAt;
use hub_rows::{Edit, StationEdit, Store, StoreFault};
use ocpp_types::Refusal;
use std::alloc::Global;

/// The edit that drops a station, by whether it is connected, or the first refusal that applies: NoSuchStation,
/// HasOpenTransactions, and NotAllowedNow where it is connected or where some of its history may be forgotten before the
/// moment of the event.
pub fn plan_station_drop<S: Store>(
    alloc: Global,
    store: &mut S,
    at: &StationAt<'_>,
    is_connected: bool,
) -> Result<Result<Edit, Refusal>, StoreFault>
    ensures reads { OnlyReads S.view store.old store.new result }
    ensures plan { (S.view store.new).clean → IfOk result (λ p. p
        ≡ station_drop_rule at.now.station.now is_connected at.now.moment (lookups_at at.now.op.now (S.view store.old).rows)) }
{
    let (op, station) = (at.op.as_str(), at.station.as_str());
    if store.station(op, station)?.is_none() {
        return Ok(Err(Refusal::NoSuchStation));
    }
    if store.has_open(op, station)? {
        return Ok(Err(Refusal::HasOpenTransactions));
    }
    if is_needed(store, at, is_connected)? {
        return Ok(Err(Refusal::NotAllowedNow));
    }
    Ok(Ok(Edit::Stations(StationEdit::StationDropped {
        station: at.station.clone()?,
    })))
}

/// Whether it is connected, or some of its history may be forgotten before the moment.
fn is_needed<S: Store>(
    store: &mut S,
    at: &StationAt<'_>,
    is_connected: bool,
) -> Result<bool, StoreFault>
    ensures reads { OnlyReads S.view store.old store.new result }
    ensures found { (S.view store.new).clean → IfOk result (λ n. n
        ≡ is_needed at.now.station.now is_connected at.now.moment (lookups_at at.now.op.now (S.view store.old).rows)) }
{
    if is_connected {
        return Ok(true);
    }
    let history = store.forgettable(at.op.as_str(), at.station.as_str(), at.moment)?;
    Ok(!history.is_empty())
}
