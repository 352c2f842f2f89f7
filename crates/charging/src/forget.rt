//! History that an operator forgets (docs/RULES.md, Forgetting).
ghost use Rattle.std.specs.Prelude.{◌≡◌, Err, IfOk};
ghost use Rattle.hub_rows.specs.Reads.{OnlyReads};
ghost use Rattle.hub_rows.specs.Lookups.{lookups_at};
ghost use Rattle.charging.specs.Forget.{forget_rule};

use hub_rows::{History, Store, StoreFault};
use ocpp_types::{FieldName, Moment, Refusal};
use registry::StationAt;

/// What of a station's history goes, before a moment, or the first refusal that applies: NoSuchStation, BadField `until`
/// after the moment of the event.
pub fn plan_forget<S: Store>(
    store: &mut S,
    at: &StationAt<'_>,
    until: Moment,
) -> Result<Result<History, Refusal>, StoreFault>
    ensures reads { OnlyReads S.view store.old store.new result }
    ensures plan { (S.view store.new).clean → IfOk result (λ p. p
        ≡ forget_rule at.now.station.now until at.now.moment (lookups_at at.now.op.now (S.view store.old).rows)) }
{
    let (op, station) = (at.op.as_str(), at.station.as_str());
    if store.station(op, station)?.is_none() {
        return Ok(Err(Refusal::NoSuchStation));
    }
    if until > at.moment {
        return Ok(Err(Refusal::BadField(FieldName::new("until"))));
    }
    Ok(Ok(store.forgettable(op, station, until)?))
}
