//! Meter values of a connector (OCPP 1.6, section 4.7; docs/RULES.md, Readings).
ghost use Rattle.std.specs.Prelude.{◌≡◌, IfOk, map};
ghost use Rattle.hub_rows.specs.Reads.{OnlyReads};
ghost use Rattle.hub_rows.specs.Lookups.{lookups_at};
ghost use Rattle.charging.specs.MeterValues.{meter_values_rule, decision_of_values, kept_value, kept_values};

use crate::numbers::has_room;
use hub_rows::{Edit, MeterValue, Store, StoreFault, TransactionEdit};
use ocpp_payload::{Conf, MeterValues};
use ocpp_types::{Boxed, Listed, Mem, Text};
use registry::{Decision, Reply, StationAt, internal_error};
use std::alloc::Global;

/// The meter values of a MeterValues are kept, their readings numbered from the one after the station's last on. A
/// station that has no numbers left for all of them gets InternalError.
pub fn on_meter_values<S: Store>(
    alloc: Global,
    store: &mut S,
    at: &StationAt<'_>,
    request: MeterValues,
) -> Result<Decision, StoreFault>
    ensures reads { OnlyReads S.view store.old store.new result }
    ensures decision { (S.view store.new).clean → IfOk result (λ d. d
        ≡ meter_values_rule at.now.station.now request (lookups_at at.now.op.now (S.view store.old).rows)) }
{
    let last = store.last_reading(at.op.as_str(), at.station.as_str())?;
    let station = at.station.clone()?;
    let values = kept_values(
        alloc,
        request.connector_id,
        request.transaction_id,
        request.meter_value,
    )?;
    Ok(decision_of_values(alloc, station, last, values)?)
}

/// The meter values of a message, as they are kept.
pub fn kept_values(
    alloc: Global,
    connector: u8,
    transaction: Option<i32>,
    values: Listed<ocpp_payload::MeterValue>,
) -> Mem<Listed<MeterValue>>
    ensures { IfOk result (λ l. l ≡ kept_values connector transaction values) }
{
    let kept: Vec<MeterValue> = values
        .into_vec()
        .into_iter()
        .map(|value| kept_value(connector, transaction, value))
        .collect(alloc)?;
    Ok(Listed::from(kept))
}

fn kept_value(
    connector: u8,
    transaction: Option<i32>,
    value: ocpp_payload::MeterValue,
) -> MeterValue
    ensures { result ≡ kept_value connector transaction value }
{
    MeterValue {
        connector,
        transaction,
        at: value.timestamp,
        sampled: value.sampled_value,
    }
}

fn decision_of_values(
    alloc: Global,
    station: Text,
    last: u32,
    values: Listed<MeterValue>,
) -> Mem<Decision>
    ensures { IfOk result (λ d. d ≡ decision_of_values station last values) }
{
    if !has_room(last, values.as_slice()) {
        return Ok(internal_error());
    }
    let edit = Edit::Transactions(TransactionEdit::MeterValuesAdded {
        station,
        first: last + 1,
        values,
    });
    Ok(Decision {
        reply: Reply::Conf(Conf::Empty),
        edit: Some(Boxed::new(alloc, edit)?),
    })
}
