//! Transactions that their operator closes (docs/RULES.md, Stops).
ghost use Rattle.std.specs.Prelude.{◌≡◌, true, Err, IfOk, Some};
ghost use Rattle.hub_rows.specs.Reads.{OnlyReads};
ghost use Rattle.hub_rows.specs.Lookups.{lookups_at};
ghost use Rattle.charging.specs.Close.{close_rule, closed_at, is_meter, meter_at_close};

use crate::watt_hours::{MAX_WATT_HOURS, last_watt_hours};
use hub_rows::{Edit, Stop, Store, StoreFault, TransactionEdit, TxState};
use ocpp_types::{FieldName, Listed, Moment, Reason, Refusal};
use registry::StationAt;
use std::alloc::Global;

/// The edit that stops an open transaction of a station, or the first refusal that applies: NoSuchStation,
/// NoSuchTransaction where it isn't on record or has stopped, BadField `meterStop` past 999,999,999,999 Wh.
///
/// It stops at the moment, for the reason Other (OCPP 1.6, type Reason), without a tag and without meter values. Without a
/// meter in Wh it is that of the transaction's last reading that shows energy, or the meter at the start.
pub fn plan_close<S: Store>(
    alloc: Global,
    store: &mut S,
    at: &StationAt<'_>,
    number: u32,
    meter_stop: Option<u64>,
) -> Result<Result<Edit, Refusal>, StoreFault>
    ensures reads { OnlyReads S.view store.old store.new result }
    ensures plan { (S.view store.new).clean → IfOk result (λ p. p
        ≡ close_rule at.now.station.now number meter_stop at.now.moment (lookups_at at.now.op.now (S.view store.old).rows)) }
{
    let (op, station) = (at.op.as_str(), at.station.as_str());
    if store.station(op, station)?.is_none() {
        return Ok(Err(Refusal::NoSuchStation));
    }
    let Some(
        TxState {
            meter_start,
            is_open: true,
            ..
        },
    ) = store.tx(op, station, number)?
    else {
        return Ok(Err(Refusal::NoSuchTransaction));
    };
    if !is_meter(meter_stop) {
        return Ok(Err(Refusal::BadField(FieldName::new("meterStop"))));
    }
    let meter_stop = meter_at_close(store, at, number, meter_stop, meter_start)?;
    Ok(Ok(Edit::Transactions(TransactionEdit::TxStopped {
        station: at.station.clone()?,
        number,
        stop: closed_at(at.moment, meter_stop),
        first: 0,
        values: Listed::new(alloc),
    })))
}

/// Whether a meter can show so much.
fn is_meter(meter_stop: Option<u64>) -> bool
    ensures { result ≡ is_meter meter_stop }
{
    meter_stop.is_none_or(|meter| meter <= MAX_WATT_HOURS)
}

/// The meter as it was given, or else by the readings of the transaction, or else as it was at the start.
fn meter_at_close<S: Store>(
    store: &mut S,
    at: &StationAt<'_>,
    number: u32,
    meter_stop: Option<u64>,
    meter_start: i64,
) -> Result<i64, StoreFault>
    requires { is_meter meter_stop ≡ true }
    ensures reads { OnlyReads S.view store.old store.new result }
    ensures meter { (S.view store.new).clean → IfOk result (λ meter. meter
        ≡ meter_at_close meter_stop meter_start ((lookups_at at.now.op.now (S.view store.old).rows).meter_values at.now.station.now (Some number))) }
{
    if let Some(meter) = meter_stop {
        return Ok(meter as i64);
    }
    let rows = store.meter_values(at.op.as_str(), at.station.as_str(), Some(u64::from(number)))?;
    match last_watt_hours(rows.as_slice()) {
        Some(shown) => Ok(shown as i64),
        None => Ok(meter_start),
    }
}

/// The stop of a transaction that is closed at a moment.
fn closed_at(moment: Moment, meter_stop: i64) -> Stop
    ensures { result ≡ closed_at moment meter_stop }
{
    Stop {
        meter_stop,
        at: moment.seconds() as i64 * 1000,
        reason: Reason::Other,
        tag: None,
        moment,
    }
}
