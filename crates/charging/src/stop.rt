//! Transactions that end (OCPP 1.6, section 4.10; docs/RULES.md, Stops).
ghost use Rattle.std.specs.Prelude.{◌≡◌, IfOk};
ghost use Rattle.hub_rows.specs.Reads.{OnlyReads};
ghost use Rattle.hub_rows.specs.Lookups.{lookups_at};
ghost use Rattle.charging.specs.Stop.{stop_rule, info_of, edit_of_stop, stop_edit, stop_of, number_of_id};

use crate::meter_values::kept_values;
use crate::numbers::has_room;
use hub_rows::{Edit, MeterValue, Stop, Store, StoreFault, TransactionEdit, TxKey, TxState};
use id_tags::{Purpose, judge};
use ocpp_payload::{Conf, StopTransaction};
use ocpp_types::{Boxed, IdTagInfo, Listed, Mem, Moment, TagKey, Text};
use registry::{Decision, Reply, StationAt};
use std::alloc::Global;

/// A stop ends the open transaction that it names, and keeps the meter values that were sent with it,
/// their readings numbered from the one after the station's last on. Where no numbers are left for all of them,
/// the stop is kept without them. A stop of any other transaction changes nothing. It is
/// answered in either case, with the judgement of its tag if one was sent.
pub fn on_stop<S: Store>(
    alloc: Global,
    store: &mut S,
    at: &StationAt<'_>,
    request: StopTransaction,
) -> Result<Decision, StoreFault>
    ensures reads { OnlyReads S.view store.old store.new result }
    ensures decision { (S.view store.new).clean → IfOk result (λ d. d
        ≡ stop_rule at.now.station.now request at.now.moment (lookups_at at.now.op.now (S.view store.old).rows)) }
{
    let id_tag_info = info_of(alloc, store, at, &request.id_tag)?;
    let edit = edit_of_stop(alloc, store, at, request)?;
    let reply = Conf::StopTransaction { id_tag_info };
    Ok(Decision {
        reply: Reply::Conf(reply),
        edit,
    })
}

/// The judgement of the tag that was sent with a stop.
fn info_of<S: Store>(
    alloc: Global,
    store: &mut S,
    at: &StationAt<'_>,
    tag: &Option<Text>,
) -> Result<Option<IdTagInfo>, StoreFault>
    ensures reads { OnlyReads S.view store.old store.new result }
    ensures judged { (S.view store.new).clean → IfOk result (λ i. i
        ≡ info_of tag.now at.now.moment (lookups_at at.now.op.now (S.view store.old).rows)) }
{
    match tag {
        None => Ok(None),
        Some(tag) => {
            let key = TagKey::of(alloc, tag.as_str())?;
            let info = judge(store, at.op.as_str(), &key, at.moment, &Purpose::Authorize)?;
            Ok(Some(info))
        }
    }
}

/// The end of the transaction that a stop names, if it is open.
fn edit_of_stop<S: Store>(
    alloc: Global,
    store: &mut S,
    at: &StationAt<'_>,
    request: StopTransaction,
) -> Result<Option<Boxed<Edit>>, StoreFault>
    ensures reads { OnlyReads S.view store.old store.new result }
    ensures edit { (S.view store.new).clean → IfOk result (λ e. e
        ≡ edit_of_stop at.now.station.now request at.now.moment (lookups_at at.now.op.now (S.view store.old).rows)) }
{
    let Some(number) = number_of_id(request.transaction_id) else {
        return Ok(None);
    };
    let tx = store.tx(at.op.as_str(), at.station.as_str(), number)?;
    let Some(
        TxState {
            connector,
            is_open: true,
            ..
        },
    ) = tx
    else {
        return Ok(None);
    };
    let last = store.last_reading(at.op.as_str(), at.station.as_str())?;
    let station = at.station.clone()?;
    let tx = TxKey { station, number };
    let id = Some(request.transaction_id);
    let (stop, values) = parts_of(request, at.moment);
    let values = kept_values(alloc, connector, id, values)?;
    let edit = stop_edit(alloc, tx, stop, last, values);
    Ok(Some(Boxed::new(alloc, edit)?))
}

/// The number that the id of a transaction names. A negative one names none.
fn number_of_id(id: i32) -> Option<u32>
    ensures { result ≡ number_of_id id }
{
    u32::try_from(id).ok()
}

/// A stop as it is kept, and what was sent with it.
fn parts_of(request: StopTransaction, moment: Moment) -> (Stop, Listed<ocpp_payload::MeterValue>)
    ensures { result ≡ (stop_of request moment, request.transaction_data) }
{
    let stop = Stop {
        meter_stop: request.meter_stop,
        at: request.timestamp,
        reason: request.reason,
        tag: request.id_tag,
        moment,
    };
    (stop, request.transaction_data)
}

/// The edit that keeps a stop and its meter values, unless no numbers are left for all of their readings.
fn stop_edit(alloc: Global, tx: TxKey, stop: Stop, last: u32, values: Listed<MeterValue>) -> Edit
    ensures { result ≡ stop_edit tx.station tx.number stop last values }
{
    let has_room = has_room(last, values.as_slice());
    let (first, values) = if has_room {
        (last + 1, values)
    } else {
        (0, Listed::new(alloc))
    };
    Edit::Transactions(TransactionEdit::TxStopped {
        station: tx.station,
        number: tx.number,
        stop,
        first,
        values,
    })
}
