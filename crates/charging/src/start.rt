//! Transactions that begin (OCPP 1.6, section 4.8; docs/RULES.md, Transactions).
ghost use Rattle.std.specs.Prelude.{◌≡◌, IfOk, None};
ghost use Rattle.hub_rows.specs.Reads.{OnlyReads};
ghost use Rattle.hub_rows.specs.Lookups.{lookups_at};
ghost use Rattle.id_tags.specs.Judge.{judge_with_owner};
ghost use Rattle.id_tags.specs.declared.judgement.Purpose.TheVariants as purpose;
ghost use Rattle.charging.specs.Start.{start_rule, start_key, start_of, repeat_decision, new_start, start_by_key, begin_decision};

use hub_rows::{Edit, LAST_NUMBER, Start, StartKey, Store, StoreFault, TransactionEdit, TxKey};
use id_tags::{Judged, Purpose, judge, judge_with_owner};
use ocpp_payload::{Conf, StartTransaction};
use ocpp_types::{AuthorizationStatus, Boxed, Mem, Moment, TagKey};
use registry::{Decision, Reply, StationAt, internal_error};
use std::alloc::Global;

/// A start begins a transaction, whose number is the one after the station's last, and is answered
/// with that number and the judgement of its tag. The transaction begins whatever the judgement
/// is. An accepted start keeps the operator that granted its tag. A start that the station sends again is answered with the number that it has, and changes
/// nothing. A station that has no number left gets InternalError.
pub fn on_start<S: Store>(
    alloc: Global,
    store: &mut S,
    at: &StationAt<'_>,
    request: StartTransaction,
) -> Result<Decision, StoreFault>
    ensures reads { OnlyReads S.view store.old store.new result }
    ensures decision { (S.view store.new).clean → IfOk result (λ d. d
        ≡ start_rule at.now.station.now request at.now.moment (lookups_at at.now.op.now (S.view store.old).rows)) }
{
    let id = start_key(alloc, &request)?;
    start_by_key(alloc, store, at, request, id)
}

/// What tells a start from others of its station.
fn start_key(alloc: Global, request: &StartTransaction) -> Mem<StartKey>
    ensures { IfOk result (λ k. k ≡ start_key request.now) }
{
    Ok(StartKey {
        connector: request.connector_id,
        key: TagKey::of(alloc, request.id_tag.as_str())?,
        meter_start: request.meter_start,
        at: request.timestamp,
    })
}

/// A start that has a number, or a new one.
fn start_by_key<S: Store>(
    alloc: Global,
    store: &mut S,
    at: &StationAt<'_>,
    request: StartTransaction,
    id: StartKey,
) -> Result<Decision, StoreFault>
    ensures reads { OnlyReads S.view store.old store.new result }
    ensures decision { (S.view store.new).clean → IfOk result (λ d. d
        ≡ start_by_key at.now.station.now request id at.now.moment (lookups_at at.now.op.now (S.view store.old).rows)) }
{
    match store.same_start(at.op.as_str(), at.station.as_str(), &id)? {
        None => new_start(alloc, store, at, request, id),
        Some(number) => repeat_decision(store, at, &id, number),
    }
}

/// The answer to a start that has a number.
fn repeat_decision<S: Store>(
    store: &mut S,
    at: &StationAt<'_>,
    id: &StartKey,
    number: u32,
) -> Result<Decision, StoreFault>
    ensures reads { OnlyReads S.view store.old store.new result }
    ensures decision { (S.view store.new).clean → IfOk result (λ d. d
        ≡ repeat_decision at.now.station.now id.now at.now.moment (lookups_at at.now.op.now (S.view store.old).rows) number) }
{
    let station = at.station.clone()?;
    let own = TxKey { station, number };
    let purpose = Purpose::Start { except: Some(own) };
    let id_tag_info = judge(store, at.op.as_str(), &id.key, at.moment, &purpose)?;
    let reply = Conf::StartTransaction {
        id_tag_info,
        transaction_id: number,
    };
    Ok(Decision {
        reply: Reply::Conf(reply),
        edit: None,
    })
}

/// A new start, whose number is the one after the station's last.
fn new_start<S: Store>(
    alloc: Global,
    store: &mut S,
    at: &StationAt<'_>,
    request: StartTransaction,
    id: StartKey,
) -> Result<Decision, StoreFault>
    ensures reads { OnlyReads S.view store.old store.new result }
    ensures decision { (S.view store.new).clean → IfOk result (λ d. d
        ≡ new_start at.now.station.now request id at.now.moment (lookups_at at.now.op.now (S.view store.old).rows)) }
{
    let last = store.last_tx(at.op.as_str(), at.station.as_str())?;
    if last >= LAST_NUMBER {
        return Ok(internal_error());
    }
    let judged = judge_new(store, at, &id)?;
    let number = TxKey {
        station: at.station.clone()?,
        number: last + 1,
    };
    let start = start_of(request, id, at.moment, judged.info.status);
    Ok(begin_decision(alloc, number, start, judged)?)
}

/// The judgement of the tag of a new start.
fn judge_new<S: Store>(
    store: &mut S,
    at: &StationAt<'_>,
    id: &StartKey,
) -> Result<Judged, StoreFault>
    ensures reads { OnlyReads S.view store.old store.new result }
    ensures judged { (S.view store.new).clean → IfOk result (λ j. j
        ≡ judge_with_owner at.now.moment id.now.key (purpose.Start None) (lookups_at at.now.op.now (S.view store.old).rows)) }
{
    let purpose = Purpose::Start { except: None };
    judge_with_owner(store, at.op.as_str(), &id.key, at.moment, &purpose)
}

/// The transaction of that number begins.
fn begin_decision(alloc: Global, transaction: TxKey, start: Start, judged: Judged) -> Mem<Decision>
    ensures { IfOk result (λ d. d ≡ begin_decision transaction.station start judged transaction.number) }
{
    let edit = Edit::Transactions(TransactionEdit::TxStarted {
        station: transaction.station,
        number: transaction.number,
        start,
        owner: judged.owner,
    });
    let reply = Conf::StartTransaction {
        id_tag_info: judged.info,
        transaction_id: transaction.number,
    };
    Ok(Decision {
        reply: Reply::Conf(reply),
        edit: Some(Boxed::new(alloc, edit)?),
    })
}

/// The start as it is kept.
fn start_of(
    request: StartTransaction,
    id: StartKey,
    moment: Moment,
    status: AuthorizationStatus,
) -> Start
    ensures { result ≡ start_of request id moment status }
{
    Start {
        id,
        tag: request.id_tag,
        reservation: request.reservation_id,
        status,
        begun: moment,
    }
}
