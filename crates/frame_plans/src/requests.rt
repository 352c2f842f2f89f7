//! Requests of stations (docs/RULES.md, Order of checks).
ghost use Rattle.std.specs.Prelude.{◌≡◌, ℕ, List, Err, IfOk};
ghost use Rattle.serde_json.specs.View.{view};
ghost use Rattle.hub_rows.specs.Reads.{OnlyReads};
ghost use Rattle.hub_rows.specs.Lookups.{lookups_at};
ghost use Rattle.station_calls.specs.Book.{book_view, book_rows, book_answers, IsCleanBook};
ghost use Rattle.plans.specs.Effects.{StationSlot, IsReady};
ghost use Rattle.frame_plans.specs.Frames.{as_read, state_plan};

use hub_rows::{Reader, Store, StoreFault};
use ocpp_frame::Payload;
use ocpp_payload::{Action, read_request};
use ocpp_types::ErrorCode;
use plans::{CallAt, Plan, decided_plan, error_plan, repaired_plan};
use registry::{StationAt, is_allowed};
use repairs::{Reading, read_tolerant};
use station_calls::{Book, VendorHandler, decide};
use std::alloc::Global;

/// The plan for a call of a supported action: first the station's state, then the payload, as the station's reader takes
/// it. Its request is decided, or its first faulty member is told.
#[tactic(auto, using(plans::proofs::Readiness::decided_ready, plans::proofs::Readiness::repaired_ready))]
pub fn plan_request<S: Store, V: VendorHandler>(
    alloc: Global,
    book: &mut Book<S, V>,
    call: &CallAt<'_>,
    action: Action,
    payload: &Payload<'_>,
) -> Result<Plan, StoreFault>
    ensures reads { OnlyReads (book_view S.view) book.old book.new result }
    ensures plan { IsCleanBook S.view book.new → IfOk result (λ p. p
        ≡ state_plan (book_answers V.view book.old) call.now.at.now.station.now ((lookups_at call.now.at.now.op.now (book_rows S.view book.old)).registration call.now.at.now.station.now)
        call.now.id.now call.now.text.now action payload.now call.now.at.now.moment (lookups_at call.now.at.now.op.now (book_rows S.view book.old))) }
    ensures answers { book_answers V.view book.new ≡ book_answers V.view book.old }
    ensures ready { IfOk result (λ p. (slot : List ℕ → StationSlot) → IsReady slot p.effect) }
{
    let StationAt { op, station, .. } = *call.at;
    let (operator, name) = (op.as_str(), station.as_str());
    let Some(registration) = book.store.station_near(operator, name, call.near)? else {
        return Ok(error_plan(alloc, station, call.id, ErrorCode::InternalError, "")?);
    };
    if !is_allowed(registration.state, action) {
        return Ok(error_plan(alloc, station, call.id, ErrorCode::SecurityError, "")?);
    }
    match read_as(alloc, &mut book.store, call, action, payload)? {
        Reading::AsSent(request) => {
            let decision = decide(alloc, book, call.at, registration, request)?;
            Ok(decided_plan(alloc, station, call.id, decision)?)
        }
        Reading::Repaired { request, fault } => {
            let decision = decide(alloc, book, call.at, registration, request)?;
            Ok(repaired_plan(alloc, call, action, fault, decision)?)
        }
        Reading::Refused(fault) => {
            let field = fault.field.as_str();
            Ok(error_plan(alloc, station, call.id, fault.code, field)?)
        }
    }
}

/// A request as its station's reader takes it. The store is asked for the reader where the strict one refuses the request.
fn read_as<S: Store>(
    alloc: Global,
    store: &mut S,
    call: &CallAt<'_>,
    action: Action,
    payload: &Payload<'_>,
) -> Result<Reading, StoreFault>
    ensures reads { OnlyReads S.view store.old store.new result }
    ensures reading { (S.view store.new).clean → IfOk result (λ r. r
        ≡ as_read ((lookups_at call.now.at.now.op.now (S.view store.old).rows).reader call.now.at.now.station.now) action call.now.at.now.moment call.now.text.now payload.now) }
{
    let fault = match read_request(alloc, action, payload.as_value())? {
        Ok(request) => return Ok(Reading::AsSent(request)),
        Err(fault) => fault,
    };
    let StationAt {
        op,
        station,
        moment,
    } = *call.at;
    match store.reader(op.as_str(), station.as_str())? {
        Reader::Strict => Ok(Reading::Refused(fault)),
        Reader::Tolerant => {
            let text = call.text.as_str();
            Ok(read_tolerant(alloc, action, moment, text, payload.as_value())?)
        }
    }
}
