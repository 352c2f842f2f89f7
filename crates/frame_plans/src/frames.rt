//! What a connected station sends (docs/RULES.md, Order of checks).
ghost use Rattle.std.specs.Prelude.{◌≡◌, ℕ, List, IfOk};
ghost use Rattle.hub_rows.specs.Reads.{OnlyReads};
ghost use Rattle.hub_rows.specs.Lookups.{lookups_at};
ghost use Rattle.pending_calls.specs.Slots.{slot_at};
ghost use Rattle.ocpp_frame.specs.Frame.{frame};
ghost use Rattle.station_calls.specs.Book.{book_view, book_rows, book_answers, IsCleanBook};
ghost use Rattle.plans.specs.Effects.{StationSlot, IsReady};
ghost use Rattle.plans.specs.Facts.{facts_of};
ghost use Rattle.frame_plans.specs.Frames.{call_plan, frame_plan, text_plan};

use crate::answers::{plan_error, plan_result};
use crate::requests::plan_request;
use hub_rows::{Store, StoreFault};
use ocpp_frame::{Frame, FrameReader, Payload};
use ocpp_payload::{ActionClass, action_class};
use ocpp_types::{Boxed, ErrorCode, Text};
use operator_cmds::Command;
use pending_calls::Slots;
use plans::{CallAt, MessageAt, Plan, error_plan, turned_plan};
use registry::StationAt;
use station_calls::{Book, VendorHandler};
use std::alloc::Global;

/// The plan for a text of a station: one that isn't connected is turned away.
pub fn plan_text<S: Store, V: VendorHandler>(
    alloc: Global,
    reader: &mut FrameReader,
    book: &mut Book<S, V>,
    slots: &Slots<Boxed<Command>>,
    at: &StationAt<'_>,
    text: &Text,
) -> Result<Plan, StoreFault>
    ensures reads { OnlyReads (book_view S.view) book.old book.new result }
    ensures plan { IsCleanBook S.view book.new → IfOk result (λ p. p
        ≡ text_plan (book_answers V.view book.old) at.now.station.now text.now at.now.moment
        (facts_of at.now.op.now (book_rows S.view book.old) slots.now)) }
    ensures answers { book_answers V.view book.new ≡ book_answers V.view book.old }
    ensures ready { IfOk result (λ p. IsReady (λ st. slot_at at.now.op.now st slots.now) p.effect) }
{
    match slots.place_if_connected(at.op.as_str(), at.station.as_str()) {
        Some(near) => plan_frame(alloc, reader, book, slots, at, text, near),
        None => Ok(turned_plan(alloc, at.station)?),
    }
}

/// The plan for a text of a connected station, by the frame that it is. `near` is the index that the station's row may
/// have among all.
#[tactic(auto, using(crate::proofs::Readiness::failure_ready))]
fn plan_frame<S: Store, V: VendorHandler>(
    alloc: Global,
    reader: &mut FrameReader,
    book: &mut Book<S, V>,
    slots: &Slots<Boxed<Command>>,
    at: &StationAt<'_>,
    text: &Text,
    near: usize,
) -> Result<Plan, StoreFault>
    ensures reads { OnlyReads (book_view S.view) book.old book.new result }
    ensures plan { IsCleanBook S.view book.new → IfOk result (λ p. p
        ≡ frame_plan (book_answers V.view book.old) at.now.station.now text.now (frame text.now) at.now.moment
        (facts_of at.now.op.now (book_rows S.view book.old) slots.now)) }
    ensures answers { book_answers V.view book.new ≡ book_answers V.view book.old }
    ensures ready { IfOk result (λ p. IsReady (λ st. slot_at at.now.op.now st slots.now) p.effect) }
{
    match reader.read(text.as_str())? {
        Frame::Call {
            id,
            action,
            payload,
        } => {
            let class = action_class(action.as_str());
            let call = CallAt {
                at,
                id: &id,
                text,
                near,
            };
            plan_call(alloc, book, &call, class, &payload)
        }
        Frame::Broken { id } => {
            let code = ErrorCode::FormationViolation;
            Ok(error_plan(alloc, at.station, &id, code, "")?)
        }
        Frame::CallResult { id, payload } => {
            let message = MessageAt { at, id: &id };
            plan_result(alloc, &mut book.store, slots, &message, &payload)
        }
        Frame::CallError {
            id,
            code,
            description,
        } => {
            let message = MessageAt { at, id: &id };
            Ok(plan_error(alloc, slots, &message, code, description)?)
        }
        Frame::Ignored => Ok(Plan::nothing(alloc)),
    }
}

/// The plan for a call, by what its action stands for.
fn plan_call<S: Store, V: VendorHandler>(
    alloc: Global,
    book: &mut Book<S, V>,
    call: &CallAt<'_>,
    class: ActionClass,
    payload: &Payload<'_>,
) -> Result<Plan, StoreFault>
    ensures reads { OnlyReads (book_view S.view) book.old book.new result }
    ensures plan { IsCleanBook S.view book.new → IfOk result (λ p. p
        ≡ call_plan (book_answers V.view book.old) call.now.at.now.station.now call.now.id.now call.now.text.now class payload.now call.now.at.now.moment (lookups_at call.now.at.now.op.now (book_rows S.view book.old))) }
    ensures answers { book_answers V.view book.new ≡ book_answers V.view book.old }
    ensures ready { IfOk result (λ p. (slot : List ℕ → StationSlot) → IsReady slot p.effect) }
{
    let code = match class {
        ActionClass::Known(action) => {
            return plan_request(alloc, book, call, action, payload);
        }
        ActionClass::NotSupported => ErrorCode::NotSupported,
        ActionClass::NotImplemented => ErrorCode::NotImplemented,
    };
    Ok(error_plan(alloc, call.at.station, call.id, code, "")?)
}
