//! The plan for an event of an operator: the store is asked, nothing is changed.
ghost use Rattle.std.specs.Prelude.{◌≡◌, IfOk};
ghost use Rattle.hub_rows.specs.Reads.{OnlyReads};
ghost use Rattle.hub_rows.specs.Operators.{is_hosted};
ghost use Rattle.pending_calls.specs.Slots.{slot_at};
ghost use Rattle.station_calls.specs.Book.{book_view, book_rows, book_answers, IsCleanBook};
ghost use Rattle.plans.specs.Effects.{IsReady};
ghost use Rattle.plans.specs.Facts.{facts_of};
ghost use Rattle.event_plans.specs.Table.{plan};

use charging::plan_forget;
use frame_plans::plan_text;
use hub_events::{OperatorEvent, What};
use hub_rows::{Store, StoreFault};
use listing_plans::{plan_connections, plan_list};
use ocpp_frame::FrameReader;
use ocpp_types::{Boxed, Text};
use operator_cmds::Command;
use operator_plans::{decide_admin, plan_command};
use pending_calls::Slots;
use plans::{Plan, connect_plan, disconnect_plan, edit_plan, forget_plan};
use registry::{StationAt, plan_station_drop};
use station_calls::{Book, VendorHandler};
use std::alloc::Global;

/// The plan for an event of an operator. `hosted` are the hosted operators, and `reader` reads what a station sends.
pub fn plan_event<S: Store, V: VendorHandler>(
    alloc: Global,
    reader: &mut FrameReader,
    book: &mut Book<S, V>,
    slots: &Slots<Boxed<Command>>,
    hosted: &[Text],
    event: &OperatorEvent<'_>,
) -> Result<Plan, StoreFault>
    ensures reads { OnlyReads (book_view S.view) book.old book.new result }
    ensures plan { IsCleanBook S.view book.new → IfOk result (λ p. p ≡ plan (is_hosted hosted.now) (book_answers V.view book.old) event.now.what.now event.now.moment
        (facts_of event.now.op.now (book_rows S.view book.old) slots.now)) }
    ensures answers { book_answers V.view book.new ≡ book_answers V.view book.old }
    ensures ready { IfOk result (λ p. IsReady (λ st. slot_at event.now.op.now st slots.now) p.effect) }
{
    let OperatorEvent { op, moment, what } = *event;
    match what {
        What::Frame { station, text } => {
            let at = StationAt {
                op,
                station,
                moment,
            };
            plan_text(alloc, reader, book, slots, &at, text)
        }
        _ => plan_any(alloc, reader, book, slots, hosted, event),
    }
}

/// The plan for an event of any kind. Those other than a text are rare, and what they need isn't cleared for each text.
#[inline(never)]
#[tactic(auto, using(plans::proofs::Readiness::connect_ready, plans::proofs::Readiness::edit_ready, plans::proofs::Readiness::forget_ready, plans::proofs::Readiness::list_ready))]
fn plan_any<S: Store, V: VendorHandler>(
    alloc: Global,
    reader: &mut FrameReader,
    book: &mut Book<S, V>,
    slots: &Slots<Boxed<Command>>,
    hosted: &[Text],
    event: &OperatorEvent<'_>,
) -> Result<Plan, StoreFault>
    ensures reads { OnlyReads (book_view S.view) book.old book.new result }
    ensures plan { IsCleanBook S.view book.new → IfOk result (λ p. p ≡ plan (is_hosted hosted.now) (book_answers V.view book.old) event.now.what.now event.now.moment
        (facts_of event.now.op.now (book_rows S.view book.old) slots.now)) }
    ensures answers { book_answers V.view book.new ≡ book_answers V.view book.old }
    ensures ready { IfOk result (λ p. IsReady (λ st. slot_at event.now.op.now st slots.now) p.effect) }
{
    let OperatorEvent { op, moment, what } = *event;
    match what {
        What::Connect { station } => {
            let registration = book.store.station(op.as_str(), station.as_str())?;
            Ok(connect_plan(alloc, station, registration)?)
        }
        What::Disconnect { station } => Ok(disconnect_plan(alloc, station)?),
        What::Frame { station, text } => {
            let at = StationAt {
                op,
                station,
                moment,
            };
            plan_text(alloc, reader, book, slots, &at, text)
        }
        What::Do { station, command } => {
            let at = StationAt {
                op,
                station,
                moment,
            };
            plan_command(alloc, &mut book.store, slots, &at, command.as_ref())
        }
        What::Admin(admin) => {
            let answer = decide_admin(alloc, &mut book.store, op, admin, moment, hosted)?;
            Ok(edit_plan(alloc, answer)?)
        }
        What::DropStation { station } => {
            let at = StationAt {
                op,
                station,
                moment,
            };
            let is_connected = slots.is_connected(op.as_str(), station.as_str());
            let answer = plan_station_drop(alloc, &mut book.store, &at, is_connected)?;
            Ok(edit_plan(alloc, answer)?)
        }
        What::List(listing) => plan_list(alloc, &mut book.store, op, listing, moment),
        What::Connections => Ok(plan_connections(alloc, slots, op.as_str())?),
        What::Forget {
            station,
            until,
            ends,
        } => {
            let at = StationAt {
                op,
                station,
                moment,
            };
            let answer = plan_forget(&mut book.store, &at, *until)?;
            Ok(forget_plan(alloc, station, *ends, answer)?)
        }
    }
}
