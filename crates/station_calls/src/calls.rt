//! A station's call, decided by the rule of its action.
ghost use Rattle.std.specs.Prelude.{◌≡◌, IfOk};
ghost use Rattle.hub_rows.specs.Reads.{OnlyReads};
ghost use Rattle.hub_rows.specs.Lookups.{lookups_at};
ghost use Rattle.station_calls.specs.Book.{book_view, book_rows, book_answers, IsCleanBook};
ghost use Rattle.station_calls.specs.Decided.{decision};

use crate::book::Book;
use crate::core_handler::CoreHandler;
use crate::vendor::VendorHandler;
use hub_rows::{Registration, Store, StoreFault};
use ocpp_payload::Request;
use registry::{Decision, StationAt};
use std::alloc::Global;

/// The decision of the rule of each request, of a station that is registered so.
pub fn decide<S: Store, V: VendorHandler>(
    alloc: Global,
    book: &mut Book<S, V>,
    at: &StationAt<'_>,
    registration: Registration,
    request: Request,
) -> Result<Decision, StoreFault>
    ensures reads { OnlyReads (book_view S.view) book.old book.new result }
    ensures decision { IsCleanBook S.view book.new → IfOk result (λ d. d
        ≡ decision (book_answers V.view book.old) at.now.station.now registration request at.now.moment (lookups_at at.now.op.now (book_rows S.view book.old))) }
    ensures answers { book_answers V.view book.new ≡ book_answers V.view book.old }
{
    match request {
        Request::Authorize(request) => book.on_authorize(alloc, at, request),
        Request::BootNotification(request) => {
            book.on_boot_notification(alloc, at, registration, request)
        }
        Request::DataTransfer(request) => book.on_data_transfer(alloc, at, request),
        Request::DiagnosticsStatusNotification(request) => {
            book.on_diagnostics_status_notification(alloc, at, request)
        }
        Request::FirmwareStatusNotification(request) => {
            book.on_firmware_status_notification(alloc, at, request)
        }
        Request::Heartbeat => book.on_heartbeat(alloc, at),
        Request::MeterValues(request) => book.on_meter_values(alloc, at, request),
        Request::StartTransaction(request) => book.on_start_transaction(alloc, at, request),
        Request::StatusNotification(request) => book.on_status_notification(alloc, at, request),
        Request::StopTransaction(request) => book.on_stop_transaction(alloc, at, request),
    }
}
