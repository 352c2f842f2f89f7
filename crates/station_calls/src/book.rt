//! The rules of every action, over a store and the handlers of vendors.
ghost use Rattle.std.specs.Prelude.{◌≡◌};
ghost use Rattle.station_calls.specs.Book.{book_view, book_answers};

use crate::core_handler::CoreHandler;
use crate::vendor::{VendorHandler, ask, lent};
use charging::{on_meter_values, on_start, on_stop};
use hub_rows::{Registration, ReportedStatus, Store, StoreFault};
use id_tags::{Purpose, judge};
use ocpp_payload::{
    Authorize, Conf, DataTransfer, DiagnosticsStatusNotification, FirmwareStatusNotification,
    MeterValues, StartTransaction, StatusNotification, StopTransaction,
};
use ocpp_types::{BootNotification, Boxed, TagKey};
use registry::{Decision, Reply, StationAt, on_boot, on_heartbeat, on_report, on_status};
use std::alloc::Global;

/// A store and the handlers of vendors' messages.
#[derive(Drop)]
pub struct Book<S, V> {
    pub store: S,
    pub vendors: Vec<V>,
}

impl<S, V> Book<S, V> {
    /// The rules over that store and those handlers. It takes no memory.
    pub fn new(store: S, vendors: Vec<V>) -> Book<S, V>
        ensures store { result.store ≡ store }
        ensures vendors { result.vendors.items ≡ vendors.items }
    {
        Book { store, vendors }
    }
}

impl<S: Store, V: VendorHandler> CoreHandler for Book<S, V> {
    ghost view = { book_view S.view };

    ghost answers = { book_answers V.view };

    fn on_authorize(
        &mut self,
        alloc: Global,
        at: &StationAt<'_>,
        request: Authorize,
    ) -> Result<Decision, StoreFault> {
        let op = at.op.as_str();
        let key = TagKey::of(alloc, request.id_tag.as_str())?;
        let id_tag_info = judge(&mut self.store, op, &key, at.moment, &Purpose::Authorize)?;
        Ok(Decision {
            reply: Reply::Conf(Conf::Authorize { id_tag_info }),
            edit: None,
        })
    }

    fn on_boot_notification(
        &mut self,
        alloc: Global,
        at: &StationAt<'_>,
        registration: Registration,
        request: Boxed<BootNotification>,
    ) -> Result<Decision, StoreFault> {
        Ok(on_boot(alloc, at, registration, request)?)
    }

    fn on_data_transfer(
        &mut self,
        _alloc: Global,
        _at: &StationAt<'_>,
        request: DataTransfer,
    ) -> Result<Decision, StoreFault> {
        let message = lent(&request.message_id);
        let content = lent(&request.content);
        let answer = ask(&self.vendors, request.vendor_id.as_str(), message, content)?;
        Ok(Decision {
            reply: Reply::Conf(Conf::DataTransfer {
                status: answer.status,
                content: answer.content,
            }),
            edit: None,
        })
    }

    fn on_diagnostics_status_notification(
        &mut self,
        alloc: Global,
        at: &StationAt<'_>,
        request: DiagnosticsStatusNotification,
    ) -> Result<Decision, StoreFault> {
        let status = ReportedStatus::Diagnostics(request.status);
        Ok(on_report(alloc, at, status)?)
    }

    fn on_firmware_status_notification(
        &mut self,
        alloc: Global,
        at: &StationAt<'_>,
        request: FirmwareStatusNotification,
    ) -> Result<Decision, StoreFault> {
        let status = ReportedStatus::Firmware(request.status);
        Ok(on_report(alloc, at, status)?)
    }

    fn on_heartbeat(&mut self, _alloc: Global, at: &StationAt<'_>) -> Result<Decision, StoreFault> {
        Ok(on_heartbeat(at.moment))
    }

    fn on_status_notification(
        &mut self,
        alloc: Global,
        at: &StationAt<'_>,
        request: Boxed<StatusNotification>,
    ) -> Result<Decision, StoreFault> {
        Ok(on_status(alloc, at, request)?)
    }

    fn on_meter_values(
        &mut self,
        alloc: Global,
        at: &StationAt<'_>,
        request: MeterValues,
    ) -> Result<Decision, StoreFault> {
        on_meter_values(alloc, &mut self.store, at, request)
    }

    fn on_start_transaction(
        &mut self,
        alloc: Global,
        at: &StationAt<'_>,
        request: StartTransaction,
    ) -> Result<Decision, StoreFault> {
        on_start(alloc, &mut self.store, at, request)
    }

    fn on_stop_transaction(
        &mut self,
        alloc: Global,
        at: &StationAt<'_>,
        request: StopTransaction,
    ) -> Result<Decision, StoreFault> {
        on_stop(alloc, &mut self.store, at, request)
    }
}
