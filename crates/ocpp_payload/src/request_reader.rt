//! The requests of a station.
ghost use Rattle.std.specs.Prelude.{◌≡◌, IfOk};
ghost use Rattle.json_data.specs.View.{view};
ghost use Rattle.ocpp_payload.specs.Gives.{Gives};
ghost use Rattle.ocpp_payload.specs.Request.{authorize, boot_notification, data_transfer, diagnostics_status_notification, firmware_status_notification, meter_values, start_transaction, status_notification, stop_transaction, request};

use crate::action::Action;
use crate::fault::{FieldFault, ReadError, ReadResult};
use crate::fields::{optional, required, with_default};
use crate::kind::{AnyText, ConnectorFrom, Int32, Int64, NameOf, TextOf, Time};
use crate::lists::{ListOf, ObjectOf, SomeOf};
use crate::request::{
    Authorize, DataTransfer, DiagnosticsStatusNotification, FirmwareStatusNotification,
    MeterValues, Request, StartTransaction, StatusNotification, StopTransaction,
};
use json::Value;
use ocpp_types::{BootNotification, Boxed, Listed, Mem, NoMemory, Reason};
use std::alloc::Global;

/// The request of that action that a payload is, or its first faulty member in the order of the
/// table (docs/TABLES.md, Requests; docs/RULES.md, Field faults).
pub fn read_request(
    alloc: Global,
    action: Action,
    payload: &Value<'_>,
) -> Mem<Result<Request, FieldFault>>
    ensures { IfOk result (λ r. r ≡ request action (view payload.now)) }
{
    match read_any(alloc, action, payload) {
        Ok(request) => Ok(Ok(request)),
        Err(ReadError::Fault(fault)) => Ok(Err(fault)),
        Err(ReadError::NoMemory) => Err(NoMemory),
    }
}

fn read_any(alloc: Global, action: Action, payload: &Value<'_>) -> ReadResult<Request>
    ensures { Gives result (request action (view payload.now)) }
{
    Ok(match action {
        Action::Authorize => Request::Authorize(authorize(alloc, payload)?),
        Action::BootNotification => Request::BootNotification(boot_notification(alloc, payload)?),
        Action::DataTransfer => Request::DataTransfer(data_transfer(alloc, payload)?),
        Action::DiagnosticsStatusNotification => Request::DiagnosticsStatusNotification(
            diagnostics_status_notification(alloc, payload)?,
        ),
        Action::FirmwareStatusNotification => {
            Request::FirmwareStatusNotification(firmware_status_notification(alloc, payload)?)
        }
        Action::Heartbeat => Request::Heartbeat,
        Action::MeterValues => Request::MeterValues(meter_values(alloc, payload)?),
        Action::StartTransaction => Request::StartTransaction(start_transaction(alloc, payload)?),
        Action::StatusNotification => {
            Request::StatusNotification(status_notification(alloc, payload)?)
        }
        Action::StopTransaction => Request::StopTransaction(stop_transaction(alloc, payload)?),
    })
}

fn authorize(alloc: Global, payload: &Value<'_>) -> ReadResult<Authorize>
    ensures { Gives result (authorize (view payload.now)) }
{
    let id_tag = required(alloc, payload, "idTag", TextOf(20))?;
    Ok(Authorize { id_tag })
}

fn boot_notification(alloc: Global, payload: &Value<'_>) -> ReadResult<Boxed<BootNotification>>
    ensures { Gives result (boot_notification (view payload.now)) }
{
    let boot = BootNotification {
        charge_box_serial_number: optional(alloc, payload, "chargeBoxSerialNumber", TextOf(25))?,
        charge_point_model: required(alloc, payload, "chargePointModel", TextOf(20))?,
        charge_point_serial_number: optional(
            alloc,
            payload,
            "chargePointSerialNumber",
            TextOf(25),
        )?,
        charge_point_vendor: required(alloc, payload, "chargePointVendor", TextOf(20))?,
        firmware_version: optional(alloc, payload, "firmwareVersion", TextOf(50))?,
        iccid: optional(alloc, payload, "iccid", TextOf(20))?,
        imsi: optional(alloc, payload, "imsi", TextOf(20))?,
        meter_serial_number: optional(alloc, payload, "meterSerialNumber", TextOf(25))?,
        meter_type: optional(alloc, payload, "meterType", TextOf(25))?,
    };
    Ok(Boxed::new(alloc, boot)?)
}

fn data_transfer(alloc: Global, payload: &Value<'_>) -> ReadResult<DataTransfer>
    ensures { Gives result (data_transfer (view payload.now)) }
{
    Ok(DataTransfer {
        vendor_id: required(alloc, payload, "vendorId", TextOf(255))?,
        message_id: optional(alloc, payload, "messageId", TextOf(50))?,
        content: optional(alloc, payload, "data", AnyText)?,
    })
}

fn diagnostics_status_notification(
    alloc: Global,
    payload: &Value<'_>,
) -> ReadResult<DiagnosticsStatusNotification>
    ensures { Gives result (diagnostics_status_notification (view payload.now)) }
{
    let status = required(alloc, payload, "status", NameOf::new())?;
    Ok(DiagnosticsStatusNotification { status })
}

fn firmware_status_notification(
    alloc: Global,
    payload: &Value<'_>,
) -> ReadResult<FirmwareStatusNotification>
    ensures { Gives result (firmware_status_notification (view payload.now)) }
{
    let status = required(alloc, payload, "status", NameOf::new())?;
    Ok(FirmwareStatusNotification { status })
}

fn meter_values(alloc: Global, payload: &Value<'_>) -> ReadResult<MeterValues>
    ensures { Gives result (meter_values (view payload.now)) }
{
    Ok(MeterValues {
        connector_id: required(alloc, payload, "connectorId", ConnectorFrom(0))?,
        transaction_id: optional(alloc, payload, "transactionId", Int32)?,
        meter_value: required(alloc, payload, "meterValue", SomeOf(ObjectOf::new()))?,
    })
}

fn start_transaction(alloc: Global, payload: &Value<'_>) -> ReadResult<StartTransaction>
    ensures { Gives result (start_transaction (view payload.now)) }
{
    Ok(StartTransaction {
        connector_id: required(alloc, payload, "connectorId", ConnectorFrom(1))?,
        id_tag: required(alloc, payload, "idTag", TextOf(20))?,
        meter_start: required(alloc, payload, "meterStart", Int64)?,
        reservation_id: optional(alloc, payload, "reservationId", Int32)?,
        timestamp: required(alloc, payload, "timestamp", Time)?,
    })
}

fn status_notification(alloc: Global, payload: &Value<'_>) -> ReadResult<Boxed<StatusNotification>>
    ensures { Gives result (status_notification (view payload.now)) }
{
    let report = StatusNotification {
        connector_id: required(alloc, payload, "connectorId", ConnectorFrom(0))?,
        error_code: required(alloc, payload, "errorCode", NameOf::new())?,
        info: optional(alloc, payload, "info", TextOf(50))?,
        status: required(alloc, payload, "status", NameOf::new())?,
        timestamp: optional(alloc, payload, "timestamp", Time)?,
        vendor_id: optional(alloc, payload, "vendorId", TextOf(255))?,
        vendor_error_code: optional(alloc, payload, "vendorErrorCode", TextOf(50))?,
    };
    Ok(Boxed::new(alloc, report)?)
}

fn stop_transaction(alloc: Global, payload: &Value<'_>) -> ReadResult<StopTransaction>
    ensures { Gives result (stop_transaction (view payload.now)) }
{
    Ok(StopTransaction {
        id_tag: optional(alloc, payload, "idTag", TextOf(20))?,
        meter_stop: required(alloc, payload, "meterStop", Int64)?,
        timestamp: required(alloc, payload, "timestamp", Time)?,
        transaction_id: required(alloc, payload, "transactionId", Int32)?,
        reason: with_default(alloc, payload, "reason", NameOf::new(), Reason::Local)?,
        transaction_data: with_default(
            alloc,
            payload,
            "transactionData",
            ListOf(ObjectOf::new()),
            Listed::new(alloc),
        )?,
    })
}
