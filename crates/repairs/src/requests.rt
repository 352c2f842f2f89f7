//! What is read in place of the members of a request (OCPP 1.6, section 6).
ghost use Rattle.std.specs.Prelude.{◌≡◌, Some, IfOk, option_map};
ghost use Rattle.json.specs.Tree.{HasNumbers};
ghost use Rattle.json.specs.Value.{value_view};
ghost use Rattle.repairs.specs.Names.{names};
ghost use Rattle.repairs.specs.Tables.{repair_at};
ghost use Rattle.repairs.specs.Requests.{boot_notification_table, status_table, meter_values_table, start_transaction_table, status_notification_table, stop_transaction_table};

use crate::integers::integer;
use crate::names::{named, named_or};
use crate::readings::meter_values;
use crate::tables::MemberRepairs;
use crate::texts::{at_most, time};
use json::Value;
use ocpp_payload::Action;
use ocpp_types::{
    ChargePointErrorCode, ChargePointStatus, DiagnosticsStatus, FirmwareStatus, Mem, Named, Reason,
};
use std::alloc::Global;

impl MemberRepairs for Action {
    ghost use Rattle.repairs.specs.Requests.{repairs};

    ghost table = { repairs };

    fn repair<'a>(
        &self,
        alloc: Global,
        now: &'a str,
        name: &str,
        value: Value<'a>,
    ) -> Mem<Option<Value<'a>>> {
        match self {
            Action::Authorize | Action::DataTransfer | Action::Heartbeat => Ok(Some(value)),
            Action::BootNotification => Ok(Some(of_boot_notification(name, value))),
            Action::DiagnosticsStatusNotification => {
                Ok(Some(status_of::<DiagnosticsStatus>(name, value)))
            }
            Action::FirmwareStatusNotification => {
                Ok(Some(status_of::<FirmwareStatus>(name, value)))
            }
            Action::MeterValues => of_meter_values(alloc, now, name, value),
            Action::StartTransaction => Ok(Some(of_start_transaction(now, name, value))),
            Action::StatusNotification => Ok(Some(of_status_notification(now, name, value))),
            Action::StopTransaction => of_stop_transaction(alloc, now, name, value),
        }
    }
}

fn of_boot_notification<'a>(name: &str, value: Value<'a>) -> Value<'a>
    ensures { Some (value_view result)
        ≡ repair_at boot_notification_table name.now (value_view value.entry) }
{
    match name {
        "chargeBoxSerialNumber" | "chargePointSerialNumber" | "meterSerialNumber" | "meterType" => {
            at_most(25, value)
        }
        "chargePointModel" | "chargePointVendor" | "iccid" | "imsi" => at_most(20, value),
        "firmwareVersion" => at_most(50, value),
        _ => value,
    }
}

fn status_of<'a, T: Named>(name: &str, value: Value<'a>) -> Value<'a>
    ensures { Some (value_view result)
        ≡ repair_at (status_table (names T.names)) name.now (value_view value.entry) }
{
    match name {
        "status" => named::<T>(value),
        _ => value,
    }
}

fn of_meter_values<'a>(
    alloc: Global,
    now: &'a str,
    name: &str,
    value: Value<'a>,
) -> Mem<Option<Value<'a>>>
    requires { HasNumbers (value_view value) }
    ensures { IfOk result (λ repaired. option_map (λ v. value_view v) repaired
        ≡ repair_at (meter_values_table now.now) name.now (value_view value.entry)) }
{
    match name {
        "connectorId" | "transactionId" => Ok(Some(integer(value))),
        "meterValue" => meter_values(alloc, now, value),
        _ => Ok(Some(value)),
    }
}

/// The id tag is read as it was sent, or not at all.
fn of_start_transaction<'a>(now: &'a str, name: &str, value: Value<'a>) -> Value<'a>
    ensures { Some (value_view result)
        ≡ repair_at (start_transaction_table now.now) name.now (value_view value.entry) }
{
    match name {
        "connectorId" | "meterStart" | "reservationId" => integer(value),
        "timestamp" => time(now, value),
        _ => value,
    }
}

fn of_status_notification<'a>(now: &'a str, name: &str, value: Value<'a>) -> Value<'a>
    ensures { Some (value_view result)
        ≡ repair_at (status_notification_table now.now) name.now (value_view value.entry) }
{
    match name {
        "connectorId" => integer(value),
        "errorCode" => named_or::<ChargePointErrorCode>("OtherError", value),
        "info" | "vendorErrorCode" => at_most(50, value),
        "status" => named_or::<ChargePointStatus>("Unavailable", value),
        "timestamp" => time(now, value),
        _ => value,
    }
}

fn of_stop_transaction<'a>(
    alloc: Global,
    now: &'a str,
    name: &str,
    value: Value<'a>,
) -> Mem<Option<Value<'a>>>
    requires { HasNumbers (value_view value) }
    ensures { IfOk result (λ repaired. option_map (λ v. value_view v) repaired
        ≡ repair_at (stop_transaction_table now.now) name.now (value_view value.entry)) }
{
    match name {
        "meterStop" | "transactionId" => Ok(Some(integer(value))),
        "timestamp" => Ok(Some(time(now, value))),
        "reason" => Ok(Some(named::<Reason>(value))),
        "transactionData" => meter_values(alloc, now, value),
        _ => Ok(Some(value)),
    }
}
