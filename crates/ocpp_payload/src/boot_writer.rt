//! What a station told of itself, to JSON.
ghost use Rattle.std.specs.Prelude.{◌≡◌, IfOk, false};
ghost use Rattle.serde_json.specs.View.{view};
ghost use Rattle.serde_json.specs.Written.{has_float};
ghost use Rattle.ocpp_payload.specs.Boot.{boot_data};

use crate::kind::AnyText;
use crate::written::ObjectWriter;
use ocpp_types::{BootNotification, Mem};
use serde_json::Value;
use std::alloc::Global;

/// The texts of a boot as an object: those that were sent, under the names of BootNotification.req
/// (OCPP 1.6, section 6.3).
#[tactic(auto, using(crate::proofs::BootLaws::boot_no_float))]
pub fn write_boot(alloc: Global, boot: &BootNotification) -> Mem<Value>
    ensures object { IfOk result (λ v. view v ≡ boot_data boot.now) }
    ensures no_float { IfOk result (λ v. has_float (view v) ≡ false) }
{
    let object = object_of(alloc, boot)?;
    Ok(object)
}

fn object_of(alloc: Global, boot: &BootNotification) -> Mem<Value>
    ensures { IfOk result (λ v. view v ≡ boot_data boot.now) }
{
    let object = ObjectWriter::new(alloc)
        .may("meterType", AnyText, &boot.meter_type)?
        .may("meterSerialNumber", AnyText, &boot.meter_serial_number)?
        .may("imsi", AnyText, &boot.imsi)?
        .may("iccid", AnyText, &boot.iccid)?
        .may("firmwareVersion", AnyText, &boot.firmware_version)?
        .must("chargePointVendor", AnyText, &boot.charge_point_vendor)?
        .may(
            "chargePointSerialNumber",
            AnyText,
            &boot.charge_point_serial_number,
        )?
        .must("chargePointModel", AnyText, &boot.charge_point_model)?
        .may(
            "chargeBoxSerialNumber",
            AnyText,
            &boot.charge_box_serial_number,
        )?;
    Ok(object.into_value())
}
