//! What a station tells of itself.
ghost use Rattle.std.specs.Prelude.{◌≡◌};

use crate::text::{Text, copied};
use std::alloc::AllocError;

/// What a station tells of itself when it boots (OCPP 1.6, BootNotification.req), as it sent it.
#[derive(Drop)]
pub struct BootNotification {
    pub charge_box_serial_number: Option<Text>,
    pub charge_point_model: Text,
    pub charge_point_serial_number: Option<Text>,
    pub charge_point_vendor: Text,
    pub firmware_version: Option<Text>,
    pub iccid: Option<Text>,
    pub imsi: Option<Text>,
    pub meter_serial_number: Option<Text>,
    pub meter_type: Option<Text>,
}

impl Clone for BootNotification {
    ghost is_clone = { λ boot copy. copy ≡ boot };

    fn clone(&self) -> Result<BootNotification, AllocError> {
        Ok(BootNotification {
            charge_box_serial_number: copied(&self.charge_box_serial_number)?,
            charge_point_model: self.charge_point_model.clone()?,
            charge_point_serial_number: copied(&self.charge_point_serial_number)?,
            charge_point_vendor: self.charge_point_vendor.clone()?,
            firmware_version: copied(&self.firmware_version)?,
            iccid: copied(&self.iccid)?,
            imsi: copied(&self.imsi)?,
            meter_serial_number: copied(&self.meter_serial_number)?,
            meter_type: copied(&self.meter_type)?,
        })
    }
}
