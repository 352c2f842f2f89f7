//! States of a connector.

use crate::named::Named;

/// The status of a connector (OCPP 1.6, type ChargePointStatus).
#[derive(Clone, Copy, Debug, PartialEq, Eq)]
pub enum ChargePointStatus {
    Available,
    Preparing,
    Charging,
    SuspendedEVSE,
    SuspendedEV,
    Finishing,
    Reserved,
    Unavailable,
    Faulted,
}

impl Named for ChargePointStatus {
    ghost use Rattle.ocpp_types.specs.ChargePointStatus.{charge_point_status_name, charge_point_statuses};

    ghost name_of = { charge_point_status_name };

    ghost names = { charge_point_statuses };

    fn table() -> &'static [(&'static str, Self)] {
        crate::table! {
            Available, Preparing, Charging, SuspendedEVSE, SuspendedEV, Finishing, Reserved,
            Unavailable, Faulted
        }
    }

    fn index(&self) -> usize {
        *self as usize
    }
}
