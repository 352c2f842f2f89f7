//! Faults of a connector.

use crate::named::Named;

/// What is wrong with a connector or its station (OCPP 1.6, type ChargePointErrorCode).
#[derive(Clone, Copy, Debug, PartialEq, Eq)]
pub enum ChargePointErrorCode {
    ConnectorLockFailure,
    EVCommunicationError,
    GroundFailure,
    HighTemperature,
    InternalError,
    LocalListConflict,
    NoError,
    OtherError,
    OverCurrentFailure,
    OverVoltage,
    PowerMeterFailure,
    PowerSwitchFailure,
    ReaderFailure,
    ResetFailure,
    UnderVoltage,
    WeakSignal,
}

impl Named for ChargePointErrorCode {
    ghost use Rattle.ocpp_types.specs.ChargePointErrorCode.{charge_point_error_code_name, charge_point_error_codes};

    ghost name_of = { charge_point_error_code_name };

    ghost names = { charge_point_error_codes };

    fn table() -> &'static [(&'static str, Self)] {
        crate::table! {
            ConnectorLockFailure, EVCommunicationError, GroundFailure, HighTemperature,
            InternalError, LocalListConflict, NoError, OtherError, OverCurrentFailure, OverVoltage,
            PowerMeterFailure, PowerSwitchFailure, ReaderFailure, ResetFailure, UnderVoltage,
            WeakSignal
        }
    }

    fn index(&self) -> usize {
        *self as usize
    }
}
