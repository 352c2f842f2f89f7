//! Which actions are answered.
ghost use Rattle.std.specs.Prelude.{◌≡◌};
ghost use Rattle.ocpp_payload.specs.ActionClass.{action_class, is_of_the_standard};

use crate::action::Action;
use ocpp_types::Named;

/// What the name of an action stands for.
#[derive(Clone, Copy, Debug, PartialEq, Eq)]
pub enum ActionClass {
    /// An action that is answered.
    Known(Action),
    /// An action of OCPP 1.6 that isn't answered.
    NotSupported,
    /// No action of OCPP 1.6.
    NotImplemented,
}

/// What the name of an action stands for (OCPP 1.6, section 6; OCPP-J 1.6, section 4.2.3).
/// Case counts. It takes no memory.
pub fn action_class(name: &str) -> ActionClass
    ensures { result ≡ action_class name.now }
{
    match Action::of(name) {
        Some(action) => ActionClass::Known(action),
        None if is_of_the_standard(name) => ActionClass::NotSupported,
        None => ActionClass::NotImplemented,
    }
}

/// Whether OCPP 1.6 has an action of that name: first those of a station, then those of a central
/// system.
fn is_of_the_standard(name: &str) -> bool
    ensures { result ≡ is_of_the_standard name.now }
{
    matches!(
        name,
        "Authorize"
            | "BootNotification"
            | "DataTransfer"
            | "DiagnosticsStatusNotification"
            | "FirmwareStatusNotification"
            | "Heartbeat"
            | "MeterValues"
            | "StartTransaction"
            | "StatusNotification"
            | "StopTransaction"
            | "CancelReservation"
            | "ChangeAvailability"
            | "ChangeConfiguration"
            | "ClearCache"
            | "ClearChargingProfile"
            | "GetCompositeSchedule"
            | "GetConfiguration"
            | "GetDiagnostics"
            | "GetLocalListVersion"
            | "RemoteStartTransaction"
            | "RemoteStopTransaction"
            | "ReserveNow"
            | "Reset"
            | "SendLocalList"
            | "SetChargingProfile"
            | "TriggerMessage"
            | "UnlockConnector"
            | "UpdateFirmware"
    )
}
