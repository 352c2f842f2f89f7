//! The actions that a station can call.

use ocpp_types::Named;

/// An action of a station that is answered (OCPP 1.6, section 4).
#[derive(Clone, Copy, Debug, PartialEq, Eq, PartialOrd, Ord, Hash)]
pub enum Action {
    Authorize,
    BootNotification,
    DataTransfer,
    DiagnosticsStatusNotification,
    FirmwareStatusNotification,
    Heartbeat,
    MeterValues,
    StartTransaction,
    StatusNotification,
    StopTransaction,
}

impl Named for Action {
    ghost use Rattle.ocpp_payload.specs.Action.{action_name, actions};

    ghost name_of = { action_name };

    ghost names = { actions };

    fn table() -> &'static [(&'static str, Self)] {
        ocpp_types::table! {
            Authorize, BootNotification, DataTransfer, DiagnosticsStatusNotification,
            FirmwareStatusNotification, Heartbeat, MeterValues, StartTransaction,
            StatusNotification, StopTransaction
        }
    }

    fn index(&self) -> usize {
        *self as usize
    }
}
