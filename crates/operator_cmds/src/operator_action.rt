//! The actions that an operator can call a station by.

use ocpp_types::Named;

/// An action that a station is called by (OCPP 1.6, section 5).
#[derive(Clone, Copy, Debug, PartialEq, Eq)]
pub enum OperatorAction {
    CancelReservation,
    ChangeAvailability,
    ChangeConfiguration,
    ClearCache,
    DataTransfer,
    GetConfiguration,
    GetLocalListVersion,
    RemoteStartTransaction,
    RemoteStopTransaction,
    ReserveNow,
    Reset,
    SendLocalList,
    TriggerMessage,
    UnlockConnector,
}

impl Named for OperatorAction {
    ghost use Rattle.operator_cmds.specs.OperatorAction.{operator_action_name, operator_actions};

    ghost name_of = { operator_action_name };

    ghost names = { operator_actions };

    fn table() -> &'static [(&'static str, Self)] {
        ocpp_types::table! {
            CancelReservation, ChangeAvailability, ChangeConfiguration, ClearCache, DataTransfer,
            GetConfiguration, GetLocalListVersion, RemoteStartTransaction, RemoteStopTransaction,
            ReserveNow, Reset, SendLocalList, TriggerMessage, UnlockConnector
        }
    }

    fn index(&self) -> usize {
        *self as usize
    }
}
