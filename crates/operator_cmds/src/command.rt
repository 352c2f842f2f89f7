//! A command of an operator.
ghost use Rattle.std.specs.Prelude.{◌≡◌, IfOk};
ghost use Rattle.operator_cmds.specs.Command.{action_name_of, action_of};

use crate::configuration::{ChangeConfiguration, GetConfiguration};
use crate::local_list::SendLocalList;
use crate::operator_action::OperatorAction;
use crate::remote::{RemoteStartTransaction, RemoteStopTransaction};
use crate::reservations::{CancelReservation, ReserveNow};
use crate::station::{ChangeAvailability, DataTransfer, Reset, TriggerMessage, UnlockConnector};
use ocpp_types::{Mem, Named};

/// What an operator asks of a station (OCPP 1.6, section 6): texts and integers as the operator
/// gave them.
#[derive(Clone, Drop)]
pub enum Command {
    CancelReservation(CancelReservation),
    ChangeAvailability(ChangeAvailability),
    ChangeConfiguration(ChangeConfiguration),
    ClearCache,
    DataTransfer(DataTransfer),
    GetConfiguration(GetConfiguration),
    GetLocalListVersion,
    RemoteStartTransaction(RemoteStartTransaction),
    RemoteStopTransaction(RemoteStopTransaction),
    ReserveNow(ReserveNow),
    Reset(Reset),
    SendLocalList(SendLocalList),
    TriggerMessage(TriggerMessage),
    UnlockConnector(UnlockConnector),
}

/// A copy of a command.
pub fn copy_command(command: &Command) -> Mem<Command>
    ensures { IfOk result (λ copy. copy ≡ command.now) }
{
    Ok(command.clone()?)
}

/// The name of the action that a command is sent under.
pub fn action_name_of(command: &Command) -> &'static str
    ensures { result.now ≡ action_name_of command.now }
{
    action_of(command).name()
}

fn action_of(command: &Command) -> OperatorAction
    ensures { result ≡ action_of command.now }
{
    match command {
        Command::CancelReservation(_) => OperatorAction::CancelReservation,
        Command::ChangeAvailability(_) => OperatorAction::ChangeAvailability,
        Command::ChangeConfiguration(_) => OperatorAction::ChangeConfiguration,
        Command::ClearCache => OperatorAction::ClearCache,
        Command::DataTransfer(_) => OperatorAction::DataTransfer,
        Command::GetConfiguration(_) => OperatorAction::GetConfiguration,
        Command::GetLocalListVersion => OperatorAction::GetLocalListVersion,
        Command::RemoteStartTransaction(_) => OperatorAction::RemoteStartTransaction,
        Command::RemoteStopTransaction(_) => OperatorAction::RemoteStopTransaction,
        Command::ReserveNow(_) => OperatorAction::ReserveNow,
        Command::Reset(_) => OperatorAction::Reset,
        Command::SendLocalList(_) => OperatorAction::SendLocalList,
        Command::TriggerMessage(_) => OperatorAction::TriggerMessage,
        Command::UnlockConnector(_) => OperatorAction::UnlockConnector,
    }
}
