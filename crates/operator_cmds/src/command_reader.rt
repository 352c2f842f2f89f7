//! Commands from JSON, their bounds, and their requests.
ghost use Rattle.std.specs.Prelude.{◌≡◌, IfOk, false};
ghost use Rattle.json_data.specs.View as lent;
ghost use Rattle.serde_json.specs.View.{view};
ghost use Rattle.serde_json.specs.Written.{has_float};
ghost use Rattle.ocpp_payload.specs.Gives.{Gives};
ghost use Rattle.operator_cmds.specs.Command.{bad_field, command, command_data, command_of};

use crate::command::Command;
use crate::configuration::{ChangeConfiguration, GetConfiguration};
use crate::local_list::SendLocalList;
use crate::operator_action::OperatorAction;
use crate::remote::{RemoteStartTransaction, RemoteStopTransaction};
use crate::reservations::{CancelReservation, ReserveNow};
use crate::station::{ChangeAvailability, DataTransfer, Reset, TriggerMessage, UnlockConnector};
use json_data::is_object;
use ocpp_payload::{Checked, ReadError, ReadResult, Readable, Tabled};
use ocpp_types::{FieldName, Mem, Named, NoMemory};
use serde_json::{Map, Value};
use std::alloc::Global;

/// The command of that action that a payload is. `None` for an action that is none of an operator,
/// for a payload that is no object, and for a member that is missing, of another type, an integer
/// past 64 bits, or a name that its enumeration doesn't have. A member that is `null` counts as
/// missing, and unknown members are left out.
pub fn read_command(alloc: Global, action: &str, payload: &json::Value<'_>) -> Mem<Option<Command>>
    ensures { IfOk result (λ r. r ≡ command action.now (lent.view payload.now)) }
{
    let Some(action) = OperatorAction::of(action) else {
        return Ok(None);
    };
    if !is_object(payload) {
        return Ok(None);
    }
    match read_any(alloc, action, payload) {
        Ok(command) => Ok(Some(command)),
        Err(ReadError::Fault(_fault)) => Ok(None),
        Err(ReadError::NoMemory) => Err(NoMemory),
    }
}

fn read_any(alloc: Global, action: OperatorAction, payload: &json::Value<'_>) -> ReadResult<Command>
    ensures { Gives result (command_of action (lent.view payload.now)) }
{
    Ok(match action {
        OperatorAction::CancelReservation => {
            Command::CancelReservation(CancelReservation::read_from(alloc, payload)?)
        }
        OperatorAction::ChangeAvailability => {
            Command::ChangeAvailability(ChangeAvailability::read_from(alloc, payload)?)
        }
        OperatorAction::ChangeConfiguration => {
            Command::ChangeConfiguration(ChangeConfiguration::read_from(alloc, payload)?)
        }
        OperatorAction::ClearCache => Command::ClearCache,
        OperatorAction::DataTransfer => {
            Command::DataTransfer(DataTransfer::read_from(alloc, payload)?)
        }
        OperatorAction::GetConfiguration => {
            Command::GetConfiguration(GetConfiguration::read_from(alloc, payload)?)
        }
        OperatorAction::GetLocalListVersion => Command::GetLocalListVersion,
        OperatorAction::RemoteStartTransaction => {
            Command::RemoteStartTransaction(RemoteStartTransaction::read_from(alloc, payload)?)
        }
        OperatorAction::RemoteStopTransaction => {
            Command::RemoteStopTransaction(RemoteStopTransaction::read_from(alloc, payload)?)
        }
        OperatorAction::ReserveNow => Command::ReserveNow(ReserveNow::read_from(alloc, payload)?),
        OperatorAction::Reset => Command::Reset(Reset::read_from(alloc, payload)?),
        OperatorAction::SendLocalList => {
            Command::SendLocalList(SendLocalList::read_from(alloc, payload)?)
        }
        OperatorAction::TriggerMessage => {
            Command::TriggerMessage(TriggerMessage::read_from(alloc, payload)?)
        }
        OperatorAction::UnlockConnector => {
            Command::UnlockConnector(UnlockConnector::read_from(alloc, payload)?)
        }
    })
}

/// The first bad member of a command, in the order of its table: one that is longer than its length
/// or out of its range, an entry of a full list without its idTagInfo, a list that has a tag twice.
/// It takes no memory.
pub fn bad_field(command: &Command) -> Option<FieldName>
    ensures { result ≡ bad_field command.now }
{
    match command {
        Command::CancelReservation(fields) => fields.bad(),
        Command::ChangeAvailability(fields) => fields.bad(),
        Command::ChangeConfiguration(fields) => fields.bad(),
        Command::ClearCache | Command::GetLocalListVersion => None,
        Command::DataTransfer(fields) => fields.bad(),
        Command::GetConfiguration(fields) => fields.bad(),
        Command::RemoteStartTransaction(fields) => fields.bad(),
        Command::RemoteStopTransaction(fields) => fields.bad(),
        Command::ReserveNow(fields) => fields.bad(),
        Command::Reset(fields) => fields.bad(),
        Command::SendLocalList(fields) => fields.bad(),
        Command::TriggerMessage(fields) => fields.bad(),
        Command::UnlockConnector(fields) => fields.bad(),
    }
}

/// The payload of the request that a command is sent as. A member that is missing is left out, an
/// empty list is written empty.
pub fn write_request(alloc: Global, command: &Command) -> Mem<Value>
    ensures object { IfOk result (λ v. view v ≡ command_data command.now) }
    ensures no_float { IfOk result (λ v. has_float (view v) ≡ false) }
{
    let request = request_of(alloc, command)?;
    Ok(request)
}

fn request_of(alloc: Global, command: &Command) -> Mem<Value>
    ensures { IfOk result (λ v. view v ≡ command_data command.now) }
{
    match command {
        Command::CancelReservation(fields) => fields.write(alloc),
        Command::ChangeAvailability(fields) => fields.write(alloc),
        Command::ChangeConfiguration(fields) => fields.write(alloc),
        Command::ClearCache | Command::GetLocalListVersion => Ok(Value::Object(Map::new(alloc))),
        Command::DataTransfer(fields) => fields.write(alloc),
        Command::GetConfiguration(fields) => fields.write(alloc),
        Command::RemoteStartTransaction(fields) => fields.write(alloc),
        Command::RemoteStopTransaction(fields) => fields.write(alloc),
        Command::ReserveNow(fields) => fields.write(alloc),
        Command::Reset(fields) => fields.write(alloc),
        Command::SendLocalList(fields) => fields.write(alloc),
        Command::TriggerMessage(fields) => fields.write(alloc),
        Command::UnlockConnector(fields) => fields.write(alloc),
    }
}
