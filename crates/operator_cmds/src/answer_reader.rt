//! Answers of stations from JSON.
ghost use Rattle.std.specs.Prelude.{◌≡◌, IfOk, false};
ghost use Rattle.json_data.specs.View.{view};
ghost use Rattle.serde_json.specs.Written.{has_float};
ghost use Rattle.ocpp_payload.specs.Gives.{Gives};
ghost use Rattle.operator_cmds.specs.Answer.{known_members, as_sent};

use crate::answers::{
    DataTransferAnswer, GetConfigurationAnswer, GetLocalListVersionAnswer, Status,
};
use crate::command::Command;
use crate::known_members::KnownMembers;
use crate::statuses::{
    AcceptanceStatus, AvailabilityStatus, ConfigurationStatus, ReservationStatus,
    TriggerMessageStatus, UnlockStatus, UpdateStatus,
};
use json::Value;
use ocpp_payload::{FieldFault, ReadError, ReadResult, Tabled};
use ocpp_types::{Mem, NoMemory};
use std::alloc::Global;

/// The answer to a command that a payload is: its known members as they were sent, or its first
/// faulty member in the order of the table. Members that are `null` and unknown members are left
/// out, also those of the objects of a list; empty lists are kept.
pub fn read_answer(
    alloc: Global,
    command: &Command,
    payload: &Value<'_>,
) -> Mem<Result<KnownMembers, FieldFault>>
    ensures known { IfOk result (λ r. r ≡ known_members command.now (view payload.now)) }
    ensures no_float { IfOk result (λ r. IfOk r (λ p. has_float p ≡ false)) }
{
    let read = read_known(alloc, command, payload)?;
    Ok(read)
}

fn read_known(
    alloc: Global,
    command: &Command,
    payload: &Value<'_>,
) -> Mem<Result<KnownMembers, FieldFault>>
    ensures { IfOk result (λ r. r ≡ known_members command.now (view payload.now)) }
{
    match sent_members(alloc, command, payload) {
        Ok(known) => Ok(Ok(known)),
        Err(ReadError::Fault(fault)) => Ok(Err(fault)),
        Err(ReadError::NoMemory) => Err(NoMemory),
    }
}

fn sent_members(alloc: Global, command: &Command, payload: &Value<'_>) -> ReadResult<KnownMembers>
    ensures { Gives result (known_members command.now (view payload.now)) }
{
    match command {
        Command::ChangeAvailability(_) => as_sent::<Status<AvailabilityStatus>>(alloc, payload),
        Command::ChangeConfiguration(_) => as_sent::<Status<ConfigurationStatus>>(alloc, payload),
        Command::CancelReservation(_)
        | Command::ClearCache
        | Command::RemoteStartTransaction(_)
        | Command::RemoteStopTransaction(_)
        | Command::Reset(_) => as_sent::<Status<AcceptanceStatus>>(alloc, payload),
        Command::DataTransfer(_) => as_sent::<DataTransferAnswer>(alloc, payload),
        Command::GetConfiguration(_) => as_sent::<GetConfigurationAnswer>(alloc, payload),
        Command::GetLocalListVersion => as_sent::<GetLocalListVersionAnswer>(alloc, payload),
        Command::ReserveNow(_) => as_sent::<Status<ReservationStatus>>(alloc, payload),
        Command::SendLocalList(_) => as_sent::<Status<UpdateStatus>>(alloc, payload),
        Command::TriggerMessage(_) => as_sent::<Status<TriggerMessageStatus>>(alloc, payload),
        Command::UnlockConnector(_) => as_sent::<Status<UnlockStatus>>(alloc, payload),
    }
}

fn as_sent<T: Tabled>(alloc: Global, payload: &Value<'_>) -> ReadResult<KnownMembers>
    ensures { Gives result (as_sent T.reads_as T.form (view payload.now)) }
{
    let known = T::read_from(alloc, payload)?.write(alloc)?;
    Ok(KnownMembers::from(known))
}
