//! The answers of stations to calls (docs/RULES.md, Outgoing calls).
ghost use Rattle.std.specs.Prelude.{◌≡◌, ℕ, List, Err, IfOk, false, option_map};
ghost use Rattle.serde_json.specs.Written.{has_float};
ghost use Rattle.hub_rows.specs.Reads.{OnlyReads};
ghost use Rattle.hub_rows.specs.Lookups.{lookups_at};
ghost use Rattle.pending_calls.specs.Slot.{answered_command};
ghost use Rattle.pending_calls.specs.Slots.{slot_at};
ghost use Rattle.frame_plans.specs.Answers.{edit_by, failure_plan, read_outcome, result_plan};
ghost use Rattle.plans.specs.Effects.{StationSlot, IsReady};
ghost use Rattle.plans.specs.Plans.{changing};
ghost use Rattle.plans.specs.declared.plan.Effect.TheVariants as effect;

use holdings::edit_when_accepted;
use hub_events::Outcome;
use hub_rows::{Edit, Store, StoreFault};
use ocpp_frame::Payload;
use ocpp_payload::FieldFault;
use ocpp_types::{Boxed, Mem, Text};
use operator_cmds::{Command, KnownMembers, read_answer};
use pending_calls::Slots;
use plans::{Effect, MessageAt, Plan};
use registry::StationAt;
use std::alloc::Global;

/// The plan for the result of a call: it ends, and the records change as its command asked for, if
/// the station accepted one that changes them.
#[inline(never)]
pub fn plan_result<S: Store>(
    alloc: Global,
    store: &mut S,
    slots: &Slots<Boxed<Command>>,
    message: &MessageAt<'_>,
    payload: &Payload<'_>,
) -> Result<Plan, StoreFault>
    ensures reads { OnlyReads S.view store.old store.new result }
    ensures plan { (S.view store.new).clean → IfOk result (λ p. p ≡ result_plan message.now.at.now.station.now message.now.id.now payload.now
        (slot_at message.now.at.now.op.now message.now.at.now.station.now slots.now) (lookups_at message.now.at.now.op.now (S.view store.old).rows)) }
    ensures ready { IfOk result (λ p. (slot : List ℕ → StationSlot) → IsReady slot p.effect) }
{
    let Some(command) = answered_command(slots, message) else {
        return Ok(Plan::nothing(alloc));
    };
    let read = read_answer(alloc, command, payload.as_value())?;
    ended_plan(alloc, store, message, command, &read)
}

/// The plan for an error in answer to a call: it ends.
#[inline(never)]
pub fn plan_error(
    alloc: Global,
    slots: &Slots<Boxed<Command>>,
    message: &MessageAt<'_>,
    code: Text,
    description: Text,
) -> Mem<Plan>
    ensures { IfOk result (λ p. p ≡ failure_plan message.now.at.now.station.now message.now.id.now code description (slot_at message.now.at.now.op.now message.now.at.now.station.now slots.now)) }
{
    if answered_command(slots, message).is_none() {
        return Ok(Plan::nothing(alloc));
    }
    let effect = Effect::Answer {
        station: message.at.station.clone()?,
        id: message.id.clone()?,
        outcome: Boxed::new(alloc, Outcome::Error { code, description })?,
        edit: None,
    };
    Ok(Plan::changing(alloc, effect))
}

/// The command of the call in flight, if an answer with that id ends it.
fn answered_command<'a>(
    slots: &'a Slots<Boxed<Command>>,
    message: &MessageAt<'_>,
) -> Option<&'a Command>
    ensures { option_map (λ c. c.now) result ≡ answered_command message.now.id.now (slot_at message.now.at.now.op.now message.now.at.now.station.now slots.now) }
{
    let at = message.at;
    let command = slots.answered_command(at.op.as_str(), at.station.as_str(), message.id.as_str())?;
    Some(command.as_ref())
}

/// The call in flight ends with what was read of its answer.
fn ended_plan<S: Store>(
    alloc: Global,
    store: &mut S,
    message: &MessageAt<'_>,
    command: &Command,
    read: &Result<KnownMembers, FieldFault>,
) -> Result<Plan, StoreFault>
    requires { IfOk read.now (λ known. has_float known ≡ false) }
    ensures reads { OnlyReads S.view store.old store.new result }
    ensures plan { (S.view store.new).clean → IfOk result (λ p. p ≡ changing (effect.Answer message.now.at.now.station.now message.now.id.now
        (read_outcome read.now) (edit_by message.now.at.now.station.now command.now read.now (lookups_at message.now.at.now.op.now (S.view store.old).rows)))) }
    ensures ready { IfOk result (λ p. (slot : List ℕ → StationSlot) → IsReady slot p.effect) }
{
    let answered = message.at.station.clone()?;
    let number = message.id.clone()?;
    let outcome = read_outcome(alloc, read)?;
    let edit = read_edit(alloc, store, message.at, command, read)?;
    let effect = Effect::Answer {
        station: answered,
        id: number,
        outcome,
        edit,
    };
    Ok(Plan::changing(alloc, effect))
}

/// The outcome of a call: the known members of its answer, or their first fault.
#[tactic(auto, unfolding(crate::specs::Answers::read_outcome))]
fn read_outcome(alloc: Global, read: &Result<KnownMembers, FieldFault>) -> Mem<Boxed<Outcome>>
    requires { IfOk read.now (λ known. has_float known ≡ false) }
    ensures { IfOk result (λ o. o ≡ read_outcome read.now) }
{
    match read {
        Ok(known) => {
            let json = known.as_value().to_string(alloc)?;
            let json = Text::from(json);
            Boxed::new(alloc, Outcome::Answer { json })
        }
        Err(fault) => {
            let code = fault.code;
            let field = fault.field.clone()?;
            Boxed::new(alloc, Outcome::BadAnswer { code, field })
        }
    }
}

/// The edit that an answer makes.
fn read_edit<S: Store>(
    alloc: Global,
    store: &mut S,
    at: &StationAt<'_>,
    command: &Command,
    read: &Result<KnownMembers, FieldFault>,
) -> Result<Option<Boxed<Edit>>, StoreFault>
    ensures reads { OnlyReads S.view store.old store.new result }
    ensures edit { (S.view store.new).clean → IfOk result (λ e. e
        ≡ edit_by at.now.station.now command.now read.now (lookups_at at.now.op.now (S.view store.old).rows)) }
{
    match read {
        Ok(known) if known.is_accepted() => {
            edit_when_accepted(alloc, store, at.op, at.station, command)
        }
        _ => Ok(None),
    }
}
