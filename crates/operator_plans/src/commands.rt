//! Commands of an operator (docs/RULES.md, Outgoing calls; docs/TABLES.md, Commands).
ghost use Rattle.std.specs.Prelude.{◌≡◌, Ok, Err, IsOk, IfOk};
ghost use Rattle.hub_rows.specs.Reads.{OnlyReads};
ghost use Rattle.hub_rows.specs.Lookups.{lookups_at};
ghost use Rattle.pending_calls.specs.Slot.{ready};
ghost use Rattle.pending_calls.specs.OwnSlots.{own_slots};
ghost use Rattle.pending_calls.specs.Slots.{all_slots, slot_at};
ghost use Rattle.operator_plans.specs.Commands.{is_remote, is_command_allowed, transaction_number, transaction_refusal, record_refusal, command_refusal, command_rule, command_plan, call_text};
ghost use Rattle.plans.specs.Effects.{IsReady};
ghost use Rattle.plans.specs.declared.plan.Effect.TheVariants as effect;

use holdings::{plan_cancel, plan_reserve};
use hub_events::Said;
use hub_rows::{LAST_NUMBER, Registration, Store, StoreFault, TxState};
use id_tags::refuse_tag;
use ocpp_frame::write_call;
use ocpp_types::{Boxed, Mem, Refusal, State, Text};
use operator_cmds::{Command, action_name_of, bad_field, copy_command, write_request};
use pending_calls::Slots;
use plans::{Effect, Plan, one};
use registry::StationAt;
use std::alloc::Global;

/// The plan for a command: it is accepted with the number of its call, or refused.
#[inline(never)]
pub fn plan_command<S: Store>(
    alloc: Global,
    store: &mut S,
    slots: &Slots<Boxed<Command>>,
    at: &StationAt<'_>,
    command: &Command,
) -> Result<Plan, StoreFault>
    ensures reads { OnlyReads S.view store.old store.new result }
    ensures plan { (S.view store.new).clean → IfOk result (λ p. p ≡ command_plan at.now.station.now command.now
        (command_rule at.now.station.now command.now ((lookups_at at.now.op.now (S.view store.old).rows).registration at.now.station.now)
        (own_slots at.now.op.now (all_slots slots.now)) (slot_at at.now.op.now at.now.station.now slots.now) at.now.moment (lookups_at at.now.op.now (S.view store.old).rows))) }
    ensures ready { IfOk result (λ p. IsReady (λ st. slot_at at.now.op.now st slots.now) p.effect) }
{
    match number_of_call(alloc, store, slots, at, command)? {
        Ok(number) => Ok(submit_plan(alloc, at.station, command, number)?),
        Err(refusal) => Ok(Plan::only(alloc, Said::Refused(refusal))?),
    }
}

/// The number of the call that a command becomes, or its first refusal: the checks are whether the
/// station is there, whether it is ready for a call, and then what refuses the command itself.
fn number_of_call<S: Store>(
    alloc: Global,
    store: &mut S,
    slots: &Slots<Boxed<Command>>,
    at: &StationAt<'_>,
    command: &Command,
) -> Result<Result<u32, Refusal>, StoreFault>
    ensures reads { OnlyReads S.view store.old store.new result }
    ensures number { (S.view store.new).clean → IfOk result (λ n. n
        ≡ command_rule at.now.station.now command.now ((lookups_at at.now.op.now (S.view store.old).rows).registration at.now.station.now)
        (own_slots at.now.op.now (all_slots slots.now)) (slot_at at.now.op.now at.now.station.now slots.now) at.now.moment (lookups_at at.now.op.now (S.view store.old).rows)) }
    ensures ready { IfOk result (λ n. IfOk n (λ _. IsOk (ready (slot_at at.now.op.now at.now.station.now slots.now)))) }
{
    let Some(registration) = store.station(at.op.as_str(), at.station.as_str())? else {
        return Ok(Err(Refusal::NoSuchStation));
    };
    let number = match slots.ready(at.op.as_str(), at.station.as_str()) {
        Ok(number) => number,
        Err(refusal) => return Ok(Err(refusal)),
    };
    match refusal_of(alloc, store, at, command, registration)? {
        Some(refusal) => Ok(Err(refusal)),
        None => Ok(Ok(number)),
    }
}

/// The first refusal of a command to a station that is ready for a call: its state, then the bounds
/// of the members, then the records.
fn refusal_of<S: Store>(
    alloc: Global,
    store: &mut S,
    at: &StationAt<'_>,
    command: &Command,
    registration: Registration,
) -> Result<Option<Refusal>, StoreFault>
    ensures reads { OnlyReads S.view store.old store.new result }
    ensures refusal { (S.view store.new).clean → IfOk result (λ r. r
        ≡ command_refusal at.now.station.now command.now registration at.now.moment (lookups_at at.now.op.now (S.view store.old).rows)) }
{
    if !is_command_allowed(registration.state, command) {
        return Ok(Some(Refusal::NotAllowedNow));
    }
    if let Some(field) = bad_field(command) {
        return Ok(Some(Refusal::BadField(field)));
    }
    record_refusal(alloc, store, at, command)
}

/// Whether a station in a state may be sent a command (OCPP 1.6, section 4.2).
fn is_command_allowed(state: State, command: &Command) -> bool
    ensures { result ≡ is_command_allowed state command.now }
{
    match state {
        State::Fresh | State::Rejected => false,
        State::Pending => !is_remote(command),
        State::Accepted => true,
    }
}

/// Whether a command starts or stops a transaction.
fn is_remote(command: &Command) -> bool
    ensures { result ≡ is_remote command.now }
{
    matches!(
        command,
        Command::RemoteStartTransaction(_) | Command::RemoteStopTransaction(_)
    )
}

/// The refusal of a command by the records of its operator: a tag that is to charge or to reserve is
/// judged as for an Authorize (OCPP 1.6, sections 5.11 and 5.13), a transaction that is to stop is an
/// open one of the station (section 5.12), a reservation that is to be cancelled counts (section
/// 5.1).
fn record_refusal<S: Store>(
    alloc: Global,
    store: &mut S,
    at: &StationAt<'_>,
    command: &Command,
) -> Result<Option<Refusal>, StoreFault>
    ensures reads { OnlyReads S.view store.old store.new result }
    ensures refusal { (S.view store.new).clean → IfOk result (λ r. r
        ≡ record_refusal at.now.station.now command.now at.now.moment (lookups_at at.now.op.now (S.view store.old).rows)) }
{
    let op = at.op.as_str();
    match command {
        Command::CancelReservation(fields) => {
            plan_cancel(store, op, at.station.as_str(), fields, at.moment)
        }
        Command::RemoteStartTransaction(fields) => {
            refuse_tag(alloc, store, op, fields.id_tag.as_str(), at.moment)
        }
        Command::RemoteStopTransaction(fields) => match transaction_number(fields.transaction_id) {
            Some(number) => {
                let tx = store.tx(op, at.station.as_str(), number)?;
                Ok(transaction_refusal(tx))
            }
            None => Ok(Some(Refusal::NoSuchTransaction)),
        },
        Command::ReserveNow(fields) => plan_reserve(alloc, store, op, fields, at.moment),
        _ => Ok(None),
    }
}

/// The number that a transaction's id names. A negative one, or one past the last number, names
/// none.
fn transaction_number(id: i64) -> Option<u32>
    ensures { result ≡ transaction_number id }
{
    match u32::try_from(id) {
        Ok(number) if number <= LAST_NUMBER => Some(number),
        _ => None,
    }
}

fn transaction_refusal(tx: Option<TxState>) -> Option<Refusal>
    ensures { result ≡ transaction_refusal tx }
{
    match tx {
        Some(TxState { is_open: true, .. }) => None,
        _ => Some(Refusal::NoSuchTransaction),
    }
}

/// A command is accepted, and becomes a call with that number.
fn submit_plan(alloc: Global, station: &Text, command: &Command, number: u32) -> Mem<Plan>
    ensures { IfOk result (λ p. p ≡ command_plan station.now command.now (Ok number)) }
{
    let accepted = Said::Accepted {
        number: Some(number),
    };
    Ok(Plan {
        said: one(alloc, accepted)?,
        effect: submit(alloc, station, command, number)?,
    })
}

fn submit(alloc: Global, station: &Text, command: &Command, number: u32) -> Mem<Effect>
    ensures { IfOk result (λ e. e ≡ effect.Submit station.now command.now (call_text number command.now)) }
{
    Ok(Effect::Submit {
        station: station.clone()?,
        command: Boxed::new(alloc, copy_command(command)?)?,
        text: call_text(alloc, command, number)?,
    })
}

/// The text of a call (OCPP-J 1.6, section 4.2.1). Its id is its number, in decimal.
fn call_text(alloc: Global, command: &Command, number: u32) -> Mem<Text>
    ensures { IfOk result (λ t. t ≡ call_text number command.now) }
{
    let id = format!(in alloc; "{number}")?;
    let payload = write_request(alloc, command)?;
    let text = write_call(alloc, id.as_str(), action_name_of(command), payload)?;
    Ok(Text::from(text))
}
