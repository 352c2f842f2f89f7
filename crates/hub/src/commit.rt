//! Carries out the effect of a plan. What may fail comes before what can't.
ghost use Rattle.std.specs.Prelude.{◌≡◌, Some, ◌+◌, ◌≤◌, ◌++◌, length, map, take, OnOk, OnErr, vec_len, vec_capacity};
ghost use Rattle.std.specs.Option.{ForSome};
ghost use Rattle.hub_rows.specs.Changes.{EditFits};
ghost use Rattle.pending_calls.specs.Slots.{slot_at};
ghost use Rattle.plans.specs.Effects.{IsReady};
ghost use Rattle.hub.specs.Commits.{Edits, Moves};
ghost use Rattle.hub.specs.Effects.{edit_of, effect_outputs, room_of};
ghost use Rattle.hub.specs.World.{said_to};

use crate::call_outputs::{push_ended, push_message, push_moved};
use hub_events::{Fault, OperatorEvent, Out, Said};
use hub_rows::{Change, Edit, Flush, Store};
use ocpp_types::{Boxed, Listed, Mem, Text};
use operator_cmds::Command;
use pending_calls::{NewCall, Slots};
use plans::{Effect, Plan};

/// How many outputs an effect may add.
fn room_of(effect: &Effect) -> usize
    ensures { result ≡ room_of effect.now }
{
    match effect {
        Effect::Nothing | Effect::Edit(_) => 0,
        Effect::Connect { .. } | Effect::Disconnect { .. } => 16,
        Effect::Submit { .. } => 1,
        Effect::Answer { .. } => 2,
    }
}

/// Carries out a plan of an operator, or changes nothing. Its outputs come at the end of `outs`. Room
/// for them is made before the one change of the store.
pub fn commit<S: Store>(
    store: &mut S,
    slots: &mut Slots<Boxed<Command>>,
    event: &OperatorEvent<'_>,
    plan: Plan,
    outs: &mut Vec<Out>,
    when: Flush,
) -> Result<(), Fault>
    requires fits { (S.view store.old).clean → ForSome (edit_of plan.effect) (λ e. EditFits event.now.op.now e (S.view store.old).rows) }
    requires ready { IsReady (λ station. slot_at event.now.op.now station slots.old) plan.effect }
    ensures edits { Edits S.view when event.now.op.now (edit_of plan.effect) store.old store.new result }
    ensures moves { Moves event.now.op.now event.now.moment plan.effect slots.old slots.new result }
    ensures outs { OnOk result (outs.new.items ≡ outs.old.items ++ (map (said_to event.now.op.now) plan.said
        ++ effect_outputs plan.effect (λ station. slot_at event.now.op.now station slots.old))) }
    ensures err_outs { OnErr result (outs.new.items ≡ outs.old.items) }
{
    let begun = outs.len();
    let carried = carry_out(store, slots, event, plan, outs, when);
    if carried.is_err() {
        outs.truncate(begun);
    }
    carried
}

/// Carries out a plan of an operator, or changes nothing but `outs`, which may then have more at its
/// end.
#[tactic(auto, using(hub_rows::proofs::Steps::begins))]
fn carry_out<S: Store>(
    store: &mut S,
    slots: &mut Slots<Boxed<Command>>,
    event: &OperatorEvent<'_>,
    plan: Plan,
    outs: &mut Vec<Out>,
    when: Flush,
) -> Result<(), Fault>
    requires fits { (S.view store.old).clean → ForSome (edit_of plan.effect) (λ e. EditFits event.now.op.now e (S.view store.old).rows) }
    requires ready { IsReady (λ station. slot_at event.now.op.now station slots.old) plan.effect }
    ensures edits { Edits S.view when event.now.op.now (edit_of plan.effect) store.old store.new result }
    ensures moves { Moves event.now.op.now event.now.moment plan.effect slots.old slots.new result }
    ensures outs { OnOk result (outs.new.items ≡ outs.old.items ++ (map (said_to event.now.op.now) plan.said
        ++ effect_outputs plan.effect (λ station. slot_at event.now.op.now station slots.old))) }
    ensures err_outs { OnErr result (take (length outs.old.items) outs.new.items ≡ outs.old.items) }
{
    let room = room_of(&plan.effect);
    let Plan { said, effect } = plan;
    tell(event.op, said, room, outs)?;
    apply(store, slots, event, effect, outs, when)
}

/// Makes an effect of an operator, or changes nothing. What is said of calls that it ends or
/// sends comes at the end of `outs`, which has room for it.
fn apply<S: Store>(
    store: &mut S,
    slots: &mut Slots<Boxed<Command>>,
    event: &OperatorEvent<'_>,
    effect: Effect,
    outs: &mut Vec<Out>,
    when: Flush,
) -> Result<(), Fault>
    requires fits { (S.view store.old).clean → ForSome (edit_of effect) (λ e. EditFits event.now.op.now e (S.view store.old).rows) }
    requires ready { IsReady (λ station. slot_at event.now.op.now station slots.old) effect }
    requires room { vec_len outs.old + room_of effect ≤ vec_capacity outs.old }
    ensures edits { Edits S.view when event.now.op.now (edit_of effect) store.old store.new result }
    ensures moves { Moves event.now.op.now event.now.moment effect slots.old slots.new result }
    ensures outs { OnOk result (outs.new.items ≡ outs.old.items
        ++ effect_outputs effect (λ station. slot_at event.now.op.now station slots.old)) }
    ensures len { OnOk result (vec_len outs.new ≤ vec_len outs.old + room_of effect) }
    ensures err_outs { OnErr result (outs.new.items ≡ outs.old.items) }
{
    let OperatorEvent { op, moment, .. } = *event;
    match effect {
        Effect::Nothing => {}
        Effect::Edit(edit) => edit_records(store, op, edit.as_ref(), when)?,
        Effect::Connect { station } => {
            let ended = slots.connect(op.as_str(), station.as_str())?;
            push_ended(outs, ended);
        }
        Effect::Disconnect { station } => {
            let ended = slots.disconnect(op.as_str(), station.as_str());
            push_ended(outs, ended);
        }
        Effect::Submit {
            station,
            command,
            text,
        } => {
            let new = NewCall { command, text };
            let message = slots.submit(op.as_str(), station.as_str(), new, moment)?;
            push_message(outs, message);
        }
        Effect::Answer {
            station,
            id,
            outcome,
            edit,
        } => {
            edit_if_some(store, op, &edit, when)?;
            if let Some(moved) = slots.answer(op.as_str(), station.as_str(), id.as_str(), moment) {
                push_moved(outs, moved, outcome.into_inner());
            }
        }
    }
    Ok(())
}

/// Makes an edit of an operator's records, if there is one.
fn edit_if_some<S: Store>(
    store: &mut S,
    op: &Text,
    edit: &Option<Boxed<Edit>>,
    when: Flush,
) -> Result<(), Fault>
    requires { (S.view store.old).clean → ForSome edit.now (λ e. EditFits op.now e (S.view store.old).rows) }
    ensures { Edits S.view when op.now edit.now store.old store.new result }
{
    match edit {
        Some(edit) => edit_records(store, op, edit.as_ref(), when),
        None => Ok(()),
    }
}

/// Makes an edit of an operator's records.
fn edit_records<S: Store>(store: &mut S, op: &Text, edit: &Edit, when: Flush) -> Result<(), Fault>
    requires { (S.view store.old).clean → EditFits op.now edit.now (S.view store.old).rows }
    ensures { Edits S.view when op.now (Some edit.now) store.old store.new result }
{
    store.apply(&Change { op, edit }, when)?;
    Ok(())
}

/// Adds what is said, as outputs for an operator, and makes room for more. Without memory some of it may
/// be there.
#[tactic(auto, using(hub_rows::proofs::Steps::begins))]
fn tell(op: &Text, said: Listed<Said>, room: usize, outs: &mut Vec<Out>) -> Mem<()>
    ensures outs { OnOk result (outs.new.items ≡ outs.old.items ++ map (said_to op.now) said) }
    ensures room { OnOk result (vec_len outs.new + room ≤ vec_capacity outs.new) }
    ensures err { OnErr result (take (length outs.old.items) outs.new.items ≡ outs.old.items) }
{
    let said = said.into_vec();
    if let Some(all) = said.len().checked_add(room) {
        outs.reserve(all)?;
    }
    push_said(op, said, outs)?;
    outs.reserve(room)?;
    Ok(())
}

#[tactic(auto, using(hub_rows::proofs::Steps::begins))]
fn push_said(op: &Text, said: Vec<Said>, outs: &mut Vec<Out>) -> Mem<()>
    ensures outs { OnOk result (outs.new.items ≡ outs.old.items ++ map (said_to op.now) said.items) }
    ensures err { OnErr result (take (length outs.old.items) outs.new.items ≡ outs.old.items) }
{
    for said in said {
        let op = op.clone()?;
        outs.push(Out { op, said })?;
    }
    Ok(())
}
