//! The calls of a script as JSON.
ghost use Rattle.std.specs.Prelude.{◌≡◌, ◌≤◌, IfOk, option_map, slice_get, string_bytes};
ghost use Rattle.ocpp_frame.specs.declared.frame.Frame.TheVariants.{Call};
ghost use Rattle.ocpp_payload.specs.Action.{action_name};
ghost use Rattle.ocpp_types.specs.Text.{characters};
ghost use Rattle.serde_json.specs.View.{view};
ghost use Rattle.station_sim.specs.Calls.{call_id, tag_of, heartbeat, boot_payload, status_payload, authorize_payload, start_payload, meter_value, reading_payload, stop_payload, refused_payload, last_call, charging_call, call_of};
ghost use Rattle.station_sim.specs.Written.{IsTextOf, IsWritable};

use crate::script::Script;
use crate::stage::Stage;
use ocpp_frame::write_call;
use ocpp_payload::Action;
use ocpp_types::{Mem, Named, Text};
use serde_json::{Value, json};
use std::alloc::Global;

/// A call that is to be made.
#[derive(Drop)]
pub struct DueCall {
    pub action: Action,
    pub payload: Value,
}

/// The text of a call with that id.
pub fn call_text(alloc: Global, id: &str, call: DueCall) -> Mem<String>
    requires short { characters id.now ≤ 36 }
    requires writable { IsWritable (view call.payload) }
    ensures { IfOk result (λ s. IsTextOf (Call id.now (action_name call.action) (view call.payload)) (string_bytes s)) }
{
    write_call(alloc, id, call.action.name(), call.payload)
}

/// The call of a stage at a time, `None` where it has none (OCPP 1.6, section 4). The session has a tag of a
/// command that began it, or none.
pub fn call_of(
    alloc: Global,
    script: &Script,
    ordered: &Option<Text>,
    stage: Stage,
    time: &str,
) -> Mem<Option<DueCall>>
    ensures { IfOk result (λ call. option_map (λ c. (c.action, view c.payload)) call
        ≡ call_of script.now ordered.now stage time.now) }
{
    let (action, payload) = match stage {
        Stage::Boot => (Action::BootNotification, boot(alloc, script)?),
        Stage::Status => (Action::StatusNotification, status(alloc)?),
        Stage::Authorize => (Action::Authorize, authorize(alloc, script)?),
        Stage::Start => {
            let tag = tag_of(script, ordered);
            (Action::StartTransaction, start(alloc, script, tag, time)?)
        }
        Stage::Charging { transaction, sent } => {
            return charging(alloc, script, ordered, transaction, sent, time);
        }
        Stage::Stopping { transaction } => {
            let tag = tag_of(script, ordered);
            let payload = stop(alloc, script, tag, "Remote", transaction, time)?;
            (Action::StopTransaction, payload)
        }
        Stage::Refused { transaction } => (
            Action::StopTransaction,
            refused(alloc, script, transaction, time)?,
        ),
        Stage::Idle | Stage::Ended => return Ok(None),
    };
    Ok(Some(DueCall { action, payload }))
}

/// A heartbeat.
pub fn heartbeat(alloc: Global) -> Mem<DueCall>
    ensures { IfOk result (λ call. (call.action, view call.payload) ≡ heartbeat) }
{
    Ok(DueCall {
        action: Action::Heartbeat,
        payload: json!(in alloc; {})?,
    })
}

/// The tag of a session: that of the command which began it, or the script's.
fn tag_of<'a>(script: &'a Script, ordered: &'a Option<Text>) -> &'a str
    ensures { result.now ≡ tag_of script.now ordered.now }
{
    match ordered {
        Some(tag) => tag.as_str(),
        None => script.tag.as_str(),
    }
}

/// The id of the call of that number.
pub fn call_id(alloc: Global, number: u32) -> Mem<Text>
    ensures { IfOk result (λ id. id ≡ call_id number) }
{
    Ok(Text::from(format!(in alloc; "s{number}")?))
}

fn charging(
    alloc: Global,
    script: &Script,
    ordered: &Option<Text>,
    transaction: i32,
    sent: usize,
    time: &str,
) -> Mem<Option<DueCall>>
    ensures { IfOk result (λ call. option_map (λ c. (c.action, view c.payload)) call
        ≡ charging_call script.now ordered.now transaction (slice_get script.now.readings.items sent) time.now) }
{
    match script.readings.get(sent) {
        Some(reading) => {
            let payload = meter_values(alloc, script, transaction, *reading, time)?;
            let action = Action::MeterValues;
            Ok(Some(DueCall { action, payload }))
        }
        None => last_call(alloc, script, ordered, transaction, time),
    }
}

/// What follows the last reading: the stop of a session of its own.
fn last_call(
    alloc: Global,
    script: &Script,
    ordered: &Option<Text>,
    transaction: i32,
    time: &str,
) -> Mem<Option<DueCall>>
    ensures { IfOk result (λ call. option_map (λ c. (c.action, view c.payload)) call
        ≡ last_call script.now ordered.now transaction time.now) }
{
    match ordered {
        Some(_) => Ok(None),
        None => {
            let tag = script.tag.as_str();
            let payload = stop(alloc, script, tag, "Local", transaction, time)?;
            let action = Action::StopTransaction;
            Ok(Some(DueCall { action, payload }))
        }
    }
}

fn boot(alloc: Global, script: &Script) -> Mem<Value>
    ensures { IfOk result (λ v. view v ≡ boot_payload script.now) }
{
    let model = script.model.as_str();
    let vendor = script.vendor.as_str();
    Ok(json!(in alloc; {"chargePointModel": model, "chargePointVendor": vendor})?)
}

fn status(alloc: Global) -> Mem<Value>
    ensures { IfOk result (λ v. view v ≡ status_payload) }
{
    Ok(json!(in alloc; {"connectorId": 0u8, "errorCode": "NoError", "status": "Available"})?)
}

fn authorize(alloc: Global, script: &Script) -> Mem<Value>
    ensures { IfOk result (λ v. view v ≡ authorize_payload script.now) }
{
    let tag = script.tag.as_str();
    Ok(json!(in alloc; {"idTag": tag})?)
}

fn start(alloc: Global, script: &Script, tag: &str, time: &str) -> Mem<Value>
    ensures { IfOk result (λ v. view v ≡ start_payload script.now tag.now time.now) }
{
    let connector = script.connector;
    let meter = script.meter_start;
    Ok(json!(in alloc; {
        "connectorId": connector,
        "idTag": tag,
        "meterStart": meter,
        "timestamp": time
    })?)
}

fn meter_values(
    alloc: Global,
    script: &Script,
    transaction: i32,
    reading: i64,
    time: &str,
) -> Mem<Value>
    ensures { IfOk result (λ v. view v ≡ reading_payload script.now transaction reading time.now) }
{
    let value = meter_value(alloc, script.meter_after(reading), time)?;
    let connector = script.connector;
    Ok(json!(in alloc; {
        "connectorId": connector,
        "meterValue": [value],
        "transactionId": transaction
    })?)
}

fn meter_value(alloc: Global, reading: i64, time: &str) -> Mem<Value>
    ensures { IfOk result (λ v. view v ≡ meter_value reading time.now) }
{
    let value = format!(in alloc; "{reading}")?;
    Ok(json!(in alloc; {"sampledValue": [{"unit": "Wh", "value": value}], "timestamp": time})?)
}

fn stop(
    alloc: Global,
    script: &Script,
    tag: &str,
    reason: &str,
    transaction: i32,
    time: &str,
) -> Mem<Value>
    ensures { IfOk result (λ v. view v ≡ stop_payload script.now tag.now reason.now transaction time.now) }
{
    let meter = script.meter_after(script.energy);
    Ok(json!(in alloc; {
        "idTag": tag,
        "meterStop": meter,
        "reason": reason,
        "timestamp": time,
        "transactionId": transaction
    })?)
}

fn refused(alloc: Global, script: &Script, transaction: i32, time: &str) -> Mem<Value>
    ensures { IfOk result (λ v. view v ≡ refused_payload script.now transaction time.now) }
{
    let meter = script.meter_start;
    Ok(json!(in alloc; {
        "meterStop": meter,
        "reason": "DeAuthorized",
        "timestamp": time,
        "transactionId": transaction
    })?)
}
