//! The replies to the messages of the central system.
ghost use Rattle.std.specs.Prelude.{◌≡◌, IfOk, option_map, string_bytes};
ghost use Rattle.ocpp_frame.specs.declared.frame.Frame.TheVariants.{CallResult};
ghost use Rattle.ocpp_types.specs.Named.{named};
ghost use Rattle.serde_json.specs.Data.{string};
ghost use Rattle.json_data.specs.View as lent;
ghost use Rattle.serde_json.specs.View.{view, items_view};
ghost use Rattle.station_sim.specs.Replies.{commands, status, accepted_if, texts, keys_of, configuration, answer_payload, reply_with, reply_to};
ghost use Rattle.station_sim.specs.Written.{IsTextOf, IsWritten, IsWritable};

use crate::command::{Answer, answer_of};
use crate::remote::{start_of, stop_of};
use crate::session::Session;
use json_data::{items_of, member_of, text_of};
use ocpp_frame::{Frame, Payload, write_error, write_result};
use ocpp_types::{ErrorCode, Mem, Named, Text};
use serde_json::{Value, json};
use std::alloc::Global;

/// The text of the reply to a message: to a command its answer, or the error NotImplemented for an
/// action that it doesn't answer; to a broken call the error FormationViolation; to another message none
/// (OCPP-J 1.6, sections 4.2.2 and 4.2.3). The session is as it was before the message.
pub fn reply_to(alloc: Global, session: &Session, frame: &Frame<'_>) -> Mem<Option<String>>
    ensures { IfOk result (λ reply. IsWritten (reply_to session.now frame.now) (option_map string_bytes reply)) }
{
    match frame {
        Frame::Call {
            id,
            action,
            payload,
        } => Ok(Some(command_reply(alloc, session, id, action, payload)?)),
        Frame::Broken { id } => {
            let code = ErrorCode::FormationViolation.name();
            Ok(Some(write_error(alloc, id.as_str(), code, "")?))
        }
        Frame::CallResult { .. } | Frame::CallError { .. } | Frame::Ignored => Ok(None),
    }
}

fn command_reply(
    alloc: Global,
    session: &Session,
    id: &Text,
    action: &Text,
    payload: &Payload<'_>,
) -> Mem<String>
    ensures { IfOk result (λ s. IsTextOf (reply_with id.now
        (option_map (answer_payload session.now payload.now) (named commands action.now))) (string_bytes s)) }
{
    match answer_of(action.as_str()) {
        Some(answer) => {
            let payload = answer_payload(alloc, session, payload.as_value(), answer)?;
            result_text(alloc, id.as_str(), payload)
        }
        None => write_error(alloc, id.as_str(), ErrorCode::NotImplemented.name(), ""),
    }
}

fn result_text(alloc: Global, id: &str, payload: Value) -> Mem<String>
    requires { IsWritable (view payload) }
    ensures { IfOk result (λ s. IsTextOf (CallResult id.now (view payload)) (string_bytes s)) }
{
    write_result(alloc, id, payload)
}

fn answer_payload(
    alloc: Global,
    session: &Session,
    payload: &json::Value<'_>,
    answer: Answer,
) -> Mem<Value>
    ensures value { IfOk result (λ v. view v ≡ answer_payload session.now (lent.view payload.now) answer) }
    ensures writable { IfOk result (λ v. IsWritable (view v)) }
{
    let payload = payload_of(alloc, session, payload, answer)?;
    Ok(payload)
}

fn payload_of(
    alloc: Global,
    session: &Session,
    payload: &json::Value<'_>,
    answer: Answer,
) -> Mem<Value>
    ensures { IfOk result (λ v. view v ≡ answer_payload session.now (lent.view payload.now) answer) }
{
    match answer {
        Answer::Accepted => status(alloc, "Accepted"),
        Answer::RemoteStart => accepted_if(alloc, start_of(session, payload).is_some()),
        Answer::RemoteStop => accepted_if(alloc, stop_of(session, payload).is_some()),
        Answer::Unlocked => status(alloc, "Unlocked"),
        Answer::NotImplemented => status(alloc, "NotImplemented"),
        Answer::UnknownVendorId => status(alloc, "UnknownVendorId"),
        Answer::Version => {
            let version = session.version.to_value();
            Ok(json!(in alloc; {"listVersion": version})?)
        }
        Answer::Keys => configuration(alloc, keys_of(alloc, payload)?),
    }
}

fn accepted_if(alloc: Global, is_accepted: bool) -> Mem<Value>
    ensures { IfOk result (λ v. view v ≡ accepted_if is_accepted) }
{
    if is_accepted {
        status(alloc, "Accepted")
    } else {
        status(alloc, "Rejected")
    }
}

fn status(alloc: Global, text: &str) -> Mem<Value>
    ensures { IfOk result (λ v. view v ≡ status text.now) }
{
    Ok(json!(in alloc; {"status": text})?)
}

fn configuration(alloc: Global, keys: Vec<Value>) -> Mem<Value>
    ensures { IfOk result (λ v. view v ≡ configuration (items_view keys.items)) }
{
    let keys = Value::Array(keys);
    Ok(json!(in alloc; {"configurationKey": [], "unknownKey": keys})?)
}

/// The texts of the member `key`.
fn keys_of(alloc: Global, payload: &json::Value<'_>) -> Mem<Vec<Value>>
    ensures { IfOk result (λ keys. items_view keys.items ≡ keys_of (lent.view payload.now)) }
{
    match member_of(payload, "key").and_then(|key| items_of(key)) {
        Some(items) => texts(alloc, items),
        None => Ok(Vec::new(alloc)),
    }
}

fn texts(alloc: Global, items: &[json::Value<'_>]) -> Mem<Vec<Value>>
    ensures { IfOk result (λ found. items_view found.items ≡ texts (lent.items_view items.now)) }
{
    let mut found = Vec::new(alloc);
    for item in items {
        if let Some(text) = text_of(item) {
            found.push(text_value(alloc, text)?)?;
        }
    }
    Ok(found)
}

fn text_value(alloc: Global, text: &str) -> Mem<Value>
    ensures { IfOk result (λ v. view v ≡ string text.now) }
{
    Ok(Value::String(String::from_str(alloc, text)?))
}
