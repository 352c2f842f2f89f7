//! The tolerant reader of requests.
ghost use Rattle.std.specs.Prelude.{◌≡◌, Ok, IfOk, IfSome, option_map, option_and_then, string_bytes};
ghost use Rattle.json.specs.Find.{at};
ghost use Rattle.json.specs.Json.{document};
ghost use Rattle.json.specs.Print.{print};
ghost use Rattle.json.specs.Tree.{HasNumbers, json_tokens};
ghost use Rattle.json.specs.Value.{value_view};
ghost use Rattle.json_data.specs.View.{view};
ghost use Rattle.ocpp_payload.specs.Request.{request};
ghost use Rattle.ocpp_payload.specs.declared.request.Request.{Request};
ghost use Rattle.repairs.specs.Tolerant.{repaired, second_reading, after_second, reading, IsWritten};

use crate::reading::Reading;
use crate::tables::by_table;
use crate::written::text_of;
use json::{Error, Scratch, Value};
use json_data::read_value;
use ocpp_payload::{Action, FieldFault, read_request};
use ocpp_types::{Mem, Moment, NoMemory, print_time};
use std::alloc::Global;

/// Reads the payload of a call of a station. `text` is the whole text of the call's frame,
/// `[2, id, action, payload]`, and `payload` is its payload (OCPP-J 1.6, section 4.2.1). What the
/// strict reader takes is read as sent. What it refuses is repaired and read once more, and a time
/// that can't be read is read as the moment.
#[cold]
#[inline(never)]
pub fn read_tolerant(
    alloc: Global,
    action: Action,
    moment: Moment,
    text: &str,
    payload: &Value<'_>,
) -> Mem<Reading>
    ensures reading { IfOk result (λ r. r ≡ reading action moment text.now (view payload.now)) }
    ensures strict { (q : Request) → request action (view payload.now) ≡ Ok q
        → IfOk result (λ r. r ≡ Reading.AsSent q) }
    ensures written { IfOk result (λ r. IsWritten action moment text.now (view payload.now) r) }
{
    match read_request(alloc, action, payload)? {
        Ok(request) => Ok(Reading::AsSent(request)),
        Err(fault) => read_repaired(alloc, action, moment, text, fault),
    }
}

/// Reads the payload as it is repaired. `fault` is that of the payload as it was sent.
fn read_repaired(
    alloc: Global,
    action: Action,
    moment: Moment,
    text: &str,
    fault: FieldFault,
) -> Mem<Reading>
    ensures { IfOk result (λ r. r
        ≡ after_second fault (second_reading action moment text.now fault)) }
{
    let now = print_time(alloc, moment)?;
    let Some(written) = repaired_text(alloc, action, now.as_str(), text)? else {
        return Ok(Reading::Refused(fault));
    };
    let mut scratch = Scratch::new(alloc);
    let Some(payload) = read_value(alloc, &mut scratch, written.as_str())? else {
        return Ok(Reading::Refused(fault));
    };
    match read_request(alloc, action, &payload)? {
        Ok(request) => Ok(Reading::Repaired { request, fault }),
        Err(left) => Ok(Reading::Refused(left)),
    }
}

/// The text of the frame's payload as it is repaired. `None`: the text is no such frame.
fn repaired_text(alloc: Global, action: Action, now: &str, text: &str) -> Mem<Option<String>>
    ensures { IfOk result (λ written. option_map string_bytes written
        ≡ option_map (λ j. print (json_tokens j)) (repaired action now.now text.now)) }
{
    let mut scratch = Scratch::new(alloc);
    match payload_of(alloc, text, &mut scratch)? {
        Some(payload) => {
            let changed = by_table(alloc, &action, now, payload)?;
            Ok(Some(text_of(alloc, &changed)?))
        }
        None => Ok(None),
    }
}

/// The fourth item of the array that a text is.
fn payload_of<'a>(alloc: Global, text: &'a str, scratch: &'a mut Scratch) -> Mem<Option<Value<'a>>>
    ensures value { IfOk result (λ payload. option_map (λ v. value_view v) payload
        ≡ option_and_then (at 3) (document text.now)) }
    ensures numbers { IfOk result (λ payload. IfSome payload (λ v. HasNumbers (value_view v))) }
{
    match Value::parse(alloc, text, scratch) {
        Ok(frame) => Ok(fourth(frame)),
        Err(Error::OutOfMemory) => Err(NoMemory),
        Err(_) => Ok(None),
    }
}

fn fourth(frame: Value<'_>) -> Option<Value<'_>>
    requires { HasNumbers (value_view frame) }
    ensures value { option_map (λ v. value_view v) result ≡ at 3 (value_view frame.entry) }
    ensures numbers { IfSome result (λ v. HasNumbers (value_view v)) }
{
    let Value::Array(mut items) = frame else {
        return None;
    };
    if items.len() <= 3 {
        return None;
    }
    Some(items.swap_remove(3))
}
