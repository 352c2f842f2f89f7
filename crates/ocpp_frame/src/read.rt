//! Frames from text.
ghost use Rattle.std.specs.Prelude.{◌≡◌, ◌+◌, ◌<◌, ◌≤◌, ◌⊎◌, List, ◌∷◌, length, Some, IfOk, IfNone, IfSome, option_map};
ghost use Rattle.std.specs.declared.alloc.Global.{Global};
ghost use Rattle.serde_json.specs.Find.{as_str};
ghost use Rattle.json_data.specs.View.{view, items_view};
ghost use Rattle.ocpp_frame.specs.Frame.{frame, frame_of, frame_of_items, call, call_result, call_error, payload_of, description_of, call_with, error_with};
ghost use Rattle.json.specs.declared.value.Value.{Value};

use crate::call_reader::read_call;
use crate::frame::Frame;
use crate::payload::Payload;
use json::{Scratch, Value};
use json_data::{read_value, text_of, unsigned_of};
use ocpp_types::{Mem, Text, count_characters};
use std::alloc::Global;

/// The greatest number of characters of a call's id (OCPP-J 1.6, section 4.1.4).
pub const MAX_ID: usize = 36;

/// A reader of frames. It keeps the memory that reading needs from one frame to the next.
#[derive(Drop)]
pub struct FrameReader {
    alloc: Global,
    /// That of calls, and that of texts that aren't read as calls.
    calls: Scratch,
    others: Scratch,
}

impl FrameReader {
    /// A reader, which takes no memory yet.
    pub fn new(alloc: Global) -> FrameReader {
        FrameReader {
            alloc,
            calls: Scratch::new(alloc),
            others: Scratch::new(alloc),
        }
    }

    /// The frame that a text is (OCPP-J 1.6, section 4.2; docs/RULES.md, Frames). Every text is
    /// one: what `serde_json` doesn't read, or what isn't formed as a message, is `Ignored`, and a
    /// call with an id that isn't formed as a call is `Broken`.
    pub fn read<'a>(&'a mut self, text: &'a str) -> Mem<Frame<'a>>
        ensures { IfOk result (λ f. f ≡ frame text.now) }
    {
        let FrameReader {
            alloc,
            calls,
            others,
        } = self;
        match read_call(*alloc, calls, text)? {
            Some(call) => Ok(call),
            None => read_any(*alloc, others, text),
        }
    }
}

/// The frame that a text is, by its whole value.
fn read_any<'a>(alloc: Global, scratch: &'a mut Scratch, text: &'a str) -> Mem<Frame<'a>>
    ensures { IfOk result (λ f. f ≡ frame text.now) }
{
    match read_value(alloc, scratch, text)? {
        Some(value) => frame_of(alloc, value),
        None => Ok(Frame::Ignored),
    }
}

fn frame_of<'a>(alloc: Global, value: Value<'a>) -> Mem<Frame<'a>>
    ensures { IfOk result (λ f. f ≡ frame_of (view value.entry)) }
{
    match value {
        Value::Array(items) => frame_of_items(alloc, items),
        _ => Ok(Frame::Ignored),
    }
}

fn frame_of_items<'a>(alloc: Global, mut items: Vec<Value<'a>>) -> Mem<Frame<'a>>
    ensures { IfOk result (λ f. f ≡ frame_of_items (items_view items.entry.items)) }
{
    if items.len() < 2 {
        return Ok(Frame::Ignored);
    }
    let kind = items.remove(0);
    let Value::String(id) = items.remove(0) else {
        return Ok(Frame::Ignored);
    };
    let id = Text::copy_of(alloc, id)?;
    match unsigned_of(&kind) {
        Some(2) => call(alloc, id, items),
        Some(3) => Ok(call_result(alloc, id, items)),
        Some(4) => call_error(alloc, id, items),
        _ => Ok(Frame::Ignored),
    }
}

fn call<'a>(alloc: Global, id: Text, rest: Vec<Value<'a>>) -> Mem<Frame<'a>>
    ensures { IfOk result (λ f. f ≡ call id (items_view rest.entry.items)) }
{
    match two_of(rest, 2) {
        Some((action, payload)) => call_with(alloc, id, &action, payload),
        None => Ok(Frame::Broken { id }),
    }
}

fn call_with<'a>(alloc: Global, id: Text, action: &Value<'a>, payload: Value<'a>) -> Mem<Frame<'a>>
    ensures { IfOk result (λ f. f ≡ call_with id (as_str (view action.now)) (payload_of (view payload.entry))) }
{
    match text_of(action) {
        Some(action) => {
            let action = Text::copy_of(alloc, action)?;
            Ok(call_of(alloc, id, action, payload))
        }
        None => Ok(Frame::Broken { id }),
    }
}

/// The call of an id with a text as its action, or why it is none, by its payload.
pub fn call_of<'a>(alloc: Global, id: Text, action: Text, payload: Value<'a>) -> Frame<'a>
    ensures { result ≡ call_with id (Some action) (payload_of (view payload.entry)) }
{
    let Some(payload) = payload_of(alloc, payload) else {
        return Frame::Broken { id };
    };
    if count_characters(id.as_str()) > MAX_ID {
        return Frame::Broken { id };
    }
    Frame::Call {
        id,
        action,
        payload,
    }
}

fn call_result<'a>(alloc: Global, id: Text, mut rest: Vec<Value<'a>>) -> Frame<'a>
    ensures { result ≡ call_result id (items_view rest.entry.items) }
{
    if rest.len() != 1 {
        return Frame::Ignored;
    }
    match payload_of(alloc, rest.remove(0)) {
        Some(payload) => Frame::CallResult { id, payload },
        None => Frame::Ignored,
    }
}

fn call_error<'a>(alloc: Global, id: Text, rest: Vec<Value<'a>>) -> Mem<Frame<'a>>
    ensures { IfOk result (λ f. f ≡ call_error id (items_view rest.entry.items)) }
{
    match two_of(rest, 3) {
        Some((code, description)) => error_with(alloc, id, &code, &description),
        None => Ok(Frame::Ignored),
    }
}

fn error_with<'a>(
    alloc: Global,
    id: Text,
    code: &Value<'a>,
    description: &Value<'a>,
) -> Mem<Frame<'a>>
    ensures { IfOk result (λ f. f ≡ error_with id (as_str (view code.now)) (description_of (view description.now))) }
{
    match (text_of(code), description_of(description)) {
        (Some(code), Some(description)) => Ok(Frame::CallError {
            id,
            code: Text::copy_of(alloc, code)?,
            description: Text::copy_of(alloc, description)?,
        }),
        _ => Ok(Frame::Ignored),
    }
}

// The first two of two to `most` items.
fn two_of<'a>(mut items: Vec<Value<'a>>, most: usize) -> Option<(Value<'a>, Value<'a>)>
    ensures none { IfNone result ((length items.entry.items < 2) ⊎ (most < length items.entry.items)) }
    ensures some { IfSome result (λ two. (rest : List (Value Global))
        × (items.entry.items ≡ two.0 ∷ two.1 ∷ rest) × (length rest + 2 ≤ most)) }
{
    if items.len() < 2 || most < items.len() {
        return None;
    }
    let first = items.remove(0);
    Some((first, items.remove(0)))
}

fn payload_of<'a>(alloc: Global, value: Value<'a>) -> Option<Payload<'a>>
    ensures { result ≡ payload_of (view value.entry) }
{
    match value {
        Value::Null => Some(Payload::from(Value::Object(Vec::new(alloc)))),
        Value::Object(members) => Some(Payload::from(Value::Object(members))),
        _ => None,
    }
}

fn description_of<'a>(value: &Value<'a>) -> Option<&'a str>
    ensures { option_map (λ s. s.now) result ≡ description_of (view value.now) }
{
    match value {
        Value::Null => Some(""),
        Value::String(text) => Some(*text),
        _ => None,
    }
}
