//! Calls straight from text: most frames are calls, and no list of a call's items is made.
ghost use Rattle.std.specs.Prelude.{◌≡◌, ◌∷◌, [], IfOk, IfSome, true};
ghost use Rattle.json.specs.Token.{number, begin_array};
ghost use Rattle.ocpp_frame.specs.Frame.{frame};

use crate::frame::Frame;
use crate::read::call_of;
use json::{Reader, Scratch, Token};
use json_data::{MAX_DEPTH, Refused, read};
use ocpp_types::{Mem, NoMemory, Text};
use std::alloc::Global;

/// The frame of a text that is `[2,"<id>","<action>",<payload>]`, and `None` where it has another form.
#[tactic(auto, using(crate::proofs::Calls::call_of_tokens))]
pub fn read_call<'a>(
    alloc: Global,
    scratch: &'a mut Scratch,
    text: &'a str,
) -> Mem<Option<Frame<'a>>>
    ensures { IfOk result (λ call. IfSome call (λ f. f ≡ frame text.now)) }
{
    let mut reader = Reader::new(text, scratch)?;
    if !begins_call(&mut reader) {
        return Ok(None);
    }
    let Some(Token::String(id)) = reader.next() else {
        return Ok(None);
    };
    let Some(Token::String(action)) = reader.next() else {
        return Ok(None);
    };
    let payload = match read(alloc, &mut reader, MAX_DEPTH - 1) {
        Ok(payload) => payload,
        Err(Refused::Invalid) => return Ok(None),
        Err(Refused::NoMemory) => return Err(NoMemory),
    };
    if !reader.take_end_array() || reader.next().is_some() {
        return Ok(None);
    }
    let id = Text::copy_of(alloc, id)?;
    let action = Text::copy_of(alloc, action)?;
    Ok(Some(call_of(alloc, id, action, payload)))
}

/// Whether the tokens of a text begin as those of a call.
fn begins_call(reader: &mut Reader<'_>) -> bool
    ensures { result ≡ true → reader.old ≡ begin_array ∷ number (50 ∷ []) ∷ reader.new }
{
    let Some(Token::BeginArray) = reader.next() else {
        return false;
    };
    match reader.next() {
        Some(Token::Number(kind)) => kind == "2",
        _ => false,
    }
}
