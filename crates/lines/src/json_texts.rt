//! JSON in lines.
ghost use Rattle.std.specs.Prelude.{◌≡◌, IfOk, option_and_then};
ghost use Rattle.serde_json.specs.Read.{read};
ghost use Rattle.operator_cmds.specs.Command.{command};
ghost use Rattle.lines.specs.Forms.{string_of};

use json::Scratch;
use json_data::{read_value, text_of};
use ocpp_types::{Mem, Text};
use operator_cmds::{Command, read_command};
use std::alloc::Global;

/// The command of that action whose payload is that JSON. `None`: it is no JSON, or no such command. A scratch is
/// wide, so it is alone among the values that are cleared as this begins.
#[inline(never)]
pub fn command_in(alloc: Global, action: &str, json: &str) -> Mem<Option<Command>>
    ensures { IfOk result (λ c. c ≡ option_and_then (command action.now) (read json.now)) }
{
    let mut scratch = Scratch::new(alloc);
    command_by(alloc, &mut scratch, action, json)
}

fn command_by(
    alloc: Global,
    scratch: &mut Scratch,
    action: &str,
    json: &str,
) -> Mem<Option<Command>>
    ensures { IfOk result (λ c. c ≡ option_and_then (command action.now) (read json.now)) }
{
    match read_value(alloc, scratch, json)? {
        Some(payload) => read_command(alloc, action, &payload),
        None => Ok(None),
    }
}

/// The text that is that JSON string, `None` where it is none.
#[inline(never)]
pub fn string_in(alloc: Global, json: &str) -> Mem<Option<Text>>
    ensures { IfOk result (λ t. t ≡ string_of (read json.now)) }
{
    let mut scratch = Scratch::new(alloc);
    string_by(alloc, &mut scratch, json)
}

fn string_by(alloc: Global, scratch: &mut Scratch, json: &str) -> Mem<Option<Text>>
    ensures { IfOk result (λ t. t ≡ string_of (read json.now)) }
{
    let Some(value) = read_value(alloc, scratch, json)? else {
        return Ok(None);
    };
    match text_of(&value) {
        Some(text) => Ok(Some(Text::copy_of(alloc, text)?)),
        None => Ok(None),
    }
}
