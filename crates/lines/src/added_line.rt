//! Lines of output, added to a text (docs/RULES.md, Lines).
ghost use Rattle.std.specs.Prelude.{◌≡◌, ◌++◌, [], ◌∷◌, length, take, OnOk, OnErr};
ghost use Rattle.hub_events.specs.declared.out.Said.TheVariants as said;
ghost use Rattle.lines.specs.OutputLines.{line_of, said_line};

use crate::output_line::print_out;
use hub_events::{Out, Said};
use ocpp_types::{Mem, Text};
use std::alloc::Global;

/// Adds the line of an output and a line feed to a text, or nothing.
pub fn add_line(text: &mut Vec<u8>, alloc: Global, out: &Out) -> Mem<()>
    ensures ok { OnOk result (text.new.items ≡ text.old.items ++ (line_of out.now ++ (10 ∷ []))) }
    ensures err { OnErr result (text.new.items ≡ text.old.items) }
{
    let begun = text.len();
    let added = add_ended(text, alloc, out);
    if added.is_err() {
        text.truncate(begun);
    }
    added
}

/// Adds the line of an output and a line feed. Without memory a part of it may be there.
#[tactic(auto, using(hub_rows::proofs::Steps::begins))]
fn add_ended(text: &mut Vec<u8>, alloc: Global, out: &Out) -> Mem<()>
    ensures ok { OnOk result (text.new.items ≡ text.old.items ++ (line_of out.now ++ (10 ∷ []))) }
    ensures err { OnErr result (take (length text.old.items) text.new.items ≡ text.old.items) }
{
    add_out(text, alloc, out)?;
    text.push(b'\n')?;
    Ok(())
}

/// Adds the line of an output, without a line feed.
#[tactic(auto, using(hub_rows::proofs::Steps::begins), unfolding(crate::specs::OutputLines::line_of))]
fn add_out(text: &mut Vec<u8>, alloc: Global, out: &Out) -> Mem<()>
    ensures ok { OnOk result (text.new.items ≡ text.old.items ++ line_of out.now) }
    ensures err { OnErr result (take (length text.old.items) text.new.items ≡ text.old.items) }
{
    match &out.said {
        Said::Send {
            station,
            text: sent,
        } => add_send(text, &out.op, station, sent),
        Said::Done { .. }
        | Said::Turned { .. }
        | Said::Repaired { .. }
        | Said::Refused(_)
        | Said::Row(_)
        | Said::Accepted { .. } => {
            let line = print_out(alloc, out)?;
            text.extend_from_slice(line.as_bytes())?;
            Ok(())
        }
    }
}

/// Adds `OP ST send TEXT`.
#[tactic(auto, using(hub_rows::proofs::Steps::begins))]
fn add_send(text: &mut Vec<u8>, op: &Text, station: &Text, sent: &Text) -> Mem<()>
    ensures ok { OnOk result (text.new.items ≡ text.old.items ++ said_line op.now (said.Send station.now sent.now)) }
    ensures err { OnErr result (take (length text.old.items) text.new.items ≡ text.old.items) }
{
    text.extend_from_slice(op.as_str().as_bytes())?;
    text.push(b' ')?;
    text.extend_from_slice(station.as_str().as_bytes())?;
    text.extend_from_slice(b" send ")?;
    text.extend_from_slice(sent.as_str().as_bytes())?;
    Ok(())
}
