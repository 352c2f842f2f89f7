//! Lines of a journal (docs/RULES.md, Events as lines).
ghost use Rattle.std.specs.Prelude.{◌≡◌, ℕ, List, IfOk, Some, string_bytes, true};
ghost use Rattle.hub_events.specs.declared.event.What.TheVariants.{Frame};
ghost use Rattle.lines.specs.Forms.{what_of};
ghost use Rattle.lines.specs.Journal.{journal_line, what_text, frame_text, has_break, is_break, is_plain, Says, IsReadBack, IsOneLine};

use crate::fields::quoted;
use crate::order::without_return;
use hub_events::{Event, What};
use ocpp_types::{Mem, Text};
use std::alloc::Global;

/// The line of an event, without a line feed: a line of input that says the event. That of an order has the text that the
/// operator sent, without the order's word. A frame with a line feed or a carriage return is quoted.
pub fn journal_line(alloc: Global, event: &Event, order: &str) -> Mem<String>
    ensures text { IfOk result (λ s. string_bytes s ≡ journal_line event.now order.now) }
    ensures read { IfOk result (λ s. IsReadBack event.now order.now (string_bytes s)) }
    ensures one { IfOk result (λ s. IsOneLine event.now order.now (string_bytes s)) }
{
    match event {
        Event::Tick { moment } => {
            let seconds = moment.seconds();
            Ok(format!(in alloc; "{seconds} * tick")?)
        }
        Event::At { op, moment, what } => {
            let seconds = moment.seconds();
            let text = what_text(alloc, what, order)?;
            Ok(format!(in alloc; "{seconds} {op} {text}")?)
        }
    }
}

/// What follows `MOMENT OP`.
fn what_text(alloc: Global, what: &What, order: &str) -> Mem<String>
    ensures text { IfOk result (λ s. string_bytes s ≡ what_text what.now order.now) }
    ensures said { IfOk result (λ s. (op : List ℕ) (moment : ℕ) → Says what.now op moment order.now → what_of (string_bytes s) ≡ Some what.now) }
{
    match what {
        What::Connect { station } => Ok(format!(in alloc; "connect {station}")?),
        What::Disconnect { station } => Ok(format!(in alloc; "disconnect {station}")?),
        What::Frame { station, text } => frame_text(alloc, station, text),
        What::Do { .. }
        | What::Admin(_)
        | What::List(_)
        | What::Connections
        | What::DropStation { .. }
        | What::Forget { .. } => Ok(String::from_str(alloc, without_return(order))?),
    }
}

fn frame_text(alloc: Global, station: &Text, text: &Text) -> Mem<String>
    ensures text { IfOk result (λ s. string_bytes s ≡ frame_text station.now text.now) }
    ensures said { IfOk result (λ s. is_plain station.now ≡ true → what_of (string_bytes s) ≡ Some (Frame station.now text.now)) }
{
    if has_break(text.as_str()) {
        let text = quoted(alloc, text.as_str())?;
        return Ok(format!(in alloc; "quoted {station} {text}")?);
    }
    Ok(format!(in alloc; "frame {station} {text}")?)
}

/// Whether a text has a line feed or a carriage return.
fn has_break(text: &str) -> bool
    ensures { result ≡ has_break text.now }
{
    text.as_bytes().iter().any(|byte| is_break(*byte))
}

fn is_break(byte: u8) -> bool
    ensures { result ≡ is_break byte }
{
    byte == b'\n' || byte == b'\r'
}
