//! Texts of an operator's connection (docs/RULES.md, Connections).
ghost use Rattle.std.specs.Prelude.{◌≡◌, IfOk};
ghost use Rattle.std.specs.Io.BufRead.{strip_last};
ghost use Rattle.lines.specs.Orders.{order_of, is_order, has_line_feed};

use crate::forms::read_what;
use crate::input_line::MAX_LINE;
use hub_events::{Event, What};
use ocpp_types::{Mem, Moment, Text};
use std::alloc::Global;

/// The event that a text of an operator's connection says: a line of input after `MOMENT OP`. It is
/// `None` for a text that has none of the forms, is a station's (`connect`, `disconnect`, `frame`), has
/// a line feed, or is longer than a line may be.
#[tactic(auto, unfolding(crate::specs::Orders::order_of))]
pub fn read_order(alloc: Global, op: &Text, moment: Moment, text: &str) -> Mem<Option<Event>>
    ensures { IfOk result (λ e. e ≡ order_of op.now moment text.now) }
{
    if text.len() > MAX_LINE || has_line_feed(text) {
        return Ok(None);
    }
    let Some(what) = read_what(alloc, without_return(text))? else {
        return Ok(None);
    };
    if !is_order(&what) {
        return Ok(None);
    }
    let op = op.clone()?;
    Ok(Some(Event::At { op, moment, what }))
}

fn has_line_feed(text: &str) -> bool
    ensures { result ≡ has_line_feed text.now }
{
    text.split_once('\n').is_some()
}

pub(crate) fn without_return(text: &str) -> &str
    ensures { result.now ≡ strip_last 13 text.now }
{
    match text.strip_suffix('\r') {
        Some(front) => front,
        None => text,
    }
}

/// Whether an operator may ask for it.
fn is_order(what: &What) -> bool
    ensures { result ≡ is_order what.now }
{
    match what {
        What::Connect { .. } | What::Disconnect { .. } | What::Frame { .. } => false,
        What::Do { .. }
        | What::Admin(_)
        | What::List(_)
        | What::Connections
        | What::DropStation { .. }
        | What::Forget { .. } => true,
    }
}
