//! Lines of input (docs/RULES.md, Lines).
ghost use Rattle.std.specs.Prelude.{◌≡◌, IfOk};
ghost use Rattle.std.specs.Io.BufRead.{strip_last};
ghost use Rattle.hub_rows.specs.Operators.{is_hosted};
ghost use Rattle.lines.specs.InputLines.{spelled, event_of, operator_event};

use crate::forms::read_what;
use crate::words::{first_word, moment_at};
use hub_events::Event;
use hub_rows::is_hosted;
use ocpp_types::{Mem, Moment, Text};
use std::alloc::Global;

/// What a line of input says.
#[derive(Drop)]
pub enum Line {
    /// The line is empty.
    Nothing,
    /// An event for the hub.
    Event(Event),
    /// The line is too long, isn't UTF-8, has none of the forms, or its operator isn't hosted.
    Bad,
}

/// The most bytes of a line. Its carriage return counts, and its line feed doesn't.
pub const MAX_LINE: usize = 1_048_576;

/// What a line says (docs/RULES.md, Lines). `line` is its bytes without the line feed; an operator
/// that isn't in `hosted` makes it Bad.
#[tactic(auto, using(crate::proofs::Utf8Lines::valid_text), unfolding(crate::specs::InputLines::spelled))]
pub fn read_line(alloc: Global, hosted: &[Text], line: &[u8]) -> Mem<Line>
    ensures { IfOk result (λ l. l ≡ spelled (is_hosted hosted.now) line.now) }
{
    if line.len() > MAX_LINE {
        return Ok(Line::Bad);
    }
    let line = without_return(line);
    if line.is_empty() {
        return Ok(Line::Nothing);
    }
    let Ok(text) = str::from_utf8(line) else {
        return Ok(Line::Bad);
    };
    match read_event(alloc, hosted, text)? {
        Some(event) => Ok(Line::Event(event)),
        None => Ok(Line::Bad),
    }
}

fn without_return(line: &[u8]) -> &[u8]
    ensures { result.now ≡ strip_last 13 line.now }
{
    match line {
        [front @ .., b'\r'] => front,
        _ => line,
    }
}

/// The event that a text says, of any length, without the end of its line. `None` where it has none of the forms or its
/// operator isn't in `hosted`.
#[tactic(auto, unfolding(crate::specs::InputLines::event_of))]
pub fn read_event(alloc: Global, hosted: &[Text], text: &str) -> Mem<Option<Event>>
    ensures { IfOk result (λ e. e ≡ event_of (is_hosted hosted.now) text.now) }
{
    let Some((moment, rest)) = first_word(text) else {
        return Ok(None);
    };
    let Some(moment) = moment_at(moment) else {
        return Ok(None);
    };
    if rest == "* tick" {
        return Ok(Some(Event::Tick { moment }));
    }
    operator_event(alloc, hosted, moment, rest)
}

fn operator_event(alloc: Global, hosted: &[Text], moment: Moment, rest: &str) -> Mem<Option<Event>>
    ensures { IfOk result (λ e. e ≡ operator_event (is_hosted hosted.now) moment rest.now) }
{
    let Some((op, rest)) = first_word(rest) else {
        return Ok(None);
    };
    if !is_hosted(hosted, op) {
        return Ok(None);
    }
    let Some(what) = read_what(alloc, rest)? else {
        return Ok(None);
    };
    let op = Text::copy_of(alloc, op)?;
    Ok(Some(Event::At { op, moment, what }))
}
