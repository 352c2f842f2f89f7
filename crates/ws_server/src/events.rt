//! What a peer hands to the hub.
ghost use Rattle.std.specs.Prelude.{◌≡◌, IfOk, OnErr, is_some, option_map, true};
ghost use Rattle.hub_events.specs.declared.event.Event.TheVariants as event;
ghost use Rattle.hub_events.specs.declared.event.What.TheVariants as what;
ghost use Rattle.ws_server.specs.Events.{word_of, order_text, event_of, disconnect_of, parting, is_turned, turns_away};

use hub_events::{Event, Out, Said, What};
use lines::{mark_of, read_order};
use ocpp_types::{Mem, Moment, Text};
use std::alloc::Global;
use std::io::{Read, Write};
use ws_peers::{Peer, Route, Stage};

/// The word of a text of a peer. That of a station has none.
pub fn word_of<'a>(route: &Route, text: &'a str) -> Option<&'a str>
    ensures { option_map (λ w. w.now) result ≡ word_of route.now text.now }
{
    match route {
        Route::Station(_, _) => None,
        Route::Operator(_) => {
            let (word, _order) = mark_of(text)?;
            Some(word)
        }
    }
}

/// A text of an operator without its word.
pub fn order_text(text: &str) -> &str
    ensures { result.now ≡ order_text text.now }
{
    match mark_of(text) {
        Some((_word, order)) => order,
        None => text,
    }
}

/// The event that a text of a peer is: a frame of a station, or an order of an operator, which may have a word. `None`
/// is a text of an operator that has no order.
pub fn event_of(alloc: Global, route: &Route, moment: Moment, text: &str) -> Mem<Option<Event>>
    ensures { IfOk result (λ e. e ≡ event_of route.now moment text.now) }
{
    match route {
        Route::Station(op, station) => {
            let op = op.clone()?;
            let station = station.clone()?;
            let text = Text::copy_of(alloc, text)?;
            let what = What::Frame { station, text };
            Ok(Some(Event::At { op, moment, what }))
        }
        Route::Operator(op) => read_order(alloc, op, moment, order_text(text)),
    }
}

/// The disconnect of a peer that is to leave the hub now.
pub fn parting<T: Read + Write + Drop>(peer: &Peer<T>, moment: Moment) -> Mem<Option<Event>>
    ensures event { IfOk result (λ e. e ≡ parting moment peer.now) }
    ensures leaves { OnErr result (is_some (parting moment peer.now) ≡ true) }
{
    match peer.stage() {
        Stage::Leaving => disconnect_of(peer.route(), moment),
        Stage::Open | Stage::Ended(_) | Stage::Gone => Ok(None),
    }
}

fn disconnect_of(route: &Route, moment: Moment) -> Mem<Option<Event>>
    ensures event { IfOk result (λ e. e ≡ disconnect_of route.now moment) }
    ensures leaves { OnErr result (is_some (disconnect_of route.now moment) ≡ true) }
{
    match route {
        Route::Station(op, station) => {
            let op = op.clone()?;
            let station = station.clone()?;
            let what = What::Disconnect { station };
            Ok(Some(Event::At { op, moment, what }))
        }
        Route::Operator(_) => Ok(None),
    }
}

/// The connect of a station.
pub fn connect_of(op: &Text, station: &Text, moment: Moment) -> Mem<Event>
    ensures { IfOk result (λ e. e ≡ event.At op.now moment (what.Connect station.now)) }
{
    let op = op.clone()?;
    let station = station.clone()?;
    let what = What::Connect { station };
    Ok(Event::At { op, moment, what })
}

/// Whether one of the outputs of a connect turns the station away.
pub fn turns_away(outs: &[Out]) -> bool
    ensures { result ≡ turns_away outs.now }
{
    outs.iter().any(is_turned)
}

fn is_turned(out: &Out) -> bool
    ensures { result ≡ is_turned out.now }
{
    matches!(out.said, Said::Turned { .. })
}
