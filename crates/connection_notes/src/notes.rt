//! What became of connections, as a log tells it.

use hub_events::Fault;
use ocpp_types::{Mem, Text};
use std::alloc::Global;
use std::net::SocketAddr;
use ws_handshake::Answer;
use ws_peers::{Cause, Route};

/// Why a connection wasn't admitted.
#[derive(Clone, Copy, Debug, PartialEq, Eq, Drop)]
pub enum Refusal {
    /// The stream ended or failed before the handshake was done.
    Lost,
    /// The head wasn't whole in time.
    Late,
    /// The first bytes are no request of HTTP/1.1, or no handshake of RFC 6455. It was answered 400.
    NoRequest,
    /// The head of the request has more than 8,192 bytes, or more than 64 fields. It was answered 431.
    TooLarge,
    /// Others waited in front, and another came.
    Crowded,
    /// The path leads to no station and no operator that is known here. It was answered 404.
    Unknown,
    /// A page of another origin asked. It was answered 403.
    Foreign,
    /// The operator has as many connections as it may have. It was answered 503.
    TooMany,
    /// The request is no handshake of WebSocket 13. It was answered 405 or 426.
    NoHandshake,
    /// A station doesn't offer the subprotocol `ocpp1.6`. It was closed with 1008.
    NoSubprotocol,
    /// A station that is no longer on record. It was closed with 1008.
    Gone,
}

impl Refusal {
    /// Why a request is so answered. A health check isn't refused, nor is a request for the metrics.
    pub fn of(answer: Answer) -> Option<Refusal> {
        match answer {
            Answer::Healthy | Answer::Metrics | Answer::MetricsHead => None,
            Answer::BadRequest => Some(Refusal::NoRequest),
            Answer::Forbidden => Some(Refusal::Foreign),
            Answer::NotFound => Some(Refusal::Unknown),
            Answer::NotAllowed | Answer::UpgradeRequired => Some(Refusal::NoHandshake),
            Answer::TooLarge => Some(Refusal::TooLarge),
            Answer::Unavailable => Some(Refusal::TooMany),
        }
    }
}

/// A request of a station that was read with repairs: its action, and the fault for which it is refused otherwise.
#[derive(Clone, Copy, Debug, PartialEq, Eq, Drop)]
pub struct Repair {
    /// The action.
    pub action: &'static str,
    /// The error code of the fault.
    pub code: &'static str,
    /// The member at fault.
    pub field: &'static str,
}

/// What became of a connection.
#[derive(Clone, Copy, Debug, PartialEq, Eq, Drop)]
pub enum Happened {
    /// It was admitted.
    Connected,
    /// Another of the same station was admitted in its place.
    Replaced,
    /// It wasn't admitted.
    Refused(Refusal),
    /// An event of it ended in a fault.
    Failed(Fault),
    /// A request of its station was read with repairs.
    Repaired(Repair),
    /// It has ended.
    Ended(Cause),
}

/// What became of one connection. Of what a peer sent it has the names in its path alone.
#[derive(Drop)]
pub struct Note {
    /// What the connection stands for. `None` is one that asked for nothing yet, or whose path leads nowhere.
    pub route: Option<Route>,
    /// Where it came from, if that is still known.
    pub address: Option<SocketAddr>,
    /// What became of it.
    pub happened: Happened,
}

/// Notes, in order, until they are taken. One for which there is no memory is left out.
#[derive(Drop)]
pub struct Notes {
    alloc: Global,
    are_kept: bool,
    items: Vec<Note>,
}

impl Notes {
    /// No note, and none is kept.
    pub fn new(alloc: Global) -> Notes {
        Notes {
            alloc,
            are_kept: false,
            items: Vec::new(alloc),
        }
    }

    /// From now on notes are kept.
    pub fn keep(&mut self) {
        self.are_kept = true;
    }

    /// Adds a note.
    pub fn add(&mut self, route: Option<&Route>, address: Option<SocketAddr>, happened: Happened) {
        if !self.are_kept {
            return;
        }
        if let Ok(route) = copy_of(route) {
            let _lost = self.items.push(Note {
                route,
                address,
                happened,
            });
        }
    }

    /// Adds that a request of a station was read with repairs.
    pub fn add_repair(&mut self, op: &Text, station: &Text, repair: Repair) {
        if !self.are_kept {
            return;
        }
        if let Ok(route) = station_route(op, station) {
            self.add(Some(&route), None, Happened::Repaired(repair));
        }
    }

    /// The notes, which are then no longer kept here.
    pub fn take(&mut self) -> Vec<Note> {
        std::mem::replace(&mut self.items, Vec::new(self.alloc))
    }
}

fn station_route(op: &Text, station: &Text) -> Mem<Route> {
    Ok(Route::Station(op.clone()?, station.clone()?))
}

fn copy_of(route: Option<&Route>) -> Mem<Option<Route>> {
    match route {
        Some(route) => Ok(Some(route.clone()?)),
        None => Ok(None),
    }
}
