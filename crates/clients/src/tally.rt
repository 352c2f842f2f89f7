//! How far a simulated station is.

use station_sim::{Drove, Sim};

/// The stop that is in flight.
#[derive(Clone, Copy, Debug, PartialEq, Eq)]
enum Stop {
    None,
    /// That of a session.
    OfSession,
    /// That of a transaction whose start wasn't accepted.
    OfRefused,
}

/// What a station has done.
#[derive(Clone, Copy, Debug, PartialEq, Eq)]
pub struct Tally {
    /// Its boot was accepted.
    has_booted: bool,
    stop: Stop,
    /// How many sessions were stopped.
    pub sessions: u32,
    /// How many transactions were stopped whose start wasn't accepted.
    refused: u32,
}

impl Tally {
    /// Nothing is done.
    pub fn new() -> Tally {
        Tally {
            has_booted: false,
            stop: Stop::None,
            sessions: 0,
            refused: 0,
        }
    }

    /// Takes a round of that station. A call tells that the one before was answered.
    pub fn take(&mut self, drove: &Drove, station: &Sim) {
        if let Some(call) = &drove.call {
            let call = call.as_str();
            self.settle();
            self.has_booted = self.has_booted || has(call, ",\"StatusNotification\",{");
            self.stop = stop_of(call);
        }
        if station.done() || station.waits() {
            self.settle();
        }
    }

    /// The stop was answered, if there was one.
    fn settle(&mut self) {
        match self.stop {
            Stop::None => {}
            Stop::OfSession => self.sessions = self.sessions.saturating_add(1),
            Stop::OfRefused => self.refused = self.refused.saturating_add(1),
        }
        self.stop = Stop::None;
    }

    /// Whether its boot was accepted and so many transactions were stopped.
    pub fn has_stopped(&self, count: u32) -> bool {
        self.has_booted && self.sessions.saturating_add(self.refused) >= count
    }

    /// Whether its boot was accepted and so many sessions were carried out.
    pub fn has_done(&self, count: u32) -> bool {
        self.has_booted && self.sessions >= count
    }
}

fn stop_of(call: &str) -> Stop {
    if !has(call, ",\"StopTransaction\",{") {
        return Stop::None;
    }
    if has(call, "\"reason\":\"DeAuthorized\"") {
        Stop::OfRefused
    } else {
        Stop::OfSession
    }
}

fn has(text: &str, part: &str) -> bool {
    text.split_once(part).is_some()
}
