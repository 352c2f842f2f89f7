//! What a server counts and measures of itself.

use crate::causes::{REFUSALS, place_of};
use crate::metrics_page::Connected;
use connection_notes::{Happened, Note};
use hub_events::Fault;
use ocpp_types::{Mem, Text};
use std::alloc::Global;
use ws_peers::Route;

/// How many kinds of faults there are.
pub const FAULTS: usize = 4;

/// The kinds of faults by their names, in order.
pub const FAULT_NAMES: [&str; FAULTS] = ["NoMemory", "Store", "TooLong", "NoSuchOperator"];

/// The seconds of a window in which the longest of something is sought.
const WINDOW: u64 = 60;

/// What is counted of an operator.
#[derive(Clone, Copy, Default, Drop)]
pub struct Counts {
    /// The texts of its stations that the hub has taken.
    pub frames: u64,
    /// The orders that the hub has taken.
    pub orders: u64,
    /// The connections of its stations.
    pub stations: u64,
    /// The connections that were admitted.
    pub connected: u64,
    /// The connections that have ended.
    pub ended: u64,
    /// The events that ended in a fault, by its kind.
    pub faults: [u64; FAULTS],
    /// The nanoseconds in which it was served.
    pub served: u64,
}

/// The longest of something in the last one to two minutes, in nanoseconds.
#[derive(Clone, Copy, Default, Drop)]
pub struct Longest {
    window: u64,
    now: u64,
    before: u64,
}

impl Longest {
    /// Something took so many nanoseconds, in that second.
    pub fn add(&mut self, nanoseconds: u64, second: u64) {
        let window = second / WINDOW;
        if window != self.window {
            let follows = window == self.window.saturating_add(1);
            self.before = if follows { self.now } else { 0 };
            self.now = 0;
            self.window = window;
        }
        self.now = self.now.max(nanoseconds);
    }

    /// The longest, in nanoseconds.
    pub fn get(&self) -> u64 {
        self.now.max(self.before)
    }
}

/// What a server counts and measures of itself.
#[derive(Drop)]
pub struct Metrics {
    /// The operators that are hosted, in order.
    pub operators: Vec<Text>,
    /// By operator.
    pub counts: Vec<Counts>,
    /// By cause: the connections that weren't admitted.
    pub refused: [u64; REFUSALS],
    /// The longest turn, without its wait.
    pub turn: Longest,
    /// The longest time in which one connection was served.
    pub event: Longest,
    /// The nanoseconds in which nothing was to be done.
    pub idle: u64,
}

impl Metrics {
    /// Nothing is counted yet. The operators are sorted.
    pub fn new(alloc: Global, operators: &[Text]) -> Mem<Metrics> {
        let mut names = Vec::new(alloc);
        for operator in operators {
            names.push(operator.clone()?)?;
        }
        let mut counts = Vec::new(alloc);
        counts.resize(names.len(), Counts::default())?;
        Ok(Metrics {
            operators: names,
            counts,
            refused: [0; REFUSALS],
            turn: Longest::default(),
            event: Longest::default(),
            idle: 0,
        })
    }

    fn counts_of(&mut self, route: Option<&Route>) -> Option<&mut Counts> {
        let operator = route?.operator();
        let place = self.operators.binary_search(operator).ok()?;
        self.counts.get_mut(place)
    }

    /// Counts what became of connections.
    pub fn note(&mut self, notes: &[Note]) {
        for note in notes {
            if let Happened::Refused(refusal) = note.happened {
                if let Some(count) = self.refused.get_mut(place_of(refusal)) {
                    *count = count.saturating_add(1);
                }
            }
            let is_station = matches!(&note.route, Some(Route::Station(_, _)));
            if let Some(counts) = self.counts_of(note.route.as_ref()) {
                counts.note(note.happened, is_station);
            }
        }
    }

    /// The operators whose stations have so many connections or more.
    pub fn full(&self, alloc: Global, most: u64) -> Mem<Vec<Text>> {
        let mut full = Vec::new(alloc);
        for (operator, counts) in self.operators.iter().zip(&self.counts) {
            if counts.stations >= most {
                full.push(operator.clone()?)?;
            }
        }
        Ok(full)
    }

    /// Sets how many connections the stations of each operator have.
    pub fn set_stations(&mut self, connected: &[Connected]) {
        for (counts, now) in self.counts.iter_mut().zip(connected) {
            counts.stations = now.stations;
        }
    }

    /// One connection of an operator was served, in that second, which took so many nanoseconds and handed so many events to
    /// the hub.
    pub fn serve(&mut self, owner: usize, is_station: bool, events: u64, cost: u64, second: u64) {
        self.event.add(cost, second);
        let Some(counts) = self.counts.get_mut(owner) else {
            return;
        };
        counts.served = counts.served.saturating_add(cost);
        let count = if is_station {
            &mut counts.frames
        } else {
            &mut counts.orders
        };
        *count = count.saturating_add(events);
    }
}

impl Counts {
    fn note(&mut self, happened: Happened, is_station: bool) {
        match happened {
            Happened::Connected => {
                self.connected = self.connected.saturating_add(1);
                self.stations = self.stations.saturating_add(u64::from(is_station));
            }
            Happened::Ended(_) | Happened::Replaced => {
                self.ended = self.ended.saturating_add(1);
                self.stations = self.stations.saturating_sub(u64::from(is_station));
            }
            Happened::Failed(fault) => {
                if let Some(count) = self.faults.get_mut(place_of_fault(fault)) {
                    *count = count.saturating_add(1);
                }
            }
            Happened::Refused(_) | Happened::Repaired(_) => {}
        }
    }
}

/// The place of a fault among the kinds.
fn place_of_fault(fault: Fault) -> usize {
    match fault {
        Fault::NoMemory => 0,
        Fault::Store => 1,
        Fault::TooLong => 2,
        Fault::NoSuchOperator => 3,
    }
}
