//! Which repairs the log tells: each of a station once in an hour.

use connection_notes::{Happened, Note, Repair};
use ocpp_types::{Mem, Moment, Text};
use std::alloc::Global;
use std::cmp::Ordering;
use ws_peers::Route;

/// The most repairs that are told in an hour. Further ones are not.
const MOST: usize = 10_000;

/// A repair of a station's requests.
#[derive(Drop)]
struct Told {
    op: Text,
    station: Text,
    repair: Repair,
}

/// The repairs that were told in an hour, in the order of their operators, stations, actions and members.
#[derive(Drop)]
pub struct Repairs {
    /// Its number since 1970.
    hour: u64,
    told: Vec<Told>,
}

impl Repairs {
    /// None were told.
    pub fn new(alloc: Global) -> Repairs {
        Repairs {
            hour: 0,
            told: Vec::new(alloc),
        }
    }

    /// Whether a note of that moment is told. One of a repair is, unless it was in the same hour. Where there is no memory to
    /// keep it, it isn't.
    pub fn is_news(&mut self, moment: Moment, note: &Note) -> bool {
        match (&note.route, note.happened) {
            (Some(Route::Station(op, station)), Happened::Repaired(repair)) => {
                self.begin(moment);
                self.add(op, station, repair).unwrap_or(false)
            }
            _ => true,
        }
    }

    /// Begins a new hour, if it is one.
    fn begin(&mut self, moment: Moment) {
        let hour = moment.seconds() / 3600;
        if hour != self.hour {
            self.hour = hour;
            self.told.clear();
        }
    }

    /// Adds a repair. It gives whether it is a new one.
    fn add(&mut self, op: &Text, station: &Text, repair: Repair) -> Mem<bool> {
        let found = self
            .told
            .binary_search_by(|told| order(told, op, station, repair));
        match found {
            Err(place) if self.told.len() < MOST && place <= self.told.len() => {
                let told = Told {
                    op: op.clone()?,
                    station: station.clone()?,
                    repair,
                };
                self.told.insert(place, told)?;
                Ok(true)
            }
            Ok(_) | Err(_) => Ok(false),
        }
    }
}

/// The order of what was told to a repair of a station.
fn order(told: &Told, op: &Text, station: &Text, repair: Repair) -> Ordering {
    told.op
        .cmp(op)
        .then(told.station.cmp(station))
        .then(told.repair.action.cmp(repair.action))
        .then(told.repair.code.cmp(repair.code))
        .then(told.repair.field.cmp(repair.field))
}
