//! Where the groups of stations were found last.

use std::alloc::{AllocError, Global};
use std::cell::Cell;

/// How many stations are remembered, once any are.
const COUNT: usize = 1_024;

/// Where the group of a station is looked for first: where it was found last, or else at the index of the station's row,
/// which is its own where each station before has a group. Either may be wrong, so a search looks whether the group is
/// there.
#[derive(Drop)]
pub struct Near {
    /// The index of the station's row.
    station: usize,
    /// The indexes of stations' rows and of their groups: none, or `COUNT`.
    places: Vec<Cell<(usize, usize)>>,
}

impl Near {
    /// Nothing is known. It takes no memory.
    pub fn new(alloc: Global) -> Near {
        Near {
            station: 0,
            places: Vec::new(alloc),
        }
    }

    /// From now on the station is that whose row is at that index.
    pub fn look(&mut self, station: usize) {
        self.station = station;
    }

    /// The index at which the station's group is looked for first.
    pub fn first(&self) -> usize {
        if let Some(cell) = self.cell() {
            let (station, place) = cell.get();
            if station == self.station {
                return place;
            }
        }
        self.station
    }

    /// The station's group was found at an index.
    pub fn keep(&self, place: usize) {
        if let Some(cell) = self.cell() {
            cell.set((self.station, place));
        }
    }

    fn cell(&self) -> Option<&Cell<(usize, usize)>> {
        self.places.get(self.station % COUNT)
    }

    /// Makes room for the indexes, where there is memory for it.
    pub fn make_room(&mut self, alloc: Global) {
        if self.places.is_empty() {
            if let Ok(places) = blank(alloc) {
                self.places = places;
            }
        }
    }
}

/// The indexes of stations' rows, each as that of its group.
fn blank(alloc: Global) -> Result<Vec<Cell<(usize, usize)>>, AllocError> {
    let mut places = Vec::with_capacity(alloc, COUNT)?;
    for station in 0..COUNT {
        places.push(Cell::new((station, station)))?;
    }
    Ok(places)
}
