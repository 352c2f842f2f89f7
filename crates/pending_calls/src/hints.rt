//! Where slots were found last.

use std::alloc::{AllocError, Global};
use std::cell::Cell;

/// The fewest indexes that are kept, once any are.
const FEWEST: usize = 256;

/// The most indexes that are kept.
const MOST: usize = 65_536;

/// The indexes at which slots were found last, by numbers that are made of their operators and stations. Each may be
/// wrong, as new slots come before others and two stations may have one number: a search begins there, and looks whether
/// the slot is there.
#[derive(Drop)]
pub struct Hints {
    /// As many as a power of two.
    places: Vec<Cell<usize>>,
}

impl Hints {
    /// Nothing is known. It takes no memory.
    pub fn new(alloc: Global) -> Hints {
        Hints {
            places: Vec::new(alloc),
        }
    }

    /// The index at which the slot of that number was found last, or another.
    pub fn place(&self, digest: u64) -> usize {
        match self.cell(digest) {
            Some(cell) => cell.get(),
            None => 0,
        }
    }

    /// The slot of that number was found at an index.
    pub fn keep(&self, digest: u64, place: usize) {
        if let Some(cell) = self.cell(digest) {
            cell.set(place);
        }
    }

    fn cell(&self, digest: u64) -> Option<&Cell<usize>> {
        let mask = self.places.len().checked_sub(1)?;
        self.places.get(digest as usize & mask)
    }

    /// Makes room for eight times as many indexes as there are slots, where there is memory for it, so that few stations
    /// have the place of another.
    pub fn make_room(&mut self, alloc: Global, slots: usize) {
        let wanted = slots.saturating_mul(8).clamp(FEWEST, MOST);
        if self.places.len() < wanted {
            if let Ok(places) = blank(alloc, wanted.next_power_of_two()) {
                self.places = places;
            }
        }
    }
}

/// So many indexes of which nothing is known.
fn blank(alloc: Global, count: usize) -> Result<Vec<Cell<usize>>, AllocError> {
    let mut places = Vec::with_capacity(alloc, count)?;
    for _ in 0..count {
        places.push(Cell::new(0))?;
    }
    Ok(places)
}
