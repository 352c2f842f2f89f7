//! What the streams of a listener share.

use crate::round::Round;
use std::alloc::{AllocError, Global};
use std::cell::{Cell, RefCell};

/// The bytes that the streams may read in a turn, all together, by their second and later reads of that turn.
const FURTHER_BYTES: usize = 65_536;

/// The turn in which streams are read and written.
#[derive(Drop)]
pub struct Turn {
    pub alloc: Global,
    /// Which second it is.
    second: Cell<u64>,
    /// Which turn it is, from 1.
    number: Cell<u64>,
    /// The bytes that further reads may still take.
    further: Cell<usize>,
    /// The streams that send a long message take turns.
    long: Cell<Round>,
    /// What is written waits for the end of the turn, however much it is.
    holds: Cell<bool>,
    /// The places of the streams that were read or written. It has room for all.
    used: RefCell<Vec<usize>>,
}

impl Turn {
    pub fn new(alloc: Global) -> Turn {
        Turn {
            alloc,
            second: Cell::new(0),
            number: Cell::new(1),
            further: Cell::new(FURTHER_BYTES),
            long: Cell::new(Round::new()),
            holds: Cell::new(false),
            used: RefCell::new(Vec::new(alloc)),
        }
    }

    /// The next turn.
    pub fn begin(&self) {
        self.number.set(self.number.get().wrapping_add(1));
        self.further.set(FURTHER_BYTES);
        let mut long = self.long.get();
        long.begin();
        self.long.set(long);
    }

    /// Whether the stream with that token, which sends a long message, is read in this turn. One such stream is, and
    /// they take turns: so messages that all become whole at once are handled one a turn. A stream that isn't read in
    /// each turn, as that of one of several operators, would miss its turn: it is late at its next read, and one that is
    /// late is read beside the other. `refused_in` is the turn in which it was refused last, if it wasn't read since.
    pub fn admits_long(&self, token: usize, refused_in: Option<u64>) -> bool {
        let is_late = match refused_in {
            Some(turn) => turn != self.number() && turn.wrapping_add(1) != self.number(),
            None => false,
        };
        let mut long = self.long.get();
        let is_admitted = long.ask(token, is_late);
        self.long.set(long);
        is_admitted
    }

    /// From now on what is written waits for the end of the turn, however much it is.
    pub fn hold(&self) {
        self.holds.set(true);
    }

    pub fn holds(&self) -> bool {
        self.holds.get()
    }

    pub fn set_second(&self, second: u64) {
        self.second.set(second);
    }

    pub fn second(&self) -> u64 {
        self.second.get()
    }

    pub fn number(&self) -> u64 {
        self.number.get()
    }

    /// The bytes that further reads may still take in this turn.
    pub fn left(&self) -> usize {
        self.further.get()
    }

    /// A further read took so many bytes.
    pub fn spend(&self, bytes: usize) {
        self.further.set(self.further.get().saturating_sub(bytes));
    }

    /// Makes room for so many places.
    pub fn reserve(&self, places: usize) -> Result<(), AllocError> {
        match self.used.try_borrow_mut() {
            Ok(mut used) => {
                let more = places.saturating_sub(used.len());
                used.reserve(more)
            }
            Err(_) => Err(AllocError),
        }
    }

    /// The stream at that place was used.
    pub fn note(&self, place: usize) {
        if let Ok(mut used) = self.used.try_borrow_mut() {
            let _noted = used.push(place);
        }
    }

    /// How many places were noted.
    pub fn count_used(&self) -> usize {
        match self.used.try_borrow() {
            Ok(used) => used.len(),
            Err(_) => 0,
        }
    }

    /// One of the places that were noted.
    pub fn used_at(&self, index: usize) -> Option<usize> {
        match self.used.try_borrow() {
            Ok(used) => used.get(index).copied(),
            Err(_) => None,
        }
    }

    /// One of the places that were noted, which is then no longer kept.
    pub fn take_used(&self) -> Option<usize> {
        match self.used.try_borrow_mut() {
            Ok(mut used) => used.pop(),
            Err(_) => None,
        }
    }
}
