//! What is known of a stream.

use crate::turn::Turn;
use std::cell::Cell;
use std::io;

/// What a read may find.
#[derive(Clone, Copy, Debug, PartialEq, Eq, Drop)]
enum Expected {
    /// Bytes, or the end of the stream.
    Bytes,
    /// No byte: the last read took all that were there. The reader may hold some of them.
    Rest,
    /// No byte: the last read has found none, or has failed.
    Nothing,
}

/// What is known of a stream.
#[derive(Drop)]
pub struct Readiness {
    expected: Cell<Expected>,
    /// The peer sends no more, so reads go on up to the end of the stream.
    is_ending: Cell<bool>,
    /// The turn in which it was last read.
    read_in: Cell<u64>,
    /// There may be bytes that no peek has read: the stream is new, or the system has reported
    /// since the last one.
    is_unseen: Cell<bool>,
}

impl Readiness {
    /// That of a new stream.
    pub fn new() -> Readiness {
        Readiness {
            expected: Cell::new(Expected::Bytes),
            is_ending: Cell::new(false),
            read_in: Cell::new(0),
            is_unseen: Cell::new(true),
        }
    }

    /// The system reports bytes, or the end of what the peer sends.
    pub fn report(&self, is_ending: bool) {
        self.expected.set(Expected::Bytes);
        self.is_unseen.set(true);
        if is_ending {
            self.is_ending.set(true);
        }
    }

    /// Whether a read may find something.
    pub fn may_find(&self) -> bool {
        self.expected.get() != Expected::Nothing
    }

    /// Whether the next read may find bytes that the system has.
    pub fn has_bytes(&self) -> bool {
        self.expected.get() == Expected::Bytes
    }

    /// Whether a peek may find bytes that none has read. It does so once.
    pub fn is_unseen(&self) -> bool {
        self.is_unseen.replace(false)
    }

    /// Whether the next read asks the system, and by which right. One that doesn't finds nothing; the bytes stay for
    /// the next turn where all that further reads may take was taken.
    pub fn asks(&self, turn: &Turn) -> Option<Right> {
        if self.expected.get() != Expected::Bytes {
            self.expected.set(Expected::Nothing);
            return None;
        }
        if self.read_in.replace(turn.number()) != turn.number() {
            return Some(Right::First);
        }
        (turn.left() > 0).then_some(Right::Further)
    }

    /// Keeps what a read into that much room tells. One that leaves room has taken all bytes that were there,
    /// and the system reports those that come later (epoll(7), "Edge-triggered"). After the end of the stream or
    /// a failed read nothing is left.
    pub fn learn(&self, got: &io::Result<usize>, room: usize) {
        match got {
            Ok(0) | Err(_) => self.expected.set(Expected::Nothing),
            Ok(len) if *len < room => {
                if !self.is_ending.get() {
                    self.expected.set(Expected::Rest);
                }
            }
            Ok(_) => {}
        }
    }
}

/// By which right a read asks the system.
#[derive(Clone, Copy, Debug, PartialEq, Eq, Drop)]
pub enum Right {
    /// It is the stream's first in this turn.
    First,
    /// There are bytes left for further reads.
    Further,
}
