//! One connection.
ghost use Rattle.std.specs.Io.{ReadsAtMost, WritesAtMost};

use crate::readiness::{Readiness, Right};
use crate::silence::{Due, Silence};
use crate::turn::Turn;
use crate::unsent::Unsent;
use mio::net::TcpStream;
use std::cell::{Cell, RefCell};
use std::io;
use std::io::{Error, ErrorKind, Read};

/// The bytes that may wait in a stream, if its server says nothing else.
const ROOM: usize = 2_097_152;

/// A message of at most so many bytes is short. A peer that has sent more since it was last written to sends a long one.
const MAX_SHORT_MESSAGE: usize = 8192;

/// What stands for a place that is none.
pub const NOWHERE: usize = usize::MAX;

/// A connection: its stream, and what waits in it. Its reader and the streams of the listener share it.
#[derive(Drop)]
pub struct Link {
    stream: TcpStream,
    /// Its place among the streams of the listener.
    token: usize,
    pub readiness: Readiness,
    unsent: RefCell<Unsent>,
    /// The bytes that may wait.
    room: Cell<usize>,
    /// The bytes that were read since it was last written to.
    unanswered: Cell<usize>,
    /// The turn in which it wasn't read as others send long messages too, if it was neither read nor written to since.
    refused_in: Cell<Option<u64>>,
    silence: Silence,
    /// The place of its peer, or `NOWHERE`.
    pub place: Cell<usize>,
    /// It is on the list of those that may be read.
    pub is_listed: Cell<bool>,
    /// It is noted as used in this turn.
    pub is_noted: Cell<bool>,
    /// The system has taken some bytes, and all that were written before this turn.
    is_even: Cell<bool>,
}

impl Link {
    pub fn new(turn: &Turn, stream: TcpStream, token: usize) -> Link {
        Link {
            stream,
            token,
            readiness: Readiness::new(),
            unsent: RefCell::new(Unsent::new(turn.alloc)),
            room: Cell::new(ROOM),
            unanswered: Cell::new(0),
            refused_in: Cell::new(None),
            silence: Silence::new(turn.second()),
            place: Cell::new(NOWHERE),
            is_listed: Cell::new(true),
            is_noted: Cell::new(false),
            is_even: Cell::new(false),
        }
    }

    pub fn set_room(&self, bytes: usize) {
        self.room.set(bytes);
    }

    fn note(&self, turn: &Turn) {
        if !self.is_noted.replace(true) {
            turn.note(self.token);
        }
    }

    /// Reads, where the system has reported bytes and the turn allows it.
    pub fn read(&self, turn: &Turn, buf: &mut [u8]) -> io::Result<usize>
        ensures at_most { ReadsAtMost result buf.new }
    {
        self.note(turn);
        let Some(right) = self.right(turn) else {
            return Err(Error::from(ErrorKind::WouldBlock));
        };
        let room = match right {
            Right::First => buf.len(),
            Right::Further => buf.len().min(turn.left()),
        };
        let got = (&self.stream).read(&mut buf[..room]);
        self.readiness.learn(&got, room);
        if let Ok(len) = &got {
            self.hear(turn, *len);
            self.unanswered
                .set(self.unanswered.get().saturating_add(*len));
            if right == Right::Further {
                turn.spend(*len);
            }
        }
        got
    }

    /// So many bytes of the peer were read, or looked at.
    fn hear(&self, turn: &Turn, bytes: usize) {
        if bytes > 0 {
            self.silence.hear(turn.second());
        }
    }

    /// What is due to its peer in this second, if that is silent (`Streams::find_silent`).
    pub fn due(&self, turn: &Turn, ping_after: u64, answer_within: u64) -> Option<Due> {
        if self.place.get() == NOWHERE || self.readiness.has_bytes() {
            return None;
        }
        self.silence.due(turn.second(), ping_after, answer_within)
    }

    /// By which right the next read asks the system, if it does.
    fn right(&self, turn: &Turn) -> Option<Right> {
        let is_long = self.unanswered.get() > MAX_SHORT_MESSAGE && self.readiness.has_bytes();
        if is_long && !self.has_turn(turn) {
            return None;
        }
        self.readiness.asks(turn)
    }

    /// Whether it is read in this turn, though it sends a long message.
    fn has_turn(&self, turn: &Turn) -> bool {
        let is_admitted = turn.admits_long(self.token, self.refused_in.get());
        let refused_in = if is_admitted {
            None
        } else {
            Some(turn.number())
        };
        self.refused_in.set(refused_in);
        is_admitted
    }

    /// Copies the next bytes, where the system has reported since the last call.
    pub fn peek(&self, turn: &Turn, buf: &mut [u8]) -> io::Result<usize>
        ensures at_most { ReadsAtMost result buf.new }
    {
        if !self.readiness.is_unseen() {
            return Err(Error::from(ErrorKind::WouldBlock));
        }
        self.note(turn);
        let got = self.stream.peek(buf);
        if let Ok(len) = &got {
            self.hear(turn, *len);
        }
        got
    }

    /// Takes all of the bytes, or none.
    pub fn write(&self, turn: &Turn, buf: &[u8]) -> io::Result<usize>
        ensures at_most { WritesAtMost result buf.now }
    {
        self.note(turn);
        self.unanswered.set(0);
        self.refused_in.set(None);
        match self.unsent.try_borrow_mut() {
            Ok(mut unsent) => {
                unsent.add(&mut &self.stream, buf, self.room.get(), turn.holds())?;
                Ok(buf.len())
            }
            Err(_) => Err(Error::from(ErrorKind::WriteZero)),
        }
    }

    /// How many bytes wait in it.
    pub fn count_unsent(&self) -> usize {
        match self.unsent.try_borrow() {
            Ok(unsent) => unsent.len(),
            Err(_) => 0,
        }
    }

    /// Gives the system what it takes of the bytes that wait.
    pub fn give(&self) {
        if let Ok(mut unsent) = self.unsent.try_borrow_mut() {
            if unsent.len() > 0 {
                unsent.give(&mut &self.stream);
                self.is_even.set(unsent.len() == 0);
            }
        }
    }

    /// The system has room again.
    pub fn unblock(&self) {
        if let Ok(mut unsent) = self.unsent.try_borrow_mut() {
            unsent.unblock();
        }
        self.give();
    }

    /// Drops what was written in this turn, where the system is given nothing within a turn. A stream of which older bytes
    /// wait takes nothing any more, since its peer has a part of a message; neither does one to which none was given.
    pub fn drop_turn(&self) {
        if let Ok(mut unsent) = self.unsent.try_borrow_mut() {
            if self.is_even.get() {
                unsent.clear();
            } else {
                unsent.fail();
            }
        }
    }
}
