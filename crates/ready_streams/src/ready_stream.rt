//! One stream.

use crate::link::Link;
use crate::peek::Peek;
use crate::served::Served;
use crate::turn::Turn;
use std::io;
use std::io::{Read, Write};
use std::rc::Rc;

/// The stream of a connection. A read asks the system only where it has reported bytes, and a peek
/// only where it has reported since the last one. What is written waits in it, and is given to the system at the end
/// of the turn, or when much waits, unless the streams hold it (`Streams::hold`).
#[derive(Drop)]
pub struct ReadyStream {
    link: Rc<Link>,
    turn: Rc<Turn>,
}

impl ReadyStream {
    /// The stream of a link.
    pub fn new(link: Rc<Link>, turn: Rc<Turn>) -> ReadyStream {
        ReadyStream { link, turn }
    }
}

impl Read for ReadyStream {
    /// The first read of a stream in a turn takes what its buffer holds. All later ones of a turn, by all streams
    /// together, take 65,536 bytes at most. The others find nothing, so that a peer that sends without a pause holds no
    /// reader.
    /// Of the streams that have sent more than 8,192 bytes since they were last written to, one is read in a turn, each
    /// in its turn, and beside it one that missed its turn.
    fn read(&mut self, buf: &mut [u8]) -> io::Result<usize> {
        self.link.read(&self.turn, buf)
    }
}

impl Write for ReadyStream {
    /// Takes all of the bytes, or none. Where more would wait than there is room for the error is `WriteZero`, and
    /// not `WouldBlock`: the connection ends, so that texts that its peer doesn't read, and answers to its pings, are
    /// kept up to a bound.
    fn write(&mut self, buf: &[u8]) -> io::Result<usize> {
        self.link.write(&self.turn, buf)
    }

    /// Does nothing: the turn's end does it.
    fn flush(&mut self) -> io::Result<()> {
        Ok(())
    }
}

impl Peek for ReadyStream {
    fn peek(&self, buf: &mut [u8]) -> io::Result<usize> {
        self.link.peek(&self.turn, buf)
    }
}

impl Served for ReadyStream {
    fn set_place(&self, place: usize) {
        self.link.place.set(place);
    }

    fn set_room(&self, bytes: usize) {
        self.link.set_room(bytes);
    }
}
