//! Streams whose next bytes can be read without being taken.
ghost use Rattle.std.specs.Io.{ReadsAtMost};
ghost use Rattle.ready_streams.specs.Peeks.{PeekShows};

use std::io;
use std::io::Read;
use std::net::TcpStream;

/// A stream whose next bytes can be copied, and are left for the next read.
pub trait Peek: Read {
    /// Copies the next bytes into `buf`, and says how many; 0 is the end of the stream. The stream doesn't
    /// wait: where no byte is there the error is `WouldBlock`. One that tells the bytes that reads will give, as one in
    /// memory, gives the first of these, without an error.
    fn peek(&self, buf: &mut [u8]) -> io::Result<usize>
        ensures at_most { ReadsAtMost result buf.new }
        ensures gives { PeekShows (Self.remaining self.now) result buf.new };
}

impl Peek for TcpStream {
    fn peek(&self, buf: &mut [u8]) -> io::Result<usize> {
        TcpStream::peek(self, buf)
    }
}
