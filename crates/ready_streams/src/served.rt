//! What a server tells its streams.

use std::net::TcpStream;

/// A stream that its server tells where it is, and how much may wait in it.
pub trait Served {
    /// The peer that it belongs to is at that place from now on.
    fn set_place(&self, place: usize);

    /// So many bytes may wait in it until the system takes them.
    fn set_room(&self, bytes: usize);
}

impl Served for TcpStream {
    /// It needs no place.
    fn set_place(&self, _place: usize) {}

    /// No byte waits in it.
    fn set_room(&self, _bytes: usize) {}
}
