//! Why connections end.
ghost use Rattle.std.specs.Prelude.{◌≡◌};
ghost use Rattle.ws_peers.specs.Causes.{cause_of_send};

use std::io::ErrorKind;
use tungstenite::{CloseCode, Error};

/// Why a connection has ended.
#[derive(Clone, Copy, Debug, PartialEq, Eq, Drop)]
pub enum Cause {
    /// The peer has closed it.
    Closed,
    /// The stream has ended or failed, without a Close.
    Lost,
    /// A message of the peer broke a rule, and the connection was closed with that code.
    Breach(CloseCode),
    /// The stream took no more bytes: the peer doesn't read.
    Full,
    /// There was no memory for a text.
    NoMemory,
    /// The event of a text ended in a fault.
    Fault,
    /// The peer has sent nothing for too long, not even the answer to a ping.
    Silent,
    /// The server stops.
    Stopped,
}

impl Cause {
    /// Why a send that failed with that error ends a connection.
    pub(crate) fn of_send(error: &Error) -> Cause
        ensures { result ≡ cause_of_send error.now }
    {
        match error {
            Error::Io(fault) => match fault.kind() {
                ErrorKind::WriteZero => Cause::Full,
                _ => Cause::Lost,
            },
            Error::WriteBufferFull => Cause::Full,
            Error::OutOfMemory => Cause::NoMemory,
            _ => Cause::Lost,
        }
    }
}
