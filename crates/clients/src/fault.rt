//! Why a client stops.

use ocpp_types::NoMemory;
use std::alloc::{AllocError, AllocFailed};
use std::fmt::{Display, Formatter, Write};
use std::net::{Ipv4Addr, SocketAddr};
use std::{fmt, io};
use thiserror::Error;

/// What became of a connection.
#[derive(Debug, Drop)]
pub enum Lost {
    /// The system says so.
    Failed(io::Error),
    /// The path can't be asked for.
    NoPath,
    /// The path is no station's.
    NoStation,
    /// The handshake was answered with that status.
    Answered(u16),
    /// The handshake ended before it was done.
    NoHandshake,
    /// The connection has ended.
    Ended,
    /// No answer came in time.
    Silent,
}

impl Display for Lost {
    fn fmt<W: Write>(&self, f: &mut Formatter<W>) -> fmt::Result {
        match self {
            Lost::Failed(error) => write!(f, "{error}"),
            Lost::NoPath => write!(f, "the path can't be asked for"),
            Lost::NoStation => {
                write!(f, "the path is no station's, as /ocpp/OPERATOR/STATION is")
            }
            Lost::Answered(404) => write!(
                f,
                "the handshake was answered 404: no such operator or station is known there"
            ),
            Lost::Answered(status) => write!(f, "the handshake was answered {status}"),
            Lost::NoHandshake => write!(f, "the handshake was not done"),
            Lost::Ended => write!(f, "the connection has ended"),
            Lost::Silent => write!(f, "no answer in time"),
        }
    }
}

/// Why a client stops.
#[derive(Debug, Drop, Error)]
pub enum ClientFault {
    /// An allocation was refused.
    #[error("NoMemory")]
    NoMemory,
    /// The connection to that address isn't made or fails.
    #[error("Stream")]
    Stream(SocketAddr, Lost),
    /// Standard input or output fails.
    #[error("Stream")]
    Console(io::Error),
    /// The files of an export can't be opened or written.
    #[error("Export")]
    Export(io::Error),
    /// The script of a station is out of its bounds.
    #[error("Script")]
    Script,
    /// The clock gives no moment.
    #[error("Clock")]
    Clock,
}

impl ClientFault {
    /// A path that is asked for at that port is no station's.
    pub(crate) fn no_station(port: u16) -> ClientFault {
        let address = SocketAddr::from((Ipv4Addr::LOCALHOST, port));
        ClientFault::Stream(address, Lost::NoStation)
    }

    /// A call on a socket of that address failed so.
    pub(crate) fn at(address: SocketAddr, error: io::Error) -> ClientFault {
        match error.kind() {
            io::ErrorKind::OutOfMemory => ClientFault::NoMemory,
            _ => ClientFault::Stream(address, Lost::Failed(error)),
        }
    }

    /// Writes the line that follows the name of a fault: which address or stream it is about. Some have none.
    pub fn write_detail(&self, rt: &HostRuntime) -> io::Result<()> {
        match self {
            ClientFault::Stream(address, lost) => eprintln!(rt; "{address}: {lost}"),
            ClientFault::Console(error) => eprintln!(rt; "standard input or output: {error}"),
            ClientFault::Export(error) => eprintln!(rt; "--export: {error}"),
            ClientFault::NoMemory | ClientFault::Script | ClientFault::Clock => Ok(()),
        }
    }
}

impl From<NoMemory> for ClientFault {
    fn from(_fault: NoMemory) -> ClientFault {
        ClientFault::NoMemory
    }
}

impl From<AllocError> for ClientFault {
    fn from(_fault: AllocError) -> ClientFault {
        ClientFault::NoMemory
    }
}

impl<T: Drop> From<AllocFailed<T>> for ClientFault {
    fn from(_fault: AllocFailed<T>) -> ClientFault {
        ClientFault::NoMemory
    }
}

impl From<io::Error> for ClientFault {
    fn from(fault: io::Error) -> ClientFault {
        match fault.kind() {
            io::ErrorKind::OutOfMemory => ClientFault::NoMemory,
            _ => ClientFault::Console(fault),
        }
    }
}
