//! Why a run stops.

use crate::hosted::BadOperators;
use crate::journal_fault::{JournalFileFault, JournalProblem};
use ocpp_types::{NoMemory, Text};
use replay::ReplayFault;
use standby::FollowFault;
use std::alloc::{AllocError, AllocFailed};
use std::io;
use std::net::SocketAddr;
use thiserror::Error;

/// Why a run stops.
#[derive(Debug, Drop, Error)]
pub enum RunFault {
    /// The database failed while it was served, and is shut.
    #[error("Store: the database failed")]
    Store,
    /// The journal at a path can't be kept, or can't be followed.
    #[error("Journal: {0}")]
    Journal(JournalProblem, Text),
    /// A journal can't be followed any further.
    #[error("Follow: {0}")]
    Follow(FollowFault),
    /// A journal is that of a server with other operators.
    #[error("Follow: Operators")]
    OtherOperators(Text),
    /// A replay ended before its input.
    #[error("{0}")]
    Replay(ReplayFault),
    /// An allocation was refused.
    #[error("NoMemory")]
    NoMemory,
    /// The operators can't be hosted.
    #[error("BadOperators")]
    BadOperators(BadOperators),
    /// The socket that listens at that address isn't opened or fails.
    #[error("Stream")]
    Listener(SocketAddr, io::Error),
    /// Standard input or output fails.
    #[error("Stream")]
    Console(io::Error),
    /// The clock gives no moment.
    #[error("Clock")]
    Clock,
}

impl RunFault {
    /// A call on the socket that listens at that address failed so.
    pub fn at(address: SocketAddr, error: io::Error) -> RunFault {
        match error.kind() {
            io::ErrorKind::OutOfMemory => RunFault::NoMemory,
            _ => RunFault::Listener(address, error),
        }
    }

    /// Writes the line that follows the name of a fault: whose name or which address it is about. Most have none.
    pub fn write_detail(&self, rt: &HostRuntime) -> io::Result<()> {
        match self {
            RunFault::BadOperators(why) => eprintln!(rt; "{why}"),
            RunFault::Listener(address, error) => eprintln!(rt; "{address}: {error}"),
            RunFault::Console(error) => eprintln!(rt; "standard input or output: {error}"),
            RunFault::Journal(_, file) => eprintln!(rt; "{file}"),
            RunFault::OtherOperators(names) => {
                let names = names.as_str().escape_debug();
                eprintln!(rt; "the journal is of {names}")
            }
            RunFault::Store
            | RunFault::Follow(_)
            | RunFault::Replay(_)
            | RunFault::NoMemory
            | RunFault::Clock => Ok(()),
        }
    }
}

impl From<JournalFileFault> for RunFault {
    fn from(fault: JournalFileFault) -> RunFault {
        match fault {
            JournalFileFault::NoMemory => RunFault::NoMemory,
            JournalFileFault::Problem(why, path) => RunFault::Journal(why, path),
        }
    }
}

impl From<FollowFault> for RunFault {
    fn from(fault: FollowFault) -> RunFault {
        match fault {
            FollowFault::NoMemory => RunFault::NoMemory,
            other => RunFault::Follow(other),
        }
    }
}

impl From<ReplayFault> for RunFault {
    fn from(fault: ReplayFault) -> RunFault {
        RunFault::Replay(fault)
    }
}

impl From<NoMemory> for RunFault {
    fn from(_fault: NoMemory) -> RunFault {
        RunFault::NoMemory
    }
}

impl From<AllocError> for RunFault {
    fn from(_fault: AllocError) -> RunFault {
        RunFault::NoMemory
    }
}

impl<T: Drop> From<AllocFailed<T>> for RunFault {
    fn from(_fault: AllocFailed<T>) -> RunFault {
        RunFault::NoMemory
    }
}

impl From<io::Error> for RunFault {
    fn from(fault: io::Error) -> RunFault {
        match fault.kind() {
            io::ErrorKind::OutOfMemory => RunFault::NoMemory,
            _ => RunFault::Console(fault),
        }
    }
}
