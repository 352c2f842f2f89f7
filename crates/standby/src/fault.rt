//! Why a journal isn't followed any further.

use hub::Fault;
use ocpp_types::NoMemory;
use std::alloc::AllocError;
use std::io;
use std::io::ErrorKind;
use thiserror::Error;
use turn_hub::TurnFault;

/// Why a journal isn't followed any further. The records are those after the events that were followed up to there, each
/// whole.
#[derive(Clone, Copy, Debug, PartialEq, Eq, Drop, Error)]
pub enum FollowFault {
    #[error("NoMemory")]
    NoMemory,
    /// The store failed.
    #[error("Store")]
    Store,
    /// Lines are missing, or were there twice.
    #[error("Gap")]
    Gap,
    /// Another number of changes is on record than the journal says.
    #[error("Changes")]
    Changes,
    /// The reader answered an error.
    #[error("Read")]
    Read,
    /// The journal has more lines than are counted.
    #[error("TooLong")]
    TooLong,
}

impl From<NoMemory> for FollowFault {
    fn from(_refused: NoMemory) -> FollowFault {
        FollowFault::NoMemory
    }
}

impl From<AllocError> for FollowFault {
    fn from(_refused: AllocError) -> FollowFault {
        FollowFault::NoMemory
    }
}

impl From<io::Error> for FollowFault {
    fn from(error: io::Error) -> FollowFault {
        match error.kind() {
            ErrorKind::OutOfMemory => FollowFault::NoMemory,
            _ => FollowFault::Read,
        }
    }
}

impl From<Fault> for FollowFault {
    fn from(fault: Fault) -> FollowFault {
        match fault {
            Fault::NoMemory => FollowFault::NoMemory,
            // a listing that is too long for this store was none for the other, and a line is of a hosted operator
            Fault::Store | Fault::TooLong | Fault::NoSuchOperator => FollowFault::Store,
        }
    }
}

impl From<TurnFault> for FollowFault {
    fn from(fault: TurnFault) -> FollowFault {
        match fault {
            TurnFault::Hub(fault) => FollowFault::from(fault),
            // a hub that follows has no journal
            TurnFault::Journal => FollowFault::Store,
        }
    }
}
