//! Why a replay ends before its input.
ghost use Rattle.std.specs.Prelude.{◌≡◌};
ghost use Rattle.replay.specs.Faults.{line_fault_of, replay_fault_of};
ghost use Rattle.replay.specs.declared.fault.LineFault.TheVariants as line_fault;
ghost use Rattle.replay.specs.declared.fault.ReplayFault.TheVariants as replay_fault;

use hub::Fault;
use ocpp_types::NoMemory;
use std::alloc::AllocError;
use thiserror::Error;

/// Why a replay ended before its input. What was written is a prefix of what the whole input is
/// answered.
#[derive(Clone, Copy, Debug, PartialEq, Eq, Drop, Error)]
pub enum ReplayFault {
    #[error("NoMemory")]
    NoMemory,
    /// The store failed.
    #[error("Store")]
    Store,
    /// A line asks for more rows than the store may give at once.
    #[error("LongListing")]
    LongListing,
    /// These operators can't be hosted.
    #[error("BadOperators")]
    BadOperators,
    /// The reader answered an error.
    #[error("Read")]
    Read,
    /// The writer answered an error, or took no byte.
    #[error("Write")]
    Write,
    /// The input didn't end within the bound.
    #[error("TooLong")]
    TooLong,
}

/// Why a line wasn't answered, or its answer not written.
#[derive(Debug, Drop, Error)]
pub enum LineFault {
    #[error("NoMemory")]
    NoMemory,
    #[error("Store")]
    Store,
    /// It asks for more rows than the store may give at once.
    #[error("LongListing")]
    LongListing,
    #[error("Write")]
    Write,
}

impl From<NoMemory> for LineFault {
    ghost from_gives = { λ _ f. f ≡ line_fault.NoMemory };

    fn from(_refused: NoMemory) -> LineFault {
        LineFault::NoMemory
    }
}

impl From<AllocError> for LineFault {
    ghost from_gives = { λ _ f. f ≡ line_fault.NoMemory };

    fn from(_refused: AllocError) -> LineFault {
        LineFault::NoMemory
    }
}

impl From<Fault> for LineFault {
    ghost from_gives = { λ fault f. f ≡ line_fault_of fault };

    fn from(fault: Fault) -> LineFault {
        match fault {
            Fault::NoMemory => LineFault::NoMemory,
            Fault::TooLong => LineFault::LongListing,
            // An event that was read from a line is of a hosted operator.
            Fault::Store | Fault::NoSuchOperator => LineFault::Store,
        }
    }
}

impl From<LineFault> for ReplayFault {
    ghost from_gives = { λ fault f. f ≡ replay_fault_of fault };

    fn from(fault: LineFault) -> ReplayFault {
        match fault {
            LineFault::NoMemory => ReplayFault::NoMemory,
            LineFault::Store => ReplayFault::Store,
            LineFault::LongListing => ReplayFault::LongListing,
            LineFault::Write => ReplayFault::Write,
        }
    }
}

impl From<AllocError> for ReplayFault {
    ghost from_gives = { λ _ f. f ≡ replay_fault.NoMemory };

    fn from(_refused: AllocError) -> ReplayFault {
        ReplayFault::NoMemory
    }
}
