//! Why an event isn't taken.
ghost use Rattle.std.specs.Prelude.{◌≡◌};
ghost use Rattle.hub_events.specs.Fault.{fault_of};
ghost use Rattle.hub_events.specs.declared.fault.Fault.TheVariants as fault;

use hub_rows::StoreFault;
use ocpp_types::NoMemory;
use std::alloc::{AllocError, AllocFailed};
use thiserror::Error;

/// Why an event isn't taken. Neither records nor connections have changed.
#[derive(Clone, Copy, Debug, PartialEq, Eq, Drop, Error)]
pub enum Fault {
    /// An allocation was refused.
    #[error("NoMemory")]
    NoMemory,
    /// The store failed.
    #[error("Store")]
    Store,
    /// More rows were asked for than the store may give at once.
    #[error("TooLong")]
    TooLong,
    /// The event's operator isn't hosted.
    #[error("NoSuchOperator")]
    NoSuchOperator,
}

impl From<StoreFault> for Fault {
    ghost from_gives = { λ refused f. f ≡ fault_of refused };

    fn from(refused: StoreFault) -> Fault {
        match refused {
            StoreFault::NoMemory => Fault::NoMemory,
            StoreFault::Failed => Fault::Store,
            StoreFault::TooLong => Fault::TooLong,
        }
    }
}

impl From<NoMemory> for Fault {
    ghost from_gives = { λ _ f. f ≡ fault.NoMemory };

    fn from(_refused: NoMemory) -> Fault {
        Fault::NoMemory
    }
}

impl From<AllocError> for Fault {
    ghost from_gives = { λ _ f. f ≡ fault.NoMemory };

    fn from(_refused: AllocError) -> Fault {
        Fault::NoMemory
    }
}

impl<T: Drop> From<AllocFailed<T>> for Fault {
    ghost from_gives = { λ _ f. f ≡ fault.NoMemory };

    fn from(_refused: AllocFailed<T>) -> Fault {
        Fault::NoMemory
    }
}
