//! The error of calls that fail only where memory is refused.

use std::alloc::{AllocError, AllocFailed};
use thiserror::Error;

/// The allocator refused memory. The call that answers this has changed nothing.
#[derive(Clone, Copy, Debug, PartialEq, Eq, Drop, Error)]
#[error("out of memory")]
pub struct NoMemory;

/// The result of a call that fails only where memory is refused.
pub type Mem<T> = Result<T, NoMemory>;

impl From<AllocError> for NoMemory {
    fn from(_refused: AllocError) -> NoMemory {
        NoMemory
    }
}

impl<T: Drop> From<AllocFailed<T>> for NoMemory {
    fn from(_refused: AllocFailed<T>) -> NoMemory {
        NoMemory
    }
}
