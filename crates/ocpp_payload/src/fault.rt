//! Why a payload isn't read.
ghost use Rattle.std.specs.Prelude.{◌≡◌, Err};

use ocpp_types::{ErrorCode, FieldName, NoMemory};
use std::alloc::{AllocError, AllocFailed};

/// The first faulty member of a payload: what is wrong with it, and its name
/// (docs/RULES.md, Field faults).
#[derive(Clone, Debug, PartialEq, Eq, Drop)]
pub struct FieldFault {
    pub code: ErrorCode,
    pub field: FieldName,
}

/// Why nothing was read.
#[derive(Drop)]
pub enum ReadError {
    /// The allocator refused memory.
    NoMemory,
    /// The payload is faulty.
    Fault(FieldFault),
}

/// The result of reading a part of a payload.
pub type ReadResult<T> = Result<T, ReadError>;

impl From<NoMemory> for ReadError {
    ghost use Rattle.ocpp_payload.specs.declared.fault.ReadError.TheVariants as read_error;

    ghost from_gives = { λ _ e. e ≡ read_error.NoMemory };

    fn from(_refused: NoMemory) -> ReadError {
        ReadError::NoMemory
    }
}

impl From<AllocError> for ReadError {
    ghost use Rattle.ocpp_payload.specs.declared.fault.ReadError.TheVariants as read_error;

    ghost from_gives = { λ _ e. e ≡ read_error.NoMemory };

    fn from(_refused: AllocError) -> ReadError {
        ReadError::NoMemory
    }
}

impl<T: Drop> From<AllocFailed<T>> for ReadError {
    ghost use Rattle.ocpp_payload.specs.declared.fault.ReadError.TheVariants as read_error;

    ghost from_gives = { λ _ e. e ≡ read_error.NoMemory };

    fn from(_refused: AllocFailed<T>) -> ReadError {
        ReadError::NoMemory
    }
}

/// The answer to a faulty member.
pub(crate) fn refused<T>(code: ErrorCode, field: &'static str) -> ReadResult<T>
    ensures { result ≡ Err (ReadError.Fault (record { code = code; field = field.now })) }
{
    Err(ReadError::Fault(FieldFault {
        code,
        field: FieldName::new(field),
    }))
}
