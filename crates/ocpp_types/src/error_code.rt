//! The codes of errors that answer calls.

use crate::named::Named;

/// Why a call is answered with an error (OCPP-J 1.6, section 4.2.3, which spells Occurence so).
#[derive(Clone, Copy, Debug, PartialEq, Eq, PartialOrd, Ord, Hash)]
pub enum ErrorCode {
    /// The action is unknown.
    NotImplemented,
    /// The action is known and not supported.
    NotSupported,
    /// The call could not be answered as the standard has it.
    InternalError,
    /// The payload is incomplete.
    ProtocolError,
    /// The call is not allowed in the state of its sender.
    SecurityError,
    /// The call is not formed as one.
    FormationViolation,
    /// A member is past its length, its range or its enumeration.
    PropertyConstraintViolation,
    /// A member that is required is missing.
    OccurenceConstraintViolation,
    /// A member has another JSON type, or is no readable time.
    TypeConstraintViolation,
    /// Any other error.
    GenericError,
}

impl Named for ErrorCode {
    ghost use Rattle.ocpp_types.specs.ErrorCode.{error_code_name, error_codes};

    ghost name_of = { error_code_name };

    ghost names = { error_codes };

    fn table() -> &'static [(&'static str, Self)] {
        crate::table! {
            NotImplemented, NotSupported, InternalError, ProtocolError, SecurityError,
            FormationViolation, PropertyConstraintViolation, OccurenceConstraintViolation,
            TypeConstraintViolation, GenericError
        }
    }

    fn index(&self) -> usize {
        *self as usize
    }
}
