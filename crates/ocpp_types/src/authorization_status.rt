//! How a central system judges an id tag.

use crate::named::Named;

/// The judgement of an id tag (OCPP 1.6, type AuthorizationStatus).
#[derive(Clone, Copy, Debug, PartialEq, Eq)]
pub enum AuthorizationStatus {
    /// The tag may charge.
    Accepted,
    /// The tag, or its parent, is blocked.
    Blocked,
    /// The tag is past its expiry.
    Expired,
    /// The tag is unknown.
    Invalid,
    /// The tag is in use by another transaction.
    ConcurrentTx,
}

impl Named for AuthorizationStatus {
    ghost use Rattle.ocpp_types.specs.AuthorizationStatus.{authorization_status_name, authorization_statuses};

    ghost name_of = { authorization_status_name };

    ghost names = { authorization_statuses };

    fn table() -> &'static [(&'static str, Self)] {
        crate::table! { Accepted, Blocked, Expired, Invalid, ConcurrentTx }
    }

    fn index(&self) -> usize {
        *self as usize
    }
}
