//! What a station is answered when it boots.

use crate::named::Named;

/// The registration status that an operator has chosen for a station: its next
/// BootNotification is answered so (OCPP 1.6, section 4.2, and its type RegistrationStatus).
#[derive(Clone, Copy, Debug, PartialEq, Eq, PartialOrd, Ord, Hash)]
pub enum Policy {
    /// The station is registered.
    Accepted,
    /// The station may not charge yet; the operator can send it commands.
    Pending,
    /// The station is not registered.
    Rejected,
}

impl Named for Policy {
    ghost use Rattle.ocpp_types.specs.Policy.{policy_name, policies};

    ghost name_of = { policy_name };

    ghost names = { policies };

    fn table() -> &'static [(&'static str, Self)] {
        crate::table! { Accepted, Pending, Rejected }
    }

    fn index(&self) -> usize {
        *self as usize
    }
}
