//! States of a station.

use crate::named::Named;

/// The state of a station: Fresh until its first BootNotification, then what that was answered
/// with (OCPP 1.6, section 4.2).
#[derive(Clone, Copy, Debug, PartialEq, Eq, PartialOrd, Ord, Hash)]
pub enum State {
    /// It has not booted since it was added.
    Fresh,
    /// Its last boot was answered Accepted.
    Accepted,
    /// Its last boot was answered Pending.
    Pending,
    /// Its last boot was answered Rejected.
    Rejected,
}

impl Named for State {
    ghost use Rattle.ocpp_types.specs.State.{state_name, states};

    ghost name_of = { state_name };

    ghost names = { states };

    fn table() -> &'static [(&'static str, Self)] {
        crate::table! { Fresh, Accepted, Pending, Rejected }
    }

    fn index(&self) -> usize {
        *self as usize
    }
}
