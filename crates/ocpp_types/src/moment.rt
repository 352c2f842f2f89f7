//! Moments: whole seconds since 1970.
ghost use Rattle.std.specs.Prelude.{◌≡◌, ◌≤◌};
ghost use Rattle.ocpp_types.specs.Moment.{last_moment, moment_of};

use std::marker::Model;

/// A whole second from 1970-01-01T00:00:00Z to 9999-12-31T23:59:59Z, without leap seconds.
/// A contract sees it as its number of seconds since 1970.
#[derive(Clone, Copy, Debug, PartialEq, Eq, PartialOrd, Ord, Hash)]
pub struct Moment {
    seconds: u64,
}

impl Model for Moment {
    ghost use Rattle.std.specs.Prelude.{ℕ, ◌≤◌};

    ghost Value = { ℕ };

    ghost use Rattle.ocpp_types.specs.Moment.{last_moment};

    ghost view = { λ m. m.seconds };

    ghost inverse = { λ n. record { seconds = n } };

    ghost invariant = { λ m. m.seconds ≤ last_moment };
}

impl Moment {
    /// The seconds since 1970 of the last moment, 9999-12-31T23:59:59Z.
    pub const LAST_SECOND: u64 = 253402300799;

    /// The moment that many seconds after 1970-01-01T00:00:00Z, `None` past the year 9999.
    pub fn new(seconds: u64) -> Option<Moment>
        ensures { result ≡ moment_of seconds }
    {
        if seconds <= Moment::LAST_SECOND {
            Some(Moment { seconds })
        } else {
            None
        }
    }

    /// Its number of seconds since 1970.
    pub fn seconds(self) -> u64
        ensures value { result ≡ self }
        ensures within { result ≤ last_moment }
    {
        self.seconds
    }
}
