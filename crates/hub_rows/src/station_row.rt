//! The record of a station.
ghost use Rattle.std.specs.Prelude.{◌≡◌};

use crate::named_row::NamedRow;
use crate::ordered::Keyed;
use ocpp_types::{BootNotification, Boxed, Moment, Policy, State, Text};
use std::cmp::Ordering;

/// A station of an operator. Its key is `op` and `station`.
#[derive(Clone, Drop)]
pub struct StationRow {
    /// The operator that hosts it.
    pub op: Text,
    /// Its identity, 1 to 48 characters from `!` to `~`.
    pub station: Text,
    /// What its next boot is answered.
    pub policy: Policy,
    /// The heartbeat interval in seconds, 0 to 86400.
    pub interval: u32,
    /// What its last boot was answered, Fresh before the first.
    pub state: State,
    /// Its last boot.
    pub boot: Option<Boot>,
}

/// What a station told of itself when it booted.
#[derive(Clone, Drop)]
pub struct Boot {
    pub texts: Boxed<BootNotification>,
    pub moment: Moment,
}

/// How a station is registered: the part of its record that rules ask for.
#[derive(Clone, Copy, Debug, PartialEq, Eq)]
pub struct Registration {
    pub policy: Policy,
    pub interval: u32,
    pub state: State,
}

impl StationRow {
    ghost use Rattle.hub_rows.specs.Rows.{registration_of};

    /// How it is registered.
    pub fn registration(&self) -> Registration
        ensures { result ≡ registration_of self.now }
    {
        Registration {
            policy: self.policy,
            interval: self.interval,
            state: self.state,
        }
    }
}

impl Keyed for StationRow {
    ghost use Rattle.hub_rows.specs.Rows.{station_key};

    ghost key = { station_key };

    fn compare(&self, other: &StationRow) -> Ordering {
        self.op
            .cmp(&other.op)
            .then(self.station.cmp(&other.station))
    }
}

impl NamedRow for StationRow {
    ghost op = { λ r. r.op };

    ghost name = { λ r. r.station };

    fn op(&self) -> &str {
        self.op.as_str()
    }

    fn name(&self) -> &str {
        self.station.as_str()
    }
}
