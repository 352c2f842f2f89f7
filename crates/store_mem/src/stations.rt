//! Stations in the order of their operators and names.
ghost use Rattle.std.specs.Prelude.{◌≡◌};
ghost use Rattle.std.specs.List.Sorted.{IsStrictlySortedBy};
ghost use Rattle.std.specs.Str.{bytes_eq};
ghost use Rattle.hub_rows.specs.Keyed.{by_key, changed};
ghost use Rattle.hub_rows.specs.Rows.{station_key, registration_in};
ghost use Rattle.store_mem.specs.Stations.{station_after};

use hub_rows::{Boot, Registration, StationRow, place_near, place_of_name, row_near};
use ocpp_types::{Policy, State, Text};

/// No index: nothing is known of where a station is.
pub const ANYWHERE: usize = usize::MAX;

/// The index of a station, which may be `near`, or else that to which it would go.
pub fn place_of_station(stations: &[StationRow], near: usize, op: &str, station: &str) -> usize
    requires { IsStrictlySortedBy (by_key station_key) stations.now }
{
    match place_near(stations, near, op, station) {
        Ok(place) | Err(place) => place,
    }
}

/// How a station is registered, whose row may be at the index `near`.
pub fn registration_of(
    stations: &[StationRow],
    near: usize,
    op: &str,
    station: &str,
) -> Option<Registration>
    requires { IsStrictlySortedBy (by_key station_key) stations.now }
    ensures { result ≡ registration_in op.now station.now stations.now }
{
    row_near(stations, near, op, station).map(|row| row.registration())
}

/// What changes of a station that is there.
#[derive(Drop)]
pub enum StationChange {
    Booted { boot: Boot, state: State },
    PolicySet { policy: Policy, interval: u32 },
}

/// Changes a station, if it is there.
pub fn change_station(
    stations: &mut Vec<StationRow>,
    op: &Text,
    station: &Text,
    change: StationChange,
)
    requires { IsStrictlySortedBy (by_key station_key) stations.old.items }
    ensures { stations.new.items ≡ changed (λ r. r.op) op.now (λ r. bytes_eq r.station station.now)
        (station_after change) stations.old.items }
{
    if let Ok(place) = place_of_name(stations.as_slice(), op.as_str(), station.as_str()) {
        change_row(&mut stations[place], change);
    }
}

fn change_row(row: &mut StationRow, change: StationChange)
    ensures { row.new ≡ station_after change row.old }
{
    match change {
        StationChange::Booted { boot, state } => {
            row.state = state;
            row.boot = Some(boot);
        }
        StationChange::PolicySet { policy, interval } => {
            row.policy = policy;
            row.interval = interval;
        }
    }
}
