//! New stations (docs/RULES.md, Boots and policies).
ghost use Rattle.std.specs.Prelude.{◌≡◌, Err, ◌&&◌, nat_le, IfOk};
ghost use Rattle.hub_rows.specs.Reads.{OnlyReads};
ghost use Rattle.std.specs.List.{list_all};
ghost use Rattle.hub_rows.specs.Lookups.{lookups_at};
ghost use Rattle.registry.specs.StationAdded.{add_rule, is_station_name};

use hub_rows::{Edit, StationEdit, Store, StoreFault};
use ocpp_types::{FieldName, Policy, Refusal, Text};
use std::alloc::Global;

/// The greatest interval in seconds.
pub const MAX_INTERVAL: u32 = 86400;

/// The greatest number of characters of a station's name.
pub const MAX_STATION: usize = 48;

/// What an operator sets for a station.
#[derive(Clone, Copy, Drop)]
pub struct Terms {
    /// What the station's next boot is answered.
    pub policy: Policy,
    /// Its heartbeat interval in seconds.
    pub interval: u64,
}

/// The edit that adds a station, or the first refusal that applies: BadField `station` for a name
/// that isn't 1 to 48 characters from `!` to `~`, BadField `interval` past 86400 seconds, and
/// StationExists.
pub fn plan_add<S: Store>(
    alloc: Global,
    store: &mut S,
    op: &str,
    station: &str,
    terms: Terms,
) -> Result<Result<Edit, Refusal>, StoreFault>
    ensures reads { OnlyReads S.view store.old store.new result }
    ensures plan { (S.view store.new).clean → IfOk result (λ p. p
        ≡ add_rule station.now terms.policy terms.interval (lookups_at op.now (S.view store.old).rows)) }
{
    if !is_station_name(station) {
        return Ok(Err(Refusal::BadField(FieldName::new("station"))));
    }
    if terms.interval > MAX_INTERVAL as u64 {
        return Ok(Err(Refusal::BadField(FieldName::new("interval"))));
    }
    if store.station(op, station)?.is_some() {
        return Ok(Err(Refusal::StationExists));
    }
    Ok(Ok(Edit::Stations(StationEdit::StationAdded {
        station: Text::copy_of(alloc, station)?,
        policy: terms.policy,
        interval: terms.interval as u32,
    })))
}

/// Whether a text can be the name of a station.
fn is_station_name(text: &str) -> bool
    ensures { result ≡ is_station_name text.now }
{
    let bytes = text.as_bytes();
    if bytes.len() < 1 || MAX_STATION < bytes.len() {
        return false;
    }
    are_visible(bytes)
}

fn are_visible(bytes: &[u8]) -> bool
    ensures { result ≡ list_all (λ c. nat_le 33 c && nat_le c 126) bytes.now }
{
    bytes.iter().all(|byte| b'!' <= *byte && *byte <= b'~')
}
