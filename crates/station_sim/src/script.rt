//! The script of a station.
ghost use Rattle.std.specs.Prelude.{◌≡◌};
ghost use Rattle.station_sim.specs.Bounds.{is_name, bad_field};
ghost use Rattle.station_sim.specs.Calls.{meter_after};

use ocpp_types::{Text, count_characters};
use thiserror::Error;

/// What a station says of itself, what it does in a charging session, and how many it has.
#[derive(Drop)]
pub struct Script {
    /// 1 to 20 characters (OCPP 1.6, BootNotification.req).
    pub vendor: Text,
    /// 1 to 20 characters (OCPP 1.6, BootNotification.req).
    pub model: Text,
    /// Up to 20 characters (OCPP 1.6, type IdToken).
    pub tag: Text,
    /// 1 to 255.
    pub connector: u8,
    /// What the meter shows as the next session begins, in Wh.
    pub meter_start: i64,
    /// What each reading while it charges has more than that, in Wh: at most 1,000.
    pub readings: Vec<i64>,
    /// What the meter shows more at the end of a session, in Wh.
    pub energy: i64,
    /// How many sessions of its own it runs, one after the other.
    pub sessions: u32,
    /// It stays after these, and takes part in the sessions that the central system begins and ends.
    pub stays: bool,
}

impl Script {
    /// What the meter shows once it has counted so many Wh since the session began, at most `i64::MAX` and at least
    /// `i64::MIN`.
    pub(crate) fn meter_after(&self, counted: i64) -> i64
        ensures { result ≡ meter_after self.now counted }
    {
        self.meter_start.saturating_add(counted)
    }
}

/// The first field of a script that is out of its bounds.
#[derive(Clone, Copy, Debug, PartialEq, Eq, Drop, Error)]
pub enum BadScript {
    #[error("the vendor has no characters or more than 20")]
    Vendor,
    #[error("the model has no characters or more than 20")]
    Model,
    #[error("the tag has more than 20 characters")]
    Tag,
    #[error("the connector is 0")]
    Connector,
    #[error("there are more than 1,000 readings")]
    Readings,
}

/// The first field that is out of its bounds, in the order of the fields.
pub(crate) fn bad_field(script: &Script) -> Option<BadScript>
    ensures { result ≡ bad_field script.now }
{
    if !is_name(script.vendor.as_str()) {
        return Some(BadScript::Vendor);
    }
    if !is_name(script.model.as_str()) {
        return Some(BadScript::Model);
    }
    if count_characters(script.tag.as_str()) > 20 {
        return Some(BadScript::Tag);
    }
    if script.connector < 1 {
        return Some(BadScript::Connector);
    }
    if script.readings.len() > 1000 {
        return Some(BadScript::Readings);
    }
    None
}

fn is_name(text: &str) -> bool
    ensures { result ≡ is_name text.now }
{
    let count = count_characters(text);
    1 <= count && count <= 20
}
