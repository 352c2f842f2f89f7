//! Answers on how stations are registered.
ghost use Rattle.std.specs.Prelude.{◌≡◌, true, IfOk, option_map};
ghost use Rattle.cached.specs.Digests.{station_digest};
ghost use Rattle.cached.specs.StationAnswers.{changed_station, IsOf};

use crate::answer::{Answer, Numbered};
use hub_rows::{Change, Edit, Registration, StationEdit};
use ocpp_types::{Mem, Text};
use std::alloc::Global;
use std::hash::{BuildHasher, BuildHasherDefault, FoldHasher};

/// How a station is registered, if it is.
#[derive(Drop)]
pub struct StationAnswer {
    op: Text,
    station: Text,
    registration: Option<Registration>,
}

impl StationAnswer {
    /// The answer, with copies of what it is about.
    pub fn of(
        alloc: Global,
        op: &str,
        station: &str,
        registration: Option<Registration>,
    ) -> Mem<StationAnswer>
        ensures about { IfOk result (λ answer. IsOf op.now station.now answer) }
        ensures registration { IfOk result (λ answer. answer.registration ≡ registration) }
    {
        Ok(StationAnswer {
            op: Text::copy_of(alloc, op)?,
            station: Text::copy_of(alloc, station)?,
            registration,
        })
    }

    /// What was answered.
    pub fn registration(&self) -> Option<Registration>
        ensures { result ≡ self.now.registration }
    {
        self.registration
    }

    /// Whether it is of that station.
    pub fn is_about(&self, op: &str, station: &str) -> bool
        ensures { result ≡ true → IsOf op.now station.now self.now }
    {
        self.op.as_str() == op && self.station.as_str() == station
    }
}

impl Answer for StationAnswer {
    ghost use Rattle.cached.specs.StationAnswers.{digest_of_station, IsRegistered};

    ghost is_right = { IsRegistered };

    ghost digest = { digest_of_station };

    fn digest(&self) -> u64 {
        digest(self.op.as_str(), self.station.as_str())
    }
}

impl Numbered for StationAnswer {
    fn touched(change: &Change<'_>) -> Option<u64> {
        let station = changed_station(change.edit)?;
        Some(digest(change.op.as_str(), station.as_str()))
    }
}

/// The station whose record an edit changes.
fn changed_station(edit: &Edit) -> Option<&Text>
    ensures { option_map (λ s. s.now) result ≡ changed_station edit.now }
{
    match edit {
        Edit::Stations(
            StationEdit::StationAdded { station, .. }
            | StationEdit::BootSeen { station, .. }
            | StationEdit::PolicySet { station, .. }
            | StationEdit::StationDropped { station },
        ) => Some(station),
        _ => None,
    }
}

/// A number of a station.
pub fn digest(op: &str, station: &str) -> u64
    ensures { result ≡ station_digest op.now station.now }
{
    let hasher: BuildHasherDefault<FoldHasher> = BuildHasherDefault::new();
    hasher.hash_one((op, station))
}
