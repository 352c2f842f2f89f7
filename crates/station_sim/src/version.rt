//! The version of the list of tags that a station has.
ghost use Rattle.std.specs.Prelude.{◌≡◌};
ghost use Rattle.json_data.specs.View as lent;
ghost use Rattle.serde_json.specs.View.{view};
ghost use Rattle.station_sim.specs.Replies.{version_data, version_of};

use json_data::{member_of, signed_of, unsigned_of};
use serde_json::Value;

/// The version of the local list: an integer, as JSON has it.
#[derive(Clone, Copy, Debug, PartialEq, Eq, Drop)]
pub enum ListVersion {
    Unsigned(u64),
    Signed(i64),
}

impl ListVersion {
    /// The integer as JSON. It takes no memory.
    pub fn to_value(self) -> Value
        ensures { view result ≡ version_data self }
    {
        match self {
            ListVersion::Unsigned(n) => Value::from(n),
            ListVersion::Signed(n) => Value::from(n),
        }
    }
}

/// The member `listVersion` of a command, where that is an integer.
pub fn version_of(payload: &json::Value<'_>) -> Option<ListVersion>
    ensures { result ≡ version_of (lent.view payload.now) }
{
    let version = member_of(payload, "listVersion")?;
    match unsigned_of(version) {
        Some(n) => Some(ListVersion::Unsigned(n)),
        None => signed_of(version).map(|n| ListVersion::Signed(n)),
    }
}
