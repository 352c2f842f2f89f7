//! Id tags as they count for an operator.
ghost use Rattle.std.specs.Prelude.{◌≡◌};
ghost use Rattle.hub_rows.specs.Grants.{earlier, granted_until};

use ocpp_types::{Moment, TagKey, Text};

/// What counts of an id tag for an operator that may use it.
#[derive(Drop)]
pub struct Info {
    /// Its text as its owner put it.
    pub text: Text,
    /// The tag of the group that it belongs to, as its owner put it.
    pub parent: Option<Text>,
    /// Whether it is blocked, or the tag of that group among its owner's tags is.
    pub blocked: bool,
    /// It counts before this moment, which of a granted tag is the earlier of its expiry and the
    /// end of the grant.
    pub expiry: Option<Moment>,
    /// The operator that granted it, `None` for the operator's own.
    pub owner: Option<Text>,
}

impl Info {
    /// The tag as it counts for an operator to which `owner` granted it until `end`: the earlier end
    /// counts.
    pub fn granted(self, owner: Text, end: Option<Moment>) -> Info
        ensures { result ≡ granted_until owner end self }
    {
        let expiry = earlier(self.expiry, end);
        let owner = Some(owner);
        Info {
            expiry,
            owner,
            ..self
        }
    }
}

/// The earlier of two ends; `None` is later than all.
fn earlier(end: Option<Moment>, other: Option<Moment>) -> Option<Moment>
    ensures { result ≡ earlier end other }
{
    match (end, other) {
        (Some(end), Some(other)) => Some(end.min(other)),
        (None, end) | (end, None) => end,
    }
}

/// An id tag that another operator granted.
#[derive(Drop)]
pub struct GrantedTag {
    pub key: TagKey,
    /// The operator that owns it.
    pub owner: Text,
    pub info: Info,
}
