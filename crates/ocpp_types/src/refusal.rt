//! Why an operator's request is refused.
ghost use Rattle.std.specs.Prelude.{◌≡◌};

use crate::authorization_status::AuthorizationStatus;
use crate::field_name::FieldName;

/// Why an operator's request is refused. A refusal changes nothing.
#[derive(Clone, Debug, PartialEq, Eq, Drop)]
pub enum Refusal {
    /// The operator has no station of that name.
    NoSuchStation,
    /// The operator has a station of that name already.
    StationExists,
    /// The operator has no id tag of that key.
    NoSuchTag,
    /// No operator of that name is hosted.
    NoSuchOperator,
    /// The operator would grant a tag to itself.
    SelfGrant,
    /// The operator hasn't granted that tag to that operator.
    NoSuchGrant,
    /// The station isn't connected.
    NotConnected,
    /// The queue of the station's calls is full.
    QueueFull,
    /// The registration of the station doesn't allow the command.
    NotAllowedNow,
    /// The id tag of the command isn't accepted: its status.
    TagRefused(AuthorizationStatus),
    /// The station has no open transaction of that number.
    NoSuchTransaction,
    /// The field of that name is past its limits.
    BadField(FieldName),
    /// A transaction of the station is open.
    HasOpenTransactions,
    /// No reservation of that id counts at the station.
    NoSuchReservation,
    /// The station has used up the numbers of its calls.
    NumberSpent,
}

impl Refusal {
    ghost use Rattle.ocpp_types.specs.Refusal.{refusal_number, refusal_name};

    /// Its number in output lines.
    pub fn number(&self) -> u8
        ensures { result ≡ refusal_number self.now }
    {
        match self {
            Refusal::NoSuchStation => 1,
            Refusal::StationExists => 2,
            Refusal::NoSuchTag => 3,
            Refusal::NoSuchOperator => 4,
            Refusal::SelfGrant => 5,
            Refusal::NoSuchGrant => 6,
            Refusal::NotConnected => 7,
            Refusal::QueueFull => 8,
            Refusal::NotAllowedNow => 9,
            Refusal::TagRefused(_) => 10,
            Refusal::NoSuchTransaction => 11,
            Refusal::BadField(_) => 12,
            Refusal::HasOpenTransactions => 13,
            Refusal::NoSuchReservation => 14,
            Refusal::NumberSpent => 15,
        }
    }

    /// The name that follows the number.
    pub fn name(&self) -> &'static str
        ensures { result.now ≡ refusal_name self.now }
    {
        match self {
            Refusal::NoSuchStation => "NoSuchStation",
            Refusal::StationExists => "StationExists",
            Refusal::NoSuchTag => "NoSuchTag",
            Refusal::NoSuchOperator => "NoSuchOperator",
            Refusal::SelfGrant => "SelfGrant",
            Refusal::NoSuchGrant => "NoSuchGrant",
            Refusal::NotConnected => "NotConnected",
            Refusal::QueueFull => "QueueFull",
            Refusal::NotAllowedNow => "NotAllowedNow",
            Refusal::TagRefused(_) => "TagRefused",
            Refusal::NoSuchTransaction => "NoSuchTransaction",
            Refusal::BadField(_) => "BadField",
            Refusal::HasOpenTransactions => "HasOpenTransactions",
            Refusal::NoSuchReservation => "NoSuchReservation",
            Refusal::NumberSpent => "NumberSpent",
        }
    }
}
