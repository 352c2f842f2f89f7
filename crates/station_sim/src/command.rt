//! The commands of the central system that the station answers.
ghost use Rattle.std.specs.Prelude.{◌≡◌};
ghost use Rattle.ocpp_types.specs.Named.{named};
ghost use Rattle.station_sim.specs.Replies.{commands};

/// How a command is answered (OCPP 1.6, section 5).
#[derive(Clone, Copy, Debug, PartialEq, Eq, Drop)]
pub enum Answer {
    Accepted,
    /// Accepted, if the session takes the start.
    RemoteStart,
    /// Accepted, if the session takes the stop.
    RemoteStop,
    Unlocked,
    NotImplemented,
    UnknownVendorId,
    /// The version of the local list.
    Version,
    /// The keys that were asked, all of them unknown.
    Keys,
}

/// The answer to the command of that name, `None` for another name.
pub fn answer_of(action: &str) -> Option<Answer>
    ensures { result ≡ named commands action.now }
{
    match action {
        "ChangeAvailability" => Some(Answer::Accepted),
        "ChangeConfiguration" => Some(Answer::Accepted),
        "ClearCache" => Some(Answer::Accepted),
        "Reset" => Some(Answer::Accepted),
        "SendLocalList" => Some(Answer::Accepted),
        "ReserveNow" => Some(Answer::Accepted),
        "CancelReservation" => Some(Answer::Accepted),
        "RemoteStartTransaction" => Some(Answer::RemoteStart),
        "RemoteStopTransaction" => Some(Answer::RemoteStop),
        "UnlockConnector" => Some(Answer::Unlocked),
        "TriggerMessage" => Some(Answer::NotImplemented),
        "DataTransfer" => Some(Answer::UnknownVendorId),
        "GetLocalListVersion" => Some(Answer::Version),
        "GetConfiguration" => Some(Answer::Keys),
        _ => None,
    }
}
