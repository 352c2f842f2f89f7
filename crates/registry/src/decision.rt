//! What a rule decides.
ghost use Rattle.std.specs.Prelude.{◌≡◌};
ghost use Rattle.registry.specs.InternalError.{internal_error};

use hub_rows::Edit;
use ocpp_payload::Conf;
use ocpp_types::{Boxed, ErrorCode};

/// What a station's request is answered, and what it changes of the records.
#[derive(Drop)]
pub struct Decision {
    pub reply: Reply,
    /// An edit of the records of the station's operator.
    pub edit: Option<Boxed<Edit>>,
}

/// The answer to a request.
#[derive(Drop)]
pub enum Reply {
    /// The answer of the action.
    Conf(Conf),
    /// An error, with no description and no details.
    Error(ErrorCode),
}

/// InternalError, and no change: for a request whose records can't be numbered any more (OCPP-J
/// 1.6, section 4.2.3).
pub fn internal_error() -> Decision
    ensures { result ≡ internal_error }
{
    Decision {
        reply: Reply::Error(ErrorCode::InternalError),
        edit: None,
    }
}
