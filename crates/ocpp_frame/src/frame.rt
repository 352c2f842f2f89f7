//! What one message is.

use crate::payload::Payload;
use ocpp_types::Text;

/// One message of OCPP-J (OCPP-J 1.6, section 4.2). Its payload borrows the text that it was read from.
#[derive(Drop)]
pub enum Frame<'a> {
    /// A request: `[2,"<id>","<action>",{payload}]`.
    Call {
        id: Text,
        action: Text,
        payload: Payload<'a>,
    },
    /// The answer to a request: `[3,"<id>",{payload}]`.
    CallResult {
        id: Text,
        payload: Payload<'a>,
    },
    /// The refusal of a request: `[4,"<id>","<code>","<description>",{details}]`, whose details
    /// aren't kept.
    CallError {
        id: Text,
        code: Text,
        description: Text,
    },
    /// A request with an id that isn't formed as one; it is answered with FormationViolation.
    Broken {
        id: Text,
    },
    /// Anything else; it gets no answer.
    Ignored,
}
