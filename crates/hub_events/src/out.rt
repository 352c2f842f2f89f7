//! What the hub answers.

use crate::listing::Row;
use ocpp_payload::{Action, FieldFault};
use ocpp_types::{Boxed, ErrorCode, FieldName, Refusal, Text};

/// One output: what is said, and the operator that it is for.
#[derive(Drop)]
pub struct Out {
    /// The operator.
    pub op: Text,
    /// What it is told, or one of its stations.
    pub said: Said,
}

/// What is said to an operator, or to a station of it.
#[derive(Drop)]
pub enum Said {
    /// A text to a station.
    Send {
        station: Text,
        text: Text,
    },
    /// A call of that number has ended.
    Done {
        station: Text,
        number: u32,
        outcome: Outcome,
    },
    /// A connect of a station that isn't registered, or a frame of one that isn't connected, is
    /// turned away.
    Turned {
        station: Text,
    },
    /// A request of a station is read with repairs. The fault is that for which it is refused otherwise.
    Repaired {
        station: Text,
        action: Action,
        fault: FieldFault,
    },
    /// A request of the operator is refused, and has changed nothing.
    Refused(Refusal),
    /// A row of a listing.
    Row(Boxed<Row>),
    /// A request of the operator is accepted; a command with the number of its call.
    Accepted {
        number: Option<u32>,
    },
}

/// How a call ends.
#[derive(Drop)]
pub enum Outcome {
    /// The station has answered: the known members of its answer, as they were sent, as JSON.
    Answer { json: Text },
    /// A member of its answer is at fault.
    BadAnswer { code: ErrorCode, field: FieldName },
    /// It has answered with an error (OCPP-J 1.6, section 4.2.3).
    Error { code: Text, description: Text },
    /// It hasn't answered within 30 seconds.
    Timeout,
    /// Its connection has ended.
    Disconnected,
}
