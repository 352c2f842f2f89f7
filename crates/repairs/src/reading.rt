//! What a tolerant reader makes of a request.

use ocpp_payload::{FieldFault, Request};

/// How a tolerant reader takes a request.
#[derive(Drop)]
pub enum Reading {
    /// The strict reader takes it.
    AsSent(Request),
    /// The strict reader refuses it with that fault, and takes it repaired.
    Repaired { request: Request, fault: FieldFault },
    /// The strict reader refuses it, repaired too. The fault is the one that is left.
    Refused(FieldFault),
}
