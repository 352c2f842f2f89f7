//! The handshake of one WebSocket connection: what the head of a request asks for, and its answer.
#![tactic(auto)]

mod answer;
mod fields;
mod head;
mod subprotocol;
mod upgrade;

pub use answer::{Answer, refuse};
pub use head::{Asked, MAX_HEAD, Upgrade, judge};
pub use subprotocol::{Offered, Subprotocol};
pub use upgrade::shake;
