//! The frames of OCPP-J: calls, results and errors, read from text and written to it.
#![tactic(auto)]

mod call_reader;
mod frame;
mod payload;
mod read;
mod write;

pub use frame::Frame;
pub use payload::Payload;
pub use read::{FrameReader, MAX_ID};
pub use write::{write_call, write_error, write_result};
