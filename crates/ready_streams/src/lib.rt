//! Streams of connections that are read only when the system has reported them ready, and whose bytes are given to
//! the system at the end of a turn.
#![tactic(auto)]

mod blocks;
mod link;
mod peek;
mod readiness;
mod ready_stream;
mod round;
mod served;
mod shares;
mod silence;
mod streams;
mod turn;
mod unsent;

pub use peek::Peek;
pub use ready_stream::ReadyStream;
pub use served::Served;
pub use shares::Shares;
pub use streams::Streams;
pub use unsent::Unsent;
