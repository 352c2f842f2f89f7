//! The connected peers, by place: where a path leads, reads and sends over each
//! socket, and how far each connection has come.
#![tactic(auto)]

mod all_peers;
mod cause;
mod ended;
mod heard;
mod keys;
mod one_peer;
mod operators;
pub mod paths;
mod peer;
mod peers;
mod reserved;
mod routes;
mod stage;
mod stations;
mod sweep;

pub use cause::Cause;
pub use heard::MAX_TEXT;
pub use peer::Peer;
pub use peers::Peers;
pub use routes::Route;
pub use stage::Stage;
