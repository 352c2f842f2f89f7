//! Connections before they are admitted.

use std::net::SocketAddr;
use ws_peers::Route;

/// A connection that was accepted.
#[derive(Drop)]
pub struct Client<T> {
    /// The connection's bytes, both ways.
    pub stream: T,
    /// Where it comes from, for the notes.
    pub address: Option<SocketAddr>,
}

/// A connection whose handshake is done.
#[derive(Drop)]
pub struct Arrival {
    /// Where its path leads.
    pub route: Route,
    /// Its handshake has a subprotocol, one of the names of OCPP 1.6.
    pub has_subprotocol: bool,
    /// Where it comes from, for the notes.
    pub address: Option<SocketAddr>,
}
