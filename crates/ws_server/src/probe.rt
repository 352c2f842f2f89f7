//! Peers that are silent.

use crate::gateway::Gateway;
use std::io::{Read, Write};
use ws_peers::Cause;

impl<T: Read + Write + Drop> Gateway<T> {
    ghost use Rattle.ws_peers.specs.Sends.{Pinged};
    ghost use Rattle.ws_server.specs.Probes.{Silenced, Visit, Visits};
    ghost use Rattle.ws_server.specs.Tells.{peers_of};

    /// Sends a Ping to the peers at those places, where there is an open connection (RFC 6455, section 5.5.2).
    pub fn ping(&mut self, places: &[usize])
        ensures { Visits (Pinged T.contents) places.now (peers_of self.old) (peers_of self.new) }
    {
        for place in places {
            self.ping_at(*place);
        }
    }

    fn ping_at(&mut self, place: usize)
        ensures { Visit (Pinged T.contents) place (peers_of self.old) (peers_of self.new) }
    {
        if place < self.peers.count() {
            self.peers.ping(place);
        }
    }

    /// Ends the connections at those places, since their peers are silent. The next turn hands their disconnects to the
    /// hub.
    pub fn end_silent(&mut self, places: &[usize])
        ensures { Visits Silenced places.now (peers_of self.old) (peers_of self.new) }
    {
        for place in places {
            self.end_at(*place);
        }
    }

    fn end_at(&mut self, place: usize)
        ensures { Visit Silenced place (peers_of self.old) (peers_of self.new) }
    {
        if place < self.peers.count() {
            self.peers.end(place, Cause::Silent);
        }
    }
}
