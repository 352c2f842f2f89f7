//! One of the connected peers.
ghost use Rattle.std.specs.Prelude.{◌≡◌, ◌<◌, length, slice_index_or};

use crate::cause::Cause;
use crate::ended::list_ended;
use crate::peer::Peer;
use crate::peers::Peers;
use std::io::{Read, Write};
use tungstenite::Utf8Bytes;

#[tactic(auto, using(crate::proofs::ListLaws::at_set, crate::proofs::ListLaws::kept_set, crate::proofs::ListLaws::keyed_set, crate::proofs::EndedLaws::listed_set))]
impl<T: Read + Write + Drop> Peers<T> {
    ghost use Rattle.ws_peers.specs.Lists.{peers, At};
    ghost use Rattle.ws_peers.specs.Peers.{ends, finishes};
    ghost use Rattle.ws_peers.specs.Reads.{Took};
    ghost use Rattle.ws_peers.specs.Sends.{Sent, Pinged, Failed};

    /// One of them.
    pub fn peer(&self, n: usize) -> &Peer<T>
        requires { n < length (peers self.now) }
        ensures { (other : Peer T) → result.now ≡ slice_index_or (peers self.now) n other }
    {
        &self.items[n]
    }

    /// Reads once from a peer: a text, or nothing (`Peer::take`).
    pub fn take(&mut self, n: usize) -> Option<Utf8Bytes>
        requires { n < length (peers self.old) }
        ensures took { At (λ old new. Took T.remaining T.contents old new result) n (peers self.old) (peers self.new) }
        ensures count { length (peers self.new) ≡ length (peers self.old) }
    {
        let peer = &mut self.items[n];
        let was_open = peer.stage().is_open();
        let text = peer.take();
        list_ended(&mut self.ended, &self.items, n, was_open);
        text
    }

    /// Sends a text to a peer.
    pub fn send(&mut self, n: usize, text: &str)
        requires { n < length (peers self.old) }
        ensures sent { At (Sent T.contents text.now) n (peers self.old) (peers self.new) }
        ensures count { length (peers self.new) ≡ length (peers self.old) }
    {
        let peer = &mut self.items[n];
        let was_open = peer.stage().is_open();
        peer.send(self.alloc, text);
        list_ended(&mut self.ended, &self.items, n, was_open);
    }

    /// Sends a Ping without a payload to a peer, if its connection is open.
    pub fn ping(&mut self, n: usize)
        requires { n < length (peers self.old) }
        ensures pinged { At (Pinged T.contents) n (peers self.old) (peers self.new) }
        ensures count { length (peers self.new) ≡ length (peers self.old) }
    {
        let peer = &mut self.items[n];
        let was_open = peer.stage().is_open();
        peer.ping();
        list_ended(&mut self.ended, &self.items, n, was_open);
    }

    /// The connection of a peer ends for that cause, if it is open.
    pub fn end(&mut self, n: usize, cause: Cause)
        requires { n < length (peers self.old) }
        ensures ended { At (λ old new. new ≡ ends cause old) n (peers self.old) (peers self.new) }
        ensures count { length (peers self.new) ≡ length (peers self.old) }
    {
        let peer = &mut self.items[n];
        let was_open = peer.stage().is_open();
        peer.end(cause);
        list_ended(&mut self.ended, &self.items, n, was_open);
    }

    /// The connection of a peer ends for a fault, if it is open: it is closed with the code 1011.
    pub fn fail(&mut self, n: usize)
        requires { n < length (peers self.old) }
        ensures failed { At (Failed T.contents) n (peers self.old) (peers self.new) }
        ensures count { length (peers self.new) ≡ length (peers self.old) }
    {
        let peer = &mut self.items[n];
        let was_open = peer.stage().is_open();
        peer.fail();
        list_ended(&mut self.ended, &self.items, n, was_open);
    }

    /// A peer is gone.
    pub fn finish(&mut self, n: usize)
        requires { n < length (peers self.old) }
        ensures finished { At (λ old new. new ≡ finishes old) n (peers self.old) (peers self.new) }
        ensures count { length (peers self.new) ≡ length (peers self.old) }
    {
        let peer = &mut self.items[n];
        let was_open = peer.stage().is_open();
        peer.finish();
        list_ended(&mut self.ended, &self.items, n, was_open);
    }
}
