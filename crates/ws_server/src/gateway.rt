//! The gateway.
ghost use Rattle.std.specs.Prelude.{◌≡◌, ◌<◌, ◌≤◌, [], length, slice_index_or, option_map, Some, None};

use connection_notes::{Note, Notes};
use ocpp_types::Text;
use ready_streams::Served;
use std::alloc::Global;
use std::io::{Read, Write};
use ws_peers::{Peer, Peers, Route};

/// The connected peers of one hub, by place.
///
/// Contracts speak of it by one definition: `peers_of`, the list of its peers.
#[derive(Drop)]
pub struct Gateway<T> {
    pub(crate) alloc: Global,
    pub(crate) peers: Peers<T>,
    pub(crate) notes: Notes,
    /// The operators that have as many connections of stations as they may have.
    pub(crate) full: Vec<Text>,
    /// How many events the hub has taken.
    pub(crate) taken: u64,
}

impl<T: Read + Write + Served + Drop> Gateway<T> {
    ghost use Rattle.std.specs.List.{AllZip};
    ghost use Rattle.ws_peers.specs.Peers.{route_of};
    ghost use Rattle.ws_peers.specs.Sends.{Failed, Stopped};
    ghost use Rattle.ws_server.specs.Tells.{peers_of, full_of};

    /// No peer. It takes no memory yet.
    pub fn new(alloc: Global) -> Gateway<T>
        ensures peers { peers_of result ≡ [] }
        ensures full { full_of result ≡ [] }
    {
        Gateway {
            alloc,
            peers: Peers::new(alloc),
            notes: Notes::new(alloc),
            full: Vec::new(alloc),
            taken: 0,
        }
    }

    /// From now on it keeps notes of what becomes of connections.
    pub fn keep_notes(&mut self)
        ensures { peers_of self.new ≡ peers_of self.old }
    {
        self.notes.keep();
    }

    /// The notes since they were last taken, in order.
    pub fn take_notes(&mut self) -> Vec<Note>
        ensures { peers_of self.new ≡ peers_of self.old }
    {
        self.notes.take()
    }

    /// How many peers there are. Those that have ended count until a turn has dropped them.
    pub fn count(&self) -> usize
        ensures { result ≡ length (peers_of self.now) }
    {
        self.peers.count()
    }

    /// Names the operators that have as many connections of stations as they may have. From now on none of their stations is
    /// admitted, but one that is connected may come again.
    pub fn set_full(&mut self, operators: Vec<Text>)
        ensures full { full_of self.new ≡ operators.items }
        ensures peers { peers_of self.new ≡ peers_of self.old }
    {
        self.full = operators;
    }

    /// How many events the hub has taken from it. After 2^64 it begins again.
    pub fn taken(&self) -> u64 {
        self.taken
    }

    /// All connections end for a fault, after which no event is handed to the hub. Those that are open are closed with
    /// the code 1011 (RFC 6455, section 7.4.1).
    pub fn fail_all(&mut self)
        ensures { AllZip (Failed T.contents) (peers_of self.old) (peers_of self.new) }
    {
        self.peers.fail_all();
    }

    /// All connections end as the server stops. Those that are open are closed with the code 1001 (RFC 6455, section
    /// 7.4.1).
    pub fn end_all(&mut self)
        ensures { AllZip (Stopped T.contents) (peers_of self.old) (peers_of self.new) }
    {
        self.peers.end_all();
    }

    /// What the peer at that place stands for, if there is a peer.
    pub fn route(&self, place: usize) -> Option<&Route>
        ensures there { (other : Peer T) → place < length (peers_of self.now)
            → option_map (λ r. r.now) result ≡ Some (route_of (slice_index_or (peers_of self.now) place other)) }
        ensures missing { length (peers_of self.now) ≤ place → result ≡ None }
    {
        if place < self.count() {
            Some(self.peers.peer(place).route())
        } else {
            None
        }
    }
}
