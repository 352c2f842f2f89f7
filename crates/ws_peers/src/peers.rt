//! All connected peers.
ghost use Rattle.std.specs.Prelude.{◌≡◌, ◌≤◌, map, vec_len, vec_capacity};
ghost use Rattle.ws_peers.specs.Peers.{FailsOnlyAt, is_open_peer, key_of_peer, is_operator_peer, places_of};

use crate::operators::count_open;
use crate::peer::Peer;
use ocpp_types::Mem;
use std::alloc::Global;
use std::io::{Read, Write};

/// The connected peers. A peer is named by its place, from 0. One keeps its place until a sweep drops another: then the
/// last one takes the place that is free.
#[derive(Drop)]
pub struct Peers<T> {
    pub(crate) alloc: Global,
    pub(crate) items: Vec<Peer<T>>,
    /// The places of the operators' connections, in ascending order. There is room for as many as there are peers.
    pub(crate) operators: Vec<usize>,
    /// The key of what each stands for. A station is sought by its key first.
    pub(crate) keys: Vec<u64>,
    /// The places of those that aren't open, and maybe of others. There is room for as many as there are peers.
    pub(crate) ended: Vec<usize>,
    ghost places: { operators.items ≡ places_of is_operator_peer 0 items.items },
    ghost room: { vec_len items ≤ vec_capacity operators },
    ghost keyed: { keys.items ≡ map key_of_peer items.items },
    ghost ended_room: { vec_len items ≤ vec_capacity ended },
    ghost listed: { FailsOnlyAt is_open_peer ended.items items.items },
}

impl<T: Read + Write + Drop> Peers<T> {
    ghost use Rattle.std.specs.Prelude.{[], length, IfOk};
    ghost use Rattle.std.specs.List.{filter};
    ghost use Rattle.std.specs.List.Sorted.{IsNonDecreasing};
    ghost use Rattle.ws_peers.specs.Lists.{peers, is_open_for};

    /// No peer. It takes no memory yet.
    pub fn new(alloc: Global) -> Peers<T>
        ensures { peers result ≡ [] }
    {
        Peers {
            alloc,
            items: Vec::new(alloc),
            operators: Vec::new(alloc),
            keys: Vec::new(alloc),
            ended: Vec::new(alloc),
        }
    }

    /// How many there are, those that have ended too.
    pub fn count(&self) -> usize
        ensures { result ≡ length (peers self.now) }
    {
        self.items.len()
    }

    /// How many open connections an operator has.
    pub fn count_of(&self, op: &str) -> usize
        ensures { result ≡ length (filter (is_open_for op.now) (peers self.now)) }
    {
        count_open(&self.items, &self.operators, op)
    }

    /// The places of those that aren't open, and maybe others.
    pub fn ended(&self) -> &[usize]
        ensures { FailsOnlyAt is_open_peer result.now (peers self.now) }
    {
        self.ended.as_slice()
    }

    /// The same, in ascending order.
    pub fn ended_in_order(&self) -> Mem<Vec<usize>>
        ensures ascending { IfOk result (λ places. IsNonDecreasing places.items) }
        ensures listed { IfOk result (λ places. FailsOnlyAt is_open_peer places.items (peers self.now)) }
    {
        let mut places = self.ended.clone()?;
        places.sort_unstable();
        Ok(places)
    }
}
