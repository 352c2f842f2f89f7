//! Dropping the peers that are gone.
ghost use Rattle.std.specs.Prelude.{◌≡◌, ◌≢◌, ◌<◌, ◌≤◌, ◌+◌, ◌∷◌, ℕ, Bool, true, false, length, map, slice_index_or, vec_len};
ghost use Rattle.std.specs.List.Sorted.{IsPermutation};
ghost use Rattle.ws_peers.specs.Lists.{Drops, Swept};
ghost use Rattle.ws_peers.specs.Peers.{fails_at, FailsOnlyAt, is_held_peer, is_open_peer, is_operator_peer, key_of_peer, places_of};
ghost use Rattle.ws_peers.specs.declared.peer.Peer.{Peer as OnePeer};

use crate::peer::Peer;
use ready_streams::Served;
use std::io::{Read, Write};

/// Drops those that are gone, where all that aren't open are at those places. It gives whether an operator's connection
/// was dropped or has another place.
pub(crate) fn drop_each<T: Read + Write + Served + Drop>(
    peers: &mut Vec<Peer<T>>,
    keys: &mut Vec<u64>,
    places: &[usize],
) -> bool
    requires keyed { keys.old.items ≡ map key_of_peer peers.old.items }
    requires listed { FailsOnlyAt is_open_peer places.now peers.old.items }
    ensures swept { Swept peers.old.items peers.new.items }
    ensures keyed { keys.new.items ≡ map key_of_peer peers.new.items }
    ensures listed { FailsOnlyAt is_open_peer places.now peers.new.items }
    ensures operators { result ≡ false → places_of is_operator_peer 0 peers.new.items ≡ places_of is_operator_peer 0 peers.old.items }
    ensures len { vec_len peers.new ≤ vec_len peers.old }
{
    let mut has_moved = false;
    for place in places {
        has_moved |= drop_gone(peers, keys, *place);
    }
    has_moved
}

/// Drops the peer at a place as long as it is gone.
fn drop_gone<T: Read + Write + Served + Drop>(
    peers: &mut Vec<Peer<T>>,
    keys: &mut Vec<u64>,
    place: usize,
) -> bool
    requires { keys.old.items ≡ map key_of_peer peers.old.items }
    ensures drops { Drops peers.old.items peers.new.items }
    ensures held { fails_at is_held_peer peers.new.items place ≡ false }
    ensures others { (test : OnePeer T → Bool) (n : ℕ) → n ≢ place → fails_at test peers.new.items n ≡ true → fails_at test peers.old.items n ≡ true }
    ensures keyed { keys.new.items ≡ map key_of_peer peers.new.items }
    ensures operators { result ≡ false → places_of is_operator_peer 0 peers.new.items ≡ places_of is_operator_peer 0 peers.old.items }
    ensures len { vec_len peers.new ≤ vec_len peers.old }
{
    let mut has_moved = false;
    while is_gone_at(peers, place) {
        has_moved |= drop_at(peers, keys, place);
    }
    has_moved
}

/// Whether there is a peer at that place that is gone.
#[tactic(auto, using(crate::proofs::EndedLaws::says_in, crate::proofs::EndedLaws::says_out))]
fn is_gone_at<T: Read + Write + Drop>(peers: &[Peer<T>], place: usize) -> bool
    ensures { result ≡ fails_at is_held_peer peers.now place }
{
    if place >= peers.len() {
        return false;
    }
    !peers[place].stage().is_held()
}

/// Drops the peer at a place. The last one takes that place, and its stream is told so.
fn drop_at<T: Read + Write + Served + Drop>(
    peers: &mut Vec<Peer<T>>,
    keys: &mut Vec<u64>,
    place: usize,
) -> bool
    requires there { place < length peers.old.items }
    requires keyed { keys.old.items ≡ map key_of_peer peers.old.items }
    ensures dropped { (p : OnePeer T) → IsPermutation peers.old.items (slice_index_or peers.old.items place p ∷ peers.new.items) }
    ensures others { (test : OnePeer T → Bool) (n : ℕ) → n ≢ place → fails_at test peers.new.items n ≡ true → fails_at test peers.old.items n ≡ true }
    ensures keyed { keys.new.items ≡ map key_of_peer peers.new.items }
    ensures operators { result ≡ false → places_of is_operator_peer 0 peers.new.items ≡ places_of is_operator_peer 0 peers.old.items }
    ensures len { vec_len peers.new + 1 ≡ vec_len peers.old }
{
    let dropped = peers.swap_remove(place);
    let _key = keys.swap_remove(place);
    let was_operator = dropped.route().is_operator();
    if place < peers.len() {
        let moved = &peers[place];
        moved.set_place(place);
        return was_operator | moved.route().is_operator();
    }
    was_operator
}
