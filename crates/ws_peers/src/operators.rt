//! The operators' connections among all.
ghost use Rattle.std.specs.Prelude.{◌≡◌, ◌≤◌, false, ◌+◌, ◌++◌, ◌∷◌, [], if◌then◌else◌, vec_len, vec_capacity, length, option_map};
ghost use Rattle.std.specs.List.{AllZip, filter};
ghost use Rattle.ws_peers.specs.Lists.{ForText, Hears, is_open_for};
ghost use Rattle.ws_peers.specs.Peers.{FailsOnlyAt, is_open_peer, is_operator_peer, places_of};

use crate::ended::list_ended;
use crate::peer::Peer;
use crate::reserved::push_reserved;
use std::alloc::Global;
use std::io::{Read, Write};

/// How many open connections an operator has, where `places` are those of all operators.
pub(crate) fn count_open<T: Read + Write + Drop>(
    peers: &[Peer<T>],
    places: &[usize],
    op: &str,
) -> usize
    requires { places.now ≡ places_of is_operator_peer 0 peers.now }
    ensures { result ≡ length (filter (is_open_for op.now) peers.now) }
{
    let mut count = 0;
    for place in places {
        if peers[*place].is_open_for(op) {
            count += 1;
        }
    }
    count
}

/// Sends a text to an operator, where `places` are those of all operators. The places of those that end are listed.
pub(crate) fn tell<T: Read + Write + Drop>(
    peers: &mut Vec<Peer<T>>,
    places: &[usize],
    ended: &mut Vec<usize>,
    alloc: Global,
    op: &str,
    text: Option<&str>,
)
    requires places { places.now ≡ places_of is_operator_peer 0 peers.old.items }
    requires room { vec_len peers.old ≤ vec_capacity ended.old }
    requires listed { FailsOnlyAt is_open_peer ended.old.items peers.old.items }
    ensures heard { AllZip (λ p q. ForText (option_map (λ t. t.now) text.entry) (λ t. Hears T.contents op.now t p q)) peers.old.items peers.new.items }
    ensures len { vec_len peers.new ≡ vec_len peers.old }
    ensures room { vec_len peers.new ≤ vec_capacity ended.new }
    ensures listed { FailsOnlyAt is_open_peer ended.new.items peers.new.items }
{
    for place in places {
        let peer = &mut peers[*place];
        let was_open = peer.stage().is_open();
        peer.hear(alloc, op, text);
        list_ended(ended, peers, *place, was_open);
    }
}

/// Lists the places of the operators, for which there is room.
fn list_operators<T: Read + Write + Drop>(peers: &[Peer<T>], places: &mut Vec<usize>)
    requires { length peers.now ≤ vec_capacity places.old }
    ensures places { places.new.items ≡ places_of is_operator_peer 0 peers.now }
    ensures capacity { vec_capacity places.old ≤ vec_capacity places.new }
{
    places.clear();
    for (n, peer) in peers.iter().enumerate() {
        list_place(places, n, peer.route().is_operator());
    }
}

/// Lists the places of the operators anew, for which there is room, if they have changed.
pub(crate) fn relist_operators<T: Read + Write + Drop>(
    peers: &[Peer<T>],
    places: &mut Vec<usize>,
    have_changed: bool,
)
    requires room { length peers.now ≤ vec_capacity places.old }
    requires same { have_changed ≡ false → places.old.items ≡ places_of is_operator_peer 0 peers.now }
    ensures places { places.new.items ≡ places_of is_operator_peer 0 peers.now }
    ensures capacity { vec_capacity places.old ≤ vec_capacity places.new }
{
    if have_changed {
        list_operators(peers, places);
    }
}

/// Lists a place, for which there is room, if it is one of those.
pub(crate) fn list_place(places: &mut Vec<usize>, place: usize, is_one: bool)
    requires { vec_len places.old + 1 ≤ vec_capacity places.old }
    ensures items { places.new.items ≡ (if is_one then places.old.items ++ place ∷ [] else places.old.items) }
    ensures len { vec_len places.new ≤ vec_len places.old + 1 }
    ensures capacity { vec_capacity places.old ≤ vec_capacity places.new }
{
    if is_one {
        push_reserved(places, place);
    }
}
