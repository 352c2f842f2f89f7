//! The places of the peers that aren't open.
ghost use Rattle.std.specs.Prelude.{◌≡◌, ◌≤◌, ◌∷◌, if◌then◌else◌, length, map, vec_len, vec_capacity};
ghost use Rattle.ws_peers.specs.Peers.{fails_at, FailsOnlyAt, is_open_peer, leaves};

use crate::operators::list_place;
use crate::peer::Peer;
use crate::reserved::push_reserved;
use std::io::{Read, Write};

/// Lists the place of a peer, if it was open and isn't any more. Where there is no room for one more, all are listed anew.
#[tactic(auto, using(crate::proofs::EndedLaws::fails_last_listed))]
pub(crate) fn list_ended<T: Read + Write + Drop>(
    ended: &mut Vec<usize>,
    peers: &[Peer<T>],
    place: usize,
    was_open: bool,
)
    requires room { length peers.now ≤ vec_capacity ended.old }
    requires others { FailsOnlyAt is_open_peer (if was_open then place ∷ ended.old.items else ended.old.items) peers.now }
    ensures listed { FailsOnlyAt is_open_peer ended.new.items peers.now }
    ensures capacity { vec_capacity ended.old ≤ vec_capacity ended.new }
{
    if !was_open {
        return;
    }
    if !is_ended_at(peers, place) {
        return;
    }
    if ended.len() < ended.capacity() {
        push_reserved(ended, place);
    } else {
        list_all_ended(peers, ended);
    }
}

/// Lists the places of all that aren't open, for which there is room.
pub(crate) fn list_all_ended<T: Read + Write + Drop>(peers: &[Peer<T>], ended: &mut Vec<usize>)
    requires { length peers.now ≤ vec_capacity ended.old }
    ensures listed { FailsOnlyAt is_open_peer ended.new.items peers.now }
    ensures capacity { vec_capacity ended.old ≤ vec_capacity ended.new }
{
    ended.clear();
    for (n, peer) in peers.iter().enumerate() {
        list_place(ended, n, !peer.stage().is_open());
    }
}

/// Whether there is a peer at that place that isn't open.
#[tactic(auto, using(crate::proofs::EndedLaws::says_in, crate::proofs::EndedLaws::says_out))]
fn is_ended_at<T: Read + Write + Drop>(peers: &[Peer<T>], place: usize) -> bool
    ensures { result ≡ fails_at is_open_peer peers.now place }
{
    if place >= peers.len() {
        return false;
    }
    !peers[place].stage().is_open()
}

/// Of the listed places keeps those of peers that aren't open.
pub(crate) fn keep_ended<T: Read + Write + Drop>(ended: &mut Vec<usize>, peers: &[Peer<T>])
    requires { FailsOnlyAt is_open_peer ended.old.items peers.now }
    ensures listed { FailsOnlyAt is_open_peer ended.new.items peers.now }
    ensures capacity { vec_capacity ended.old ≤ vec_capacity ended.new }
{
    ended.retain(|place| is_ended_at(peers, *place));
}

/// Those that have ended leave, where all that aren't open are at those places.
pub(crate) fn leave_each<T: Read + Write + Drop>(peers: &mut Vec<Peer<T>>, places: &[usize])
    requires { FailsOnlyAt is_open_peer places.now peers.old.items }
    ensures leaves { peers.new.items ≡ map leaves peers.old.items }
    ensures len { vec_len peers.new ≡ vec_len peers.old }
{
    for place in places {
        if *place < peers.len() {
            peers[*place].leave();
        }
    }
}
