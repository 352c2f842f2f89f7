//! The stations' connections among all. Each is sought by its key first, so that a walk over all reads little.
ghost use Rattle.std.specs.Prelude.{◌≡◌, ◌≤◌, vec_len, vec_capacity, map};
ghost use Rattle.std.specs.List.{AllZip, position};
ghost use Rattle.ws_peers.specs.Lists.{GivesWay, is_open_at};
ghost use Rattle.ws_peers.specs.Peers.{FailsOnlyAt, is_open_peer, key_of_peer};

use crate::ended::list_ended;
use crate::keys::station_key;
use crate::peer::Peer;
use std::io::{Read, Write};

/// The place of the first open connection of a station.
pub(crate) fn first_open<T: Read + Write + Drop>(
    peers: &[Peer<T>],
    keys: &[u64],
    op: &str,
    station: &str,
) -> Option<usize>
    requires { keys.now ≡ map key_of_peer peers.now }
    ensures { result ≡ position (is_open_at op.now station.now) peers.now }
{
    let wanted = station_key(op, station);
    for (n, key) in keys.iter().enumerate() {
        if *key == wanted && peers[n].is_open_at(op, station) {
            return Some(n);
        }
    }
    None
}

/// The connections of a station give way. The places of those that end are listed.
pub(crate) fn give_way<T: Read + Write + Drop>(
    peers: &mut Vec<Peer<T>>,
    keys: &[u64],
    ended: &mut Vec<usize>,
    op: &str,
    station: &str,
)
    requires keyed { keys.now ≡ map key_of_peer peers.old.items }
    requires room { vec_len peers.old ≤ vec_capacity ended.old }
    requires listed { FailsOnlyAt is_open_peer ended.old.items peers.old.items }
    ensures way { AllZip (GivesWay T.contents op.now station.now) peers.old.items peers.new.items }
    ensures len { vec_len peers.new ≡ vec_len peers.old }
    ensures capacity { vec_capacity peers.new ≡ vec_capacity peers.old }
    ensures room { vec_capacity ended.old ≤ vec_capacity ended.new }
    ensures listed { FailsOnlyAt is_open_peer ended.new.items peers.new.items }
{
    let wanted = station_key(op, station);
    for (n, key) in keys.iter().enumerate() {
        if *key == wanted {
            let peer = &mut peers[n];
            let was_open = peer.stage().is_open();
            peer.give_way(op, station);
            list_ended(ended, peers, n, was_open);
        }
    }
}
