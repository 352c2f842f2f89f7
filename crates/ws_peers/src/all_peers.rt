//! All connected peers: sends to them, admission and removal.
ghost use Rattle.std.specs.Prelude.{◌+◌, List, ◌≡◌, ◌++◌, ◌∷◌, [], map, length, OnOk, IfSome, IfNone, true, false, ◌<◌, slice_index_or, option_map};
ghost use Rattle.std.specs.List.{AllZip, list_any};
ghost use Rattle.ws_peers.specs.Lists.{is_open_at};

use crate::cause::Cause;
use crate::ended::{keep_ended, leave_each, list_all_ended, list_ended};
use crate::operators::{list_place, relist_operators, tell};
use crate::peer::Peer;
use crate::peers::Peers;
use crate::reserved::push_reserved;
use crate::routes::Route;
use crate::stations::{first_open, give_way};
use crate::sweep::drop_each;
use ocpp_types::Mem;
use ready_streams::Served;
use std::io::{Read, Write};
use tungstenite::{CloseCode, NoMask, WebSocket};

#[tactic(auto, using(crate::proofs::ListLaws::sent_at, crate::proofs::ListLaws::to_nobody, crate::proofs::ListLaws::position_within, crate::proofs::ListLaws::position_found, crate::proofs::ListLaws::position_missing))]
impl<T: Read + Write + Served + Drop> Peers<T> {
    ghost use Rattle.ws_peers.specs.Lists.{peers, has_room, is_connected, ForText, ToStation, ToOperator, GivesWay, GiveWay, Shut, Swept};
    ghost use Rattle.ws_peers.specs.Peers.{open_peer, leaves};
    ghost use Rattle.ws_peers.specs.Sends.{EndsWith, Failed, Stopped};

    /// Sends a text to a station, on an open connection of it, if there is one. The peer at `near`
    /// is tried first.
    pub fn to_station(&mut self, near: usize, op: &str, station: &str, text: &str)
        ensures sent { ToStation T.contents op.now station.now text.now (peers self.old) (peers self.new) }
        ensures count { length (peers self.new) ≡ length (peers self.old) }
    {
        if let Some(n) = self.place_of(near, op, station) {
            self.send(n, text);
        }
    }

    fn place_of(&self, near: usize, op: &str, station: &str) -> Option<usize>
        ensures within { IfSome result (λ n. n < length (peers self.now)) }
        ensures found { IfSome result (λ n. (other : Peer T)
            → is_open_at op.now station.now (slice_index_or (peers self.now) n other) ≡ true) }
        ensures missing { IfNone result (list_any (is_open_at op.now station.now) (peers self.now) ≡ false) }
    {
        if near < self.items.len() && self.items[near].is_open_at(op, station) {
            return Some(near);
        }
        first_open(&self.items, &self.keys, op, station)
    }

    /// Whether a route is that of a station with an open connection.
    pub fn is_connected(&self, route: &Route) -> bool
        ensures { result ≡ is_connected route.now (peers self.now) }
    {
        match route {
            Route::Station(op, station) => first_open(
                &self.items,
                &self.keys,
                op.as_str(),
                station.as_str(),
            ).is_some(),
            Route::Operator(_) => false,
        }
    }

    /// Sends a text to an operator, on each open connection of it. Where the text is `None`, since
    /// there was no memory for it, these connections end.
    pub fn to_operator(&mut self, op: &str, text: Option<&str>)
        ensures sent { ForText (option_map (λ t. t.now) text.entry) (λ t. ToOperator T.contents op.now t (peers self.old) (peers self.new)) }
        ensures count { length (peers self.new) ≡ length (peers self.old) }
    {
        tell(
            &mut self.items,
            &self.operators,
            &mut self.ended,
            self.alloc,
            op,
            text,
        );
    }

    /// All connections end for a fault. Those that are open are closed with the code 1011.
    pub fn fail_all(&mut self)
        ensures { AllZip (Failed T.contents) (peers self.old) (peers self.new) }
    {
        self.end_each(CloseCode::Error, Cause::Fault);
    }

    /// All connections end as the server stops. Those that are open are closed with the code 1001.
    pub fn end_all(&mut self)
        ensures { AllZip (Stopped T.contents) (peers self.old) (peers self.new) }
    {
        self.end_each(CloseCode::Away, Cause::Stopped);
    }

    fn end_each(&mut self, code: CloseCode, cause: Cause)
        ensures { AllZip (EndsWith T.contents code cause) (peers self.old) (peers self.new) }
    {
        for peer in self.items.iter_mut() {
            peer.end_with(code, cause);
        }
        list_all_ended(&self.items, &mut self.ended);
    }

    /// Makes room for one more.
    pub fn reserve(&mut self) -> Mem<()>
        ensures room { OnOk result (has_room self.new) }
        ensures peers { peers self.new ≡ peers self.old }
    {
        self.items.reserve(1)?;
        let after = self.items.len() + 1;
        self.operators.reserve(after - self.operators.len())?;
        self.ended.reserve(after.saturating_sub(self.ended.len()))?;
        self.keys.reserve(1)?;
        Ok(())
    }

    /// Those that have ended leave.
    pub fn leave(&mut self)
        ensures { peers self.new ≡ map leaves (peers self.old) }
    {
        leave_each(&mut self.items, &self.ended);
    }

    /// Drops those that are gone. For each the last one takes the place that is free, and its stream is told so.
    pub fn sweep(&mut self)
        ensures { Swept (peers self.old) (peers self.new) }
    {
        let has_moved = drop_each(&mut self.items, &mut self.keys, &self.ended);
        relist_operators(&self.items, &mut self.operators, has_moved);
        keep_ended(&mut self.ended, &self.items);
    }

    /// Adds a peer, for which there is room. Another connection of the same station is replaced.
    /// Its stream is told its place and its room.
    pub fn push(&mut self, socket: WebSocket<T, NoMask>, route: Route)
        requires { has_room self.old }
        ensures { (older : List (Peer T)) × GiveWay T.contents route (peers self.old) older
            × (peers self.new ≡ older ++ open_peer socket route ∷ []) }
    {
        self.make_way(&route);
        list_place(&mut self.operators, self.items.len(), route.is_operator());
        push_reserved(&mut self.keys, route.key());
        let peer = Peer::new(socket, route);
        peer.set_place(self.items.len());
        peer.set_room();
        push_reserved(&mut self.items, peer);
    }

    /// Adds a peer that isn't admitted, for which there is room: its socket is closed with the code 1008 and that
    /// reason, and it is gone.
    pub fn push_closed(&mut self, socket: WebSocket<T, NoMask>, route: Route, reason: &'static str)
        requires { has_room self.old }
        ensures { Shut T.contents reason.now socket route (peers self.old) (peers self.new) }
    {
        list_place(&mut self.operators, self.items.len(), route.is_operator());
        push_reserved(&mut self.keys, route.key());
        let place = self.items.len();
        let mut peer = Peer::new(socket, route);
        peer.shut(reason);
        push_reserved(&mut self.items, peer);
        list_ended(&mut self.ended, &self.items, place, true);
    }

    fn make_way(&mut self, route: &Route)
        requires { has_room self.old }
        ensures way { GiveWay T.contents route.now (peers self.old) (peers self.new) }
        ensures room { has_room self.new }
    {
        match route {
            Route::Station(op, station) => self.give_way(op.as_str(), station.as_str()),
            Route::Operator(_) => {}
        }
    }

    fn give_way(&mut self, op: &str, station: &str)
        requires { has_room self.old }
        ensures way { AllZip (GivesWay T.contents op.now station.now) (peers self.old) (peers self.new) }
        ensures room { has_room self.new }
    {
        give_way(&mut self.items, &self.keys, &mut self.ended, op, station);
    }
}
