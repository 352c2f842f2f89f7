//! One connected peer.
ghost use Rattle.std.specs.Prelude.{◌≡◌, true, IfSome, option_map};

use crate::cause::Cause;
use crate::heard::{Heard, what_is_heard};
use crate::routes::Route;
use crate::stage::Stage;
use ready_streams::Served;
use std::alloc::Global;
use std::io::{Read, Write};
use tungstenite::{Bytes, CloseCode, CloseFrame, Message, NoMask, Utf8Bytes, WebSocket};

/// The bytes that may wait in the stream of an operator.
const OPERATOR_ROOM: usize = 16_777_216;

/// The bytes that may wait in the stream of a station.
const STATION_ROOM: usize = 2_097_152;

/// Why a connection is closed in whose place another comes.
const REPLACED: &str = "another connection of this station";

/// One connected peer: what it stands for, its socket, and how far its connection has come.
#[derive(Drop)]
pub struct Peer<T> {
    socket: WebSocket<T, NoMask>,
    route: Route,
    stage: Stage,
}

#[tactic(auto, using(crate::proofs::PeerLaws::unsent, crate::proofs::PeerLaws::took, crate::proofs::PeerLaws::took_none))]
impl<T: Read + Write + Drop> Peer<T> {
    ghost use Rattle.std.specs.Prelude.{Some};
    ghost use Rattle.tungstenite.specs.Socket.{close_of, content_of};
    ghost use Rattle.ws_peers.specs.Peers.{route_of, stage_of, open_peer, ends, leaves, finishes, Kept};
    ghost use Rattle.ws_peers.specs.Lists.{is_open_at, is_open_for, ForText, Hears, GivesWay};
    ghost use Rattle.ws_peers.specs.Reads.{Took};
    ghost use Rattle.ws_peers.specs.Sends.{Sent, SentMessage, Pinged, EndsWith, Failed, Closed, Replaced};
    ghost use Rattle.ws_peers.specs.Stages.{is_open};

    /// A peer whose handshake is done.
    pub fn new(socket: WebSocket<T, NoMask>, route: Route) -> Peer<T>
        ensures { result ≡ open_peer socket route }
    {
        Peer {
            socket,
            route,
            stage: Stage::Open,
        }
    }

    /// What it stands for.
    pub fn route(&self) -> &Route
        ensures { result.now ≡ route_of self.now }
    {
        &self.route
    }

    /// How far its connection has come.
    pub fn stage(&self) -> Stage
        ensures { result ≡ stage_of self.now }
    {
        self.stage
    }

    /// Sends a text. The connection ends where that isn't Ok, or where there is no memory for it.
    pub fn send(&mut self, alloc: Global, text: &str)
        ensures sent { Sent T.contents text.now self.old self.new }
        ensures kept { Kept self.old self.new }
    {
        match Message::text(alloc, text) {
            Ok(message) => self.send_message(message),
            Err(_) => self.stage = self.stage.ended(Cause::NoMemory),
        }
    }

    /// Sends a Ping without a payload (RFC 6455, section 5.5.2), if the connection is open. It ends where that isn't Ok.
    pub fn ping(&mut self)
        ensures pinged { Pinged T.contents self.old self.new }
        ensures kept { Kept self.old self.new }
    {
        if self.stage.is_open() {
            self.send_message(Message::Ping(Bytes::new()));
        }
    }

    fn send_message(&mut self, message: Message)
        ensures sent { SentMessage T.contents (content_of message) self.old self.new }
        ensures kept { Kept self.old self.new }
    {
        let gave = self.socket.send(message);
        self.stage = self.stage.after_send(gave);
    }

    /// Reads once, if the connection is open: a text within the limit, or nothing. A longer text, one that isn't UTF-8
    /// and a breach of the protocol end it with the close codes 1009, 1007 and 1002, and a Close is answered before it
    /// ends (RFC 6455, sections 5.5.1 and 7.4.1).
    pub fn take(&mut self) -> Option<Utf8Bytes>
        ensures took { Took T.remaining T.contents self.old self.new result }
        ensures open { IfSome result (λ _. is_open (stage_of self.new) ≡ true) }
        ensures kept { Kept self.old self.new }
    {
        if !self.stage.is_open() {
            return None;
        }
        let gave = self.socket.read();
        match what_is_heard(gave) {
            Heard::Text(text) => Some(text),
            Heard::Nothing => None,
            Heard::Breach(code) => {
                self.close(code, "", Stage::Ended(Cause::Breach(code)));
                None
            }
            Heard::Ends(cause) => {
                self.stage = Stage::Ended(cause);
                let _flushed = self.socket.flush();
                None
            }
        }
    }

    fn close(&mut self, code: CloseCode, reason: &'static str, stage: Stage)
        ensures { Closed T.contents (Some (code, reason.now)) stage self.old self.new }
    {
        let reason = Utf8Bytes::from_static(reason);
        self.close_with(CloseFrame { code, reason }, stage);
    }

    fn close_with(&mut self, frame: CloseFrame, stage: Stage)
        ensures { Closed T.contents (close_of (Some frame)) stage self.old self.new }
    {
        let _closed = self.socket.close(Some(frame));
        self.stage = stage;
    }

    /// Its connection ends for that cause, if it is open.
    pub fn end(&mut self, cause: Cause)
        ensures end { self.new ≡ ends cause self.old }
        ensures kept { Kept self.old self.new }
    {
        self.stage = self.stage.ended(cause);
    }

    /// Its connection ends for a fault, if it is open: it gets a close frame with the code 1011 (RFC 6455, section
    /// 7.4.1).
    pub fn fail(&mut self)
        ensures failed { Failed T.contents self.old self.new }
        ensures kept { Kept self.old self.new }
    {
        self.end_with(CloseCode::Error, Cause::Fault);
    }

    /// Its connection ends for that cause, if it is open: it gets a close frame with that code and no reason.
    pub(crate) fn end_with(&mut self, code: CloseCode, cause: Cause)
        ensures ended { EndsWith T.contents code cause self.old self.new }
        ensures kept { Kept self.old self.new }
    {
        if self.stage.is_open() {
            self.close(code, "", Stage::Ended(cause));
        }
    }

    /// Another connection takes its place. An open one gets a close frame with the code 1008 and a reason (RFC 6455,
    /// section 7.4.1).
    pub fn replace(&mut self)
        ensures { Replaced T.contents self.old self.new }
    {
        if self.stage.is_open() {
            self.close(CloseCode::Policy, REPLACED, Stage::Gone);
        } else {
            self.stage = Stage::Gone;
        }
    }

    /// It isn't admitted: its socket is closed with the code 1008 and a reason, and it is gone.
    pub(crate) fn shut(&mut self, reason: &'static str)
        ensures { Closed T.contents (Some (CloseCode.Policy, reason.now)) Stage.Gone self.old self.new }
    {
        self.close(CloseCode::Policy, reason, Stage::Gone);
    }

    /// A connection that has ended leaves: a station is to disconnect from the hub, and an operator
    /// is gone.
    pub fn leave(&mut self)
        ensures { self.new ≡ leaves self.old }
    {
        if matches!(self.stage, Stage::Ended(_)) {
            self.stage = match &self.route {
                Route::Station(_, _) => Stage::Leaving,
                Route::Operator(_) => Stage::Gone,
            };
        }
    }

    /// It is gone.
    pub fn finish(&mut self)
        ensures { self.new ≡ finishes self.old }
    {
        self.stage = Stage::Gone;
    }

    /// Whether it is an open connection of that station.
    pub fn is_open_at(&self, op: &str, station: &str) -> bool
        ensures { result ≡ is_open_at op.now station.now self.now }
    {
        self.stage.is_open() && self.route.is_station(op, station)
    }

    /// Whether it is an open connection of that operator.
    pub fn is_open_for(&self, op: &str) -> bool
        ensures { result ≡ is_open_for op.now self.now }
    {
        self.stage.is_open() && self.route.is_operator_of(op)
    }

    /// Sends a text to it, if it is an open connection of that operator. Where the text is `None`,
    /// since there was no memory for it, the connection ends.
    pub fn hear(&mut self, alloc: Global, op: &str, text: Option<&str>)
        ensures heard { ForText (option_map (λ t. t.now) text.entry) (λ t. Hears T.contents op.now t self.old self.new) }
        ensures kept { Kept self.old self.new }
    {
        if !self.is_open_for(op) {
            return;
        }
        match text {
            Some(text) => self.send(alloc, text),
            None => self.end(Cause::NoMemory),
        }
    }

    /// It is replaced, if it is a connection of that station.
    pub fn give_way(&mut self, op: &str, station: &str)
        ensures gives_way { GivesWay T.contents op.now station.now self.old self.new }
        ensures kept { Kept self.old self.new }
    {
        if self.route.is_station(op, station) {
            self.replace();
        }
    }
}

impl<T: Read + Write + Served + Drop> Peer<T> {
    /// Tells its stream its place.
    pub(crate) fn set_place(&self, place: usize) {
        self.socket.get_ref().set_place(place);
    }

    /// Tells its stream how many bytes may wait in it: listings are long, so an operator's has more room.
    pub(crate) fn set_room(&self) {
        let room = match &self.route {
            Route::Operator(_) => OPERATOR_ROOM,
            Route::Station(_, _) => STATION_ROOM,
        };
        self.socket.get_ref().set_room(room);
    }
}
