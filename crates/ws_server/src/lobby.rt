//! Connections whose handshake is not done.
ghost use Rattle.std.specs.Prelude.{◌≡◌, ◌≢◌, ◌++◌, ◌∷◌, ◌<◌, ◌≤◌, List, [], true, slice_index_or, Err, OnOk, OnErr, IfOk, IfErr, length, IsOk};
ghost use Rattle.hub_rows.specs.Reads.{IsCounted};
ghost use Rattle.turn_hub.specs.TurnHub.{KeepsRecord, hub_view, is_clean};
ghost use Rattle.ws_server.specs.Admits.{AsksFor};
ghost use Rattle.ws_server.specs.Lobbies.{waiting_count, with_room, origins_of, is_late, IfWelcome};
ghost use Rattle.ws_server.specs.Steps.{Takes};
ghost use Rattle.ws_server.specs.Tells.{peers_of};

use crate::arrival::Client;
use crate::gateway::Gateway;
use connection_notes::{Happened, Note, Notes, Refusal};
use hub::Fault;
use hub_rows::Store;
use journal::JournalFile;
use ocpp_types::{Mem, Moment, Text};
use ready_streams::{Peek, Served};
use station_calls::VendorHandler;
use std::alloc::Global;
use std::io::{ErrorKind, Read, Write};
use std::mem;
use std::net::SocketAddr;
use turn_hub::TurnHub;
use ws_handshake::{Answer, Asked, MAX_HEAD, Upgrade, judge, refuse};

/// The seconds that a head may take to come.
const PATIENCE: u64 = 2;

/// The seconds that a head may take to come while others wait for a place.
const GRACE: u64 = 1;

/// The most connections that wait at once.
const MAX_WAITING: usize = 4096;

/// A connection that was accepted.
#[derive(Drop)]
struct Waiting<T> {
    stream: T,
    address: Option<SocketAddr>,
    /// The second in which it was accepted.
    since: u64,
}

/// A connection that asks for the metrics, by a head of so many bytes.
#[derive(Drop)]
struct Reader<T> {
    stream: T,
    seen: usize,
}

impl<T: Read + Write + Drop> Reader<T> {
    /// Answers it, and closes its stream. An answer for which the stream has no room is lost.
    fn answer(self, text: &str) {
        if let Ok(stream) = refuse(self.stream, self.seen, Answer::Metrics) {
            let mut stream = stream;
            let _lost = stream.write_all(text.as_bytes());
        }
    }
}

/// Connections whose head is not complete, in the order in which they were accepted. No turn waits
/// for them: each is polled once per turn. It is dropped in the first turn more than 2 seconds after
/// the one in which it was accepted. Seconds are those since the start of the server, so that no clock that is
/// set moves them.
#[derive(Drop)]
pub struct Lobby<T> {
    alloc: Global,
    waiting: Vec<Waiting<T>>,
    /// Those that ask for the metrics, and aren't answered yet.
    readers: Vec<Reader<T>>,
    head: Vec<u8>,
    notes: Notes,
    /// The origins of the pages that are served.
    origins: Vec<Text>,
    /// Health checks are answered 503.
    is_hurt: bool,
}

/// What is to be done with a connection that waits.
#[derive(Drop)]
enum Next {
    /// It waits on.
    Wait,
    /// It is dropped, for that reason.
    Drop(Refusal),
    /// So many bytes have come, and they make no connection: they are answered so.
    Refuse(usize, Answer),
    /// Its head is complete, and asks for that.
    Welcome(Upgrade),
}

#[tactic(auto, using(crate::proofs::StepLaws::stayed))]
impl<T: Peek + Read + Write + Served + Drop> Lobby<T> {
    ghost use Rattle.ws_server.specs.Admits.{WelcomesOne, WelcomesSome};
    ghost use Rattle.ws_server.specs.declared.lobby.Waiting.{Waiting};

    /// No connection. Of pages in a browser those of these origins are served, as `https://console.example` or `null`
    /// (RFC 6454, sections 6 and 7).
    pub fn new(alloc: Global, origins: Vec<Text>) -> Mem<Lobby<T>>
        ensures none { IfOk result (λ l. waiting_count l ≡ 0) }
        ensures origins { IfOk result (λ l. origins_of l ≡ origins.items) }
    {
        let mut head = Vec::new(alloc);
        head.resize(MAX_HEAD, 0)?;
        Ok(Lobby {
            alloc,
            waiting: Vec::new(alloc),
            readers: Vec::new(alloc),
            head,
            notes: Notes::new(alloc),
            origins,
            is_hurt: false,
        })
    }

    /// How many wait.
    pub fn count(&self) -> usize
        ensures { result ≡ waiting_count self.now }
    {
        self.waiting.len()
    }

    /// Whether one more may be accepted: fewer than 4,096 wait, or the one that was accepted first has waited for
    /// more than a second.
    pub fn has_room(&self, second: u64) -> bool
        ensures few { length self.now.waiting.items < 4096 → result ≡ true }
        ensures many { (first : Waiting T) (others : List (Waiting T)) → self.now.waiting.items ≡ first ∷ others
            → 4096 ≤ length self.now.waiting.items → result ≡ is_late second first.since 1 }
    {
        self.waiting.len() < MAX_WAITING
            || self
                .waiting
                .first()
                .is_none_or(|first| first.is_late(second, GRACE))
    }

    /// Takes a connection that was accepted in that second, from that address. Where 4,096 wait, the
    /// one that was accepted first is dropped. Without memory for the new one, that is dropped too.
    pub fn enter(&mut self, stream: T, address: Option<SocketAddr>, second: u64) -> Mem<()>
        ensures entered { OnOk result (self.new.waiting.items ≡ with_room self.old.waiting.items ++ record { stream = stream; address = address; since = second } ∷ []) }
        ensures dropped { OnErr result (self.new.waiting.items ≡ with_room self.old.waiting.items) }
        ensures origins { origins_of self.new ≡ origins_of self.old }
    {
        if self.waiting.len() >= MAX_WAITING {
            let first = self.waiting.remove(0);
            self.refuse(first.address, Refusal::Crowded);
        }
        self.waiting.push(Waiting {
            stream,
            address,
            since: second,
        })?;
        Ok(())
    }

    /// From now on health checks are answered 503, or 200 again.
    pub fn set_hurt(&mut self, is_hurt: bool)
        ensures waiting { self.new.waiting.items ≡ self.old.waiting.items }
        ensures origins { origins_of self.new ≡ origins_of self.old }
    {
        self.is_hurt = is_hurt;
    }

    /// From now on it keeps notes of what becomes of connections.
    pub fn keep_notes(&mut self)
        ensures waiting { self.new.waiting.items ≡ self.old.waiting.items }
        ensures origins { origins_of self.new ≡ origins_of self.old }
    {
        self.notes.keep();
    }

    /// The notes since they were last taken, in order.
    pub fn take_notes(&mut self) -> Vec<Note>
        ensures waiting { self.new.waiting.items ≡ self.old.waiting.items }
        ensures origins { origins_of self.new ≡ origins_of self.old }
    {
        self.notes.take()
    }

    /// Whether connections wait for the metrics.
    pub fn has_readers(&self) -> bool {
        !self.readers.is_empty()
    }

    /// Answers those that wait for the metrics, with that text.
    pub fn answer_readers(&mut self, text: &str)
        ensures waiting { self.new.waiting.items ≡ self.old.waiting.items }
        ensures origins { origins_of self.new ≡ origins_of self.old }
    {
        for reader in mem::replace(&mut self.readers, Vec::new(self.alloc)) {
            reader.answer(text);
        }
    }

    /// The answer as it is given, where a health check is answered by whether all is well.
    fn told(&self, answer: Answer) -> Answer {
        match answer {
            Answer::Healthy if self.is_hurt => Answer::Unavailable,
            other => other,
        }
    }

    /// Notes a connection that isn't admitted.
    fn refuse(&mut self, address: Option<SocketAddr>, refusal: Refusal)
        ensures waiting { self.new.waiting.items ≡ self.old.waiting.items }
        ensures origins { origins_of self.new ≡ origins_of self.old }
    {
        self.notes.add(None, address, Happened::Refused(refusal));
    }

    /// Polls each that waits once. One whose head asks for a handshake is welcomed by the gateway, and one that asks for
    /// anything else is answered and dropped; after a fault it is dropped, and the others wait for the next turn. One whose
    /// head isn't whole is dropped if that second is late.
    pub fn serve<S: Store + Drop, V: VendorHandler, W: JournalFile + Drop>(
        &mut self,
        gateway: &mut Gateway<T>,
        hub: &mut TurnHub<S, V, W>,
        moment: Moment,
        second: u64,
    ) -> Result<(), Fault>
        ensures takes { Takes S.view V.view W.contents hub.old hub.new
            (λ steps. WelcomesSome T.remaining T.contents moment (origins_of self.old) (peers_of gateway.old) (peers_of gateway.new) steps result) }
        ensures counted { IsCounted (hub_view S.view) hub.old hub.new (result ≡ Err Fault.Store) }
        ensures records { KeepsRecord S.view hub.old hub.new (IsOk result) }
        ensures hosted { is_clean S.view hub.new → IfErr result (λ f. f ≢ Fault.NoSuchOperator) }
        ensures fewer { waiting_count self.new ≤ waiting_count self.old }
        ensures origins { origins_of self.new ≡ origins_of self.old }
    {
        let mut n = 0_usize;
        for _ in 0..self.waiting.len() {
            self.look(gateway, hub, &mut n, moment, second)?;
        }
        Ok(())
    }

    /// Polls the one at place n, if there is one, and moves n to the next.
    fn look<S: Store + Drop, V: VendorHandler, W: JournalFile + Drop>(
        &mut self,
        gateway: &mut Gateway<T>,
        hub: &mut TurnHub<S, V, W>,
        n: &mut usize,
        moment: Moment,
        second: u64,
    ) -> Result<(), Fault>
        ensures takes { Takes S.view V.view W.contents hub.old hub.new
            (λ steps. WelcomesOne T.remaining T.contents moment (origins_of self.old) (peers_of gateway.old) (peers_of gateway.new) steps result) }
        ensures counted { IsCounted (hub_view S.view) hub.old hub.new (result ≡ Err Fault.Store) }
        ensures records { KeepsRecord S.view hub.old hub.new (IsOk result) }
        ensures hosted { is_clean S.view hub.new → IfErr result (λ f. f ≢ Fault.NoSuchOperator) }
        ensures fewer { waiting_count self.new ≤ waiting_count self.old }
        ensures origins { origins_of self.new ≡ origins_of self.old }
    {
        if *n >= self.waiting.len() {
            return Ok(());
        }
        match self.next(gateway.alloc, *n, second) {
            Ok(Next::Wait) => {
                *n = n.saturating_add(1);
                Ok(())
            }
            Ok(Next::Drop(refusal)) => {
                let dropped = self.waiting.remove(*n);
                self.refuse(dropped.address, refusal);
                Ok(())
            }
            Ok(Next::Refuse(seen, answer)) => {
                let one = self.waiting.remove(*n);
                self.answer(one, seen, answer);
                Ok(())
            }
            Ok(Next::Welcome(upgrade)) => {
                let one = self.waiting.remove(*n);
                let client = Client {
                    stream: one.stream,
                    address: one.address,
                };
                gateway.welcome(hub, client, upgrade, moment)
            }
            Err(fault) => {
                let _dropped = self.waiting.remove(*n);
                Err(Fault::from(fault))
            }
        }
    }

    /// Answers a connection that makes none, and closes its stream. One that asks for the metrics waits for them.
    fn answer(&mut self, one: Waiting<T>, seen: usize, answer: Answer)
        ensures waiting { self.new.waiting.items ≡ self.old.waiting.items }
        ensures origins { origins_of self.new ≡ origins_of self.old }
    {
        if let Some(refusal) = Refusal::of(answer) {
            self.refuse(one.address, refusal);
        }
        let stream = one.stream;
        if answer == Answer::Metrics {
            let _lost = self.readers.push(Reader { stream, seen });
        } else {
            let _closed = refuse(stream, seen, self.told(answer));
        }
    }

    fn next(&mut self, alloc: Global, n: usize, second: u64) -> Mem<Next>
        requires { n < length self.old.waiting.items }
        ensures waiting { self.new.waiting.items ≡ self.old.waiting.items }
        ensures origins { origins_of self.new ≡ origins_of self.old }
        ensures asks { IfOk result (λ next. IfWelcome next (λ upgrade. (other : Waiting T)
            → AsksFor (origins_of self.old) T.remaining (slice_index_or self.old.waiting.items n other).stream upgrade)) }
    {
        let one = &self.waiting[n];
        let is_late = one.is_late(second, PATIENCE);
        let head = self.head.as_mut_slice();
        next_of(alloc, &one.stream, head, self.origins.as_slice(), is_late)
    }
}

/// What is to be done with a connection, by the next bytes of its stream, for which there is room.
fn next_of<T: Peek>(
    alloc: Global,
    stream: &T,
    room: &mut [u8],
    origins: &[Text],
    is_late: bool,
) -> Mem<Next>
    ensures { IfOk result (λ next. IfWelcome next (AsksFor origins.now T.remaining stream.now)) }
{
    match stream.peek(room) {
        Ok(0) => Ok(Next::Drop(Refusal::Lost)),
        Ok(len) => match judge(alloc, &room[..len], origins)? {
            Asked::More => Ok(waits(is_late)),
            Asked::Plain(answer) => Ok(Next::Refuse(len, answer)),
            Asked::Upgraded(upgrade) => Ok(Next::Welcome(upgrade)),
        },
        Err(error) if error.kind() == ErrorKind::WouldBlock => Ok(waits(is_late)),
        Err(_) => Ok(Next::Drop(Refusal::Lost)),
    }
}

/// What is to be done with a connection whose head isn't whole.
fn waits(is_late: bool) -> Next
    ensures { IfWelcome result (λ upgrade. ⊥) }
{
    if is_late {
        Next::Drop(Refusal::Late)
    } else {
        Next::Wait
    }
}

impl<T> Waiting<T> {
    /// Whether it has waited for longer than that.
    fn is_late(&self, second: u64, seconds: u64) -> bool
        ensures { result ≡ is_late second self.now.since seconds }
    {
        second > self.since.saturating_add(seconds)
    }
}
