//! The server.

use crate::measured::connected_of;
use crate::prepared::Prepared;
use crate::reactor::{Clock, ServerReactor};
use crate::stop_file::StopFile;
use clients::now;
use command_line::{JournalOptions, VERSION};
use hub_rows::Store;
use ocpp_types::{Mem, Moment, Text};
use ready_streams::{ReadyStream, Streams};
use runs::{KeptJournal, RunFault, begin_journal};
use station_calls::VendorHandler;
use std::alloc::Global;
use std::fs::File;
use std::net::SocketAddr;
use std::time::Duration;
use telemetry::{Connected, ServerLog, now_of, page_of};
use turn_hub::TurnHub;
use ws_server::{Gateway, State, TurnServer};

/// The most seconds between two turns. Calls that stations leave unanswered end in such turns.
const MAX_WAIT: u64 = 1;

/// The nanoseconds after a turn that ended in a fault, if nothing is reported meanwhile.
const PAUSE: u64 = 10_000_000;

/// The nanoseconds that peers have at most, as the server ends, to take what waits for them.
const LAST_WAIT: u64 = 2_000_000_000;

/// Those that they have at least: a stream that is closed while bytes wait to be read is reset, and drops what is on its way.
const LEAST_WAIT: u64 = 300_000_000;

/// The seconds after a fault of the store in which health checks are answered 503.
const HURT: u64 = 60;

/// The seconds of silence after which a peer is sent a Ping.
const PING_AFTER: u64 = 120;

/// The seconds after a Ping in which a peer that stays silent loses its connection.
const ANSWER_WITHIN: u64 = 120;

/// The bytes that are set aside for the case that memory runs out.
const RESERVE: usize = 65_536;

/// The most connections that a turn accepts.
const MAX_ACCEPTS: usize = 64;

/// A server as it runs.
#[derive(Drop)]
pub struct Server<S, V> {
    pub(crate) alloc: Global,
    /// Where it listens.
    pub(crate) address: SocketAddr,
    pub(crate) turns: TurnServer<ReadyStream, S, V, File>,
    pub(crate) reactor: ServerReactor,
    /// The moment of the last turn.
    pub(crate) moment: Moment,
    /// The metrics as they were printed last, and in which second.
    pub(crate) page: Option<(u64, String)>,
    /// The most connections of stations that an operator has.
    pub(crate) most_stations: u64,
    pub(crate) journal: KeptJournal,
    /// The path of the file of the records.
    pub(crate) db: Text,
    pub(crate) stop_file: StopFile,
    /// Accepting a connection failed in this second. It isn't tried again in it.
    pub(crate) failed_accept: bool,
}

impl<S: Store + Drop, V: VendorHandler> Server<S, V> {
    /// A server over a hub, which begins to take connections from these streams.
    pub fn new(
        hub: TurnHub<S, V, File>,
        streams: Streams,
        prepared: Prepared,
        log: ServerLog,
    ) -> Server<S, V> {
        let Prepared {
            alloc,
            address,
            moment,
            begun,
            service,
            metrics,
            lobby,
            most_stations,
            db,
            stop_file,
        } = prepared;
        let clock = Clock::new(begun);
        let reserve = set_aside(alloc).ok();
        Server {
            alloc,
            address,
            turns: TurnServer::new(hub, gateway_with_notes(alloc), lobby),
            reactor: ServerReactor::new(streams, service, metrics, log, clock, reserve),
            moment,
            page: None,
            most_stations,
            journal: KeptJournal::none(),
            db,
            stop_file,
            failed_accept: false,
        }
    }

    /// Keeps a journal from now on, in which the server begins with those operators. What is taken is in its file before peers
    /// are told of it.
    pub fn keep_journal(
        &mut self,
        rt: &HostRuntime,
        options: &JournalOptions,
    ) -> Result<(), RunFault> {
        let hub = &mut self.turns.hub;
        let operators = hub.hosted();
        let writer = begin_journal(rt, options, operators, hub.changes())?;
        self.journal.keep(self.alloc, options, operators)?;
        hub.set_journal(writer);
        self.reactor.streams.hold();
        Ok(())
    }

    /// From now on peers are told what is taken in a turn once it ends.
    pub fn hold_turns(&mut self) {
        self.reactor.streams.hold();
    }

    /// Writes the line with which its log begins.
    pub fn tell_start(&mut self, text: &str) {
        self.reactor.log.write_line(self.moment, text);
    }

    /// Makes that many turns, without waiting, or goes on until it is ended. It ends where the database is shut, as it is
    /// after a failed sync until it is opened anew, and where its file is found that ends it.
    pub fn run(&mut self, rt: &HostRuntime, turns: Option<u32>) -> Result<(), RunFault> {
        for _ in 0..turns.map_or(u64::MAX, u64::from) {
            self.wait(rt, turns.is_none())?;
            let began = self.reactor.clock.read(rt);
            self.tick(rt)?;
            self.turn(rt);
            self.write_log();
            let now = self.reactor.end_turn(rt, began);
            let moment = self.moment;
            let hub = &mut self.turns.hub;
            self.journal.go_on(rt, hub, now, moment)?;
            if matches!(self.turns.state(), State::Shut) {
                return Err(RunFault::Store);
            }
            if self.stop_file.is_there(rt, now) {
                return self.end(rt);
            }
        }
        Ok(())
    }

    /// Ends: what was read is answered, and nothing more is read. Connections are closed with the code 1001. Their peers
    /// have two seconds to take what waits for them.
    fn end(&mut self, rt: &HostRuntime) -> Result<(), RunFault> {
        let count = self.turns.gateway.count();
        self.confirm();
        self.turns.gateway.end_all();
        self.reactor.streams.end_turn();
        self.wait_for_peers(rt)?;
        self.stop_file.remove(rt);
        let text = format!(in self.alloc; "central ends: {count} connections closed")?;
        self.reactor.log.write_line(self.moment, text.as_str());
        Ok(())
    }

    /// Waits until peers have taken what waits for them, within bounds.
    fn wait_for_peers(&mut self, rt: &HostRuntime) -> Result<(), RunFault> {
        let begun = self.reactor.clock.read(rt);
        for _ in 0..u64::MAX {
            let waited = self.reactor.clock.read(rt).saturating_sub(begun);
            let is_taken = self.reactor.streams.count_unsent() == 0 && waited >= LEAST_WAIT;
            if is_taken || waited >= LAST_WAIT {
                break;
            }
            if let Err(error) = self.reactor.streams.wait(Duration::from_millis(100)) {
                return Err(RunFault::at(self.address, error));
            }
            self.reactor.streams.end_turn();
        }
        Ok(())
    }

    /// Takes the system's reports on streams. It waits for one where nothing can be done without.
    fn wait(&mut self, rt: &HostRuntime, may_wait: bool) -> Result<(), RunFault> {
        let time = if may_wait {
            self.pause()
        } else {
            Duration::from_secs(0)
        };
        let before = self.reactor.clock.now();
        let waited = self.reactor.streams.wait(time);
        let idle = self.reactor.clock.read(rt).saturating_sub(before);
        self.reactor.metrics.idle = self.reactor.metrics.idle.saturating_add(idle);
        waited.map_err(|error| RunFault::at(self.address, error))
    }

    /// How long nothing can be done, if nothing is reported: until the operators that rest are served again, and 10 ms
    /// after a turn that ended in a fault, so that a fault that stays doesn't take a whole processor.
    fn pause(&mut self) -> Duration {
        let longest = Duration::from_secs(MAX_WAIT);
        let accepts = self.may_accept() && self.turns.lobby.has_room(self.reactor.second);
        let least = if self.reactor.has_faulted { PAUSE } else { 0 };
        if accepts && self.reactor.streams.may_accept() {
            return Duration::from_nanos(least);
        }
        let gateway = &self.turns.gateway;
        match self.reactor.pause(gateway) {
            Some(pause) => Duration::from_nanos(pause.max(least)).min(longest),
            None => longest,
        }
    }

    /// Reads the clocks. A moment is never before that of the turn before, so that a clock that is set back ends no
    /// call before its time. What becomes of connections goes by the seconds since the start, which no clock that is set
    /// moves. In a new one the streams that are gone are closed, and silent peers are found.
    fn tick(&mut self, rt: &HostRuntime) -> Result<(), RunFault> {
        let moment = now(rt).ok_or(RunFault::Clock)?;
        if moment > self.moment {
            self.moment = moment;
        }
        let second = self.reactor.clock.now() / 1_000_000_000;
        if second != self.reactor.second {
            self.reactor.second = second;
            self.failed_accept = false;
            self.reactor.streams.release_all();
            if self.reactor.reserve.is_none() {
                self.reactor.reserve = set_aside(self.alloc).ok();
            }
            let is_hurt = is_recent(self.reactor.hurt, second);
            self.turns.lobby.set_hurt(is_hurt);
            self.reactor.log.begin_second(moment);
            self.count_stations();
            self.probe();
            self.confirm();
        }
        Ok(())
    }

    /// Sends a Ping to the peers that are silent, and ends the connections of those that stay silent after one: their
    /// system or the way to it may be gone without a word. What is read of a peer ends its silence.
    fn probe(&mut self) {
        let second = self.reactor.second;
        let streams = &mut self.reactor.streams;
        streams.set_second(second);
        streams.find_silent(PING_AFTER, ANSWER_WITHIN);
        let gateway = &mut self.turns.gateway;
        gateway.ping(streams.to_ping());
        gateway.end_silent(streams.to_end());
    }

    /// Answers those that ask for the metrics, which are printed once in a second at most.
    pub(crate) fn answer_readers(&mut self, rt: &HostRuntime) {
        let second = self.reactor.second;
        if !self.has_page(second) {
            self.page = self.print_page(rt).ok().map(|text| (second, text));
        }
        let lobby = &mut self.turns.lobby;
        match &self.page {
            Some(page) => lobby.answer_readers(page.1.as_str()),
            None => lobby.answer_readers(""),
        }
    }

    /// Whether the metrics were printed in that second.
    fn has_page(&self, second: u64) -> bool {
        match &self.page {
            Some(page) => page.0 == second,
            None => false,
        }
    }

    /// What is counted of each operator.
    fn connected(&self) -> Mem<Vec<Connected>> {
        let hub = self.turns.hub.hub();
        connected_of(self.alloc, &self.reactor.service, &self.turns.gateway, hub)
    }

    fn print_page(&self, rt: &HostRuntime) -> Mem<String> {
        let connected = self.connected()?;
        let mut now = now_of(rt, self.db.as_str())?;
        now.since_start = self.reactor.clock.now();
        now.waiting = self.turns.lobby.count() as u64;
        now.unsent = self.reactor.streams.count_unsent() as u64;
        now.left_out = self.reactor.log.left_out();
        page_of(
            self.alloc,
            VERSION,
            &self.reactor.metrics,
            connected.as_slice(),
            &now,
        )
    }

    /// Counts the notes of a turn, and writes them to the log.
    fn write_log(&mut self) {
        let refused = self.turns.lobby.take_notes();
        self.reactor.metrics.note(refused.as_slice());
        self.reactor
            .log
            .write_notes(self.moment, refused.as_slice());
        let notes = self.turns.gateway.take_notes();
        self.reactor.metrics.note(notes.as_slice());
        self.reactor.log.write_notes(self.moment, notes.as_slice());
        if !notes.is_empty() {
            self.name_full();
        }
    }

    /// Names those operators to the gateway that have as many connections of stations as they may have. Where there is no
    /// memory for it, those that were named last are.
    fn name_full(&mut self) {
        if let Ok(full) = self.reactor.metrics.full(self.alloc, self.most_stations) {
            self.turns.gateway.set_full(full);
        }
    }

    /// Counts the connections of stations anew where an operator seems full, since a note may be left out for want of memory.
    fn count_stations(&mut self) {
        let most = self.most_stations;
        if !self.reactor.has_full(most) {
            return;
        }
        let connected = self.connected();
        if let Ok(connected) = connected {
            self.reactor.metrics.set_stations(connected.as_slice());
            self.name_full();
        }
    }

    /// Whether connections are accepted in this second.
    fn may_accept(&self) -> bool {
        !self.failed_accept && self.reactor.reserve.is_some()
    }

    /// Accepts connections until none waits, up to a bound.
    pub(crate) fn accept(&mut self) -> Result<(), RunFault> {
        if !self.may_accept() {
            return Ok(());
        }
        for _ in 0..MAX_ACCEPTS {
            if !self.turns.lobby.has_room(self.reactor.second) {
                break;
            }
            match self.reactor.streams.accept() {
                Ok(Some((stream, client))) => {
                    self.turns
                        .lobby
                        .enter(stream, Some(client), self.reactor.second)?;
                }
                Ok(None) => break,
                Err(error) => return Err(RunFault::at(self.address, error)),
            }
        }
        Ok(())
    }
}

/// The admitted connections, of which there are none yet. What becomes of them is noted.
fn gateway_with_notes(alloc: Global) -> Gateway<ReadyStream> {
    let mut gateway = Gateway::new(alloc);
    gateway.keep_notes();
    gateway
}

/// Whether a fault was a short time before that second.
fn is_recent(fault: Option<u64>, second: u64) -> bool {
    fault.is_some_and(|fault| second < fault.saturating_add(HURT))
}

/// Sets memory aside.
fn set_aside(alloc: Global) -> Mem<Vec<u8>> {
    let mut bytes = Vec::new(alloc);
    bytes.reserve(RESERVE)?;
    Ok(bytes)
}
