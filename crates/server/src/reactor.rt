//! What the turns of a server go by.
use crate::service::Service;
use hub::Fault;
use ready_streams::{ReadyStream, Streams};
use std::time::Instant;
use telemetry::{Counts, Metrics, ServerLog};
use ws_peers::Route;
use ws_server::{Gateway, Reactor, State, Written};

/// How long a turn serves connections at least, in nanoseconds. It serves for as long as the turn has taken before, if that is
/// longer. The next turn serves those that are left, after what is reported meanwhile.
const SERVES: u64 = 1_000_000;

/// The nanoseconds since the start of a server.
#[derive(Drop)]
pub struct Clock {
    begun: Instant,
    now: u64,
}

impl Clock {
    /// The server began then.
    pub fn new(begun: Instant) -> Clock {
        Clock { begun, now: 0 }
    }

    /// The nanoseconds as they were read last.
    pub fn now(&self) -> u64 {
        self.now
    }

    /// Reads them. They never go back.
    pub fn read(&mut self, rt: &HostRuntime) -> u64 {
        let nanoseconds = self.begun.elapsed(rt).map_or(0, |time| time.as_nanos());
        let now = u64::try_from(nanoseconds).unwrap_or(u64::MAX);
        self.now = self.now.max(now);
        self.now
    }
}

/// The peer that is served.
#[derive(Drop)]
struct Serving {
    /// The number of its operator.
    owner: usize,
    is_station: bool,
    /// When its service began.
    since: u64,
}

/// The streams of a server, its clock, and whom it serves.
#[derive(Drop)]
pub struct ServerReactor {
    pub streams: Streams,
    pub service: Service,
    pub metrics: Metrics,
    pub log: ServerLog,
    pub clock: Clock,
    /// The second since the start, in the last turn.
    pub second: u64,
    /// The last turn ended in a fault.
    pub has_faulted: bool,
    /// The second in which the store failed last, though it still answers.
    pub hurt: Option<u64>,
    /// Memory that is set aside. It is given up after an event that found none, so that connections can end, and no
    /// connection is accepted until it is set aside again.
    pub reserve: Option<Vec<u8>>,
    written: Written,
    /// Until when the turn serves connections.
    serves_until: u64,
    /// How long the last commit of a turn took, in nanoseconds.
    commit_time: u64,
    serving: Option<Serving>,
}

impl ServerReactor {
    /// Over streams.
    pub fn new(
        streams: Streams,
        service: Service,
        metrics: Metrics,
        log: ServerLog,
        clock: Clock,
        reserve: Option<Vec<u8>>,
    ) -> ServerReactor {
        ServerReactor {
            streams,
            service,
            metrics,
            log,
            clock,
            second: 0,
            has_faulted: false,
            hurt: None,
            reserve,
            written: Written::Held,
            serves_until: 0,
            commit_time: 0,
            serving: None,
        }
    }

    /// In how many nanoseconds a connection that has something to read may be served. `None` where there is none.
    pub fn pause(&mut self, gateway: &Gateway<ReadyStream>) -> Option<u64> {
        let now = self.clock.now();
        let places = self.streams.readable_peers();
        self.service.pause(gateway, places, now)
    }

    /// Returns whether the metrics count at least `most` connections of stations for one operator.
    pub fn has_full(&self, most: u64) -> bool {
        let is_full = |counts: &Counts| counts.stations >= most;
        self.metrics.counts.iter().any(is_full)
    }

    /// Measures a turn that began then. The nanoseconds since the start.
    pub fn end_turn(&mut self, rt: &HostRuntime, began: u64) -> u64 {
        let now = self.clock.read(rt);
        let second = self.second;
        self.metrics.turn.add(now.saturating_sub(began), second);
        now
    }

    /// Where one operator alone waits a turn is as long as its last commit took, so that a slow disk makes larger batches.
    fn wide(&self) -> u64 {
        if self.service.count_waiting() > 1 {
            0
        } else {
            self.commit_time
        }
    }
}

/// Each operator is charged for the time of its events, and the one that was charged least is next. Where each change is
/// committed alone and no journal is kept, streams may give what is written before the turn ends.
impl Reactor<ReadyStream, HostRuntime> for ServerReactor {
    ghost written = { λ reactor. reactor.written };

    fn begin(&mut self) {
        self.written = Written::Held;
        self.has_faulted = false;
    }

    fn begin_service(&mut self, rt: &HostRuntime, gateway: &Gateway<ReadyStream>) {
        let places = self.streams.readable_peers();
        self.service.begin(gateway, places);
        let turn = self.clock.now();
        let begun = self.clock.read(rt);
        let time = SERVES.max(begun.saturating_sub(turn)).max(self.wide());
        self.serves_until = begun.saturating_add(time);
    }

    fn next(&mut self, _rt: &HostRuntime, gateway: &Gateway<ReadyStream>) -> Option<usize> {
        let now = self.clock.now();
        if now >= self.serves_until {
            return None;
        }
        let (owner, place) = self.service.next_there(gateway, now)?;
        let is_station = matches!(gateway.route(place), Some(Route::Station(_, _)));
        self.serving = Some(Serving {
            owner,
            is_station,
            since: now,
        });
        Some(place)
    }

    fn served(&mut self, rt: &HostRuntime, gateway: &Gateway<ReadyStream>, events: u64) {
        let now = self.clock.read(rt);
        if let Some(serving) = &self.serving {
            let cost = now.saturating_sub(serving.since);
            let owner = serving.owner;
            self.metrics
                .serve(owner, serving.is_station, events, cost, self.second);
            self.service.charge(gateway, owner, cost, now);
        }
    }

    fn committed(&mut self, rt: &HostRuntime) {
        let before = self.clock.now();
        self.commit_time = self.clock.read(rt).saturating_sub(before);
    }

    /// Writes the fault to the log. The server writes that of a store that is shut as it ends.
    fn failed(&mut self, fault: &Fault, state: State) {
        self.has_faulted = !matches!(fault, Fault::TooLong);
        if matches!(fault, Fault::NoMemory) {
            self.reserve = None;
        }
        if matches!(fault, Fault::Store) {
            self.hurt = Some(self.second);
        }
        if !matches!(state, State::Shut) {
            let _told = self.log.write_fault(fault);
        }
    }

    fn give(&mut self) {
        self.streams.end_turn();
        self.written = match self.written {
            Written::Held | Written::Given => Written::Given,
            Written::Dropped => Written::Dropped,
        };
    }

    fn drop_turn(&mut self) {
        self.streams.drop_turn();
        self.written = Written::Dropped;
    }
}
