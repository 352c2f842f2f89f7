//! The turns of a server.
ghost use Rattle.std.specs.Prelude.{◌≡◌, ◌≢◌, ◌↔◌, [], true, Err, IsOk, OnErr, OnOk};
ghost use Rattle.std.specs.List.{AllZip};
ghost use Rattle.turn_hub.specs.TurnHub.{KeepsRecord, hub_view, setting};
ghost use Rattle.hub_rows.specs.Reads.{IsCounted};
ghost use Rattle.turn_hub.specs.declared.turn_hub.Commits.TheVariants.{Turns as TogetherInTurns};
ghost use Rattle.ws_peers.specs.Sends.{Failed};
ghost use Rattle.ws_server.specs.Admits.{WelcomesSome};
ghost use Rattle.ws_server.specs.Lobbies.{origins_of};
ghost use Rattle.ws_server.specs.Steps.{Takes};
ghost use Rattle.ws_server.specs.Tells.{peers_of};
ghost use Rattle.ws_server.specs.Turns.{PartsAndTicks};
ghost use Rattle.ws_server.specs.declared.reactor.Written.TheVariants.{Held, Given};
ghost use Rattle.ws_server.specs.declared.turn_server.State.TheVariants as State;

use crate::gateway::Gateway;
use crate::lobby::Lobby;
use crate::reactor::Reactor;
use hub::Fault;
use hub_rows::{Recovered, Store};
use journal::{JournalFault, JournalFile};
use ocpp_types::Moment;
use ready_streams::{Peek, Served};
use station_calls::VendorHandler;
use std::io::{Read, Write};
use turn_hub::{TurnFault, TurnHub};

/// Whether a server hands events to its hub.
#[derive(Clone, Copy, Debug, PartialEq, Eq, Drop)]
pub enum State {
    /// It does.
    Serving,
    /// It doesn't before the next turn: the changes of this one are gone.
    Lost,
    /// It doesn't before the store can tell whether changes are gone.
    Unsure,
    /// It doesn't any more: the store is shut.
    Shut,
    /// It doesn't any more: the journal can't be written.
    Unwritten,
}

/// When a turn is.
#[derive(Clone, Copy, Drop)]
pub struct TurnTime {
    /// By the system's clock. It is never before that of the turn before.
    pub moment: Moment,
    /// The seconds since the server began.
    pub second: u64,
}

/// The turn hands nothing more to the hub.
#[derive(Clone, Copy, Debug, PartialEq, Eq, Drop)]
struct Stopped;

/// A server that takes events in turns: its hub, its peers, and the connections whose handshake isn't done.
#[derive(Drop)]
pub struct TurnServer<T, S, V, W> {
    /// The hub, with the changes of the turn and its journal.
    pub hub: TurnHub<S, V, W>,
    /// The peers whose handshake is done.
    pub gateway: Gateway<T>,
    /// The connections whose handshake isn't done.
    pub lobby: Lobby<T>,
    state: State,
}

impl<
    T: Read + Write + Peek + Served + Drop,
    S: Store + Drop,
    V: VendorHandler,
    W: JournalFile + Drop,
> TurnServer<T, S, V, W> {
    ghost use Rattle.ws_server.specs.TurnServers.{Ends, EndsTurn, FindsEnd, FindsTurn, Holds, IsTold, ServesSome, Stage, ToFault, TurnOf};

    /// A server of that hub.
    pub fn new(
        hub: TurnHub<S, V, W>,
        gateway: Gateway<T>,
        lobby: Lobby<T>,
    ) -> TurnServer<T, S, V, W>
        ensures hub { result.hub ≡ hub }
        ensures gateway { result.gateway ≡ gateway }
        ensures lobby { result.lobby ≡ lobby }
        ensures state { result.state ≡ State.Serving }
    {
        TurnServer {
            hub,
            gateway,
            lobby,
            state: State::Serving,
        }
    }

    /// Whether it hands events to the hub.
    pub fn state(&self) -> State
        ensures { result ≡ self.now.state }
    {
        self.state
    }

    /// One turn. The connections whose heads are whole are welcomed, peers are served as the reactor chooses them, and those
    /// that have ended leave; each of the three goes on to its first fault. Then the turn of the hub ends, with its entry in
    /// the journal and its commit, and what was written to peers is given to the system. Where changes are gone nothing of it
    /// is, and all connections end; the next turn serves again. `operators` are those of the journal.
    pub fn turn<R, D: Reactor<T, R>>(
        &mut self,
        rt: &R,
        reactor: &mut D,
        time: TurnTime,
        operators: &str,
    )
        ensures { EndsTurn S.view V.view T.remaining T.contents time.moment W.contents (D.written reactor.new) self.old self.new }
    {
        reactor.begin();
        match self.serve_and_commit(rt, reactor, time, operators) {
            Ok(()) => reactor.give(),
            Err(Stopped) => self.stop(reactor),
        }
    }

    /// Serves a turn, and ends that of the hub.
    fn serve_and_commit<R, D: Reactor<T, R>>(
        &mut self,
        rt: &R,
        reactor: &mut D,
        time: TurnTime,
        operators: &str,
    ) -> Result<(), Stopped>
        ensures told { OnOk result (IsTold S.view V.view W.contents self.old.hub self.new.hub (TurnOf S.view V.view T.remaining T.contents time.moment self.old (peers_of self.new.gateway))) }
        ensures stopped { FindsTurn S.view V.view T.remaining T.contents time.moment self.old self.new.hub }
        ensures commits { self.new.hub.commits ≡ self.old.hub.commits }
        ensures state { OnOk result (self.new.state ≡ State.Serving) }
        ensures off { OnErr result (self.new.state ≢ State.Serving) }
        ensures written { D.written reactor.new ≡ D.written reactor.old }
    {
        self.serve_turn(rt, reactor, time, operators)?;
        self.commit(rt, reactor, operators)
    }

    /// Serves a turn.
    fn serve_turn<R, D: Reactor<T, R>>(
        &mut self,
        rt: &R,
        reactor: &mut D,
        time: TurnTime,
        operators: &str,
    ) -> Result<(), Stopped>
        ensures stage { Stage S.view V.view W.contents self.old.hub self.new.hub (IsOk result) (TurnOf S.view V.view T.remaining T.contents time.moment self.old (peers_of self.new.gateway)) }
        ensures state { OnOk result (self.new.state ≡ State.Serving) }
        ensures off { OnErr result (self.new.state ≢ State.Serving) }
        ensures written { D.written reactor.new ≡ D.written reactor.old }
    {
        let moment = time.moment;
        self.begin(operators)?;
        self.welcome(reactor, time, operators)?;
        self.serve(rt, reactor, moment, operators)?;
        self.part(reactor, moment, operators)
    }

    /// Begins a turn. Asks a store that couldn't tell whether changes are gone.
    fn begin(&mut self, operators: &str) -> Result<(), Stopped>
        ensures stage { Stage S.view V.view W.contents self.old.hub self.new.hub (IsOk result) (λ steps. steps ≡ []) }
        ensures state { OnOk result (self.new.state ≡ State.Serving) }
        ensures off { OnErr result (self.new.state ≢ State.Serving) }
        ensures gateway { self.new.gateway ≡ self.old.gateway }
        ensures lobby { self.new.lobby ≡ self.old.lobby }
    {
        match self.state {
            State::Serving | State::Lost => {
                self.state = State::Serving;
                Ok(())
            }
            State::Unsure => self.recover(operators),
            State::Shut | State::Unwritten => Err(Stopped),
        }
    }

    /// Welcomes the connections whose heads are whole.
    fn welcome<R, D: Reactor<T, R>>(
        &mut self,
        reactor: &mut D,
        time: TurnTime,
        operators: &str,
    ) -> Result<(), Stopped>
        ensures stage { Stage S.view V.view W.contents self.old.hub self.new.hub (IsOk result)
            (ToFault (WelcomesSome T.remaining T.contents time.moment (origins_of self.old.lobby)) (peers_of self.old.gateway) (peers_of self.new.gateway)) }
        ensures state { self.old.state ≡ State.Serving → OnOk result (self.new.state ≡ State.Serving) }
        ensures off { OnErr result (self.new.state ≢ State.Serving) }
        ensures written { D.written reactor.new ≡ D.written reactor.old }
    {
        let TurnTime { moment, second } = time;
        match self
            .lobby
            .serve(&mut self.gateway, &mut self.hub, moment, second)
        {
            Ok(()) => Ok(()),
            Err(fault) => self.fail(reactor, fault, operators),
        }
    }

    /// Serves the peers that the reactor chooses.
    fn serve<R, D: Reactor<T, R>>(
        &mut self,
        rt: &R,
        reactor: &mut D,
        moment: Moment,
        operators: &str,
    ) -> Result<(), Stopped>
        ensures stage { Stage S.view V.view W.contents self.old.hub self.new.hub (IsOk result)
            (ToFault (ServesSome T.remaining T.contents (setting V.view self.old.hub).is_hosted moment) (peers_of self.old.gateway) (peers_of self.new.gateway)) }
        ensures state { self.old.state ≡ State.Serving → OnOk result (self.new.state ≡ State.Serving) }
        ensures off { OnErr result (self.new.state ≢ State.Serving) }
        ensures written { D.written reactor.new ≡ D.written reactor.old }
    {
        reactor.begin_service(rt, &self.gateway);
        match self.serve_each(rt, reactor, moment) {
            Ok(()) => Ok(()),
            Err(fault) => self.fail(reactor, fault, operators),
        }
    }

    /// Serves the peers that the reactor chooses, up to the first fault.
    fn serve_each<R, D: Reactor<T, R>>(
        &mut self,
        rt: &R,
        reactor: &mut D,
        moment: Moment,
    ) -> Result<(), Fault>
        ensures takes { Takes S.view V.view W.contents self.old.hub self.new.hub
            (λ steps. ServesSome T.remaining T.contents (setting V.view self.old.hub).is_hosted moment (peers_of self.old.gateway) (peers_of self.new.gateway) steps result) }
        ensures counted { IsCounted (hub_view S.view) self.old.hub self.new.hub (result ≡ Err Fault.Store) }
        ensures records { KeepsRecord S.view self.old.hub self.new.hub (IsOk result) }
        ensures state { self.new.state ≡ self.old.state }
        ensures written { D.written reactor.new ≡ D.written reactor.old }
    {
        for _ in 0..u64::MAX {
            let Some(place) = reactor.next(rt, &self.gateway) else {
                return Ok(());
            };
            let before = self.gateway.taken();
            let served = self.gateway.serve_at(&mut self.hub, place, moment);
            let events = self.gateway.taken().wrapping_sub(before);
            reactor.served(rt, &self.gateway, events);
            served?;
        }
        Ok(())
    }

    /// Those that have ended leave.
    fn part<R, D: Reactor<T, R>>(
        &mut self,
        reactor: &mut D,
        moment: Moment,
        operators: &str,
    ) -> Result<(), Stopped>
        ensures stage { Stage S.view V.view W.contents self.old.hub self.new.hub (IsOk result)
            (ToFault (PartsAndTicks T.contents (setting V.view self.old.hub).is_hosted moment) (peers_of self.old.gateway) (peers_of self.new.gateway)) }
        ensures state { self.old.state ≡ State.Serving → OnOk result (self.new.state ≡ State.Serving) }
        ensures off { OnErr result (self.new.state ≢ State.Serving) }
        ensures written { D.written reactor.new ≡ D.written reactor.old }
    {
        match self.gateway.part_and_tick(&mut self.hub, moment) {
            Ok(()) => Ok(()),
            Err(fault) => self.fail(reactor, fault, operators),
        }
    }

    /// Tells the reactor of a fault. Where changes may be gone with it the store is asked for them.
    fn fail<R, D: Reactor<T, R>>(
        &mut self,
        reactor: &mut D,
        fault: Fault,
        operators: &str,
    ) -> Result<(), Stopped>
        ensures holds { Holds S.view V.view self.old.hub self.new.hub (IsOk result) }
        ensures gateway { self.new.gateway ≡ self.old.gateway }
        ensures state { self.old.state ≡ State.Serving → OnOk result (self.new.state ≡ State.Serving) }
        ensures off { OnErr result (self.new.state ≢ State.Serving) }
        ensures written { D.written reactor.new ≡ D.written reactor.old }
    {
        let is_of_store = matches!(fault, Fault::Store);
        if is_of_store {
            self.lobby.set_hurt(true);
        }
        if is_of_store || self.hub.has_turns() {
            let asked = self.recover(operators);
            reactor.failed(&fault, self.state);
            return asked;
        }
        reactor.failed(&fault, self.state);
        Ok(())
    }

    /// Asks the store whether changes that wait are gone.
    fn recover(&mut self, operators: &str) -> Result<(), Stopped>
        ensures holds { Holds S.view V.view self.old.hub self.new.hub (IsOk result) }
        ensures gateway { self.new.gateway ≡ self.old.gateway }
        ensures state { OnOk result (self.new.state ≡ State.Serving) }
        ensures off { OnErr result (self.new.state ≢ State.Serving) }
        ensures lobby { self.new.lobby ≡ self.old.lobby }
    {
        match self.hub.recover() {
            Ok(Recovered::Whole) => {
                self.state = State::Serving;
                return Ok(());
            }
            Ok(Recovered::Renewed) => self.begin_again(operators),
            Err(Fault::Store) => self.state = State::Shut,
            Err(_) => self.state = State::Unsure,
        }
        Err(Stopped)
    }

    /// The journal says that the changes of the turn aren't on record.
    fn begin_again(&mut self, operators: &str)
        ensures hub { self.new.hub.hub ≡ self.old.hub.hub }
        ensures commits { self.new.hub.commits ≡ self.old.hub.commits }
        ensures gateway { self.new.gateway ≡ self.old.gateway }
        ensures lobby { self.new.lobby ≡ self.old.lobby }
        ensures off { self.new.state ≢ State.Serving }
    {
        self.state = match self.hub.begin_again(operators) {
            Ok(()) => State::Lost,
            Err(JournalFault) => State::Unwritten,
        };
    }

    /// Ends the turn of the hub. A store that still has its changes after a commit that failed answers no more: whether they
    /// are on record isn't known.
    fn commit<R, D: Reactor<T, R>>(
        &mut self,
        rt: &R,
        reactor: &mut D,
        operators: &str,
    ) -> Result<(), Stopped>
        ensures ends { OnOk result (Ends S.view V.view W.contents self.old.hub self.new.hub) }
        ensures stopped { FindsEnd S.view V.view self.old.hub self.new.hub }
        ensures gateway { self.new.gateway ≡ self.old.gateway }
        ensures commits { self.new.hub.commits ≡ self.old.hub.commits }
        ensures state { self.old.state ≡ State.Serving → OnOk result (self.new.state ≡ State.Serving) }
        ensures off { OnErr result (self.new.state ≢ State.Serving) }
        ensures written { D.written reactor.new ≡ D.written reactor.old }
    {
        let has_waiting = self.hub.has_waiting();
        let ended = self.hub.end_turn();
        if has_waiting {
            reactor.committed(rt);
        }
        match ended {
            Ok(()) => Ok(()),
            Err(TurnFault::Journal) => {
                self.state = State::Unwritten;
                Err(Stopped)
            }
            Err(TurnFault::Hub(fault)) => {
                if self.fail(reactor, fault, operators).is_ok() {
                    self.state = State::Shut;
                }
                Err(Stopped)
            }
        }
    }

    /// Whether the journal can't be written.
    fn is_unwritten(&self) -> bool
        ensures { result ≡ true ↔ self.now.state ≡ State.Unwritten }
    {
        match self.state {
            State::Unwritten => true,
            State::Serving | State::Lost | State::Unsure | State::Shut => false,
        }
    }

    /// Ends a turn whose events aren't told. All connections end, unless nothing can be told any more.
    fn stop<R, D: Reactor<T, R>>(&mut self, reactor: &mut D)
        requires { D.written reactor.old ≡ Held }
        ensures hub { self.new.hub ≡ self.old.hub }
        ensures state { self.new.state ≡ self.old.state }
        ensures untold { self.old.hub.commits ≡ TogetherInTurns → D.written reactor.new ≢ Given }
        ensures ended { self.old.state ≢ State.Unwritten → AllZip (Failed T.contents) (peers_of self.old.gateway) (peers_of self.new.gateway) }
    {
        if self.is_unwritten() {
            return;
        }
        if self.hub.has_turns() {
            reactor.drop_turn();
        }
        self.gateway.fail_all();
        reactor.give();
    }
}
