//! A connection, from its head to its admission.
ghost use Rattle.std.specs.Prelude.{◌≡◌, ◌≢◌, IfOk, IfErr, Err, None, true, false, bytes_eq, IsOk};
ghost use Rattle.std.specs.List.{list_any};
ghost use Rattle.hub_rows.specs.Reads.{IsCounted};
ghost use Rattle.turn_hub.specs.Journals.{HasSameJournal};
ghost use Rattle.turn_hub.specs.TurnHub.{KeepsRecord, hub_view, world, setting, is_clean};
ghost use Rattle.ws_server.specs.Admits.{is_known, is_full, is_tolerant, is_tolerant_reader};
ghost use Rattle.ws_server.specs.Steps.{Takes};
ghost use Rattle.ws_server.specs.Tells.{peers_of, full_of};

use crate::arrival::{Arrival, Client};
use crate::gateway::Gateway;
use connection_notes::{Happened, Refusal};
use hub::Fault;
use hub_rows::{Reader, Store};
use journal::JournalFile;
use ocpp_types::Moment;
use ready_streams::Served;
use station_calls::VendorHandler;
use std::io::{Read, Write};
use std::net::SocketAddr;
use turn_hub::TurnHub;
use ws_handshake::{Answer, Upgrade, refuse, shake};
use ws_peers::Route;

/// The most open connections that an operator has. One more is answered 503.
const MAX_CONNECTIONS: usize = 32;

#[tactic(auto, using(crate::proofs::StepLaws::asked))]
impl<T: Read + Write + Served + Drop> Gateway<T> {
    ghost use Rattle.ws_server.specs.Admits.{Welcomes};

    /// Makes the handshake that the head of a stream asks for, and admits it. The subprotocol of a station is `ocpp1.6`
    /// (OCPP-J 1.6, section 3.1.2). A station that doesn't offer it, and is read tolerantly, has `OCPP1.6` or `ocpp1.6j`
    /// if it offers that. A station that the hub doesn't know and an
    /// operator that it doesn't host are answered 404; an operator that has 32 open connections is answered 503, and so is a
    /// station of one that is named full.
    pub fn welcome<S: Store + Drop, V: VendorHandler, W: JournalFile + Drop>(
        &mut self,
        hub: &mut TurnHub<S, V, W>,
        client: Client<T>,
        upgrade: Upgrade,
        moment: Moment,
    ) -> Result<(), Fault>
        ensures takes { Takes S.view V.view W.contents hub.old hub.new
            (λ steps. Welcomes T.remaining T.contents moment (λ tolerant. is_clean S.view hub.new → tolerant ≡ is_tolerant (world S.view hub.old).rows upgrade.route) client.stream upgrade (peers_of self.old) (peers_of self.new) steps result) }
        ensures known { is_clean S.view hub.new → is_known (setting V.view hub.old).is_hosted (world S.view hub.old).rows upgrade.route ≡ false
            → peers_of self.new ≡ peers_of self.old }
        ensures full { is_full (full_of self.old) upgrade.route (peers_of self.old) ≡ true → peers_of self.new ≡ peers_of self.old }
        ensures hosted { is_clean S.view hub.new → IfErr result (λ f. f ≢ Fault.NoSuchOperator) }
        ensures counted { IsCounted (hub_view S.view) hub.old hub.new (result ≡ Err Fault.Store) }
        ensures records { KeepsRecord S.view hub.old hub.new (IsOk result) }
    {
        let Client { stream, address } = client;
        let known = match look_up(hub, &upgrade) {
            Ok(known) => known,
            Err(fault) => {
                self.notes
                    .add(Some(&upgrade.route), address, Happened::Failed(fault));
                return Err(fault);
            }
        };
        if let Some(answer) = self.refusal(&upgrade.route, known.is_known) {
            self.refuse(stream, address, &upgrade, answer);
            return Ok(());
        }
        let subprotocol = upgrade.offered.chosen(known.is_tolerant);
        match shake(self.alloc, stream, &upgrade, subprotocol) {
            Ok(socket) => {
                let arrival = Arrival {
                    route: upgrade.route,
                    has_subprotocol: subprotocol.is_some(),
                    address,
                };
                self.admit(hub, socket, arrival, moment)
            }
            Err(_) => {
                let lost = Happened::Refused(Refusal::Lost);
                self.notes.add(Some(&upgrade.route), address, lost);
                Ok(())
            }
        }
    }

    /// How a handshake for that route is refused, if it is.
    fn refusal(&self, route: &Route, is_known: bool) -> Option<Answer>
        ensures known { result ≡ None → is_known ≡ true }
        ensures room { result ≡ None → is_full (full_of self.now) route.now (peers_of self.now) ≡ false }
    {
        if !is_known {
            return Some(Answer::NotFound);
        }
        if self.is_full(route) {
            Some(Answer::Unavailable)
        } else {
            None
        }
    }

    /// Whether a connection more of that route is one too many of its operator.
    fn is_full(&self, route: &Route) -> bool
        ensures { result ≡ is_full (full_of self.now) route.now (peers_of self.now) }
    {
        match route {
            Route::Operator(op) => self.peers.count_of(op.as_str()) >= MAX_CONNECTIONS,
            Route::Station(op, _) => {
                self.is_named_full(op.as_str()) && !self.peers.is_connected(route)
            }
        }
    }

    /// Whether an operator is named full.
    fn is_named_full(&self, op: &str) -> bool
        ensures { result ≡ list_any (λ o. bytes_eq o op.now) (full_of self.now) }
    {
        self.full.iter().any(|full| full.as_str() == op)
    }

    /// Answers a handshake that is refused, and closes its stream.
    fn refuse(&mut self, stream: T, address: Option<SocketAddr>, upgrade: &Upgrade, answer: Answer)
        ensures { peers_of self.new ≡ peers_of self.old }
    {
        let _closed = refuse(stream, upgrade.len, answer);
        if let Some(refusal) = Refusal::of(answer) {
            let refused = Happened::Refused(refusal);
            self.notes.add(Some(&upgrade.route), address, refused);
        }
    }
}

/// What is on record of where a path leads.
#[derive(Clone, Copy, Drop)]
struct Known {
    /// It leads to a station that the hub knows or to an operator that it hosts.
    is_known: bool,
    /// The requests of that station are read tolerantly.
    is_tolerant: bool,
}

/// What is on record of where an upgrade's path leads.
fn look_up<S: Store + Drop, V: VendorHandler, W: JournalFile + Drop>(
    hub: &mut TurnHub<S, V, W>,
    upgrade: &Upgrade,
) -> Result<Known, Fault>
    ensures known { is_clean S.view hub.new → IfOk result (λ k. k.is_known ≡ is_known (setting V.view hub.old).is_hosted (world S.view hub.old).rows upgrade.now.route) }
    ensures tolerant { is_clean S.view hub.new → IfOk result (λ k. k.is_tolerant ≡ is_tolerant (world S.view hub.old).rows upgrade.now.route) }
    ensures world { is_clean S.view hub.new → world S.view hub.new ≡ world S.view hub.old }
    ensures hosted { IfErr result (λ f. f ≢ Fault.NoSuchOperator) }
    ensures counted { IsCounted (hub_view S.view) hub.old hub.new (result ≡ Err Fault.Store) }
    ensures records { KeepsRecord S.view hub.old hub.new (IsOk result) }
    ensures setting { setting V.view hub.new ≡ setting V.view hub.old }
    ensures journal { HasSameJournal hub.old hub.new }
{
    let is_known = is_known(hub, &upgrade.route)?;
    let is_tolerant = is_tolerant(hub, &upgrade.route)?;
    Ok(Known {
        is_known,
        is_tolerant,
    })
}

/// Whether a path leads to a station whose requests are read tolerantly.
fn is_tolerant<S: Store + Drop, V: VendorHandler, W: JournalFile + Drop>(
    hub: &mut TurnHub<S, V, W>,
    route: &Route,
) -> Result<bool, Fault>
    ensures tolerant { is_clean S.view hub.new → IfOk result (λ t. t ≡ is_tolerant (world S.view hub.old).rows route.now) }
    ensures world { is_clean S.view hub.new → world S.view hub.new ≡ world S.view hub.old }
    ensures hosted { IfErr result (λ f. f ≢ Fault.NoSuchOperator) }
    ensures counted { IsCounted (hub_view S.view) hub.old hub.new (result ≡ Err Fault.Store) }
    ensures records { KeepsRecord S.view hub.old hub.new (IsOk result) }
    ensures setting { setting V.view hub.new ≡ setting V.view hub.old }
    ensures journal { HasSameJournal hub.old hub.new }
{
    match route {
        Route::Station(op, station) => {
            let reader = hub.reader(op.as_str(), station.as_str())?;
            Ok(is_tolerant_reader(reader))
        }
        Route::Operator(_) => Ok(false),
    }
}

fn is_tolerant_reader(reader: Reader) -> bool
    ensures { result ≡ is_tolerant_reader reader }
{
    match reader {
        Reader::Strict => false,
        Reader::Tolerant => true,
    }
}

/// Whether a path leads to a station that the hub knows or to an operator that it hosts.
fn is_known<S: Store + Drop, V: VendorHandler, W: JournalFile + Drop>(
    hub: &mut TurnHub<S, V, W>,
    route: &Route,
) -> Result<bool, Fault>
    ensures known { is_clean S.view hub.new → IfOk result (λ k. k ≡ is_known (setting V.view hub.old).is_hosted (world S.view hub.old).rows route.now) }
    ensures world { is_clean S.view hub.new → world S.view hub.new ≡ world S.view hub.old }
    ensures hosted { IfErr result (λ f. f ≢ Fault.NoSuchOperator) }
    ensures counted { IsCounted (hub_view S.view) hub.old hub.new (result ≡ Err Fault.Store) }
    ensures records { KeepsRecord S.view hub.old hub.new (IsOk result) }
    ensures setting { setting V.view hub.new ≡ setting V.view hub.old }
    ensures journal { HasSameJournal hub.old hub.new }
{
    match route {
        Route::Station(op, station) => hub.knows(op.as_str(), station.as_str()),
        Route::Operator(op) => Ok(hub.hosts(op.as_str())),
    }
}
