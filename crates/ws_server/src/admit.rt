//! Admitting a connection.
ghost use Rattle.std.specs.Prelude.{◌≡◌, true, false, [], codes, Err, IfErr, OnOk, IsOk};
ghost use Rattle.hub_rows.specs.Reads.{IsCounted};
ghost use Rattle.hub.specs.Hub.{is_taken};
ghost use Rattle.turn_hub.specs.TurnHub.{KeepsRecord, hub_view, setting};
ghost use Rattle.ws_peers.specs.Lists.{peers, has_room};
ghost use Rattle.ws_server.specs.Admits.{Enters};
ghost use Rattle.ws_server.specs.Steps.{IsOrderOf, Takes};
ghost use Rattle.ws_server.specs.Tells.{peers_of};

use crate::arrival::Arrival;
use crate::events::{connect_of, turns_away};
use crate::gateway::Gateway;
use connection_notes::{Happened, Notes, Refusal};
use hub::{Event, Fault};
use hub_rows::Store;
use journal::JournalFile;
use ocpp_types::Moment;
use ready_streams::Served;
use station_calls::VendorHandler;
use std::io::{Read, Write};
use tungstenite::{NoMask, WebSocket};
use turn_hub::TurnHub;
use ws_peers::{Peers, Route};

/// Why a station is closed whose handshake has no subprotocol.
const NO_SUBPROTOCOL: &str = "subprotocol ocpp1.6 is missing";

/// Why a station is closed that is no longer on record.
const NO_STATION: &str = "no such station";

#[tactic(auto, using(crate::proofs::StepLaws::stayed, crate::proofs::StepLaws::left, crate::proofs::RecordLaws::unchanged))]
impl<T: Read + Write + Served + Drop> Gateway<T> {
    ghost use Rattle.ws_server.specs.Admits.{Admits, Closes, Connects, is_served};
    ghost use Rattle.ws_server.specs.Events.{is_route_of_hosted};

    /// Admits a connection whose handshake is done. A station connects to the hub, and the outputs are sent; older
    /// connections of it are replaced. One that the hub turns away and one whose handshake has no subprotocol (OCPP-J 1.6,
    /// section 3.1.2) are closed with the code 1008 and a reason. An operator that isn't hosted is the fault
    /// `NoSuchOperator`. After a fault nothing was admitted, and the socket is dropped.
    pub fn admit<S: Store + Drop, V: VendorHandler, W: JournalFile + Drop>(
        &mut self,
        hub: &mut TurnHub<S, V, W>,
        socket: WebSocket<T, NoMask>,
        arrival: Arrival,
        moment: Moment,
    ) -> Result<(), Fault>
        ensures takes { Takes S.view V.view W.contents hub.old hub.new
            (λ steps. Admits T.contents socket moment arrival.route arrival.has_subprotocol (peers_of self.old) (peers_of self.new) steps result) }
        ensures hosted { OnOk result (is_served (setting V.view hub.old).is_hosted arrival.route arrival.has_subprotocol ≡ true) }
        ensures not_hosted { IfErr result (λ f. f ≡ Fault.NoSuchOperator → is_route_of_hosted (setting V.view hub.old).is_hosted arrival.route ≡ false) }
        ensures counted { IsCounted (hub_view S.view) hub.old hub.new (result ≡ Err Fault.Store) }
        ensures records { KeepsRecord S.view hub.old hub.new (IsOk result) }
    {
        match &arrival.route {
            Route::Station(op, station) if arrival.has_subprotocol => {
                let event = connect_of(op, station, moment)?;
                self.connect(hub, socket, arrival, &event)
            }
            Route::Station(_, _) => self.shut(socket, arrival),
            Route::Operator(op) => {
                if !hub.hosts(op.as_str()) {
                    return Err(Fault::NoSuchOperator);
                }
                self.peers.reserve()?;
                self.notes
                    .add(Some(&arrival.route), arrival.address, Happened::Connected);
                self.peers.push(socket, arrival.route);
                Ok(())
            }
        }
    }

    /// Closes a station whose handshake has no subprotocol.
    fn shut(&mut self, socket: WebSocket<T, NoMask>, arrival: Arrival) -> Result<(), Fault>
        ensures closed { Closes T.contents socket (codes "subprotocol ocpp1.6 is missing") arrival.route (peers_of self.old) (peers_of self.new) [] result }
        ensures cause { IfErr result (λ f. f ≡ Fault.NoMemory) }
    {
        self.peers.reserve()?;
        let refused = Happened::Refused(Refusal::NoSubprotocol);
        self.notes
            .add(Some(&arrival.route), arrival.address, refused);
        self.peers
            .push_closed(socket, arrival.route, NO_SUBPROTOCOL);
        Ok(())
    }

    fn connect<S: Store + Drop, V: VendorHandler, W: JournalFile + Drop>(
        &mut self,
        hub: &mut TurnHub<S, V, W>,
        socket: WebSocket<T, NoMask>,
        arrival: Arrival,
        event: &Event,
    ) -> Result<(), Fault>
        requires { IsOrderOf event.now [] }
        ensures takes { Takes S.view V.view W.contents hub.old hub.new
            (λ steps. Connects T.contents socket event.now arrival.route (peers_of self.old) (peers_of self.new) steps result) }
        ensures taken { OnOk result (is_taken (setting V.view hub.old) event.now ≡ true) }
        ensures not_taken { IfErr result (λ f. f ≡ Fault.NoSuchOperator → is_taken (setting V.view hub.old) event.now ≡ false) }
        ensures counted { IsCounted (hub_view S.view) hub.old hub.new (result ≡ Err Fault.Store) }
        ensures records { KeepsRecord S.view hub.old hub.new (IsOk result) }
    {
        self.peers.reserve()?;
        let outs = match hub.handle(event, "") {
            Ok(outs) => outs,
            Err(fault) => {
                self.notes.add(
                    Some(&arrival.route),
                    arrival.address,
                    Happened::Failed(fault),
                );
                return Err(fault);
            }
        };
        let place = self.peers.count();
        let is_turned_away = turns_away(&outs);
        note_connect(&mut self.notes, &self.peers, &arrival, is_turned_away);
        enter(&mut self.peers, is_turned_away, socket, arrival.route);
        self.tell_all(place, &outs);
        Ok(())
    }
}

/// Notes the connection of a station.
fn note_connect<T: Read + Write + Served + Drop>(
    notes: &mut Notes,
    peers: &Peers<T>,
    arrival: &Arrival,
    is_turned_away: bool,
) {
    let route = Some(&arrival.route);
    if is_turned_away {
        notes.add(route, arrival.address, Happened::Refused(Refusal::Gone));
        return;
    }
    if peers.is_connected(&arrival.route) {
        notes.add(route, None, Happened::Replaced);
    }
    notes.add(route, arrival.address, Happened::Connected);
}

/// Adds a station, or closes the socket of one that is turned away.
fn enter<T: Read + Write + Served + Drop>(
    all: &mut Peers<T>,
    is_turned_away: bool,
    socket: WebSocket<T, NoMask>,
    route: Route,
)
    requires { has_room all.old }
    ensures { Enters T.contents socket is_turned_away route (peers all.old) (peers all.new) }
{
    if is_turned_away {
        all.push_closed(socket, route, NO_STATION);
    } else {
        all.push(socket, route);
    }
}
