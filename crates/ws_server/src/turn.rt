//! Serving the peers.
ghost use Rattle.std.specs.Prelude.{◌≡◌, ◌<◌, Err, length, IsOk};
ghost use Rattle.std.specs.List.Sorted.{IsNonDecreasing};
ghost use Rattle.hub_rows.specs.Reads.{IsCounted};
ghost use Rattle.turn_hub.specs.TurnHub.{KeepsRecord, hub_view, setting};
ghost use Rattle.ws_peers.specs.Peers.{FailsOnlyAt, is_open_peer};
ghost use Rattle.ws_server.specs.Steps.{IsOrderOf, Takes};
ghost use Rattle.ws_server.specs.Tells.{peers_of};

use crate::events::parting;
use crate::gateway::Gateway;
use connection_notes::{Happened, Notes};
use hub::{Event, Fault};
use hub_rows::Store;
use journal::JournalFile;
use ocpp_types::Moment;
use ready_streams::Served;
use station_calls::VendorHandler;
use std::io::{Read, Write};
use turn_hub::TurnHub;
use ws_peers::{Peers, Stage};

#[tactic(auto, using(crate::proofs::StepLaws::handed, crate::proofs::StepLaws::stayed, crate::proofs::StepLaws::left, crate::proofs::RecordLaws::unchanged))]
impl<T: Read + Write + Served + Drop> Gateway<T> {
    ghost use Rattle.ws_server.specs.Turns.{AtPlace, Hands, Serves, Parts, Each, SweepsAndTicks, PartsAndTicks};

    /// Hands an event to the hub, and sends its outputs. After a fault nothing has changed. `order` is the text of an order,
    /// without its word.
    pub(crate) fn hand<S: Store + Drop, V: VendorHandler, W: JournalFile + Drop>(
        &mut self,
        hub: &mut TurnHub<S, V, W>,
        near: usize,
        event: &Event,
        order: &str,
    ) -> Result<(), Fault>
        requires { IsOrderOf event.now order.now }
        ensures takes { Takes S.view V.view W.contents hub.old hub.new
            (λ steps. Hands T.contents (setting V.view hub.old).is_hosted event.now (peers_of self.old) (peers_of self.new) steps result) }
        ensures counted { IsCounted (hub_view S.view) hub.old hub.new (result ≡ Err Fault.Store) }
        ensures records { KeepsRecord S.view hub.old hub.new (IsOk result) }
        ensures count { length (peers_of self.new) ≡ length (peers_of self.old) }
    {
        let outs = hub.handle(event, order)?;
        self.taken = self.taken.wrapping_add(1);
        self.tell_all(near, &outs);
        Ok(())
    }

    /// Serves peer n: reads once, and hands the text that was read, if there is one, to the hub.
    /// After a fault the text is lost, and the connection of peer n is closed with the code 1011; the hub is unchanged.
    pub fn serve<S: Store + Drop, V: VendorHandler, W: JournalFile + Drop>(
        &mut self,
        hub: &mut TurnHub<S, V, W>,
        n: usize,
        moment: Moment,
    ) -> Result<(), Fault>
        requires { n < length (peers_of self.old) }
        ensures takes { Takes S.view V.view W.contents hub.old hub.new
            (λ steps. Serves T.remaining T.contents (setting V.view hub.old).is_hosted moment n (peers_of self.old) (peers_of self.new) steps result) }
        ensures counted { IsCounted (hub_view S.view) hub.old hub.new (result ≡ Err Fault.Store) }
        ensures records { KeepsRecord S.view hub.old hub.new (IsOk result) }
        ensures count { length (peers_of self.new) ≡ length (peers_of self.old) }
    {
        let Some(text) = self.peers.take(n) else {
            return Ok(());
        };
        match self.hand_text(hub, n, moment, text.as_str()) {
            Ok(()) => Ok(()),
            Err(fault) => {
                let route = self.peers.peer(n).route();
                self.notes.add(Some(route), None, Happened::Failed(fault));
                self.peers.fail(n);
                Err(fault)
            }
        }
    }

    /// Serves the peer at that place, if there is one, as `serve` does.
    pub fn serve_at<S: Store + Drop, V: VendorHandler, W: JournalFile + Drop>(
        &mut self,
        hub: &mut TurnHub<S, V, W>,
        place: usize,
        moment: Moment,
    ) -> Result<(), Fault>
        ensures takes { Takes S.view V.view W.contents hub.old hub.new
            (λ steps. AtPlace (Serves T.remaining T.contents (setting V.view hub.old).is_hosted moment) place (peers_of self.old) (peers_of self.new) steps result) }
        ensures counted { IsCounted (hub_view S.view) hub.old hub.new (result ≡ Err Fault.Store) }
        ensures records { KeepsRecord S.view hub.old hub.new (IsOk result) }
    {
        if place >= self.count() {
            return Ok(());
        }
        self.serve(hub, place, moment)
    }

    /// Hands the disconnect of peer n to the hub, if it is to leave now.
    fn part<S: Store + Drop, V: VendorHandler, W: JournalFile + Drop>(
        &mut self,
        hub: &mut TurnHub<S, V, W>,
        n: usize,
        moment: Moment,
    ) -> Result<(), Fault>
        requires { n < length (peers_of self.old) }
        ensures takes { Takes S.view V.view W.contents hub.old hub.new
            (λ steps. Parts T.contents (setting V.view hub.old).is_hosted moment n (peers_of self.old) (peers_of self.new) steps result) }
        ensures counted { IsCounted (hub_view S.view) hub.old hub.new (result ≡ Err Fault.Store) }
        ensures records { KeepsRecord S.view hub.old hub.new (IsOk result) }
        ensures count { length (peers_of self.new) ≡ length (peers_of self.old) }
    {
        let Some(event) = parting(self.peers.peer(n), moment)? else {
            return Ok(());
        };
        match self.hand(hub, n, &event, "") {
            Ok(()) => {
                self.peers.finish(n);
                Ok(())
            }
            Err(fault) => {
                let route = self.peers.peer(n).route();
                self.notes.add(Some(route), None, Happened::Failed(fault));
                Err(fault)
            }
        }
    }

    /// Hands the disconnects of those that are to leave now to the hub, by place, up to the first fault.
    fn part_each<S: Store + Drop, V: VendorHandler, W: JournalFile + Drop>(
        &mut self,
        hub: &mut TurnHub<S, V, W>,
        moment: Moment,
    ) -> Result<(), Fault>
        ensures takes { Takes S.view V.view W.contents hub.old hub.new
            (λ steps. Each (Parts T.contents (setting V.view hub.old).is_hosted moment) (peers_of self.old) (peers_of self.new) steps result) }
        ensures counted { IsCounted (hub_view S.view) hub.old hub.new (result ≡ Err Fault.Store) }
        ensures records { KeepsRecord S.view hub.old hub.new (IsOk result) }
    {
        match self.peers.ended_in_order() {
            Ok(places) => self.part_at(hub, moment, places.as_slice()),
            Err(_) => self.part_all(hub, moment),
        }
    }

    /// The same, where those that aren't open are at those places.
    fn part_at<S: Store + Drop, V: VendorHandler, W: JournalFile + Drop>(
        &mut self,
        hub: &mut TurnHub<S, V, W>,
        moment: Moment,
        places: &[usize],
    ) -> Result<(), Fault>
        requires ascending { IsNonDecreasing places.now }
        requires listed { FailsOnlyAt is_open_peer places.now (peers_of self.old) }
        ensures takes { Takes S.view V.view W.contents hub.old hub.new
            (λ steps. Each (Parts T.contents (setting V.view hub.old).is_hosted moment) (peers_of self.old) (peers_of self.new) steps result) }
        ensures counted { IsCounted (hub_view S.view) hub.old hub.new (result ≡ Err Fault.Store) }
        ensures records { KeepsRecord S.view hub.old hub.new (IsOk result) }
    {
        let mut next = 0;
        for place in places {
            if *place < next {
                continue;
            }
            if *place >= self.count() {
                continue;
            }
            self.part(hub, *place, moment)?;
            next = *place + 1;
        }
        Ok(())
    }

    /// The same, where there was no memory for a list of places.
    fn part_all<S: Store + Drop, V: VendorHandler, W: JournalFile + Drop>(
        &mut self,
        hub: &mut TurnHub<S, V, W>,
        moment: Moment,
    ) -> Result<(), Fault>
        ensures takes { Takes S.view V.view W.contents hub.old hub.new
            (λ steps. Each (Parts T.contents (setting V.view hub.old).is_hosted moment) (peers_of self.old) (peers_of self.new) steps result) }
        ensures counted { IsCounted (hub_view S.view) hub.old hub.new (result ≡ Err Fault.Store) }
        ensures records { KeepsRecord S.view hub.old hub.new (IsOk result) }
    {
        for n in 0..self.count() {
            self.part(hub, n, moment)?;
        }
        Ok(())
    }

    /// Those that have ended leave; their disconnects and a tick are handed to the hub, up to the first fault. A disconnect that
    /// met one is handed to the hub again in the next turn.
    pub fn part_and_tick<S: Store + Drop, V: VendorHandler, W: JournalFile + Drop>(
        &mut self,
        hub: &mut TurnHub<S, V, W>,
        moment: Moment,
    ) -> Result<(), Fault>
        ensures takes { Takes S.view V.view W.contents hub.old hub.new
            (λ steps. PartsAndTicks T.contents (setting V.view hub.old).is_hosted moment (peers_of self.old) (peers_of self.new) steps result) }
        ensures counted { IsCounted (hub_view S.view) hub.old hub.new (result ≡ Err Fault.Store) }
        ensures records { KeepsRecord S.view hub.old hub.new (IsOk result) }
    {
        note_ended(&self.peers, &mut self.notes);
        self.peers.leave();
        self.part_each(hub, moment)?;
        self.sweep_and_tick(hub, moment)
    }

    /// Those that are gone are dropped, and a tick is handed to the hub.
    fn sweep_and_tick<S: Store + Drop, V: VendorHandler, W: JournalFile + Drop>(
        &mut self,
        hub: &mut TurnHub<S, V, W>,
        moment: Moment,
    ) -> Result<(), Fault>
        ensures takes { Takes S.view V.view W.contents hub.old hub.new
            (λ steps. SweepsAndTicks T.contents (setting V.view hub.old).is_hosted moment (peers_of self.old) (peers_of self.new) steps result) }
        ensures counted { IsCounted (hub_view S.view) hub.old hub.new (result ≡ Err Fault.Store) }
        ensures records { KeepsRecord S.view hub.old hub.new (IsOk result) }
    {
        self.peers.sweep();
        self.hand(hub, 0, &Event::Tick { moment }, "")
    }
}

/// Notes the connections that have ended.
fn note_ended<T: Read + Write + Drop>(peers: &Peers<T>, notes: &mut Notes) {
    for place in peers.ended() {
        if *place >= peers.count() {
            continue;
        }
        let peer = peers.peer(*place);
        if let Stage::Ended(cause) = peer.stage() {
            notes.add(Some(peer.route()), None, Happened::Ended(cause));
        }
    }
}
