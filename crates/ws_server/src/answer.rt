//! Answering the texts of peers.
ghost use Rattle.std.specs.Prelude.{◌≡◌, ◌<◌, Err, IfSome, List, codes, length, string_bytes, IsOk};
ghost use Rattle.hub_rows.specs.Reads.{IsCounted};
ghost use Rattle.turn_hub.specs.TurnHub.{KeepsRecord, hub_view, setting};
ghost use Rattle.ws_peers.specs.Lists.{At};
ghost use Rattle.ws_server.specs.Steps.{IsOrderOf, Takes};
ghost use Rattle.ws_server.specs.Tells.{SentWhileOpen, peers_of};

use crate::events::{event_of, order_text, word_of};
use crate::gateway::Gateway;
use hub::{Event, Fault};
use hub_rows::Store;
use journal::JournalFile;
use lines::{Bounds, bounds_of};
use ocpp_types::Moment;
use ready_streams::Served;
use station_calls::VendorHandler;
use std::io::{Read, Write};
use turn_hub::TurnHub;
use ws_peers::Peer;

#[tactic(auto, using(crate::proofs::StepLaws::stayed, crate::proofs::StepLaws::left, crate::proofs::RecordLaws::unchanged))]
impl<T: Read + Write + Served + Drop> Gateway<T> {
    ghost use Rattle.ws_server.specs.Turns.{HandsOrRefuses, Between, HandsText};

    /// Hands a text of peer n to the hub, and sends the outputs. A text of an operator that is no order is answered
    /// `bad line`. Where it has a word, peer n alone is sent `#WORD begin` before the answer and `#WORD end` after it.
    /// After a fault nothing has changed.
    pub(crate) fn hand_text<S: Store + Drop, V: VendorHandler, W: JournalFile + Drop>(
        &mut self,
        hub: &mut TurnHub<S, V, W>,
        n: usize,
        moment: Moment,
        text: &str,
    ) -> Result<(), Fault>
        requires { n < length (peers_of self.old) }
        ensures takes { Takes S.view V.view W.contents hub.old hub.new
            (λ steps. HandsText T.contents (setting V.view hub.old).is_hosted moment n text.now (peers_of self.old) (peers_of self.new) steps result) }
        ensures counted { IsCounted (hub_view S.view) hub.old hub.new (result ≡ Err Fault.Store) }
        ensures records { KeepsRecord S.view hub.old hub.new (IsOk result) }
        ensures count { length (peers_of self.new) ≡ length (peers_of self.old) }
    {
        let route = self.peers.peer(n).route();
        let event = event_of(self.alloc, route, moment, text)?;
        let order = order_text(text);
        match word_of(route, text) {
            Some(word) => {
                let bounds = bounds_of(self.alloc, word)?;
                self.answer_between(hub, n, &bounds, &event, order)
            }
            None => self.answer(hub, n, &event, order),
        }
    }

    /// Hands an event of peer n to the hub, and sends its outputs. `None` is a text that has none, which is answered
    /// `bad line` while the connection is open. `order` is the text of an order, without its word.
    fn answer<S: Store + Drop, V: VendorHandler, W: JournalFile + Drop>(
        &mut self,
        hub: &mut TurnHub<S, V, W>,
        n: usize,
        event: &Option<Event>,
        order: &str,
    ) -> Result<(), Fault>
        requires place { n < length (peers_of self.old) }
        requires order { IfSome event.now (λ e. IsOrderOf e order.now) }
        ensures takes { Takes S.view V.view W.contents hub.old hub.new
            (λ steps. HandsOrRefuses T.contents (setting V.view hub.old).is_hosted n event.now (peers_of self.old) (peers_of self.new) steps result) }
        ensures counted { IsCounted (hub_view S.view) hub.old hub.new (result ≡ Err Fault.Store) }
        ensures records { KeepsRecord S.view hub.old hub.new (IsOk result) }
        ensures count { length (peers_of self.new) ≡ length (peers_of self.old) }
    {
        match event {
            Some(event) => self.hand(hub, n, event, order),
            None => {
                self.say(n, "bad line");
                Ok(())
            }
        }
    }

    /// As `answer`, between two lines that peer n alone is sent. Neither is sent before the hub has taken the event.
    fn answer_between<S: Store + Drop, V: VendorHandler, W: JournalFile + Drop>(
        &mut self,
        hub: &mut TurnHub<S, V, W>,
        n: usize,
        bounds: &Bounds,
        event: &Option<Event>,
        order: &str,
    ) -> Result<(), Fault>
        requires place { n < length (peers_of self.old) }
        requires order { IfSome event.now (λ e. IsOrderOf e order.now) }
        ensures takes { Takes S.view V.view W.contents hub.old hub.new
            (λ steps. Between T.contents n (string_bytes bounds.now.begin) (string_bytes bounds.now.end)
            (HandsOrRefuses T.contents (setting V.view hub.old).is_hosted n event.now) (peers_of self.old) (peers_of self.new) steps result) }
        ensures counted { IsCounted (hub_view S.view) hub.old hub.new (result ≡ Err Fault.Store) }
        ensures records { KeepsRecord S.view hub.old hub.new (IsOk result) }
        ensures count { length (peers_of self.new) ≡ length (peers_of self.old) }
    {
        let Some(event) = event else {
            self.refuse_between(n, bounds.begin.as_str(), bounds.end.as_str());
            return Ok(());
        };
        let outs = hub.handle(event, order)?;
        self.taken = self.taken.wrapping_add(1);
        self.say(n, bounds.begin.as_str());
        self.tell_all(n, &outs);
        self.say(n, bounds.end.as_str());
        Ok(())
    }

    /// Sends `bad line` to peer n, between two lines, each while the connection is open.
    fn refuse_between(&mut self, n: usize, begin: &str, end: &str)
        requires { n < length (peers_of self.old) }
        ensures refused { (begun told : List (Peer T)) × At (SentWhileOpen T.contents begin.now) n (peers_of self.old) begun
            × At (SentWhileOpen T.contents (codes "bad line")) n begun told × At (SentWhileOpen T.contents end.now) n told (peers_of self.new) }
        ensures count { length (peers_of self.new) ≡ length (peers_of self.old) }
    {
        self.say(n, begin);
        self.say(n, "bad line");
        self.say(n, end);
    }
}
