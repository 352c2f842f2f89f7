//! Taking an event.
ghost use Rattle.std.specs.Prelude.{◌≡◌, ◌≢◌, ◌≤◌, ◌+◌, ◌++◌, ◌∷◌, ℕ, List, [], Bool, true, false, Err, IfErr, IfOk, OnErr, OnOk, IsOk};
ghost use Rattle.hub_events.specs.declared.event.Event.{Event as HubEvent};
ghost use Rattle.hub_rows.specs.Failures.{Rose};
ghost use Rattle.hub_rows.specs.Reads.{IsCounted};
ghost use Rattle.hub.specs.Hub.{is_taken};
ghost use Rattle.hub.specs.World.{world_outputs, world_step};
ghost use Rattle.journal.specs.Entries.{IsCount};
ghost use Rattle.lines.specs.Journal.{Stands};
ghost use Rattle.hub_rows.specs.declared.store.Flush.TheVariants.{Later};
ghost use Rattle.turn_hub.specs.Journals.{AreSmall, AreUpTo, BeginsLine, Counts, Journals, Notes, events_of};
ghost use Rattle.turn_hub.specs.TurnHub.{KeepsRecord, flush_of, hub_view, is_clean, setting, world};

use crate::event_lines::{NotBegun, begin};
use crate::turn_hub::TurnHub;
use hub::{Event, Fault, Out, is_idle};
use hub_rows::{Flush, Store};
use journal::JournalFile;
use station_calls::VendorHandler;

impl<S: Store + Drop, V: VendorHandler, W: JournalFile + Drop> TurnHub<S, V, W> {
    /// Takes one event as `Hub::handle` does. `order` is the text of an order, without its word. The journal has the event, or
    /// a line of it is ready: where its change is committed alone, the event is in the file before. Nobody is to be told what
    /// it says before the turn ends.
    pub fn handle(&mut self, event: &Event, order: &str) -> Result<Vec<Out>, Fault>
        ensures counted { IsCounted (hub_view S.view) self.old self.new (result ≡ Err Fault.Store) }
        ensures records { KeepsRecord S.view self.old self.new (IsOk result) }
        ensures outputs { is_clean S.view self.new → IfOk result (λ outs. outs.items
            ≡ world_outputs (setting V.view self.old) (world S.view self.old) event.now) }
        ensures world { is_clean S.view self.new → OnOk result (world S.view self.new
            ≡ world_step (setting V.view self.old) (world S.view self.old) event.now) }
        ensures fault { is_clean S.view self.new
            → OnErr result (world S.view self.new ≡ world S.view self.old) }
        ensures setting { setting V.view self.new ≡ setting V.view self.old }
        ensures taken { OnOk result (is_taken (setting V.view self.old) event.now ≡ true) }
        ensures not_hosted { IfErr result (λ f. f ≡ Fault.NoSuchOperator
            → is_taken (setting V.view self.old) event.now ≡ false) }
        ensures journal { AreSmall self.old → IfOk result (λ outs. (is_hosted : List ℕ → Bool) (events : List HubEvent) → Stands is_hosted event.now order.now
            → Journals W.contents is_hosted self.old events → (after : List HubEvent) × Notes events event.now outs.items after × Journals W.contents is_hosted self.new after) }
        ensures refused { AreSmall self.old → OnErr result ((is_hosted : List ℕ → Bool) (events : List HubEvent) → Stands is_hosted event.now order.now
            → Journals W.contents is_hosted self.old events → Journals W.contents is_hosted self.new events) }
        ensures left_out { flush_of self.old ≡ Later → OnErr result ((is_hosted : List ℕ → Bool) (events : List HubEvent)
            → Journals W.contents is_hosted self.old events → Journals W.contents is_hosted self.new events) }
        ensures counts { OnOk result (Counts 1 self.old self.new) }
        ensures same_counts { OnErr result ((n : ℕ) → AreUpTo n self.old → AreUpTo n self.new) }
    {
        let step = self.hub.prepare(event)?;
        let has_change = step.has_change();
        let when = self.flush();
        let is_ahead = goes_ahead(has_change, when);
        self.begin_line(event, order, is_ahead)?;
        let mut outs = Vec::new(self.alloc);
        self.hub.commit(event, step, &mut outs, when)?;
        if is_ahead {
            self.finish_change();
            return Ok(outs);
        }
        self.finish(event, outs.as_slice(), has_change);
        Ok(outs)
    }

    /// The journal, if there is one, begins the line of an event.
    fn begin_line(&mut self, event: &Event, order: &str, is_ahead: bool) -> Result<(), Fault>
        ensures hub { self.new.hub ≡ self.old.hub }
        ensures same { OnOk result (self.new.failures ≡ self.old.failures) }
        ensures counted { self.old.failures ≤ self.new.failures }
        ensures rose { result ≡ Err Fault.Store → Rose self.old.failures self.new.failures }
        ensures fault { IfErr result (λ f. f ≢ Fault.NoSuchOperator) }
        ensures begun { AreSmall self.old → OnOk result ((is_hosted : List ℕ → Bool) (events : List HubEvent) → Stands is_hosted event.now order.now
            → Journals W.contents is_hosted self.old events → BeginsLine W.contents is_hosted is_ahead self.new events event.now) }
        ensures refused { AreSmall self.old → OnErr result ((is_hosted : List ℕ → Bool) (events : List HubEvent)
            → Journals W.contents is_hosted self.old events → Journals W.contents is_hosted self.new events) }
        ensures counts { (self.new.on_record ≡ self.old.on_record) × (is_ahead ≡ false → events_of self.new.journal ≡ events_of self.old.journal) }
        ensures few { (n : ℕ) → AreUpTo n self.old → AreUpTo n self.new }
        ensures open { is_ahead ≡ false → (is_hosted : List ℕ → Bool) (events : List HubEvent)
            → Journals W.contents is_hosted self.old events → Journals W.contents is_hosted self.new events }
        ensures mode { (self.new.commits ≡ self.old.commits) × (self.new.is_alone ≡ self.old.is_alone) }
    {
        let Some(journal) = &mut self.journal else {
            return Ok(());
        };
        match begin(journal, self.on_record, event, order, is_ahead) {
            Ok(()) => Ok(()),
            Err(NotBegun::NoMemory) => Err(Fault::NoMemory),
            Err(NotBegun::Journal) => {
                self.failures = self.failures.saturating_add(1);
                Err(Fault::Store)
            }
        }
    }

    /// The change of an event that was committed alone is on record.
    fn finish_change(&mut self)
        ensures hub { self.new.hub ≡ self.old.hub }
        ensures same { self.new.failures ≡ self.old.failures }
        ensures mode { (self.new.commits ≡ self.old.commits) × (self.new.is_alone ≡ false) }
        ensures journal { IsCount (self.old.on_record + 1) → (is_hosted : List ℕ → Bool) (events : List HubEvent) (event : HubEvent)
            → BeginsLine W.contents is_hosted true self.old events event → Journals W.contents is_hosted self.new (events ++ (event ∷ [])) }
        ensures counts { Counts 1 self.old self.new }
    {
        self.on_record = self.on_record.saturating_add(1);
        self.changes = self.on_record;
        self.is_alone = false;
        if let Some(journal) = &mut self.journal {
            journal.settle(self.on_record);
        }
    }

    /// An event is one of the turn. A tick at which no call ended gets no line.
    fn finish(&mut self, event: &Event, outs: &[Out], has_change: bool)
        ensures hub { self.new.hub ≡ self.old.hub }
        ensures same { self.new.failures ≡ self.old.failures }
        ensures mode { (self.new.commits ≡ self.old.commits) × (self.new.is_alone ≡ self.old.is_alone) }
        ensures journal { IsCount (events_of self.old.journal + 1) → (is_hosted : List ℕ → Bool) (events : List HubEvent)
            → BeginsLine W.contents is_hosted false self.old events event.now → (after : List HubEvent) × Notes events event.now outs.now after × Journals W.contents is_hosted self.new after }
        ensures counts { Counts 1 self.old self.new }
    {
        self.changes = self.changes.saturating_add(u64::from(has_change));
        if is_idle(event, outs) {
            return;
        }
        match &mut self.journal {
            Some(journal) => journal.take(),
            None => {}
        }
    }
}

/// Whether an event is in the file of the journal before its change is made.
fn goes_ahead(has_change: bool, when: Flush) -> bool
    ensures { when ≡ Later → result ≡ false }
{
    match when {
        Flush::AtOnce => has_change,
        Flush::Later => false,
    }
}
