//! The end of a turn.
ghost use Rattle.std.specs.Prelude.{◌≡◌, ℕ, List, [], Bool, false, Ok, Err, IfErr, OnOk};
ghost use Rattle.std.specs.List.{list_any};
ghost use Rattle.hub_events.specs.declared.event.Event.{Event as HubEvent};
ghost use Rattle.hub_rows.specs.Stops.{FindsOldOr, PutsOnRecord, Recovers};
ghost use Rattle.hub_rows.specs.declared.store.Recovered.TheVariants as recovered;
ghost use Rattle.lines.specs.Journal.{is_feed};
ghost use Rattle.turn_hub.specs.declared.turns.TurnFault.TheVariants as turn_fault;
ghost use Rattle.turn_hub.specs.Journals.{AreSmall, HasJournaled, HasSameJournal, Journals, JournalSays, JournalsFirst};
ghost use Rattle.turn_hub.specs.TurnHub.{hub_view, is_clean, setting, world};

use crate::turn_hub::TurnHub;
use hub::Fault;
use hub_rows::{Recovered, Store};
use journal::{JournalFault, JournalFile};
use station_calls::VendorHandler;
use thiserror::Error;

/// Why a turn hasn't ended. Nobody is to be told what its events said.
#[derive(Clone, Copy, Debug, PartialEq, Eq, Drop, Error)]
pub enum TurnFault {
    /// The journal can't be written. No change that waits was put on record.
    #[error("Journal")]
    Journal,
    /// The changes that wait weren't put on record, or it isn't known whether they were.
    #[error("{0}")]
    Hub(Fault),
}

impl From<Fault> for TurnFault {
    ghost from_gives = { λ fault f. f ≡ turn_fault.Hub fault };

    fn from(fault: Fault) -> TurnFault {
        TurnFault::Hub(fault)
    }
}

impl<S: Store + Drop, V: VendorHandler, W: JournalFile + Drop> TurnHub<S, V, W> {
    /// Ends a turn: the lines of its events are written to the journal, and then the changes that wait are committed. Once it
    /// is Ok, what the events said may be told.
    pub fn end_turn(&mut self) -> Result<(), TurnFault>
        ensures was_clean { is_clean S.view self.new → is_clean S.view self.old }
        ensures world { is_clean S.view self.new → world S.view self.new ≡ world S.view self.old }
        ensures stopped { FindsOldOr (world S.view self.old).rows (hub_view S.view self.old) (hub_view S.view self.new) }
        ensures kept { OnOk result (PutsOnRecord (hub_view S.view self.old) (hub_view S.view self.new)) }
        ensures setting { setting V.view self.new ≡ setting V.view self.old }
        ensures journaled { AreSmall self.old → OnOk result ((is_hosted : List ℕ → Bool) (events : List HubEvent)
            → Journals W.contents is_hosted self.old events → HasJournaled W.contents is_hosted self.new events) }
        ensures commits { self.new.commits ≡ self.old.commits }
        ensures first { AreSmall self.old → IfErr result (λ e. (f : Fault) → e ≡ TurnFault.Hub f → (is_hosted : List ℕ → Bool) (events : List HubEvent)
            → Journals W.contents is_hosted self.old events → JournalsFirst W.contents is_hosted self.new events) }
        ensures unwritten { result ≡ Err TurnFault.Journal → self.new.hub ≡ self.old.hub }
    {
        self.write_turn()?;
        self.hub.flush()?;
        self.settle();
        Ok(())
    }

    /// The lines of the turn are written.
    fn write_turn(&mut self) -> Result<(), TurnFault>
        ensures hub { self.new.hub ≡ self.old.hub }
        ensures first { AreSmall self.old → OnOk result ((is_hosted : List ℕ → Bool) (events : List HubEvent)
            → Journals W.contents is_hosted self.old events → JournalsFirst W.contents is_hosted self.new events) }
        ensures fault { IfErr result (λ e. e ≡ TurnFault.Journal) }
        ensures same { self.new.failures ≡ self.old.failures }
        ensures commits { self.new.commits ≡ self.old.commits }
    {
        let Some(journal) = &mut self.journal else {
            return Ok(());
        };
        match journal.end_turn(self.changes) {
            Ok(()) => Ok(()),
            Err(JournalFault) => Err(TurnFault::Journal),
        }
    }

    /// All changes that were made are on record.
    fn settle(&mut self)
        ensures hub { self.new.hub ≡ self.old.hub }
        ensures journaled { (is_hosted : List ℕ → Bool) (events : List HubEvent)
            → JournalsFirst W.contents is_hosted self.old events → HasJournaled W.contents is_hosted self.new events }
        ensures same { self.new.failures ≡ self.old.failures }
        ensures commits { self.new.commits ≡ self.old.commits }
    {
        self.on_record = self.changes;
        if let Some(journal) = &mut self.journal {
            journal.settle(self.on_record);
        }
    }

    /// As `Writer::confirm`, after a turn.
    pub fn confirm(&mut self) -> Result<(), JournalFault>
        ensures hub { self.new.hub ≡ self.old.hub }
    {
        match &mut self.journal {
            Some(journal) => journal.confirm(),
            None => Ok(()),
        }
    }

    /// As `Hub::recover`. Where the changes that waited are gone, the journal has to begin again before an event is taken.
    pub fn recover(&mut self) -> Result<Recovered, Fault>
        ensures recovers { Recovers (hub_view S.view self.old) (hub_view S.view self.new) result }
        ensures whole { result ≡ Ok recovered.Whole → (world S.view self.new).slots ≡ (world S.view self.old).slots }
        ensures renewed { result ≡ Ok recovered.Renewed → (world S.view self.new).slots ≡ [] }
        ensures commits { self.new.commits ≡ self.old.commits }
        ensures mode { result ≡ Ok recovered.Whole → self.new.is_alone ≡ self.old.is_alone }
        ensures journal { result ≡ Ok recovered.Whole → HasSameJournal self.old self.new }
        ensures setting { setting V.view self.new ≡ setting V.view self.old }
    {
        let recovered = self.hub.recover()?;
        if recovered == Recovered::Renewed {
            self.changes = self.on_record;
            self.is_alone = true;
        }
        Ok(recovered)
    }

    /// The journal, if there is one, says that the server with those operators begins again, with the changes that are on
    /// record.
    pub fn begin_again(&mut self, operators: &str) -> Result<(), JournalFault>
        ensures hub { self.new.hub ≡ self.old.hub }
        ensures commits { self.new.commits ≡ self.old.commits }
        ensures journaled { AreSmall self.old → list_any is_feed operators.now ≡ false → OnOk result ((is_hosted : List ℕ → Bool) (events : List HubEvent)
            → JournalSays W.contents is_hosted self.old events → HasJournaled W.contents is_hosted self.new events) }
    {
        match &mut self.journal {
            Some(journal) => journal.begin_again(operators),
            None => Ok(()),
        }
    }

    /// As `Writer::continue_in`, after a turn.
    pub fn continue_in(&mut self, file: W, operators: &str) -> Result<(), JournalFault>
        ensures hub { self.new.hub ≡ self.old.hub }
    {
        match &mut self.journal {
            Some(journal) => journal.continue_in(file, operators),
            None => Ok(()),
        }
    }
}
