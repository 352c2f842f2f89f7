//! A hub that takes events in turns.
ghost use Rattle.std.specs.Prelude.{◌≡◌, ◌≢◌, ◌&&◌, ◌==◌, ◌↔◌, is_some, not, true, false, None, Some, Err, IfErr, IfOk, IsOk};
ghost use Rattle.hub_rows.specs.Operators.{is_hosted};
ghost use Rattle.hub_rows.specs.Reads.{IsCounted};
ghost use Rattle.hub_rows.specs.Readers.{reader_in};
ghost use Rattle.hub_rows.specs.Rows.{registration_at};
ghost use Rattle.turn_hub.specs.Journals.{HasSameJournal};
ghost use Rattle.turn_hub.specs.TurnHub.{KeepsRecord, flush_of, hub_view, is_clean, setting, world};
ghost use Rattle.turn_hub.specs.declared.turn_hub.Commits.TheVariants as Commits;

use hub::{Fault, Hub};
use hub_rows::{Flush, Reader, Store};
use journal::{JournalFile, Writer};
use ocpp_types::Text;
use station_calls::VendorHandler;
use std::alloc::Global;

/// When changes are committed.
#[derive(Clone, Copy, Debug, PartialEq, Eq, Drop)]
pub enum Commits {
    /// Each alone.
    Each,
    /// Those of a turn together, as it ends.
    Turns,
}

/// A hub that takes events in turns, as a server does: first some events, then the end of the turn, and then what they say is
/// told. Changes may wait for the end of the turn, and a journal may have the events.
#[derive(Drop)]
pub struct TurnHub<S, V, W> {
    pub(crate) alloc: Global,
    pub(crate) hub: Hub<S, V>,
    pub(crate) journal: Option<Writer<W>>,
    pub(crate) commits: Commits,
    /// How many changes were made.
    pub(crate) changes: u64,
    /// How many of them are on record.
    pub(crate) on_record: u64,
    /// Changes that waited are gone. Until one more is made, each is committed alone.
    pub(crate) is_alone: bool,
    /// How often the journal failed.
    pub(crate) failures: u64,
}

impl<S: Store + Drop, V: VendorHandler, W: JournalFile + Drop> TurnHub<S, V, W> {
    /// Over a hub, where so many changes are on record and none waits.
    pub fn new(alloc: Global, hub: Hub<S, V>, changes: u64, commits: Commits) -> TurnHub<S, V, W>
        ensures hub { result.hub ≡ hub }
        ensures journal { result.journal ≡ None }
        ensures commits { result.commits ≡ commits }
        ensures changes { result.changes ≡ changes }
        ensures on_record { result.on_record ≡ changes }
        ensures together { result.is_alone ≡ false }
        ensures failures { result.failures ≡ 0 }
    {
        TurnHub {
            alloc,
            hub,
            journal: None,
            commits,
            changes,
            on_record: changes,
            is_alone: false,
            failures: 0,
        }
    }

    /// From now on the events go to a journal, in which a server has begun.
    pub fn set_journal(&mut self, journal: Writer<W>)
        ensures hub { self.new.hub ≡ self.old.hub }
        ensures journal { self.new.journal ≡ Some journal }
        ensures commits { self.new.commits ≡ self.old.commits }
        ensures changes { self.new.changes ≡ self.old.changes }
        ensures on_record { self.new.on_record ≡ self.old.on_record }
        ensures together { self.new.is_alone ≡ self.old.is_alone }
    {
        self.journal = Some(journal);
    }

    /// The hub.
    pub fn hub(&self) -> &Hub<S, V>
        ensures { result.now ≡ self.now.hub }
    {
        &self.hub
    }

    /// The hub, without the journal.
    pub fn into_hub(self) -> Hub<S, V>
        ensures { result ≡ self.hub }
    {
        self.hub
    }

    /// How many changes were made.
    pub fn changes(&self) -> u64
        ensures { result ≡ self.now.changes }
    {
        self.changes
    }

    /// Whether changes wait for the end of the turn.
    pub fn has_waiting(&self) -> bool
        ensures { result ≡ not (self.now.changes == self.now.on_record) }
    {
        self.changes != self.on_record
    }

    /// Whether the changes of a turn are committed together.
    pub fn has_turns(&self) -> bool
        ensures { result ≡ true ↔ self.now.commits ≡ Commits.Turns }
    {
        match self.commits {
            Commits::Each => false,
            Commits::Turns => true,
        }
    }

    /// When the change of an event is flushed.
    pub(crate) fn flush(&self) -> Flush
        ensures { result ≡ flush_of self.now }
    {
        if self.has_turns() && !self.is_alone {
            Flush::Later
        } else {
            Flush::AtOnce
        }
    }

    /// As `Hub::hosted`.
    pub fn hosted(&self) -> &[Text]
        ensures { is_hosted result.now ≡ (setting V.view self.now).is_hosted }
    {
        self.hub.hosted()
    }

    /// As `Hub::hosts`.
    pub fn hosts(&self, op: &str) -> bool
        ensures { result ≡ (setting V.view self.now).is_hosted op.now }
    {
        self.hub.hosts(op)
    }

    /// As `Hub::knows`.
    pub fn knows(&mut self, op: &str, station: &str) -> Result<bool, Fault>
        ensures counted { IsCounted (hub_view S.view) self.old self.new (result ≡ Err Fault.Store) }
        ensures records { KeepsRecord S.view self.old self.new (IsOk result) }
        ensures known { is_clean S.view self.new → IfOk result (λ k. k ≡ (setting V.view self.old).is_hosted op.now
            && is_some (registration_at op.now station.now (world S.view self.old).rows)) }
        ensures world { is_clean S.view self.new → world S.view self.new ≡ world S.view self.old }
        ensures setting { setting V.view self.new ≡ setting V.view self.old }
        ensures fault { IfErr result (λ f. f ≢ Fault.NoSuchOperator) }
        ensures journal { HasSameJournal self.old self.new }
    {
        self.hub.knows(op, station)
    }

    /// As `Hub::reader`.
    pub fn reader(&mut self, op: &str, station: &str) -> Result<Reader, Fault>
        ensures counted { IsCounted (hub_view S.view) self.old self.new (result ≡ Err Fault.Store) }
        ensures records { KeepsRecord S.view self.old self.new (IsOk result) }
        ensures reader { is_clean S.view self.new → IfOk result (λ r. r ≡ reader_in op.now station.now (world S.view self.old).rows.readers) }
        ensures world { is_clean S.view self.new → world S.view self.new ≡ world S.view self.old }
        ensures setting { setting V.view self.new ≡ setting V.view self.old }
        ensures fault { IfErr result (λ f. f ≢ Fault.NoSuchOperator) }
        ensures journal { HasSameJournal self.old self.new }
    {
        self.hub.reader(op, station)
    }
}
