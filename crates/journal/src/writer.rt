//! The writer of a journal.
ghost use Rattle.std.specs.Prelude.{◌≡◌, ◌≤◌, ◌+◌, ◌++◌, ◌∷◌, ℕ, List, Bool, [], OnOk, OnErr, IfOk, Some, not, true, false};
ghost use Rattle.std.specs.List.{list_any};
ghost use Rattle.std.specs.Io.KnownBytes.{Keeps, Appends};
ghost use Rattle.hub_events.specs.declared.event.Event.{Event as HubEvent};
ghost use Rattle.lines.specs.Journal.{Stands, is_feed};
ghost use Rattle.journal.specs.declared.entry.Entry.TheVariants as said;
ghost use Rattle.journal.specs.Entries.{AreCounts, IsCount};
ghost use Rattle.journal.specs.Journals.{is_whole};
ghost use Rattle.journal.specs.Stops.{told_at};
ghost use Rattle.journal.specs.Writers.{IsOpen, IsHandling, HasTurn, WroteTurn, Wrote, EndsWith, EndsTold, IsEnded, Says};

use crate::pending::Pending;
use crate::tail::Tail;
use hub_events::Event;
use ocpp_types::{Mem, NoMemory};
use std::alloc::Global;
use std::fs::File;
use std::io;
use std::io::Write;
use thiserror::Error;

/// The journal can't be written. No more is.
#[derive(Clone, Copy, Debug, PartialEq, Eq, Drop, Error)]
#[error("Journal")]
pub struct JournalFault;

impl From<NoMemory> for JournalFault {
    fn from(_refused: NoMemory) -> JournalFault {
        JournalFault
    }
}

impl From<io::Error> for JournalFault {
    fn from(_error: io::Error) -> JournalFault {
        JournalFault
    }
}

/// A file that a journal is written to.
pub trait JournalFile: Write {
    /// Syncs what was written, so that it outlasts a power cut.
    fn sync(&mut self) -> io::Result<()>
        ensures { Keeps (Self.contents self.old) (Self.contents self.new) };
}

impl JournalFile for File {
    fn sync(&mut self) -> io::Result<()> {
        self.sync_data()
    }
}

/// The writer of a journal (docs/RULES.md, The journal). The lines of a turn are in the file before its changes are on record,
/// and before anybody is told of it.
#[derive(Drop)]
pub struct Writer<W> {
    file: W,
    /// What is written is synced.
    syncs: bool,
    /// The lines of the events of this turn.
    lines: Pending,
    /// How many they are.
    events: u64,
    /// The line of the event that is handled.
    current: Pending,
    /// How many changes are on record.
    changes: u64,
    /// The last turn in the file has changes, and no mark behind it says whether they are on record.
    is_open: bool,
    /// How many files the server has begun after its first.
    files: u64,
    /// The file or the memory for a line failed.
    has_failed: bool,
}

impl<W: JournalFile + Drop> Writer<W> {
    /// A server begins, with those operators, and its lines go to a file, behind what is there, which ends so. So many changes
    /// are on record. Where `syncs`, what is written outlasts a power cut. Error: it can't be written.
    pub fn begin_server(
        alloc: Global,
        mut file: W,
        syncs: bool,
        tail: &Tail,
        changes: u64,
        operators: &str,
    ) -> Result<Writer<W>, JournalFault>
        ensures { IsCount changes → list_any is_feed operators.now ≡ false → IfOk result (λ writer. (is_hosted : List ℕ → Bool) (bytes : List ℕ) (taken : List HubEvent)
            → W.contents file ≡ Some bytes → is_whole bytes ≡ not tail.now.is_cut → told_at is_hosted bytes changes ≡ Some taken
            → Wrote is_hosted (Some bytes) (W.contents writer.file) changes taken × IsOpen W.contents is_hosted writer taken []
            × EndsWith is_hosted (said.Begins changes operators.now) (W.contents writer.file)) }
    {
        end_line(alloc, &mut file, tail)?;
        let mut lines = Pending::new(alloc);
        lines.add_begins(changes, operators)?;
        let mut writer = Writer {
            file,
            syncs,
            lines,
            events: 0,
            current: Pending::new(alloc),
            changes,
            is_open: false,
            files: 0,
            has_failed: false,
        };
        writer.write(syncs)?;
        Ok(writer)
    }

    /// The changes of the last turn aren't on record, and the server goes on as one that begins, with those operators. Error:
    /// it can't be written.
    pub fn begin_again(&mut self, operators: &str) -> Result<(), JournalFault>
        ensures works { OnOk result ((self.old.has_failed ≡ false) × (self.new.has_failed ≡ false)) }
        ensures same { self.new.changes ≡ self.old.changes }
        ensures begun { IsCount self.old.changes → list_any is_feed operators.now ≡ false → OnOk result ((is_hosted : List ℕ → Bool) (taken : List HubEvent)
            → Says W.contents is_hosted self.old taken → Wrote is_hosted (W.contents self.old.file) (W.contents self.new.file) self.old.changes taken
            × IsOpen W.contents is_hosted self.new taken [] × EndsWith is_hosted (said.Begins self.old.changes operators.now) (W.contents self.new.file)) }
    {
        self.lines.clear();
        self.events = 0;
        self.lines.add_begins(self.changes, operators)?;
        self.is_open = false;
        self.write(self.syncs)
    }

    /// The lines go to the next file from now on, which is empty. It is the server's, with those operators. Error: it can't be
    /// written.
    pub fn continue_in(&mut self, file: W, operators: &str) -> Result<(), JournalFault>
        ensures { AreCounts self.old.events self.old.changes self.old.changes → IsCount (self.old.files + 1) → list_any is_feed operators.now ≡ false → OnOk result ((is_hosted : List ℕ → Bool) (taken now : List HubEvent)
            → IsOpen W.contents is_hosted self.old taken now → W.contents file ≡ Some []
            → EndsTold is_hosted (W.contents self.old.file) self.old.changes taken now
            × Wrote is_hosted (Some []) (W.contents self.new.file) self.old.changes [] × IsOpen W.contents is_hosted self.new [] []
            × EndsWith is_hosted (said.Continues (self.old.files + 1) self.old.changes operators.now) (W.contents self.new.file)) }
    {
        let next = self.files.saturating_add(1);
        self.end_turn(self.changes)?;
        self.lines.add_continues(next, self.changes, operators)?;
        self.files = next;
        self.file = file;
        self.write(self.syncs)
    }

    /// An event is handled. `order` is the text of an order, without its word. Error: there is no memory for its line.
    pub fn begin(&mut self, event: &Event, order: &str) -> Mem<()>
        ensures handling { OnOk result ((is_hosted : List ℕ → Bool) (taken now : List HubEvent) → Stands is_hosted event.now order.now
            → IsOpen W.contents is_hosted self.old taken now → IsHandling W.contents is_hosted self.new taken now event.now) }
        ensures open { (is_hosted : List ℕ → Bool) (taken now : List HubEvent)
            → IsOpen W.contents is_hosted self.old taken now → IsOpen W.contents is_hosted self.new taken now }
        ensures same { (self.new.changes ≡ self.old.changes) × (self.new.events ≡ self.old.events) × (self.new.has_failed ≡ self.old.has_failed) }
    {
        self.current.clear();
        self.current.add_event(event, order)
    }

    /// The event that is handled is one of the turn.
    pub fn take(&mut self)
        ensures taken { IsCount self.old.events → self.new.has_failed ≡ false → (is_hosted : List ℕ → Bool) (taken now : List HubEvent) (event : HubEvent)
            → IsHandling W.contents is_hosted self.old taken now event → IsOpen W.contents is_hosted self.new taken (now ++ (event ∷ [])) }
        ensures same { self.new.changes ≡ self.old.changes }
        ensures works { self.new.has_failed ≡ false → self.old.has_failed ≡ false }
        ensures events { self.old.events ≡ 0 → self.new.has_failed ≡ false → self.new.events ≡ 1 }
        ensures more { self.new.events ≤ self.old.events + 1 }
    {
        if self.lines.append(&mut self.current).is_err() {
            self.has_failed = true;
            return;
        }
        self.events = self.events.saturating_add(1);
    }

    /// Ends a turn: writes its lines, if it has any, and its mark. `after` is the count of changes on record once the turn is
    /// committed. Error: the file can't be written. Then no change of the turn may be committed, and nobody told of it.
    pub fn end_turn(&mut self, after: u64) -> Result<(), JournalFault>
        ensures turn { AreCounts self.old.events self.old.changes after → OnOk result ((is_hosted : List ℕ → Bool) (taken now : List HubEvent)
            → IsOpen W.contents is_hosted self.old taken now
            → WroteTurn is_hosted (W.contents self.old.file) (W.contents self.new.file) self.old.changes after taken now
            × HasTurn W.contents is_hosted self.new after taken now) }
        ensures same { self.new.changes ≡ self.old.changes }
        ensures none { OnOk result (self.new.events ≡ 0) }
        ensures fewer { self.new.events ≤ self.old.events }
        ensures works { OnOk result ((self.old.has_failed ≡ false) × (self.new.has_failed ≡ false)) }
        ensures failed { OnErr result (self.new.has_failed ≡ true) }
    {
        if self.has_failed {
            return Err(JournalFault);
        }
        if self.lines.is_empty() && after == self.changes {
            // an event of the turn would have a line
            self.events = 0;
            return Ok(());
        }
        self.write_turn(after)
    }

    /// Says that the changes of the last turn in the file are on record, where no mark behind it says so and no event waits. A
    /// follower takes them then. Error: it can't be written.
    pub fn confirm(&mut self) -> Result<(), JournalFault>
        ensures { AreCounts self.old.events self.old.changes self.old.changes → OnOk result ((is_hosted : List ℕ → Bool) (taken now : List HubEvent)
            → IsOpen W.contents is_hosted self.old taken now
            → WroteTurn is_hosted (W.contents self.old.file) (W.contents self.new.file) self.old.changes self.old.changes taken []
            × IsOpen W.contents is_hosted self.new taken now) }
    {
        if !self.is_open || !self.lines.is_empty() {
            return Ok(());
        }
        self.write_turn(self.changes)
    }

    fn write_turn(&mut self, after: u64) -> Result<(), JournalFault>
        ensures turn { AreCounts self.old.events self.old.changes after → OnOk result ((is_hosted : List ℕ → Bool) (taken now : List HubEvent)
            → IsOpen W.contents is_hosted self.old taken now
            → WroteTurn is_hosted (W.contents self.old.file) (W.contents self.new.file) self.old.changes after taken now
            × HasTurn W.contents is_hosted self.new after taken now) }
        ensures same { self.new.changes ≡ self.old.changes }
        ensures none { OnOk result (self.new.events ≡ 0) }
        ensures fewer { self.new.events ≤ self.old.events }
        ensures works { OnOk result (self.new.has_failed ≡ false) }
        ensures failed { OnErr result (self.new.has_failed ≡ true) }
    {
        let syncs = self.syncs && self.events > 0;
        let added = self.lines.add_turn(self.events, self.changes, after);
        if added.is_err() {
            self.has_failed = true;
            return Err(JournalFault);
        }
        self.events = 0;
        self.is_open = after != self.changes;
        self.write(syncs)
    }

    /// So many changes are on record: those of the turn that ended are.
    pub fn settle(&mut self, changes: u64)
        ensures settled { (is_hosted : List ℕ → Bool) (taken now : List HubEvent) → HasTurn W.contents is_hosted self.old changes taken now
            → IsOpen W.contents is_hosted self.new (taken ++ now) [] }
        ensures same { (self.new.changes ≡ changes) × (self.new.has_failed ≡ self.old.has_failed) }
        ensures events { self.new.events ≡ self.old.events }
    {
        self.changes = changes;
    }

    fn write(&mut self, syncs: bool) -> Result<(), JournalFault>
        ensures written { OnOk result (Appends (W.contents self.old.file) (W.contents self.new.file) self.old.lines.bytes.items) }
        ensures empty { OnOk result (self.new.lines.bytes.items ≡ []) }
        ensures same { (self.new.events ≡ self.old.events) × (self.new.changes ≡ self.old.changes) }
        ensures works { OnOk result ((self.old.has_failed ≡ false) × (self.new.has_failed ≡ false)) }
        ensures failed { OnErr result (self.new.has_failed ≡ true) }
    {
        if self.has_failed {
            return Err(JournalFault);
        }
        let written = write_all(&mut self.lines, &mut self.file, syncs);
        self.has_failed = written.is_err();
        written
    }
}

/// Writes lines to a file, and syncs it where `syncs`.
fn write_all<W: JournalFile>(
    lines: &mut Pending,
    file: &mut W,
    syncs: bool,
) -> Result<(), JournalFault>
    ensures written { OnOk result (Appends (W.contents file.old) (W.contents file.new) lines.old.bytes.items) }
    ensures empty { OnOk result (lines.new.bytes.items ≡ []) }
{
    lines.write_to(file)?;
    if syncs {
        file.sync()?;
    }
    Ok(())
}

/// Ends the line of which a part is at the end of a file, if there is one.
fn end_line<W: Write>(alloc: Global, file: &mut W, tail: &Tail) -> Result<(), JournalFault>
    ensures { OnOk result ((is_hosted : List ℕ → Bool) (bytes : List ℕ) (taken : List HubEvent) (changes : ℕ) → W.contents file.old ≡ Some bytes → is_whole bytes ≡ not tail.now.is_cut
        → told_at is_hosted bytes changes ≡ Some taken → IsEnded is_hosted bytes (W.contents file.new) changes taken) }
{
    if !tail.is_cut {
        return Ok(());
    }
    let mut cut = Pending::new(alloc);
    cut.add_cut()?;
    cut.write_to(file)?;
    Ok(())
}
