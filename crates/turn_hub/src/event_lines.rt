//! The lines of events in a journal.
ghost use Rattle.std.specs.Prelude.{◌≡◌, ◌≤◌, ℕ, List, Bool, ◌+◌, false, OnErr, OnOk};
ghost use Rattle.hub_events.specs.declared.event.Event.{Event as HubEvent};
ghost use Rattle.journal.specs.Entries.{IsCount};
ghost use Rattle.lines.specs.Journal.{Stands};
ghost use Rattle.turn_hub.specs.Journals.{HasBegun, HasEvents, IsAhead};

use hub_events::Event;
use journal::{JournalFault, JournalFile, Writer};
use ocpp_types::NoMemory;

/// Why an event has no line in a journal.
#[derive(Clone, Copy, Debug, PartialEq, Eq, Drop)]
pub enum NotBegun {
    NoMemory,
    /// The journal can't be written.
    Journal,
}

impl From<NoMemory> for NotBegun {
    fn from(_refused: NoMemory) -> NotBegun {
        NotBegun::NoMemory
    }
}

impl From<JournalFault> for NotBegun {
    fn from(_fault: JournalFault) -> NotBegun {
        NotBegun::Journal
    }
}

/// Has the line of an event ready. Where the event is ahead of its change, its line is in the file, behind those before it, as
/// a turn of its own. `on_record` counts the changes on record before it. `order` is the text of an order, without its word.
pub fn begin<W: JournalFile + Drop>(
    journal: &mut Writer<W>,
    on_record: u64,
    event: &Event,
    order: &str,
    is_ahead: bool,
) -> Result<(), NotBegun>
    ensures begun { IsCount (journal.old.events + 1) → IsCount (on_record + 1) → OnOk result ((is_hosted : List ℕ → Bool) (events : List HubEvent) → Stands is_hosted event.now order.now
        → (journal.old.has_failed ≡ false → HasEvents W.contents is_hosted journal.old on_record events)
        → journal.new.has_failed ≡ false → HasBegun W.contents is_hosted is_ahead journal.new on_record events event.now) }
    ensures refused { IsCount (journal.old.events + 1) → IsCount (on_record + 1) → OnErr result ((is_hosted : List ℕ → Bool) (events : List HubEvent)
        → (journal.old.has_failed ≡ false → HasEvents W.contents is_hosted journal.old on_record events)
        → journal.new.has_failed ≡ false → HasEvents W.contents is_hosted journal.new on_record events) }
    ensures events { is_ahead ≡ false → journal.new.events ≡ journal.old.events }
    ensures few { (n : ℕ) → journal.old.events ≤ n + 1 → journal.new.events ≤ n + 1 }
    ensures open { is_ahead ≡ false → (is_hosted : List ℕ → Bool) (events : List HubEvent)
        → (journal.old.has_failed ≡ false → HasEvents W.contents is_hosted journal.old on_record events)
        → journal.new.has_failed ≡ false → HasEvents W.contents is_hosted journal.new on_record events }
{
    if is_ahead {
        begin_ahead(journal, on_record, event, order)
    } else {
        journal.begin(event, order)?;
        Ok(())
    }
}

/// Writes the lines before an event, and then that of the event, as a turn of its own.
fn begin_ahead<W: JournalFile + Drop>(
    journal: &mut Writer<W>,
    on_record: u64,
    event: &Event,
    order: &str,
) -> Result<(), NotBegun>
    ensures begun { IsCount (journal.old.events + 1) → IsCount (on_record + 1) → OnOk result ((is_hosted : List ℕ → Bool) (events : List HubEvent) → Stands is_hosted event.now order.now
        → (journal.old.has_failed ≡ false → HasEvents W.contents is_hosted journal.old on_record events)
        → journal.new.has_failed ≡ false → IsAhead W.contents is_hosted journal.new on_record events event.now) }
    ensures refused { IsCount (journal.old.events + 1) → IsCount (on_record + 1) → OnErr result ((is_hosted : List ℕ → Bool) (events : List HubEvent)
        → (journal.old.has_failed ≡ false → HasEvents W.contents is_hosted journal.old on_record events)
        → journal.new.has_failed ≡ false → HasEvents W.contents is_hosted journal.new on_record events) }
    ensures few { (n : ℕ) → journal.old.events ≤ n + 1 → journal.new.events ≤ n + 1 }
{
    journal.end_turn(on_record)?;
    journal.settle(on_record);
    journal.begin(event, order)?;
    journal.take();
    journal.end_turn(on_record.saturating_add(1))?;
    Ok(())
}
