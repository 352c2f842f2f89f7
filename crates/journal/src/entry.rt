//! The entries of a journal.

use hub_events::Event;
use ocpp_types::Text;

/// What a line of a journal says (docs/RULES.md, The journal).
#[derive(Drop)]
pub enum Entry {
    /// A server begins: the count of changes on record, and the operators. No station is connected.
    Begins {
        changes: u64,
        operators: Text,
    },
    /// The next file of the same server begins, the one of that number after the file in which the server began. So many
    /// changes are on record.
    Continues {
        file: u64,
        changes: u64,
        operators: Text,
    },
    /// An event of a turn.
    Event(Event),
    /// A turn ends, of so many events: those since the last mark, whose lines have that digest. So many changes were on
    /// record before it, and so many are if its events were taken.
    Turn {
        events: u64,
        before: u64,
        after: u64,
        digest: Text,
    },
    /// Written by earlier versions: of the events since the last mark, which are so many, the first `taken` were taken. So
    /// many changes are on record then.
    Taken {
        taken: u64,
        events: u64,
        changes: u64,
    },
    /// It is none of these.
    Bad,
}
