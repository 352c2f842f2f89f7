//! What the hub is handed and what it answers: events of operators, outputs, and why an event isn't taken.
#![tactic(auto)]

mod event;
mod fault;
mod listing;
mod out;
mod reading_row;
mod sizes;

pub use event::{Admin, Event, HistoryEnds, OperatorEvent, What};
pub use fault::Fault;
pub use listing::{Listing, Row, Shown};
pub use out::{Out, Outcome, Said};
pub use reading_row::ReadingRow;
