//! A journal: the events that a hub took, as lines of a file.
#![tactic(auto)]

mod digest;
mod entry;
mod marks;
mod pending;
mod read;
mod tail;
mod writer;

pub use entry::Entry;
pub use read::read_entry;
pub use tail::{Tail, TailFault, TurnCounts, ends_turn, names_of, tail_of};
pub use writer::{JournalFault, JournalFile, Writer};
