//! Runs over a hub: replays of standard input and their bad lines, followers of a journal, the file of a journal that a server
//! keeps, the operators that a hub has by the command line, and why a run stops.
#![tactic(auto)]

mod bad_lines;
mod fault;
mod following;
mod hosted;
mod journal_fault;
mod journal_file;
mod kept_journal;
mod reason;
mod recent;
mod replaying;

pub use fault::RunFault;
pub use following::follow_journal;
pub use hosted::{BadOperators, copies_of, hub_of};
pub use journal_file::{begin_journal, list_of};
pub use kept_journal::KeptJournal;
pub use replaying::{replay_fresh, replay_over};
