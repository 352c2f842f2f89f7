//! What became of connections: notes, as the log and the metrics of a server have them.
#![tactic(auto)]

mod notes;

pub use notes::{Happened, Note, Notes, Refusal, Repair};
