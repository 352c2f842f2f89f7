//! A hub whose changes are committed together, turn by turn, with a journal of its events.
#![tactic(auto)]

mod event_lines;
mod handle;
mod turn_hub;
mod turns;

pub use turn_hub::{Commits, TurnHub};
pub use turns::TurnFault;
