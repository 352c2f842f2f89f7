//! Clients of a server on this machine: an operator that sends lines, and simulated stations.
#![tactic(auto)]

mod asking;
mod clock;
mod connection;
mod export;
mod fault;
mod fleet;
mod forgetting;
mod member;
mod opening;
mod order_forms;
mod orders;
mod outcome;
mod reply;
mod simulation;
mod tally;

pub use asking::{AskOptions, ask};
pub use clock::now;
pub use fault::{ClientFault, Lost};
pub use forgetting::{ForgetOptions, days_of, forget};
pub use order_forms::{FORMS, replay_hint_of};
pub use simulation::{SimOptions, simulate};
