//! A scripted charging station of OCPP 1.6: it makes the calls of its charging sessions one after
//! the other, and answers the calls of the central system. One that stays runs the sessions that the
//! central system begins.
#![tactic(auto)]

mod calls;
mod command;
mod remote;
mod replies;
mod results;
mod script;
mod session;
mod sim;
mod socket;
mod stage;
mod version;

pub use script::{BadScript, Script};
pub use session::MAX_CALLS;
pub use sim::Sim;
pub use socket::{Drove, SimFault, drive};
