//! The hub: events of stations and operators to outputs, over a store.
#![tactic(auto)]

mod call_outputs;
mod commit;
mod hub;
mod idle;
mod in_flight;
mod stop;
mod tick;
pub mod worlds;

pub use hub::{BadOperators, Hub, Step};
pub use hub_events::{Admin, Event, Fault, Listing, Out, Outcome, Row, Said, What};
pub use idle::is_idle;
pub use stop::run_and_stop;
