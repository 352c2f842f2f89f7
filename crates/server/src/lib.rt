//! A server: it takes connections, serves them over a hub turn by turn, and tells of itself in a log and by metrics.
#![tactic(auto)]

mod measured;
mod opening;
mod prepared;
mod reactor;
mod server;
mod service;
mod serving;
mod stop_file;
mod turns;

pub use opening::{Begun, Opened, begin};
pub use serving::serve;
