//! A cache of look-ups over a store: of id tags, of how stations are registered, and of the numbers of their
//! last readings.
#![tactic(auto)]

mod answer;
mod cached;
mod memo;
mod reading_answer;
mod station_answer;
mod tag_answer;

pub use cached::{CacheFault, Cached};
