//! The look-ups of a store in SQLite, on a connection that serves.
#![tactic(auto)]

mod bounds;
pub mod connectors;
mod first_values;
pub mod forget;
pub mod granted;
pub mod grants;
pub mod local_lists;
pub mod readers;
pub mod reports;
pub mod reservations;
pub mod station_values;
pub mod stations;
pub mod tags;
pub mod txs;
pub mod uses;
pub mod values;
