//! A store of records in memory.
#![tactic(auto)]

mod copies;
mod dropping;
mod edits;
mod forgettable;
mod granted;
mod grants;
mod groups;
mod lists;
mod mem_store;
mod meter_values;
mod named_groups;
mod near;
mod numbers;
mod open;
mod readers;
mod received;
mod reservations;
mod starts;
mod station_copies;
mod station_rows;
mod stations;
mod tags;
mod transactions;
mod triples;
mod tx_owners;
mod tx_rows;
mod uses;

pub use mem_store::MemStore;
