//! The tables of the hub's records in SQLite, the texts of the statements on them, and what each
//! text means.
#![tactic(auto)]

pub mod batches;
pub mod connectors;
pub mod grants;
pub mod list_entries;
pub mod lists;
pub mod meta;
pub mod meter_values;
mod pages;
pub mod readers;
pub mod readings;
pub mod reports;
pub mod reservations;
pub mod stations;
pub mod tags;
pub mod tx_owners;
pub mod txs;
pub mod uses;

pub use pages::PAGE_ROWS;
