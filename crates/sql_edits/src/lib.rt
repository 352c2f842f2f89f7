//! The changes that a store in SQLite makes, in batches of one transaction each.
#![tactic(auto)]

mod batches;
mod binds;
mod changes;
mod connectors;
mod counts;
mod dropping;
mod forget;
mod grants;
mod local_lists;
mod moving;
mod readers;
mod reports;
mod reservations;
mod stations;
mod tags;
mod txs;
mod uses;
mod values;

pub use batches::{NotMade, flush, goes_on, rest, undo};
pub use changes::{apply, apply_more, apply_now};
pub use moving::move_from;
