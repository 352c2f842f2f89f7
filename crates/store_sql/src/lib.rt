//! The store of the records of all operators in SQLite, in memory or in a file.
#![tactic(auto)]

mod batch;
mod fault;
mod mark;
mod opening;
mod same;
mod sql_store;
mod stopping;
mod tables;

pub use fault::PrepareFault;
pub use mark::{Mark, MarkFault};
pub use opening::prepare;
pub use sql_store::SqlStore;
pub use stopping::stopped_and_opened;
