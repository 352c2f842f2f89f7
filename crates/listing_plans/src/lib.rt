//! The plans of listings: rows of an operator's records.
#![tactic(auto)]

mod connections;
mod list;

pub use connections::plan_connections;
pub use list::plan_list;
