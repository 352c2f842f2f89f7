//! The plans of an operator's commands, and the edits of its requests.
#![tactic(auto)]

mod admin;
mod commands;

pub use admin::decide_admin;
pub use commands::plan_command;
