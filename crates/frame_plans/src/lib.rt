//! The plans of what stations send: calls, and answers to calls.
#![tactic(auto)]

mod answers;
mod frames;
mod requests;

pub use frames::plan_text;
