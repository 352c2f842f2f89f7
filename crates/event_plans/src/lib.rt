//! The plan of each event of an operator, made of look-ups and slots.
#![tactic(auto)]

mod event_plan;
mod sizes;

pub use event_plan::plan_event;
