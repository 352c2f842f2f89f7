//! What an event says to its operator and what it changes, as values, before anything is changed.
#![tactic(auto)]

mod message_at;
mod plan;
mod short_plans;

pub use message_at::{CallAt, MessageAt};
pub use plan::{Effect, Plan, one};
pub use short_plans::{
    connect_plan, decided_plan, disconnect_plan, edit_plan, error_plan, forget_plan, repaired_plan,
    turned_plan,
};
