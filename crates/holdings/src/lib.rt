//! The rules on what a station holds for drivers: reservations of its connectors, and its local
//! list of tags.
#![tactic(auto)]

mod accepted;
mod entries;
mod local_list;
mod reservation;

pub use accepted::edit_when_accepted;
pub use local_list::list_answer;
pub use reservation::{cancelled, is_current, plan_cancel, plan_reserve, reserved};
