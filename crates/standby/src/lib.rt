//! A standby: a hub that follows the journal of another.
#![tactic(auto)]

mod fault;
mod following;
mod group;
mod waiting;

pub use fault::FollowFault;
pub use following::{Ended, Progress, find_begin, follow};
