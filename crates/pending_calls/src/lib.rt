//! The calls that the central system sends to stations: one in flight at each station, and those
//! that wait for it.
#![tactic(auto)]

mod call;
mod ended;
mod hints;
mod own_rows;
mod slot;
mod slots;

pub use call::{Call, Message, Moved, NewCall};
pub use ended::Ended;
pub use slot::Slot;
pub use slots::Slots;
