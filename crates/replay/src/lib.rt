//! Replays of lines: a script in, what the hub answers out, over any reader and writer.
#![tactic(auto)]

mod answers;
mod fault;
mod in_memory;
mod input;
mod input_lines;
mod settling;
mod written;

pub use fault::{LineFault, ReplayFault};
pub use in_memory::replay_in_memory;
pub use input::{MAX_INPUT, replay, replay_within};
