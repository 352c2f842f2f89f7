//! Sampled values as one JSON text.
#![tactic(auto)]

mod read;
mod write;

pub use read::read_sampled;
pub use write::write_sampled;
