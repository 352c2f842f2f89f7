//! What a server tells of itself: a log on standard error, and metrics.
#![tactic(auto)]

mod causes;
mod measured;
mod metrics;
mod metrics_page;
mod repair_log;
mod server_log;
mod stderr;

pub use measured::{now_of, size_of};
pub use metrics::{Counts, Longest, Metrics};
pub use metrics_page::{Connected, Now, page_of};
pub use server_log::ServerLog;
pub use stderr::takes_line;
