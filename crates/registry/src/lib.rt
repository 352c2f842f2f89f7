//! The rules on stations: which are registered, what they may send, how boots, heartbeats, reports
//! on connectors and reports of uploads and updates are answered.
#![tactic(auto)]

mod allowed;
mod boot;
mod decision;
mod policy_set;
mod reader_set;
mod report;
mod station_added;
mod station_at;
mod station_dropped;
mod status;

pub use allowed::is_allowed;
pub use boot::{on_boot, on_heartbeat};
pub use decision::{Decision, Reply, internal_error};
pub use policy_set::plan_policy;
pub use reader_set::plan_reader;
pub use report::on_report;
pub use station_added::{MAX_INTERVAL, MAX_STATION, Terms, plan_add};
pub use station_at::StationAt;
pub use station_dropped::plan_station_drop;
pub use status::on_status;
