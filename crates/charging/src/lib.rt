//! The rules on charging: how transactions begin and end, and which meter values are kept.
#![tactic(auto)]

mod close;
mod forget;
mod meter_values;
mod numbers;
mod start;
mod stop;
mod watt_hours;

pub use close::plan_close;
pub use forget::plan_forget;
pub use meter_values::on_meter_values;
pub use start::on_start;
pub use stop::on_stop;
pub use watt_hours::MAX_WATT_HOURS;
