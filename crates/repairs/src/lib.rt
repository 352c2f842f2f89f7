//! What a tolerant reader reads where the strict reader of `ocpp_payload` refuses a request.
#![tactic(auto)]

mod integers;
mod names;
mod reading;
mod readings;
mod requests;
mod tables;
mod texts;
mod tolerant;
mod written;

pub use reading::Reading;
pub use tolerant::read_tolerant;
