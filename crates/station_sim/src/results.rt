//! How the script goes on after the result of a call.
ghost use Rattle.std.specs.Prelude.{◌≡◌, option_map};
ghost use Rattle.json_data.specs.View.{view};
ghost use Rattle.station_sim.specs.Results.{status_of, tag_status_of, is_accepted, transaction_of, rest_of, next_session, after_start, after_result, after_error, given_interval, interval_after};

use crate::script::Script;
use crate::stage::Stage;
use json::Value;
use json_data::{integer_of, member_of, text_of, unsigned_of};

/// The seconds between heartbeats where the result of a boot gives none that are taken.
pub const INTERVAL: u32 = 10;

/// The most seconds between heartbeats that are taken: a day.
pub const MAX_INTERVAL: u32 = 86_400;

/// The stage after a result with that payload, where so many sessions of its own are left (OCPP 1.6,
/// Authorize.conf, BootNotification.conf, StartTransaction.conf).
pub fn after_result(script: &Script, left: u32, stage: Stage, payload: &Value<'_>) -> Stage
    ensures { result ≡ after_result script.now left stage (view payload.now) }
{
    match stage {
        Stage::Boot if is_accepted(status_of(payload)) => Stage::Status,
        Stage::Authorize if is_accepted(tag_status_of(payload)) => Stage::Start,
        Stage::Start => {
            after_start(
                script,
                left,
                tag_status_of(payload),
                transaction_of(payload),
            )
        }
        Stage::Charging { transaction, sent } if sent < script.readings.len() => Stage::Charging {
            transaction,
            sent: sent + 1,
        },
        Stage::Boot | Stage::Ended => Stage::Ended,
        Stage::Idle => Stage::Idle,
        _ => next_session(script, left),
    }
}

/// The stage after an error in the place of a result.
pub fn after_error(script: &Script, left: u32, stage: Stage) -> Stage
    ensures { result ≡ after_error script.now left stage }
{
    match stage {
        Stage::Boot | Stage::Status | Stage::Ended => Stage::Ended,
        Stage::Idle => Stage::Idle,
        _ => next_session(script, left),
    }
}

/// The next session of its own, if some are left. Without one a station that stays waits, and another has ended.
fn next_session(script: &Script, left: u32) -> Stage
    ensures { result ≡ next_session script.now left }
{
    if left > 0 {
        Stage::Authorize
    } else {
        rest_of(script)
    }
}

fn rest_of(script: &Script) -> Stage
    ensures { result ≡ rest_of script.now }
{
    if script.stays {
        Stage::Idle
    } else {
        Stage::Ended
    }
}

/// The seconds between heartbeats after the result of a stage's call.
pub fn interval_after(stage: Stage, payload: &Value<'_>, interval: u32) -> u32
    ensures { result ≡ interval_after stage (view payload.now) interval }
{
    match stage {
        Stage::Boot => interval_of(payload).unwrap_or(INTERVAL),
        _ => interval,
    }
}

/// The interval that the result of a boot gives, where that is 1 to MAX_INTERVAL (OCPP 1.6, BootNotification.conf).
fn interval_of(payload: &Value<'_>) -> Option<u32>
    ensures { result ≡ given_interval (view payload.now) }
{
    let interval = unsigned_of(member_of(payload, "interval")?)?;
    if 1 <= interval && interval <= u64::from(MAX_INTERVAL) {
        Some(interval as u32)
    } else {
        None
    }
}

fn after_start(script: &Script, left: u32, status: Option<&str>, transaction: Option<i32>) -> Stage
    ensures { result ≡ after_start script.now left (option_map (λ s. s.now) status.entry) transaction }
{
    let (Some(status), Some(transaction)) = (status, transaction) else {
        return next_session(script, left);
    };
    if is_accepted(Some(status)) {
        Stage::Charging {
            transaction,
            sent: 0,
        }
    } else {
        Stage::Refused { transaction }
    }
}

fn is_accepted(status: Option<&str>) -> bool
    ensures { result ≡ is_accepted (option_map (λ s. s.now) status.entry) }
{
    match status {
        Some(status) => status == "Accepted",
        None => false,
    }
}

fn status_of<'a>(payload: &Value<'a>) -> Option<&'a str>
    ensures { option_map (λ s. s.now) result ≡ status_of (view payload.now) }
{
    text_of(member_of(payload, "status")?)
}

fn tag_status_of<'a>(payload: &Value<'a>) -> Option<&'a str>
    ensures { option_map (λ s. s.now) result ≡ tag_status_of (view payload.now) }
{
    status_of(member_of(payload, "idTagInfo")?)
}

/// The member `transactionId`, where that is an integer of 32 bits.
pub fn transaction_of(payload: &Value<'_>) -> Option<i32>
    ensures { result ≡ transaction_of (view payload.now) }
{
    let number = integer_of(member_of(payload, "transactionId")?)?;
    if i32::MIN as i128 <= number && number <= i32::MAX as i128 {
        Some(number as i32)
    } else {
        None
    }
}
