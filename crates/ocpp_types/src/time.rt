//! Times as text (OCPP 1.6, section 3, "Time notations"; docs/RULES.md, Times and moments).
ghost use Rattle.std.specs.Prelude.{◌≡◌, ◌<◌, ◌≤◌, ◌*◌, pos, Some, None, IfOk, string_bytes, option_map};
ghost use Rattle.std.specs.Result.{result_ok};
ghost use Rattle.jiff_core.specs.DateTime.{civil_nanos};
ghost use Rattle.jiff_fmt.specs.Temporal.{parse_timestamp, parse_datetime, instant};
ghost use Rattle.ocpp_types.specs.Time.{last_read_moment, civil_instant, instant_or_civil, time_of};
ghost use Rattle.ocpp_types.specs.TimeText.{time_text};

use crate::memory::Mem;
use crate::moment::Moment;
use jiff::Timestamp;
use jiff::civil::{DateTime, datetime};
use std::alloc::Global;
use std::time::Duration;

/// The length of a moment's text.
const LENGTH: usize = 20;

/// The text `YYYY-MM-DDTHH:MM:SSZ` of a moment. `parse_time` reads it again, unless the moment is
/// past 9999-12-30T22:00:00Z, the last second that `jiff`'s Timestamp holds: `parse_time` refuses
/// that text.
pub fn print_time(alloc: Global, moment: Moment) -> Mem<String>
    ensures text { IfOk result (λ s. string_bytes s ≡ time_text moment) }
    ensures reads_back { IfOk result (λ s. moment ≤ last_read_moment
        → time_of (string_bytes s) ≡ Some (pos (moment * 1000))) }
    ensures not_read { IfOk result (λ s. last_read_moment < moment
        → time_of (string_bytes s) ≡ None) }
{
    let civil = civil_time(moment);
    let mut text = String::with_capacity(alloc, LENGTH)?;
    write!(text, "{civil}Z")?;
    Ok(text)
}

/// The time that a text is, in milliseconds since 1970, floored: an instant as `jiff` reads a
/// Timestamp, or else a civil date and time, taken in UTC. `None` for any other text.
pub fn parse_time(text: &str) -> Option<i64>
    ensures { result ≡ time_of text.now }
{
    let instant = instant_of(text)?;
    Some(instant.as_nanosecond().div_euclid(1_000_000) as i64)
}

fn epoch() -> DateTime
    ensures { civil_nanos result ≡ pos 0 }
{
    datetime(1970, 1, 1, 0, 0, 0, 0)
}

fn civil_time(moment: Moment) -> DateTime
    ensures { civil_nanos result ≡ pos (moment * 1_000_000_000) }
{
    epoch()
        .checked_add(Duration::from_secs(moment.seconds()))
        .unwrap()
}

fn instant_of(text: &str) -> Option<Timestamp>
    ensures { option_map (λ t. t.nanosecond) result
        ≡ instant_or_civil (parse_timestamp text.now) text.now }
{
    match text.parse::<Timestamp>() {
        Ok(instant) => Some(instant),
        Err(_) => civil_instant(text),
    }
}

fn civil_instant(text: &str) -> Option<Timestamp>
    ensures { option_map (λ t. t.nanosecond) result ≡ civil_instant (parse_datetime text.now) }
{
    match text.parse::<DateTime>() {
        Ok(civil) => instant_in_utc(civil),
        Err(_) => None,
    }
}

fn instant_in_utc(civil: DateTime) -> Option<Timestamp>
    ensures { option_map (λ t. t.nanosecond) result ≡ result_ok (instant (civil_nanos civil)) }
{
    let nanoseconds = civil.duration_since(epoch()).as_nanos();
    Timestamp::from_nanosecond(nanoseconds).ok()
}
