//! The clock.

use ocpp_types::Moment;
use std::time::{Clock, SystemTime, UNIX_EPOCH};

/// The clock's moment. `None` is a clock that gives none from 1970 to 9999.
pub fn now<C: Clock>(clock: &C) -> Option<Moment> {
    let time = SystemTime::now(clock).ok()?;
    let since = time.duration_since(UNIX_EPOCH).ok()?;
    Moment::new(since.as_secs())
}
