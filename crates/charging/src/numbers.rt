//! Numbers of readings, which each station counts from 1.
ghost use Rattle.std.specs.Prelude.{◌≡◌};
ghost use Rattle.hub_rows.specs.MeterValues.{all_taken};
ghost use Rattle.charging.specs.Numbers.{has_room};

use hub_rows::{LAST_NUMBER, MeterValue};

/// Whether a number is left for each reading of these meter values, after the last one that was given.
pub fn has_room(last: u32, values: &[MeterValue]) -> bool
    ensures { result ≡ has_room last (all_taken values.now) }
{
    let Some(mut left) = LAST_NUMBER.checked_sub(last) else {
        return false;
    };
    for value in values {
        let taken = value.sampled.as_slice().len().max(1);
        if taken > left as usize {
            return false;
        }
        left -= taken as u32;
    }
    true
}
