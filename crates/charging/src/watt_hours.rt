//! The energy that readings show (OCPP 1.6, section 7.43, SampledValue; docs/RULES.md, Stops).
ghost use Rattle.std.specs.Prelude.{◌≡◌, ◌≤◌, IfSome};
ghost use Rattle.charging.specs.WattHours.{is_energy, is_watt_hours, last_shown, last_watt_hours, watt_hours, whole_watt_hours};
ghost use Rattle.charging.specs.declared.watt_hours.TheConstants.{MAX_WATT_HOURS};

use hub_rows::MeterValueRow;
use ocpp_types::{Location, Measurand, SampledValue, UnitOfMeasure, ValueFormat, read_micro};

/// The most Wh that a meter shows.
pub const MAX_WATT_HOURS: u64 = 999_999_999_999;

/// The Wh of the last reading of these meter values that shows any.
pub fn last_watt_hours(rows: &[MeterValueRow]) -> Option<u64>
    ensures shown { result ≡ last_watt_hours rows.now }
    ensures within { IfSome result (λ wh. wh ≤ MAX_WATT_HOURS) }
{
    let mut last = None;
    for row in rows {
        last = last_shown(row.value.sampled.as_slice()).or(last);
    }
    last
}

fn last_shown(sampled: &[SampledValue]) -> Option<u64>
    ensures shown { result ≡ last_shown sampled.now }
    ensures within { IfSome result (λ wh. wh ≤ MAX_WATT_HOURS) }
{
    let mut last = None;
    for reading in sampled {
        last = watt_hours(reading).or(last);
    }
    last
}

/// The Wh that a reading shows: one of Energy.Active.Import.Register at the outlet, without a phase, whose text has a
/// number. A fraction of a Wh is left out.
fn watt_hours(reading: &SampledValue) -> Option<u64>
    ensures shown { result ≡ watt_hours reading.now }
    ensures within { IfSome result (λ wh. wh ≤ MAX_WATT_HOURS) }
{
    if !is_energy(reading) {
        return None;
    }
    whole_watt_hours(read_micro(reading.value.as_str(), reading.unit)?)
}

fn is_energy(reading: &SampledValue) -> bool
    ensures { result ≡ is_energy reading.now }
{
    matches!(reading.measurand, Measurand::EnergyActiveImportRegister)
        && reading.phase.is_none()
        && matches!(reading.location, Location::Outlet)
        && matches!(reading.format, ValueFormat::Raw)
        && is_watt_hours(reading.unit)
}

fn is_watt_hours(unit: Option<UnitOfMeasure>) -> bool
    ensures { result ≡ is_watt_hours unit }
{
    matches!(unit, None | Some(UnitOfMeasure::Wh | UnitOfMeasure::KWh))
}

/// The whole Wh of a number of millionths, if a meter can show so many.
fn whole_watt_hours(micro: i128) -> Option<u64>
    ensures is { result ≡ whole_watt_hours micro }
    ensures within { IfSome result (λ wh. wh ≤ MAX_WATT_HOURS) }
{
    let whole = u128::try_from(micro).ok()? / 1_000_000;
    if whole > MAX_WATT_HOURS as u128 {
        return None;
    }
    Some(whole as u64)
}
