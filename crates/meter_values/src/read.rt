//! Text to sampled values.
ghost use Rattle.std.specs.Prelude.{◌≡◌, IfOk};
ghost use Rattle.json.specs.Find.{get, as_str};
ghost use Rattle.json.specs.Value.{value_view, items_view};
ghost use Rattle.meter_values.specs.Read.{each_sampled, if_any, or_default, sampled_in, sampled_of_json, sampled_with};

use json::{Error, Scratch, Value};
use ocpp_types::{
    Listed, Location, Measurand, Mem, Named, NoMemory, ReadingContext, SampledValue, Text,
    ValueFormat,
};
use std::alloc::Global;

/// The sampled values that a text is. `None` where it is no JSON array of objects, or where an
/// object has no `value`, a member that is no text, or a name of no value (OCPP 1.6, section
/// 7.43). A member that is missing has the standard's default; one of another name isn't read.
pub fn read_sampled(alloc: Global, text: &str) -> Mem<Option<Listed<SampledValue>>>
    ensures { IfOk result (λ found. found ≡ sampled_in text.now) }
{
    let mut scratch = Scratch::new(alloc);
    match Value::parse(alloc, text, &mut scratch) {
        Ok(Value::Array(items)) => read_each(alloc, items.as_slice()),
        Ok(_) => Ok(None),
        Err(Error::OutOfMemory) => Err(NoMemory),
        Err(_) => Ok(None),
    }
}

/// The items of the array, in order.
fn read_each(alloc: Global, items: &[Value<'_>]) -> Mem<Option<Listed<SampledValue>>>
    ensures { IfOk result (λ found. found ≡ each_sampled (items_view items.now)) }
{
    let mut found = Listed::new(alloc);
    for item in items {
        let Some(sampled) = read_one(alloc, item)? else {
            return Ok(None);
        };
        found.push(sampled)?;
    }
    Ok(Some(found))
}

fn read_one(alloc: Global, item: &Value<'_>) -> Mem<Option<SampledValue>>
    ensures { IfOk result (λ found. found ≡ sampled_of_json (value_view item.now)) }
{
    match item.get("value").and_then(Value::as_str) {
        Some(text) => Ok(read_members(item, Text::copy_of(alloc, text)?)),
        None => Ok(None),
    }
}

/// The sampled value of that text, by its other members.
fn read_members(item: &Value<'_>, text: Text) -> Option<SampledValue>
    ensures { result ≡ sampled_with text (value_view item.now) }
{
    let default_measurand = Measurand::EnergyActiveImportRegister;
    Some(SampledValue {
        value: text,
        context: or_default(item, "context", ReadingContext::SamplePeriodic)?,
        format: or_default(item, "format", ValueFormat::Raw)?,
        measurand: or_default(item, "measurand", default_measurand)?,
        phase: if_any(item, "phase")?,
        location: or_default(item, "location", Location::Outlet)?,
        unit: if_any(item, "unit")?,
    })
}

/// The value of a member, or the default where there is none.
fn or_default<N: Named>(item: &Value<'_>, name: &str, default: N) -> Option<N>
    ensures { result ≡ or_default default N.names (get name.now (value_view item.now)) }
{
    match item.get(name) {
        Some(member) => N::of(member.as_str()?),
        None => Some(default),
    }
}

/// The value of a member that may be missing.
fn if_any<N: Named>(item: &Value<'_>, name: &str) -> Option<Option<N>>
    ensures { result ≡ if_any N.names (get name.now (value_view item.now)) }
{
    match item.get(name) {
        Some(member) => Some(Some(N::of(member.as_str()?)?)),
        None => Some(None),
    }
}
