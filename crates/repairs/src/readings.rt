//! What is read in place of readings of a meter (OCPP 1.6, sections 7.33 and 7.43).
ghost use Rattle.std.specs.Prelude.{◌≡◌, IfOk, option_map};
ghost use Rattle.json.specs.Print.{print};
ghost use Rattle.json.specs.Tree.{HasNumbers, MembersHaveNumbers, json_tokens};
ghost use Rattle.json.specs.Value.{value_view, members_view};
ghost use Rattle.serde_json.specs.Read.{read};
ghost use Rattle.repairs.specs.Tables.{repair_at};
ghost use Rattle.repairs.specs.Readings.{named_members, is_unnamed_at, has_unnamed, sampled_object, sampled_value_table, sampled_values, is_meter_value, if_read, meter_value, meter_values};

use crate::names::{is_unnamed, named_if_any};
use crate::tables::{ItemRepair, MemberRepairs, by_table, repaired_items, repaired_members};
use crate::texts::{time, value_text};
use crate::written::text_of;
use json::{Scratch, Value};
use json_data::read_value;
use ocpp_payload::{MeterValue, ReadError, Readable};
use ocpp_types::{
    Location, Measurand, Mem, NoMemory, Phase, ReadingContext, UnitOfMeasure, ValueFormat,
};
use std::alloc::Global;

/// The members of a sampled value.
struct SampledValueMembers;

impl MemberRepairs for SampledValueMembers {
    ghost use Rattle.repairs.specs.Readings.{sampled_value_table};

    ghost table = { λ _ _. sampled_value_table };

    fn repair<'a>(
        &self,
        _alloc: Global,
        _now: &'a str,
        name: &str,
        value: Value<'a>,
    ) -> Mem<Option<Value<'a>>> {
        Ok(of_sampled_value(name, value))
    }
}

fn of_sampled_value<'a>(name: &str, value: Value<'a>) -> Option<Value<'a>>
    ensures { option_map (λ v. value_view v) result
        ≡ repair_at sampled_value_table name.now (value_view value.entry) }
{
    match name {
        "value" => Some(value_text(value)),
        "context" => named_if_any::<ReadingContext>(value),
        "format" => named_if_any::<ValueFormat>(value),
        "measurand" => named_if_any::<Measurand>(value),
        "phase" => named_if_any::<Phase>(value),
        "location" => named_if_any::<Location>(value),
        "unit" => named_if_any::<UnitOfMeasure>(value),
        _ => Some(value),
    }
}

/// Whether the member should be a name, and none is alike.
fn is_unnamed_at(name: &str, value: &Value<'_>) -> bool
    ensures { result ≡ is_unnamed_at named_members name.now (value_view value.now) }
{
    match name {
        "context" => is_unnamed::<ReadingContext>(value),
        "format" => is_unnamed::<ValueFormat>(value),
        "measurand" => is_unnamed::<Measurand>(value),
        "phase" => is_unnamed::<Phase>(value),
        "location" => is_unnamed::<Location>(value),
        "unit" => is_unnamed::<UnitOfMeasure>(value),
        _ => false,
    }
}

fn has_unnamed(members: &[(&str, Value<'_>)]) -> bool
    ensures { result ≡ has_unnamed (members_view members.now) }
{
    for (name, value) in members {
        if is_unnamed_at(name, value) {
            return true;
        }
    }
    false
}

/// The sampled values of a meter value. One with a name that isn't known is left out, since it
/// can't be told what was measured.
struct SampledValues;

impl ItemRepair for SampledValues {
    ghost use Rattle.repairs.specs.Readings.{sampled_value};

    ghost repair_by = { λ _ _. sampled_value };

    fn repair<'a>(&self, alloc: Global, now: &'a str, value: Value<'a>) -> Mem<Option<Value<'a>>> {
        match value {
            Value::Object(members) => sampled_object(alloc, now, members),
            other => Ok(Some(other)),
        }
    }
}

fn sampled_object<'a>(
    alloc: Global,
    now: &'a str,
    members: Vec<(&'a str, Value<'a>)>,
) -> Mem<Option<Value<'a>>>
    requires { MembersHaveNumbers (members_view members.items) }
    ensures { IfOk result (λ repaired. option_map (λ v. value_view v) repaired
        ≡ sampled_object (members_view members.entry.items)) }
{
    if has_unnamed(members.as_slice()) {
        return Ok(None);
    }
    let repaired = repaired_members(alloc, &SampledValueMembers, now, members)?;
    Ok(Some(Value::Object(repaired)))
}

fn sampled_values<'a>(alloc: Global, now: &'a str, value: Value<'a>) -> Mem<Value<'a>>
    requires { HasNumbers (value_view value) }
    ensures { IfOk result (λ repaired. value_view repaired ≡ sampled_values (value_view value.entry)) }
{
    match value {
        Value::Array(items) => {
            let repaired = repaired_items(alloc, &SampledValues, now, items)?;
            Ok(Value::Array(repaired))
        }
        other => Ok(other),
    }
}

/// The members of a meter value.
struct MeterValueMembers;

impl MemberRepairs for MeterValueMembers {
    ghost use Rattle.repairs.specs.Readings.{meter_value_table};

    ghost table = { λ _ now. meter_value_table now };

    fn repair<'a>(
        &self,
        alloc: Global,
        now: &'a str,
        name: &str,
        value: Value<'a>,
    ) -> Mem<Option<Value<'a>>> {
        let repaired = match name {
            "timestamp" => time(now, value),
            "sampledValue" => sampled_values(alloc, now, value)?,
            _ => value,
        };
        Ok(Some(repaired))
    }
}

/// The meter values of a request. One that the strict reader refuses even so is left out.
struct MeterValues;

impl ItemRepair for MeterValues {
    ghost use Rattle.repairs.specs.Readings.{meter_value};

    ghost repair_by = { λ _ now. meter_value now };

    fn repair<'a>(&self, alloc: Global, now: &'a str, value: Value<'a>) -> Mem<Option<Value<'a>>> {
        let repaired = by_table(alloc, &MeterValueMembers, now, value)?;
        if_read(alloc, repaired)
    }
}

/// The value, if the strict reader reads it as a meter value.
fn if_read(alloc: Global, value: Value<'_>) -> Mem<Option<Value<'_>>>
    requires { HasNumbers (value_view value) }
    ensures { IfOk result (λ found. option_map (λ v. value_view v) found ≡ if_read (value_view value.entry)) }
{
    if is_meter_value(alloc, &value)? {
        Ok(Some(value))
    } else {
        Ok(None)
    }
}

fn is_meter_value(alloc: Global, value: &Value<'_>) -> Mem<bool>
    requires { HasNumbers (value_view value.now) }
    ensures { IfOk result (λ is. is
        ≡ is_meter_value (read (print (json_tokens (value_view value.now))))) }
{
    let written = text_of(alloc, value)?;
    let mut scratch = Scratch::new(alloc);
    let Some(again) = read_value(alloc, &mut scratch, written.as_str())? else {
        return Ok(false);
    };
    match MeterValue::read_from(alloc, &again) {
        Ok(_) => Ok(true),
        Err(ReadError::Fault(_)) => Ok(false),
        Err(ReadError::NoMemory) => Err(NoMemory),
    }
}

/// A list of meter values. What is no list is left out, and null counts as no member.
pub(crate) fn meter_values<'a>(
    alloc: Global,
    now: &'a str,
    value: Value<'a>,
) -> Mem<Option<Value<'a>>>
    requires { HasNumbers (value_view value) }
    ensures { IfOk result (λ repaired. option_map (λ v. value_view v) repaired
        ≡ meter_values now.now (value_view value.entry)) }
{
    match value {
        Value::Null => Ok(Some(Value::Null)),
        Value::Array(items) => {
            let repaired = repaired_items(alloc, &MeterValues, now, items)?;
            Ok(Some(Value::Array(repaired)))
        }
        _ => Ok(None),
    }
}
