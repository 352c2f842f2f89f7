//! Readings of a meter, as a station sends them.

use crate::fault::ReadResult;
use crate::fields::{optional, required, with_default};
use crate::kind::{AnyText, NameOf, Time};
use crate::lists::{ObjectOf, Readable, SomeOf};
use json::Value;
use ocpp_types::{Listed, Location, Measurand, ReadingContext, SampledValue, ValueFormat};
use std::alloc::Global;

impl Readable for SampledValue {
    ghost use Rattle.ocpp_payload.specs.Readings.{sampled_value};

    ghost reads_as = { sampled_value };

    fn read_from(alloc: Global, object: &Value<'_>) -> ReadResult<SampledValue> {
        Ok(SampledValue {
            value: required(alloc, object, "value", AnyText)?,
            context: with_default(
                alloc,
                object,
                "context",
                NameOf::new(),
                ReadingContext::SamplePeriodic,
            )?,
            format: with_default(alloc, object, "format", NameOf::new(), ValueFormat::Raw)?,
            measurand: with_default(
                alloc,
                object,
                "measurand",
                NameOf::new(),
                Measurand::EnergyActiveImportRegister,
            )?,
            phase: optional(alloc, object, "phase", NameOf::new())?,
            location: with_default(alloc, object, "location", NameOf::new(), Location::Outlet)?,
            unit: optional(alloc, object, "unit", NameOf::new())?,
        })
    }
}

/// The readings of one time (OCPP 1.6, type MeterValue).
#[derive(Drop)]
pub struct MeterValue {
    /// Milliseconds since 1970.
    pub timestamp: i64,
    /// One or more.
    pub sampled_value: Listed<SampledValue>,
}

impl Readable for MeterValue {
    ghost use Rattle.ocpp_payload.specs.Readings.{meter_value};

    ghost reads_as = { meter_value };

    fn read_from(alloc: Global, object: &Value<'_>) -> ReadResult<MeterValue> {
        Ok(MeterValue {
            timestamp: required(alloc, object, "timestamp", Time)?,
            sampled_value: required(alloc, object, "sampledValue", SomeOf(ObjectOf::new()))?,
        })
    }
}
