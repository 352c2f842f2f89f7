//! What a member of a payload can hold.
ghost use Rattle.std.specs.Prelude.{◌≡◌, List, ℕ, Result, option_and_then};
ghost use Rattle.serde_json.specs.Find.{as_integer, as_number};
ghost use Rattle.serde_json.specs.Data.{Data};
ghost use Rattle.json_data.specs.View.{view};
ghost use Rattle.ocpp_payload.specs.Gives.{Gives};
ghost use Rattle.ocpp_payload.specs.Kind.{moment_at, typed};
ghost use Rattle.ocpp_payload.specs.declared.fault.FieldFault.{FieldFault};

use crate::fault::{ReadResult, refused};
use json::Value;
use json_data::{integer_of, text_of, truth_of};
use ocpp_types::{ErrorCode, Moment, Named, Text, count_characters, parse_time};
use std::alloc::Global;
use std::marker::PhantomData;

/// What a member holds, and how it is read.
pub trait Kind: Drop {
    /// What is read.
    type Out: Drop;

    /// What is read of the value of the member of that name, or what is wrong with it.
    ghost reads: { Self → List ℕ → Data → Result Self.Out FieldFault };

    /// Reads the value of the member of that name.
    fn read(&self, alloc: Global, field: &'static str, value: &Value<'_>) -> ReadResult<Self::Out>
        ensures { Gives result (reads self.now field.now (view value.now)) };
}

/// A text of at most so many characters.
#[derive(Clone, Copy, Drop)]
pub struct TextOf(pub usize);

impl Kind for TextOf {
    type Out = Text;

    ghost use Rattle.ocpp_payload.specs.Kind.{text};

    ghost reads = { λ kind. text kind.0 };

    fn read(&self, alloc: Global, field: &'static str, value: &Value<'_>) -> ReadResult<Text> {
        let Some(text) = text_of(value) else {
            return refused(ErrorCode::TypeConstraintViolation, field);
        };
        if count_characters(text) > self.0 {
            return refused(ErrorCode::PropertyConstraintViolation, field);
        }
        Ok(Text::copy_of(alloc, text)?)
    }
}

/// Any text.
#[derive(Clone, Copy, Drop)]
pub struct AnyText;

impl Kind for AnyText {
    type Out = Text;

    ghost use Rattle.ocpp_payload.specs.Kind.{any_text};

    ghost reads = { λ _. any_text };

    fn read(&self, alloc: Global, field: &'static str, value: &Value<'_>) -> ReadResult<Text> {
        let Some(text) = text_of(value) else {
            return refused(ErrorCode::TypeConstraintViolation, field);
        };
        let copy = Text::copy_of(alloc, text)?;
        Ok(copy)
    }
}

/// A connector from this one on, up to 255.
#[derive(Clone, Copy, Drop)]
pub struct ConnectorFrom(pub u8);

impl Kind for ConnectorFrom {
    type Out = u8;

    ghost use Rattle.ocpp_payload.specs.Kind.{connector_from};

    ghost reads = { λ kind. connector_from kind.0 };

    fn read(&self, _alloc: Global, field: &'static str, value: &Value<'_>) -> ReadResult<u8> {
        let number = integer(field, value)?;
        if number < self.0 as i128 || 255 < number {
            return refused(ErrorCode::PropertyConstraintViolation, field);
        }
        Ok(number as u8)
    }
}

/// A signed number of 32 bits.
#[derive(Clone, Copy, Drop)]
pub struct Int32;

impl Kind for Int32 {
    type Out = i32;

    ghost use Rattle.ocpp_payload.specs.Kind.{int_32};

    ghost reads = { λ _. int_32 };

    fn read(&self, _alloc: Global, field: &'static str, value: &Value<'_>) -> ReadResult<i32> {
        let number = integer(field, value)?;
        if number < i32::MIN as i128 || (i32::MAX as i128) < number {
            return refused(ErrorCode::PropertyConstraintViolation, field);
        }
        Ok(number as i32)
    }
}

/// A signed number of 64 bits.
#[derive(Clone, Copy, Drop)]
pub struct Int64;

impl Kind for Int64 {
    type Out = i64;

    ghost use Rattle.ocpp_payload.specs.Kind.{int_64};

    ghost reads = { λ _. int_64 };

    fn read(&self, _alloc: Global, field: &'static str, value: &Value<'_>) -> ReadResult<i64> {
        let number = integer(field, value)?;
        if number < i64::MIN as i128 || (i64::MAX as i128) < number {
            return refused(ErrorCode::PropertyConstraintViolation, field);
        }
        Ok(number as i64)
    }
}

/// The integer that a value is.
fn integer(field: &'static str, value: &Value<'_>) -> ReadResult<i128>
    ensures { Gives result (typed field.now (option_and_then as_integer (as_number (view value.now)))) }
{
    match integer_of(value) {
        Some(number) => Ok(number),
        None => refused(ErrorCode::TypeConstraintViolation, field),
    }
}

/// A value by its name.
#[derive(Drop)]
pub struct NameOf<E: Named>(PhantomData<E>);

impl<E: Named> NameOf<E> {
    /// The kind of that enumeration.
    pub fn new() -> NameOf<E> {
        NameOf(PhantomData)
    }
}

impl<E: Named + Drop> Kind for NameOf<E> {
    type Out = E;

    ghost use Rattle.ocpp_payload.specs.Kind.{choice};

    ghost reads = { λ _. choice E.names };

    fn read(&self, _alloc: Global, field: &'static str, value: &Value<'_>) -> ReadResult<E> {
        let Some(name) = text_of(value) else {
            return refused(ErrorCode::TypeConstraintViolation, field);
        };
        match E::of(name) {
            Some(named) => Ok(named),
            None => refused(ErrorCode::PropertyConstraintViolation, field),
        }
    }
}

/// A truth value.
#[derive(Clone, Copy, Drop)]
pub struct Boolean;

impl Kind for Boolean {
    type Out = bool;

    ghost use Rattle.ocpp_payload.specs.Kind.{boolean};

    ghost reads = { λ _. boolean };

    fn read(&self, _alloc: Global, field: &'static str, value: &Value<'_>) -> ReadResult<bool> {
        match truth_of(value) {
            Some(truth) => Ok(truth),
            None => refused(ErrorCode::TypeConstraintViolation, field),
        }
    }
}

/// A time, read as milliseconds since 1970.
#[derive(Clone, Copy, Drop)]
pub struct Time;

impl Kind for Time {
    type Out = i64;

    ghost use Rattle.ocpp_payload.specs.Kind.{time};

    ghost reads = { λ _. time };

    fn read(&self, _alloc: Global, field: &'static str, value: &Value<'_>) -> ReadResult<i64> {
        let Some(time) = text_of(value).and_then(|text| parse_time(text)) else {
            return refused(ErrorCode::TypeConstraintViolation, field);
        };
        Ok(time)
    }
}

/// A time, floored to the moment of its second.
#[derive(Clone, Copy, Drop)]
pub struct WholeSecond;

impl Kind for WholeSecond {
    type Out = Moment;

    ghost use Rattle.ocpp_payload.specs.Kind.{moment};

    ghost reads = { λ _. moment };

    fn read(&self, alloc: Global, field: &'static str, value: &Value<'_>) -> ReadResult<Moment> {
        let time = Time.read(alloc, field, value)?;
        match moment_at(time.div_euclid(1000)) {
            Some(moment) => Ok(moment),
            None => refused(ErrorCode::TypeConstraintViolation, field),
        }
    }
}

fn moment_at(seconds: i64) -> Option<Moment>
    ensures { result ≡ moment_at seconds }
{
    if seconds < 0 {
        return None;
    }
    Moment::new(seconds as u64)
}
