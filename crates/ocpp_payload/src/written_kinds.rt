//! The kinds of value that are written as well as read.
ghost use Rattle.std.specs.Prelude.{◌≡◌, IfOk, map};
ghost use Rattle.serde_json.specs.Data.{array, string};
ghost use Rattle.serde_json.specs.View.{view, items_of};
ghost use Rattle.ocpp_payload.specs.Holds.{first_bad};

use crate::fault::ReadResult;
use crate::kind::{AnyText, Boolean, Int32, Int64, Kind, NameOf, TextOf, WholeSecond};
use crate::lists::{ListOf, ObjectOf};
use crate::written::{Bounded, Checked, Tabled, Written};
use ocpp_types::{FieldName, Listed, Mem, Moment, Named, Text, count_characters, print_time};
use serde_json::Value;
use std::alloc::Global;

impl Written for TextOf {
    ghost use Rattle.ocpp_payload.specs.Holds.{holds_text};
    ghost use Rattle.ocpp_payload.specs.Kind.{text};

    ghost holds = { λ kind. holds_text (text kind.0) };

    fn write(&self, alloc: Global, value: &Text) -> Mem<Value> {
        text_value(alloc, value.as_str())
    }
}

impl Written for AnyText {
    ghost use Rattle.ocpp_payload.specs.Holds.{holds_text};
    ghost use Rattle.ocpp_payload.specs.Kind.{any_text};

    ghost holds = { λ _. holds_text any_text };

    fn write(&self, alloc: Global, value: &Text) -> Mem<Value> {
        text_value(alloc, value.as_str())
    }
}

impl Written for Boolean {
    ghost use Rattle.ocpp_payload.specs.Holds.{holds_boolean};

    ghost holds = { λ _. holds_boolean };

    fn write(&self, _alloc: Global, value: &bool) -> Mem<Value> {
        Ok(Value::Bool(*value))
    }
}

impl Written for Int32 {
    ghost use Rattle.ocpp_payload.specs.Holds.{holds_int_32};

    ghost holds = { λ _. holds_int_32 };

    fn write(&self, _alloc: Global, value: &i32) -> Mem<Value> {
        Ok(Value::from(*value))
    }
}

impl<E: Named + Drop> Written for NameOf<E> {
    ghost use Rattle.ocpp_payload.specs.Holds.{holds_name};

    ghost holds = { λ _. holds_name E.names E.name_of };

    fn write(&self, alloc: Global, value: &E) -> Mem<Value> {
        text_value(alloc, value.name())
    }
}

impl Written for WholeSecond {
    ghost use Rattle.ocpp_payload.specs.Holds.{holds_moment};

    ghost holds = { λ _. holds_moment };

    fn write(&self, alloc: Global, value: &Moment) -> Mem<Value> {
        Ok(Value::String(print_time(alloc, *value)?))
    }
}

fn text_value(alloc: Global, text: &str) -> Mem<Value>
    ensures { IfOk result (λ v. view v ≡ string text.now) }
{
    Ok(Value::String(String::from_str(alloc, text)?))
}

/// A text of which one of more characters is bad.
#[derive(Clone, Copy, Drop)]
pub struct TextWithin(pub usize);

impl Kind for TextWithin {
    type Out = Text;

    ghost use Rattle.ocpp_payload.specs.Kind.{any_text};

    ghost reads = { λ _. any_text };

    fn read(
        &self,
        alloc: Global,
        field: &'static str,
        value: &json::Value<'_>,
    ) -> ReadResult<Text> {
        AnyText.read(alloc, field, value)
    }
}

impl Written for TextWithin {
    ghost use Rattle.ocpp_payload.specs.Holds.{holds_text_within};

    ghost holds = { λ kind. holds_text_within kind.0 };

    fn write(&self, alloc: Global, value: &Text) -> Mem<Value> {
        text_value(alloc, value.as_str())
    }
}

impl Bounded for TextWithin {
    fn bad(&self, field: &'static str, value: &Text) -> Option<FieldName> {
        if count_characters(value.as_str()) <= self.0 {
            None
        } else {
            Some(FieldName::new(field))
        }
    }
}

/// An integer of 64 bits, of which one below the first or above the second is bad.
#[derive(Clone, Copy, Drop)]
pub struct IntegerWithin(pub i64, pub i64);

impl Kind for IntegerWithin {
    type Out = i64;

    ghost use Rattle.ocpp_payload.specs.Kind.{int_64};

    ghost reads = { λ _. int_64 };

    fn read(&self, alloc: Global, field: &'static str, value: &json::Value<'_>) -> ReadResult<i64> {
        Int64.read(alloc, field, value)
    }
}

impl Written for IntegerWithin {
    ghost use Rattle.ocpp_payload.specs.Holds.{holds_integer_within};

    ghost holds = { λ kind. holds_integer_within kind.0 kind.1 };

    fn write(&self, _alloc: Global, value: &i64) -> Mem<Value> {
        Ok(Value::from(*value))
    }
}

impl Bounded for IntegerWithin {
    fn bad(&self, field: &'static str, value: &i64) -> Option<FieldName> {
        if self.0 <= *value && *value <= self.1 {
            None
        } else {
            Some(FieldName::new(field))
        }
    }
}

impl<T: Tabled> Written for ObjectOf<T> {
    ghost use Rattle.ocpp_payload.specs.Table.{holds_object};

    ghost holds = { λ _. holds_object T.form };

    fn write(&self, alloc: Global, value: &T) -> Mem<Value> {
        value.write(alloc)
    }
}

impl<T: Checked> Bounded for ObjectOf<T> {
    fn bad(&self, _field: &'static str, value: &T) -> Option<FieldName> {
        value.bad()
    }
}

impl<K: Written> Written for ListOf<K> {
    ghost use Rattle.ocpp_payload.specs.Holds.{holds_list};

    ghost holds = { λ kind. holds_list (K.holds kind.0) };

    fn write(&self, alloc: Global, value: &Listed<K::Out>) -> Mem<Value> {
        write_each(alloc, &self.0, value.as_slice())
    }
}

fn write_each<K: Written>(alloc: Global, kind: &K, values: &[K::Out]) -> Mem<Value>
    ensures { IfOk result (λ v. view v ≡ array (items_of (map (K.holds kind.now).json values.now))) }
{
    let mut items = Vec::new(alloc);
    for value in values {
        items.push(kind.write(alloc, value)?)?;
    }
    Ok(Value::Array(items))
}

impl<K: Bounded> Bounded for ListOf<K> {
    fn bad(&self, field: &'static str, value: &Listed<K::Out>) -> Option<FieldName> {
        first_bad(&self.0, field, value.as_slice())
    }
}

fn first_bad<K: Bounded>(kind: &K, field: &'static str, values: &[K::Out]) -> Option<FieldName>
    ensures { result ≡ first_bad ((K.holds kind.now).bad field.now) values.now }
{
    for value in values {
        if let Some(name) = kind.bad(field, value) {
            return Some(name);
        }
    }
    None
}
