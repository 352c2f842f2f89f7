//! Objects and lists as the values of members.
ghost use Rattle.std.specs.Prelude.{Result};
ghost use Rattle.serde_json.specs.Data.{Data};
ghost use Rattle.json_data.specs.View.{view, items_view};
ghost use Rattle.ocpp_payload.specs.Gives.{Gives};
ghost use Rattle.ocpp_payload.specs.Lists.{each};
ghost use Rattle.ocpp_payload.specs.declared.fault.FieldFault.{FieldFault};

use crate::fault::{ReadResult, refused};
use crate::kind::Kind;
use json::Value;
use json_data::{is_object, items_of};
use ocpp_types::{ErrorCode, Listed};
use std::alloc::Global;
use std::marker::PhantomData;

/// What is read of the members of an object.
pub trait Readable: Drop {
    /// What is read, or what is wrong.
    ghost reads_as: { Data → Result Self FieldFault };

    /// Reads it.
    fn read_from(alloc: Global, object: &Value<'_>) -> ReadResult<Self>
        ensures { Gives result (reads_as (view object.now)) };
}

/// An object.
#[derive(Drop)]
pub struct ObjectOf<T>(PhantomData<T>);

impl<T> ObjectOf<T> {
    /// The kind of such an object.
    pub fn new() -> ObjectOf<T> {
        ObjectOf(PhantomData)
    }
}

impl<T: Readable> Kind for ObjectOf<T> {
    type Out = T;

    ghost use Rattle.ocpp_payload.specs.Lists.{object_of};

    ghost reads = { λ _. object_of T.reads_as };

    fn read(&self, alloc: Global, field: &'static str, value: &Value<'_>) -> ReadResult<T> {
        if !is_object(value) {
            return refused(ErrorCode::TypeConstraintViolation, field);
        }
        T::read_from(alloc, value)
    }
}

/// A list of values of a kind.
#[derive(Drop)]
pub struct ListOf<K>(pub K);

impl<K: Kind> Kind for ListOf<K> {
    type Out = Listed<K::Out>;

    ghost use Rattle.ocpp_payload.specs.Lists.{list_of};

    ghost reads = { λ kind. list_of (K.reads kind.0) };

    fn read(
        &self,
        alloc: Global,
        field: &'static str,
        value: &Value<'_>,
    ) -> ReadResult<Listed<K::Out>> {
        let Some(items) = items_of(value) else {
            return refused(ErrorCode::TypeConstraintViolation, field);
        };
        each(alloc, field, items, &self.0)
    }
}

/// A list of one value of a kind or more.
#[derive(Drop)]
pub struct SomeOf<K>(pub K);

impl<K: Kind> Kind for SomeOf<K> {
    type Out = Listed<K::Out>;

    ghost use Rattle.ocpp_payload.specs.Lists.{some_of};

    ghost reads = { λ kind. some_of (K.reads kind.0) };

    fn read(
        &self,
        alloc: Global,
        field: &'static str,
        value: &Value<'_>,
    ) -> ReadResult<Listed<K::Out>> {
        let Some(items) = items_of(value) else {
            return refused(ErrorCode::TypeConstraintViolation, field);
        };
        if items.is_empty() {
            return refused(ErrorCode::OccurenceConstraintViolation, field);
        }
        each(alloc, field, items, &self.0)
    }
}

/// The items of a list, in order.
fn each<K: Kind>(
    alloc: Global,
    field: &'static str,
    items: &[Value<'_>],
    kind: &K,
) -> ReadResult<Listed<K::Out>>
    ensures { Gives result (each (K.reads kind.now field.now) (items_view items.now)) }
{
    let mut found = Listed::new(alloc);
    for item in items {
        found.push(kind.read(alloc, field, item)?)?;
    }
    Ok(found)
}
