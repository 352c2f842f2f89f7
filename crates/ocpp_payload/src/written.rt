//! What is written as well as read: members of commands and of answers.
ghost use Rattle.std.specs.Prelude.{◌≡◌, IfOk, option_map, option_and_then};
ghost use Rattle.serde_json.specs.Data.{object, no_members, put};
ghost use Rattle.serde_json.specs.View.{view};
ghost use Rattle.ocpp_payload.specs.Conf.{put_some};
ghost use Rattle.ocpp_payload.specs.Holds.{Holds};
ghost use Rattle.ocpp_payload.specs.Table.{Form, bad_member, put_members, written};

use crate::kind::Kind;
use crate::lists::Readable;
use ocpp_types::{FieldName, Mem};
use serde_json::{Map, Value, put};
use std::alloc::Global;
use std::marker::Model;

/// A kind of value that is also written.
pub trait Written: Kind {
    /// What such a member holds.
    ghost holds: { Self → Holds Self.Out };

    /// The JSON of a value.
    fn write(&self, alloc: Global, value: &Self::Out) -> Mem<Value>
        ensures { IfOk result (λ v. view v ≡ (holds self.now).json value.now) };
}

/// A kind of value whose bounds are checked after it was read.
pub trait Bounded: Written {
    /// The name of the member, if its value is out of its bounds. It takes no memory.
    fn bad(&self, field: &'static str, value: &Self::Out) -> Option<FieldName>
        ensures { result ≡ (Self.holds self.now).bad field.now value.now };
}

/// A message that is written by a table of its members.
pub trait Tabled: Readable {
    /// The table.
    ghost form: { Form Self };

    /// Writes its members, after those of the object.
    fn write_members(&self, object: ObjectWriter) -> Mem<ObjectWriter>
        ensures { IfOk result (λ all. all ≡ put_members form.table self.now object) };

    /// The JSON object of the message.
    final fn write(&self, alloc: Global) -> Mem<Value>
        ensures { IfOk result (λ v. view v ≡ written form self.now) }
    {
        Ok(self.write_members(ObjectWriter::new(alloc))?.into_value())
    }
}

/// A message whose bounds are checked after it was read.
pub trait Checked: Tabled {
    /// The name of the first bad member, in the order of the table. Takes no memory.
    fn bad(&self) -> Option<FieldName>
        ensures { result ≡ bad_member Self.form self.now };
}

/// An object that is written member by member. A contract sees it as its members.
#[derive(Drop)]
pub struct ObjectWriter {
    alloc: Global,
    members: Map<String, Value>,
}

impl Model for ObjectWriter {
    ghost use Rattle.serde_json.specs.Data.{Members};
    ghost use Rattle.serde_json.specs.View.{members_view};
    ghost use Rattle.json_data.specs.StoredData.{members_code};

    ghost Value = { Members };

    ghost coded = { members_code };

    ghost view = { λ object. members_view object.members.entries };
}

impl ObjectWriter {
    /// An object with no members.
    pub fn new(alloc: Global) -> ObjectWriter
        ensures { result ≡ no_members }
    {
        ObjectWriter {
            alloc,
            members: Map::new(alloc),
        }
    }

    /// The object with one more member.
    pub fn must<K: Written>(mut self, name: &str, kind: K, value: &K::Out) -> Mem<ObjectWriter>
        ensures { IfOk result (λ object. object ≡ put name.now ((K.holds kind).json value.now) self) }
    {
        let value = kind.write(self.alloc, value)?;
        put(&mut self.members, self.alloc, name, value)?;
        Ok(self)
    }

    /// The object with a member that may be missing, and is then left out.
    pub fn may<K: Written>(self, name: &str, kind: K, value: &Option<K::Out>) -> Mem<ObjectWriter>
        ensures { IfOk result (λ object. object ≡ put_some name.now (option_map (K.holds kind).json value.now) self) }
    {
        match value {
            Some(value) => self.must(name, kind, value),
            None => Ok(self),
        }
    }

    /// The object as a value.
    pub fn into_value(self) -> Value
        ensures { view result ≡ object self }
    {
        Value::Object(self.members)
    }
}

/// The name of a member that may be missing, if its value is out of its bounds.
pub fn bad_may<K: Bounded>(
    field: &'static str,
    kind: K,
    value: &Option<K::Out>,
) -> Option<FieldName>
    ensures { result ≡ option_and_then ((K.holds kind).bad field.now) value.now }
{
    match value {
        Some(value) => kind.bad(field, value),
        None => None,
    }
}
