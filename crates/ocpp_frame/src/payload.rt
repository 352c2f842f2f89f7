//! Payloads of messages, which contracts see as their data.
ghost use Rattle.std.specs.Prelude.{◌≡◌};
ghost use Rattle.json_data.specs.View.{view};

use json::Value;
use std::marker::Model;

/// The payload of a message: a JSON value, whose texts are borrowed from the text of the message, or
/// from the memory of its reader where they have escapes. A contract sees it as its data.
#[derive(Drop)]
pub struct Payload<'a> {
    value: Value<'a>,
}

impl<'a> Model for Payload<'a> {
    ghost use Rattle.serde_json.specs.Data.{Data};
    ghost use Rattle.json_data.specs.View.{view as data_of};
    ghost use Rattle.json_data.specs.StoredData.{data_code};

    ghost Value = { Data };

    ghost coded = { data_code };

    ghost view = { λ p. data_of p.value };
}

impl<'a> Payload<'a> {
    /// The value, lent.
    pub fn as_value(&self) -> &Value<'a>
        ensures { view result.now ≡ self.now }
    {
        &self.value
    }
}

impl<'a> From<Value<'a>> for Payload<'a> {
    ghost from_gives = { λ value payload. payload ≡ view value };

    fn from(value: Value<'a>) -> Payload<'a>
        ensures { result ≡ view value.entry }
    {
        Payload { value }
    }
}
