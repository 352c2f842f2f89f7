//! Commands on the configuration of a station.
ghost use Rattle.ocpp_payload.specs.Table.{read_by};
ghost use Rattle.operator_cmds.specs.Forms.{change_configuration, get_configuration};

use ocpp_payload::{
    Bounded, Checked, ListOf, ObjectWriter, ReadResult, Readable, Tabled, TextWithin, bad_may,
    optional, required,
};
use ocpp_types::{FieldName, Listed, Mem, Text};
use std::alloc::Global;

/// Sets a key of the configuration (OCPP 1.6, ChangeConfiguration.req).
#[derive(Clone, Drop)]
pub struct ChangeConfiguration {
    /// At most 50 characters.
    pub key: Text,
    /// At most 500 characters.
    pub value: Text,
}

impl Readable for ChangeConfiguration {
    ghost reads_as = { read_by change_configuration };

    fn read_from(alloc: Global, object: &json::Value<'_>) -> ReadResult<ChangeConfiguration> {
        Ok(ChangeConfiguration {
            key: required(alloc, object, "key", TextWithin(50))?,
            value: required(alloc, object, "value", TextWithin(500))?,
        })
    }
}

impl Tabled for ChangeConfiguration {
    ghost form = { change_configuration };

    fn write_members(&self, object: ObjectWriter) -> Mem<ObjectWriter> {
        object
            .must("key", TextWithin(50), &self.key)?
            .must("value", TextWithin(500), &self.value)
    }
}

impl Checked for ChangeConfiguration {
    fn bad(&self) -> Option<FieldName> {
        let key = TextWithin(50).bad("key", &self.key);
        key.or(TextWithin(500).bad("value", &self.value))
    }
}

/// Asks for keys of the configuration (OCPP 1.6, GetConfiguration.req).
#[derive(Clone, Drop)]
pub struct GetConfiguration {
    /// All keys, where the list is missing.
    pub key: Option<Listed<Text>>,
}

impl Readable for GetConfiguration {
    ghost reads_as = { read_by get_configuration };

    fn read_from(alloc: Global, object: &json::Value<'_>) -> ReadResult<GetConfiguration> {
        let key = optional(alloc, object, "key", ListOf(TextWithin(50)))?;
        Ok(GetConfiguration { key })
    }
}

impl Tabled for GetConfiguration {
    ghost form = { get_configuration };

    fn write_members(&self, object: ObjectWriter) -> Mem<ObjectWriter> {
        object.may("key", ListOf(TextWithin(50)), &self.key)
    }
}

impl Checked for GetConfiguration {
    fn bad(&self) -> Option<FieldName> {
        bad_may("key", ListOf(TextWithin(50)), &self.key)
    }
}
