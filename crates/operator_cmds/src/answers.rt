//! The answers of stations to commands.
ghost use Rattle.ocpp_payload.specs.Table.{read_by};
ghost use Rattle.operator_cmds.specs.AnswerForms.{data_transfer_answer, get_configuration_answer, get_local_list_version_answer, key_value, status_of};

use ocpp_payload::{
    AnyText, Boolean, Int32, ListOf, NameOf, ObjectOf, ObjectWriter, ReadResult, Readable, Tabled,
    TextOf, optional, required,
};
use ocpp_types::{DataTransferStatus, Listed, Mem, Named, Text};
use std::alloc::Global;

/// An answer of a status alone.
#[derive(Drop)]
pub struct Status<E> {
    status: E,
}

impl<E: Named + Drop> Readable for Status<E> {
    ghost reads_as = { read_by (status_of E.names E.name_of) };

    fn read_from(alloc: Global, object: &json::Value<'_>) -> ReadResult<Status<E>> {
        let status = required(alloc, object, "status", NameOf::new())?;
        Ok(Status { status })
    }
}

impl<E: Named + Drop> Tabled for Status<E> {
    ghost form = { status_of E.names E.name_of };

    fn write_members(&self, object: ObjectWriter) -> Mem<ObjectWriter> {
        object.must("status", NameOf::new(), &self.status)
    }
}

/// The answer to a message of a vendor (OCPP 1.6, DataTransfer.conf).
#[derive(Drop)]
pub struct DataTransferAnswer {
    status: DataTransferStatus,
    /// The member `data`.
    content: Option<Text>,
}

impl Readable for DataTransferAnswer {
    ghost reads_as = { read_by data_transfer_answer };

    fn read_from(alloc: Global, object: &json::Value<'_>) -> ReadResult<DataTransferAnswer> {
        Ok(DataTransferAnswer {
            status: required(alloc, object, "status", NameOf::new())?,
            content: optional(alloc, object, "data", AnyText)?,
        })
    }
}

impl Tabled for DataTransferAnswer {
    ghost form = { data_transfer_answer };

    fn write_members(&self, object: ObjectWriter) -> Mem<ObjectWriter> {
        object
            .must("status", NameOf::new(), &self.status)?
            .may("data", AnyText, &self.content)
    }
}

/// A key of a configuration (OCPP 1.6, type KeyValue).
#[derive(Drop)]
pub struct KeyValue {
    key: Text,
    readonly: bool,
    value: Option<Text>,
}

impl Readable for KeyValue {
    ghost reads_as = { read_by key_value };

    fn read_from(alloc: Global, object: &json::Value<'_>) -> ReadResult<KeyValue> {
        Ok(KeyValue {
            key: required(alloc, object, "key", TextOf(50))?,
            readonly: required(alloc, object, "readonly", Boolean)?,
            value: optional(alloc, object, "value", TextOf(500))?,
        })
    }
}

impl Tabled for KeyValue {
    ghost form = { key_value };

    fn write_members(&self, object: ObjectWriter) -> Mem<ObjectWriter> {
        object
            .must("key", TextOf(50), &self.key)?
            .must("readonly", Boolean, &self.readonly)?
            .may("value", TextOf(500), &self.value)
    }
}

/// Keys of a configuration, and those that a station doesn't have (OCPP 1.6, GetConfiguration.conf).
#[derive(Drop)]
pub struct GetConfigurationAnswer {
    configuration_key: Option<Listed<KeyValue>>,
    unknown_key: Option<Listed<Text>>,
}

impl Readable for GetConfigurationAnswer {
    ghost reads_as = { read_by get_configuration_answer };

    fn read_from(alloc: Global, object: &json::Value<'_>) -> ReadResult<GetConfigurationAnswer> {
        let keys = ListOf(ObjectOf::new());
        Ok(GetConfigurationAnswer {
            configuration_key: optional(alloc, object, "configurationKey", keys)?,
            unknown_key: optional(alloc, object, "unknownKey", ListOf(TextOf(50)))?,
        })
    }
}

impl Tabled for GetConfigurationAnswer {
    ghost form = { get_configuration_answer };

    fn write_members(&self, object: ObjectWriter) -> Mem<ObjectWriter> {
        object
            .may(
                "configurationKey",
                ListOf(ObjectOf::new()),
                &self.configuration_key,
            )?
            .may("unknownKey", ListOf(TextOf(50)), &self.unknown_key)
    }
}

/// The version of the list of tags that a station has (OCPP 1.6, GetLocalListVersion.conf).
#[derive(Drop)]
pub struct GetLocalListVersionAnswer {
    list_version: i32,
}

impl Readable for GetLocalListVersionAnswer {
    ghost reads_as = { read_by get_local_list_version_answer };

    fn read_from(alloc: Global, object: &json::Value<'_>) -> ReadResult<GetLocalListVersionAnswer> {
        let list_version = required(alloc, object, "listVersion", Int32)?;
        Ok(GetLocalListVersionAnswer { list_version })
    }
}

impl Tabled for GetLocalListVersionAnswer {
    ghost form = { get_local_list_version_answer };

    fn write_members(&self, object: ObjectWriter) -> Mem<ObjectWriter> {
        object.must("listVersion", Int32, &self.list_version)
    }
}
