//! Commands that start and stop transactions at an operator's request.
ghost use Rattle.ocpp_payload.specs.Table.{read_by};
ghost use Rattle.operator_cmds.specs.Forms.{remote_start_transaction, remote_stop_transaction};

use crate::kinds::{CONNECTOR, ID_TAG, NUMBER_OF_32_BITS};
use ocpp_payload::{
    Bounded, Checked, ObjectWriter, ReadResult, Readable, Tabled, bad_may, optional, required,
};
use ocpp_types::{FieldName, Mem, Text};
use std::alloc::Global;

/// Asks a station to start a transaction (OCPP 1.6, RemoteStartTransaction.req).
#[derive(Clone, Drop)]
pub struct RemoteStartTransaction {
    /// 1 to 255.
    pub connector_id: Option<i64>,
    /// At most 20 characters.
    pub id_tag: Text,
}

impl Readable for RemoteStartTransaction {
    ghost reads_as = { read_by remote_start_transaction };

    fn read_from(alloc: Global, object: &json::Value<'_>) -> ReadResult<RemoteStartTransaction> {
        Ok(RemoteStartTransaction {
            connector_id: optional(alloc, object, "connectorId", CONNECTOR)?,
            id_tag: required(alloc, object, "idTag", ID_TAG)?,
        })
    }
}

impl Tabled for RemoteStartTransaction {
    ghost form = { remote_start_transaction };

    fn write_members(&self, object: ObjectWriter) -> Mem<ObjectWriter> {
        object
            .may("connectorId", CONNECTOR, &self.connector_id)?
            .must("idTag", ID_TAG, &self.id_tag)
    }
}

impl Checked for RemoteStartTransaction {
    fn bad(&self) -> Option<FieldName> {
        let connector = bad_may("connectorId", CONNECTOR, &self.connector_id);
        connector.or(ID_TAG.bad("idTag", &self.id_tag))
    }
}

/// Asks a station to stop a transaction (OCPP 1.6, RemoteStopTransaction.req).
#[derive(Clone, Drop)]
pub struct RemoteStopTransaction {
    /// A signed number of 32 bits.
    pub transaction_id: i64,
}

impl Readable for RemoteStopTransaction {
    ghost reads_as = { read_by remote_stop_transaction };

    fn read_from(alloc: Global, object: &json::Value<'_>) -> ReadResult<RemoteStopTransaction> {
        let transaction_id = required(alloc, object, "transactionId", NUMBER_OF_32_BITS)?;
        Ok(RemoteStopTransaction { transaction_id })
    }
}

impl Tabled for RemoteStopTransaction {
    ghost form = { remote_stop_transaction };

    fn write_members(&self, object: ObjectWriter) -> Mem<ObjectWriter> {
        object.must("transactionId", NUMBER_OF_32_BITS, &self.transaction_id)
    }
}

impl Checked for RemoteStopTransaction {
    fn bad(&self) -> Option<FieldName> {
        NUMBER_OF_32_BITS.bad("transactionId", &self.transaction_id)
    }
}
