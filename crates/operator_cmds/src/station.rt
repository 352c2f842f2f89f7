//! Commands to a station as a whole or to a connector.
ghost use Rattle.ocpp_payload.specs.Table.{read_by};
ghost use Rattle.operator_cmds.specs.Forms.{change_availability, data_transfer, reset, trigger_message, unlock_connector};

use crate::choices::{AvailabilityType, MessageTrigger, ResetType};
use crate::kinds::{CONNECTOR, STATION_OR_CONNECTOR};
use ocpp_payload::{
    AnyText, Bounded, Checked, NameOf, ObjectWriter, ReadResult, Readable, Tabled, TextWithin,
    bad_may, optional, required,
};
use ocpp_types::{FieldName, Mem, Text};
use std::alloc::Global;

/// Takes a connector into service or out of it (OCPP 1.6, ChangeAvailability.req).
#[derive(Clone, Drop)]
pub struct ChangeAvailability {
    /// 0 to 255. 0 is the station with all its connectors.
    pub connector_id: i64,
    /// The member `type`.
    pub kind: AvailabilityType,
}

impl Readable for ChangeAvailability {
    ghost reads_as = { read_by change_availability };

    fn read_from(alloc: Global, object: &json::Value<'_>) -> ReadResult<ChangeAvailability> {
        Ok(ChangeAvailability {
            connector_id: required(alloc, object, "connectorId", STATION_OR_CONNECTOR)?,
            kind: required(alloc, object, "type", NameOf::new())?,
        })
    }
}

impl Tabled for ChangeAvailability {
    ghost form = { change_availability };

    fn write_members(&self, object: ObjectWriter) -> Mem<ObjectWriter> {
        object
            .must("connectorId", STATION_OR_CONNECTOR, &self.connector_id)?
            .must("type", NameOf::new(), &self.kind)
    }
}

impl Checked for ChangeAvailability {
    fn bad(&self) -> Option<FieldName> {
        STATION_OR_CONNECTOR.bad("connectorId", &self.connector_id)
    }
}

/// A message of a vendor (OCPP 1.6, DataTransfer.req).
#[derive(Clone, Drop)]
pub struct DataTransfer {
    /// At most 255 characters.
    pub vendor_id: Text,
    /// At most 50 characters.
    pub message_id: Option<Text>,
    /// The member `data`.
    pub content: Option<Text>,
}

impl Readable for DataTransfer {
    ghost reads_as = { read_by data_transfer };

    fn read_from(alloc: Global, object: &json::Value<'_>) -> ReadResult<DataTransfer> {
        Ok(DataTransfer {
            vendor_id: required(alloc, object, "vendorId", TextWithin(255))?,
            message_id: optional(alloc, object, "messageId", TextWithin(50))?,
            content: optional(alloc, object, "data", AnyText)?,
        })
    }
}

impl Tabled for DataTransfer {
    ghost form = { data_transfer };

    fn write_members(&self, object: ObjectWriter) -> Mem<ObjectWriter> {
        object
            .must("vendorId", TextWithin(255), &self.vendor_id)?
            .may("messageId", TextWithin(50), &self.message_id)?
            .may("data", AnyText, &self.content)
    }
}

impl Checked for DataTransfer {
    fn bad(&self) -> Option<FieldName> {
        let vendor = TextWithin(255).bad("vendorId", &self.vendor_id);
        vendor.or(bad_may("messageId", TextWithin(50), &self.message_id))
    }
}

/// Restarts a station (OCPP 1.6, Reset.req).
#[derive(Clone, Drop)]
pub struct Reset {
    /// The member `type`.
    pub kind: ResetType,
}

impl Readable for Reset {
    ghost reads_as = { read_by reset };

    fn read_from(alloc: Global, object: &json::Value<'_>) -> ReadResult<Reset> {
        let kind = required(alloc, object, "type", NameOf::new())?;
        Ok(Reset { kind })
    }
}

impl Tabled for Reset {
    ghost form = { reset };

    fn write_members(&self, object: ObjectWriter) -> Mem<ObjectWriter> {
        object.must("type", NameOf::new(), &self.kind)
    }
}

impl Checked for Reset {
    fn bad(&self) -> Option<FieldName> {
        None
    }
}

/// Asks a station to send a message (OCPP 1.6, TriggerMessage.req).
#[derive(Clone, Drop)]
pub struct TriggerMessage {
    /// The message.
    pub requested_message: MessageTrigger,
    /// 1 to 255.
    pub connector_id: Option<i64>,
}

impl Readable for TriggerMessage {
    ghost reads_as = { read_by trigger_message };

    fn read_from(alloc: Global, object: &json::Value<'_>) -> ReadResult<TriggerMessage> {
        Ok(TriggerMessage {
            requested_message: required(alloc, object, "requestedMessage", NameOf::new())?,
            connector_id: optional(alloc, object, "connectorId", CONNECTOR)?,
        })
    }
}

impl Tabled for TriggerMessage {
    ghost form = { trigger_message };

    fn write_members(&self, object: ObjectWriter) -> Mem<ObjectWriter> {
        object
            .must("requestedMessage", NameOf::new(), &self.requested_message)?
            .may("connectorId", CONNECTOR, &self.connector_id)
    }
}

impl Checked for TriggerMessage {
    fn bad(&self) -> Option<FieldName> {
        bad_may("connectorId", CONNECTOR, &self.connector_id)
    }
}

/// Opens the lock of a connector (OCPP 1.6, UnlockConnector.req).
#[derive(Clone, Drop)]
pub struct UnlockConnector {
    /// 1 to 255.
    pub connector_id: i64,
}

impl Readable for UnlockConnector {
    ghost reads_as = { read_by unlock_connector };

    fn read_from(alloc: Global, object: &json::Value<'_>) -> ReadResult<UnlockConnector> {
        let connector_id = required(alloc, object, "connectorId", CONNECTOR)?;
        Ok(UnlockConnector { connector_id })
    }
}

impl Tabled for UnlockConnector {
    ghost form = { unlock_connector };

    fn write_members(&self, object: ObjectWriter) -> Mem<ObjectWriter> {
        object.must("connectorId", CONNECTOR, &self.connector_id)
    }
}

impl Checked for UnlockConnector {
    fn bad(&self) -> Option<FieldName> {
        CONNECTOR.bad("connectorId", &self.connector_id)
    }
}
