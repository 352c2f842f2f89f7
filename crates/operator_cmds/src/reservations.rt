//! Commands on reservations of connectors.
ghost use Rattle.ocpp_payload.specs.Table.{read_by};
ghost use Rattle.operator_cmds.specs.Forms.{cancel_reservation, reserve_now};

use crate::kinds::{ID_TAG, NUMBER_OF_32_BITS, STATION_OR_CONNECTOR};
use ocpp_payload::{
    Bounded, Checked, ObjectWriter, ReadResult, Readable, Tabled, WholeSecond, bad_may, optional,
    required,
};
use ocpp_types::{FieldName, Mem, Moment, Text};
use std::alloc::Global;

/// Cancels a reservation (OCPP 1.6, CancelReservation.req).
#[derive(Clone, Drop)]
pub struct CancelReservation {
    /// A signed number of 32 bits.
    pub reservation_id: i64,
}

impl Readable for CancelReservation {
    ghost reads_as = { read_by cancel_reservation };

    fn read_from(alloc: Global, object: &json::Value<'_>) -> ReadResult<CancelReservation> {
        let reservation_id = required(alloc, object, "reservationId", NUMBER_OF_32_BITS)?;
        Ok(CancelReservation { reservation_id })
    }
}

impl Tabled for CancelReservation {
    ghost form = { cancel_reservation };

    fn write_members(&self, object: ObjectWriter) -> Mem<ObjectWriter> {
        object.must("reservationId", NUMBER_OF_32_BITS, &self.reservation_id)
    }
}

impl Checked for CancelReservation {
    fn bad(&self) -> Option<FieldName> {
        NUMBER_OF_32_BITS.bad("reservationId", &self.reservation_id)
    }
}

/// Reserves a connector for a tag (OCPP 1.6, ReserveNow.req).
#[derive(Clone, Drop)]
pub struct ReserveNow {
    /// 0 to 255. 0 is any connector of the station.
    pub connector_id: i64,
    /// When the reservation ends, floored to the second.
    pub expiry_date: Moment,
    /// At most 20 characters.
    pub id_tag: Text,
    /// At most 20 characters.
    pub parent_id_tag: Option<Text>,
    /// A signed number of 32 bits.
    pub reservation_id: i64,
}

impl Readable for ReserveNow {
    ghost reads_as = { read_by reserve_now };

    fn read_from(alloc: Global, object: &json::Value<'_>) -> ReadResult<ReserveNow> {
        Ok(ReserveNow {
            connector_id: required(alloc, object, "connectorId", STATION_OR_CONNECTOR)?,
            expiry_date: required(alloc, object, "expiryDate", WholeSecond)?,
            id_tag: required(alloc, object, "idTag", ID_TAG)?,
            parent_id_tag: optional(alloc, object, "parentIdTag", ID_TAG)?,
            reservation_id: required(alloc, object, "reservationId", NUMBER_OF_32_BITS)?,
        })
    }
}

impl Tabled for ReserveNow {
    ghost form = { reserve_now };

    fn write_members(&self, object: ObjectWriter) -> Mem<ObjectWriter> {
        object
            .must("connectorId", STATION_OR_CONNECTOR, &self.connector_id)?
            .must("expiryDate", WholeSecond, &self.expiry_date)?
            .must("idTag", ID_TAG, &self.id_tag)?
            .may("parentIdTag", ID_TAG, &self.parent_id_tag)?
            .must("reservationId", NUMBER_OF_32_BITS, &self.reservation_id)
    }
}

impl Checked for ReserveNow {
    fn bad(&self) -> Option<FieldName> {
        let connector = STATION_OR_CONNECTOR.bad("connectorId", &self.connector_id);
        let tag = connector.or(ID_TAG.bad("idTag", &self.id_tag));
        let parent = tag.or(bad_may("parentIdTag", ID_TAG, &self.parent_id_tag));
        parent.or(NUMBER_OF_32_BITS.bad("reservationId", &self.reservation_id))
    }
}
