//! Reservations and local lists, read from their columns.

use crate::columns::{
    connector, count, moment, moment_if_any, named, reservation_id, text, text_if_any,
};
use crate::list_rows::{EntryRow, ListHead};
use crate::stored::Stored;
use hub_rows::{LocalTag, Reservation, ReservationRow, StoreFault};
use ocpp_types::IdTagInfo;
use sqlite::Row;
use std::alloc::Global;

impl Stored for ReservationRow {
    ghost use Rattle.sql_rows.specs.TypedTables.{reservations};

    ghost read = { reservations.read };

    fn read(alloc: Global, row: &Row) -> Result<ReservationRow, StoreFault> {
        Ok(ReservationRow {
            op: text(row, 0)?,
            station: text(row, 1)?,
            id: reservation_id(row, 2)?,
            reservation: Reservation {
                connector: connector(row, 3)?,
                tag: text(row, 4)?,
                parent: text_if_any(row, 5)?,
                expiry: moment(row, 6)?,
            },
        })
    }
}

impl Stored for ListHead {
    ghost use Rattle.sql_rows.specs.TypedTables.{lists};

    ghost read = { lists.read };

    fn read(alloc: Global, row: &Row) -> Result<ListHead, StoreFault> {
        Ok(ListHead {
            op: text(row, 0)?,
            station: text(row, 1)?,
            version: count(row, 2)?,
        })
    }
}

impl Stored for EntryRow {
    ghost use Rattle.sql_rows.specs.TypedTables.{entries};

    ghost read = { entries.read };

    fn read(alloc: Global, row: &Row) -> Result<EntryRow, StoreFault> {
        Ok(EntryRow {
            op: text(row, 0)?,
            station: text(row, 1)?,
            key: text(row, 2)?,
            entry: LocalTag {
                tag: text(row, 3)?,
                info: IdTagInfo {
                    expiry_date: moment_if_any(row, 4)?,
                    parent_id_tag: text_if_any(row, 5)?,
                    status: named(row, 6)?,
                },
            },
        })
    }
}
