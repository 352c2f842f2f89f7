//! Stations, connectors, reports and readers, read from their columns.
ghost use Rattle.std.specs.Prelude.{◌≡◌, IfOk, None, Some};
ghost use Rattle.sqlite.specs.Held.{state};
ghost use Rattle.sql_rows.specs.TypedTables.{boot_in, status_in};
ghost use Rattle.sqlite_value.specs.Order.{column};

use crate::columns::{connector, count, moment, moment_if_any, named, number, text, text_if_any};
use crate::stored::Stored;
use hub_rows::{
    Boot, ConnectorReport, ConnectorRow, ReaderRow, ReportRow, ReportedStatus, StationRow,
    StoreFault,
};
use ocpp_types::{BootNotification, Boxed};
use sqlite::Row;
use std::alloc::Global;

impl Stored for StationRow {
    ghost use Rattle.sql_rows.specs.TypedTables.{stations};

    ghost read = { stations.read };

    fn read(alloc: Global, row: &Row) -> Result<StationRow, StoreFault> {
        Ok(StationRow {
            op: text(row, 0)?,
            station: text(row, 1)?,
            policy: named(row, 2)?,
            interval: count(row, 3)?,
            state: named(row, 4)?,
            boot: boot(alloc, row)?,
        })
    }
}

/// What a station told when it booted, `None` before its first boot.
fn boot(alloc: Global, row: &Row) -> Result<Option<Boot>, StoreFault>
    ensures { IfOk result (λ b. b ≡ boot_in row.now) }
{
    let moment = match moment_if_any(row, 5)? {
        Some(moment) => moment,
        None => return Ok(None),
    };
    let texts = BootNotification {
        charge_point_model: text(row, 6)?,
        charge_point_vendor: text(row, 7)?,
        charge_box_serial_number: text_if_any(row, 8)?,
        charge_point_serial_number: text_if_any(row, 9)?,
        firmware_version: text_if_any(row, 10)?,
        iccid: text_if_any(row, 11)?,
        imsi: text_if_any(row, 12)?,
        meter_serial_number: text_if_any(row, 13)?,
        meter_type: text_if_any(row, 14)?,
    };
    Ok(Some(Boot {
        texts: Boxed::new(alloc, texts)?,
        moment,
    }))
}

impl Stored for ConnectorRow {
    ghost use Rattle.sql_rows.specs.TypedTables.{connectors};

    ghost read = { connectors.read };

    fn read(alloc: Global, row: &Row) -> Result<ConnectorRow, StoreFault> {
        Ok(ConnectorRow {
            op: text(row, 0)?,
            station: text(row, 1)?,
            connector: connector(row, 2)?,
            report: ConnectorReport {
                status: named(row, 3)?,
                error_code: named(row, 4)?,
                at: number(row, 5)?,
                info: text_if_any(row, 6)?,
                vendor_id: text_if_any(row, 7)?,
                vendor_error_code: text_if_any(row, 8)?,
            },
        })
    }
}

/// A status by the names of its kind and of itself.
fn status(row: &Row) -> Result<ReportedStatus, StoreFault>
    ensures { IfOk result (λ s. s ≡ status_in (column row.now 2) (column row.now 3)) }
{
    let kind = text(row, 2)?;
    match kind.as_str() {
        "Diagnostics" => Ok(ReportedStatus::Diagnostics(named(row, 3)?)),
        "Firmware" => Ok(ReportedStatus::Firmware(named(row, 3)?)),
        _ => Err(StoreFault::Failed),
    }
}

impl Stored for ReportRow {
    ghost use Rattle.sql_rows.specs.TypedTables.{reports};

    ghost read = { reports.read };

    fn read(alloc: Global, row: &Row) -> Result<ReportRow, StoreFault> {
        Ok(ReportRow {
            op: text(row, 0)?,
            station: text(row, 1)?,
            status: status(row)?,
            moment: moment(row, 4)?,
        })
    }
}

impl Stored for ReaderRow {
    ghost use Rattle.sql_rows.specs.TypedTables.{readers};

    ghost read = { readers.read };

    fn read(alloc: Global, row: &Row) -> Result<ReaderRow, StoreFault> {
        Ok(ReaderRow {
            op: text(row, 0)?,
            station: text(row, 1)?,
            reader: named(row, 2)?,
        })
    }
}
