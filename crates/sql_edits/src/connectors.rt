//! Edits of connectors.
ghost use Rattle.sqlite.specs.Held.{state};
ghost use Rattle.sql_rows.specs.Kept.{Edits};
ghost use Rattle.hub_rows.specs.Changes.{edit};
ghost use Rattle.hub_rows.specs.declared.change.Edit.TheVariants.{Stations};
ghost use Rattle.hub_rows.specs.declared.change.StationEdit.TheVariants.{ConnectorSeen};

use crate::binds::{done, lent};
use hub_rows::{ConnectorReport, StoreFault};
use ocpp_types::Named;
use sqlite::{Alter, Connection, params};

/// Puts a report on a connector, in place of the one before.
pub(crate) fn put_connector<S: Alter>(
    conn: &mut Connection<S>,
    op: &str,
    station: &str,
    connector: u8,
    report: &ConnectorReport,
) -> Result<(), StoreFault>
    ensures edits { Edits (edit op.now (Stations (ConnectorSeen station.now connector report.now))) (state S.Store conn.old) (state S.Store conn.new) result }
{
    done(conn.execute(
        sql_tables::connectors::PUT,
        params![
            op,
            station,
            u32::from(connector),
            report.status.name(),
            report.error_code.name(),
            report.at,
            lent(&report.info),
            lent(&report.vendor_id),
            lent(&report.vendor_error_code)
        ],
    ))
}
