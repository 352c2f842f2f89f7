//! Edits of reports.
ghost use Rattle.sqlite.specs.Held.{state};
ghost use Rattle.sql_rows.specs.Kept.{Edits};
ghost use Rattle.hub_rows.specs.Changes.{edit};
ghost use Rattle.hub_rows.specs.declared.change.Edit.TheVariants.{Stations};
ghost use Rattle.hub_rows.specs.declared.change.StationEdit.TheVariants.{ReportSeen};

use crate::binds::{done, seconds};
use hub_rows::{ReportedStatus, StoreFault};
use ocpp_types::Moment;
use sqlite::{Alter, Connection, params};

/// Puts a report, in place of the one of its kind before.
pub(crate) fn put_report<S: Alter>(
    conn: &mut Connection<S>,
    op: &str,
    station: &str,
    status: ReportedStatus,
    moment: Moment,
) -> Result<(), StoreFault>
    ensures edits { Edits (edit op.now (Stations (ReportSeen station.now status moment))) (state S.Store conn.old) (state S.Store conn.new) result }
{
    done(conn.execute(
        sql_tables::reports::PUT,
        params![op, station, status.kind(), status.name(), seconds(moment)],
    ))
}
