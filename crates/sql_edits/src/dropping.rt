//! The edit that drops a station.
ghost use Rattle.std.specs.Str.{bytes_eq};
ghost use Rattle.hub_rows.specs.Changes.{edit};
ghost use Rattle.hub_rows.specs.Keyed.{without};
ghost use Rattle.hub_rows.specs.declared.change.Edit.TheVariants.{Stations};
ghost use Rattle.hub_rows.specs.declared.change.StationEdit.TheVariants.{StationDropped};
ghost use Rattle.sqlite.specs.Held.{state};
ghost use Rattle.sql_rows.specs.Kept.{Edits};

use crate::binds::done;
use hub_rows::StoreFault;
use sqlite::{Alter, Connection, params};

/// Drops the reports of a station.
fn drop_reports<S: Alter>(
    conn: &mut Connection<S>,
    op: &str,
    station: &str,
) -> Result<(), StoreFault>
    ensures edits { Edits (λ rows. record rows { reports = without (λ r. r.op) op.now (λ r. bytes_eq r.station station.now) rows.reports }) (state S.Store conn.old) (state S.Store conn.new) result }
{
    done(conn.execute(sql_tables::reports::DROP, params![op, station]))
}

/// Drops the reader of a station.
fn drop_reader<S: Alter>(
    conn: &mut Connection<S>,
    op: &str,
    station: &str,
) -> Result<(), StoreFault>
    ensures edits { Edits (λ rows. record rows { readers = without (λ r. r.op) op.now (λ r. bytes_eq r.station station.now) rows.readers }) (state S.Store conn.old) (state S.Store conn.new) result }
{
    done(conn.execute(sql_tables::readers::DROP, params![op, station]))
}

/// Drops the local list of a station, with its entries.
fn drop_list<S: Alter>(conn: &mut Connection<S>, op: &str, station: &str) -> Result<(), StoreFault>
    ensures edits { Edits (λ rows. record rows { local_lists = without (λ r. r.op) op.now (λ r. bytes_eq r.station station.now) rows.local_lists }) (state S.Store conn.old) (state S.Store conn.new) result }
{
    done(conn.execute(sql_tables::lists::DROP, params![op, station]))
}

/// Drops all reservations at a station.
fn drop_reservations<S: Alter>(
    conn: &mut Connection<S>,
    op: &str,
    station: &str,
) -> Result<(), StoreFault>
    ensures edits { Edits (λ rows. record rows { reservations = without (λ r. r.op) op.now (λ r. bytes_eq r.station station.now) rows.reservations }) (state S.Store conn.old) (state S.Store conn.new) result }
{
    done(conn.execute(sql_tables::reservations::DROP_ALL, params![op, station]))
}

/// Drops the connectors of a station.
fn drop_connectors<S: Alter>(
    conn: &mut Connection<S>,
    op: &str,
    station: &str,
) -> Result<(), StoreFault>
    ensures edits { Edits (λ rows. record rows { connectors = without (λ r. r.op) op.now (λ r. bytes_eq r.station station.now) rows.connectors }) (state S.Store conn.old) (state S.Store conn.new) result }
{
    done(conn.execute(sql_tables::connectors::DROP, params![op, station]))
}

/// Drops the row of a station.
fn drop_row<S: Alter>(conn: &mut Connection<S>, op: &str, station: &str) -> Result<(), StoreFault>
    ensures edits { Edits (λ rows. record rows { stations = without (λ r. r.op) op.now (λ r. bytes_eq r.station station.now) rows.stations }) (state S.Store conn.old) (state S.Store conn.new) result }
{
    done(conn.execute(sql_tables::stations::DROP, params![op, station]))
}

/// Drops a station, with all that it reported and holds and its reader. Its history stays.
pub(crate) fn drop_station<S: Alter>(
    conn: &mut Connection<S>,
    op: &str,
    station: &str,
) -> Result<(), StoreFault>
    ensures edits { Edits (edit op.now (Stations (StationDropped station.now))) (state S.Store conn.old) (state S.Store conn.new) result }
{
    drop_reports(conn, op, station)?;
    drop_reader(conn, op, station)?;
    drop_list(conn, op, station)?;
    drop_reservations(conn, op, station)?;
    drop_connectors(conn, op, station)?;
    drop_row(conn, op, station)
}
