//! Look-ups of stations.
ghost use Rattle.std.specs.Prelude.{◌≡◌, ◌&&◌, true};
ghost use Rattle.std.specs.Ordering.{is_gt};
ghost use Rattle.std.specs.Str.{bytes_eq};
ghost use Rattle.sqlite.specs.Held.{state};
ghost use Rattle.hub_rows.specs.Keyed.{text_cmp};
ghost use Rattle.hub_rows.specs.Lookups.{stations_in};
ghost use Rattle.hub_rows.specs.Rows.{registration_in, station_in};
ghost use Rattle.sql_rows.specs.Kept.{IsServing, Shows, ShowsText};
ghost use Rattle.sql_rows.specs.Kept.{Asks};
ghost use Rattle.sql_lookups.specs.Asks.{next_operator_in};
ghost use Rattle.sql_rows.specs.TypedTables.{stations};

use crate::bounds::ABOVE_ALL;
use hub_rows::{Registration, StationRow, StoreFault};
use ocpp_types::{Listed, Text};
use sql_rows::{first_row, listed, only_text};
use sqlite::{Alter, Connection, Error, Row, params};

fn find_one<S: Alter>(conn: &mut Connection<S>, op: &str, station: &str) -> Result<Vec<Row>, Error>
    ensures shows { IsServing (state S.Store conn.old) → Shows (λ v. v.items) stations (λ r. bytes_eq r.op op.now && bytes_eq r.station station.now) (state S.Store conn.old) (state S.Store conn.new) result }
{
    conn.query_all(sql_tables::stations::FIND, params![op, station, station])
}

fn find_all<S: Alter>(conn: &mut Connection<S>, op: &str) -> Result<Vec<Row>, Error>
    ensures shows { IsServing (state S.Store conn.old) → Shows (λ v. v.items) stations (λ r. bytes_eq r.op op.now && true) (state S.Store conn.old) (state S.Store conn.new) result }
{
    conn.query_all(sql_tables::stations::FIND, params![op, "", ABOVE_ALL])
}

/// A station of an operator.
fn find_station<S: Alter>(
    conn: &mut Connection<S>,
    op: &str,
    station: &str,
) -> Result<Option<StationRow>, StoreFault>
    ensures asks { Asks (state S.Store conn.old) (state S.Store conn.new) result (λ rows r. r ≡ station_in op.now station.now rows.stations) }
{
    first_row(find_one(conn, op, station))
}

/// How a station is registered.
pub fn registration<S: Alter>(
    conn: &mut Connection<S>,
    op: &str,
    station: &str,
) -> Result<Option<Registration>, StoreFault>
    ensures asks { Asks (state S.Store conn.old) (state S.Store conn.new) result (λ rows r. r ≡ registration_in op.now station.now rows.stations) }
{
    Ok(find_station(conn, op, station)?.map(|row| row.registration()))
}

/// All stations of an operator.
pub fn stations<S: Alter>(
    conn: &mut Connection<S>,
    op: &str,
) -> Result<Listed<StationRow>, StoreFault>
    ensures asks { Asks (state S.Store conn.old) (state S.Store conn.new) result (λ rows list. list ≡ stations_in op.now rows.stations) }
{
    listed(find_all(conn, op))
}

fn find_next_operator<S: Alter>(conn: &mut Connection<S>, after: &str) -> Result<Vec<Row>, Error>
    ensures shows { IsServing (state S.Store conn.old) → ShowsText (λ v. v.items) stations (λ r. r.op) (λ r. is_gt (text_cmp r.op after.now)) (state S.Store conn.old) (state S.Store conn.new) result }
{
    conn.query_all(sql_tables::stations::NEXT_OPERATOR, params![after])
}

/// The first of the operators with stations that come after a name.
pub fn next_operator<S: Alter>(
    conn: &mut Connection<S>,
    after: &str,
) -> Result<Option<Text>, StoreFault>
    ensures asks { Asks (state S.Store conn.old) (state S.Store conn.new) result (λ rows r. r ≡ next_operator_in after.now rows.stations) }
{
    only_text(find_next_operator(conn, after))
}
