//! Look-ups of reservations.
ghost use Rattle.std.specs.Prelude.{◌≡◌, ◌&&◌};
ghost use Rattle.std.specs.Str.{bytes_eq};
ghost use Rattle.sqlite.specs.Held.{state};
ghost use Rattle.hub_rows.specs.Keyed.{found};
ghost use Rattle.hub_rows.specs.Reservations.{is_reservation, reservations_in, reserved_until_in};
ghost use Rattle.sql_rows.specs.Kept.{IsServing, Shows};
ghost use Rattle.sql_rows.specs.Kept.{Asks};
ghost use Rattle.sql_rows.specs.TypedTables.{reservations};

use crate::bounds::ABOVE_ALL;
use hub_rows::{ReservationId, ReservationRow, StoreFault};
use ocpp_types::{Listed, Moment};
use sql_rows::{first_row, listed};
use sqlite::{Alter, Connection, Error, Row, params};

/// The least id.
const LEAST: i64 = -2147483648;

fn find_one<S: Alter>(
    conn: &mut Connection<S>,
    op: &str,
    station: &str,
    id: ReservationId,
) -> Result<Vec<Row>, Error>
    ensures shows { IsServing (state S.Store conn.old) → Shows (λ v. v.items) reservations (λ r. bytes_eq r.op op.now && is_reservation station.now id r) (state S.Store conn.old) (state S.Store conn.new) result }
{
    let number = id.get();
    conn.query_all(
        sql_tables::reservations::FIND,
        params![op, station, number, number],
    )
}

fn find_all<S: Alter>(conn: &mut Connection<S>, op: &str, station: &str) -> Result<Vec<Row>, Error>
    ensures shows { IsServing (state S.Store conn.old) → Shows (λ v. v.items) reservations (λ r. bytes_eq r.op op.now && bytes_eq r.station station.now) (state S.Store conn.old) (state S.Store conn.new) result }
{
    conn.query_all(
        sql_tables::reservations::FIND,
        params![op, station, LEAST, ABOVE_ALL],
    )
}

/// The reservation of an id at a station.
fn find_reservation<S: Alter>(
    conn: &mut Connection<S>,
    op: &str,
    station: &str,
    id: ReservationId,
) -> Result<Option<ReservationRow>, StoreFault>
    ensures asks { Asks (state S.Store conn.old) (state S.Store conn.new) result (λ rows r. r ≡ found (λ r. r.op) op.now (is_reservation station.now id) rows.reservations) }
{
    first_row(find_one(conn, op, station, id))
}

/// When the reservation of an id at a station expires.
pub fn reserved_until<S: Alter>(
    conn: &mut Connection<S>,
    op: &str,
    station: &str,
    id: ReservationId,
) -> Result<Option<Moment>, StoreFault>
    ensures asks { Asks (state S.Store conn.old) (state S.Store conn.new) result (λ rows until. until ≡ reserved_until_in op.now station.now id rows.reservations) }
{
    let found = find_reservation(conn, op, station, id)?;
    Ok(found.as_ref().map(|row| row.reservation.expiry))
}

/// The reservations at a station.
pub fn reservations<S: Alter>(
    conn: &mut Connection<S>,
    op: &str,
    station: &str,
) -> Result<Listed<ReservationRow>, StoreFault>
    ensures asks { Asks (state S.Store conn.old) (state S.Store conn.new) result (λ rows list. list ≡ reservations_in op.now station.now rows.reservations) }
{
    listed(find_all(conn, op, station))
}
