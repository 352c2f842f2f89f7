//! Edits of reservations.
ghost use Rattle.hub_rows.specs.Reservations.{without_named};
ghost use Rattle.sqlite.specs.Held.{state};
ghost use Rattle.sql_rows.specs.Kept.{Edits};
ghost use Rattle.hub_rows.specs.Changes.{edit};
ghost use Rattle.hub_rows.specs.declared.change.Edit.TheVariants.{Holdings};
ghost use Rattle.hub_rows.specs.declared.change.HoldingEdit.TheVariants.{ReservationPut, ReservationDropped};

use crate::binds::{done, lent, seconds};
use hub_rows::{Reservation, ReservationId, StoreFault};
use sqlite::{Alter, Connection, params};

/// Puts a reservation, in place of the one with its id.
pub(crate) fn put_reservation<S: Alter>(
    conn: &mut Connection<S>,
    op: &str,
    station: &str,
    id: ReservationId,
    reservation: &Reservation,
) -> Result<(), StoreFault>
    ensures edits { Edits (edit op.now (Holdings (ReservationPut station.now id reservation.now))) (state S.Store conn.old) (state S.Store conn.new) result }
{
    done(conn.execute(
        sql_tables::reservations::PUT,
        params![
            op,
            station,
            id.get(),
            u32::from(reservation.connector),
            reservation.tag.as_str(),
            lent(&reservation.parent),
            seconds(reservation.expiry)
        ],
    ))
}

/// Drops the reservation of an id.
pub(crate) fn drop_reservation<S: Alter>(
    conn: &mut Connection<S>,
    op: &str,
    station: &str,
    id: ReservationId,
) -> Result<(), StoreFault>
    ensures edits { Edits (edit op.now (Holdings (ReservationDropped station.now id))) (state S.Store conn.old) (state S.Store conn.new) result }
{
    done(conn.execute(
        sql_tables::reservations::DROP,
        params![op, station, id.get()],
    ))
}

/// Drops the reservation that a start names, if it names one.
pub(crate) fn drop_named<S: Alter>(
    conn: &mut Connection<S>,
    op: &str,
    station: &str,
    id: Option<i32>,
) -> Result<(), StoreFault>
    ensures edits { Edits (λ rows. record rows { reservations = without_named op.now station.now id rows.reservations }) (state S.Store conn.old) (state S.Store conn.new) result }
{
    match id {
        None => Ok(()),
        Some(id) => drop_reservation(conn, op, station, ReservationId::new(id)),
    }
}
