//! Reservations in the order of their stations and ids.
ghost use Rattle.std.specs.Prelude.{◌≡◌, [], ◌∷◌};
ghost use Rattle.std.specs.List.Sorted.{IsStrictlySortedBy};
ghost use Rattle.hub_rows.specs.Keyed.{by_key, without};
ghost use Rattle.hub_rows.specs.Places.{IsPlace};
ghost use Rattle.hub_rows.specs.Reservations.{is_reservation, reserved_until_in, without_named};
ghost use Rattle.hub_rows.specs.Rows.{reservation_key};

use hub_rows::{ReservationId, ReservationRow};
use ocpp_types::Moment;

/// When the reservation of an id at a station expires.
pub fn reserved_until(
    rows: &[ReservationRow],
    op: &str,
    station: &str,
    id: ReservationId,
) -> Option<Moment>
    requires { IsStrictlySortedBy (by_key reservation_key) rows.now }
    ensures { result ≡ reserved_until_in op.now station.now id rows.now }
{
    match place_of(rows, op, station, id) {
        Ok(place) => Some(rows[place].reservation.expiry),
        Err(_) => None,
    }
}

/// Removes the reservation of an id, if it is there.
pub fn drop_reservation(rows: &mut Vec<ReservationRow>, op: &str, station: &str, id: ReservationId)
    requires { IsStrictlySortedBy (by_key reservation_key) rows.old.items }
    ensures { rows.new.items ≡ without (λ r. r.op) op.now (is_reservation station.now id) rows.old.items }
{
    if let Ok(place) = place_of(rows, op, station, id) {
        let _dropped = rows.remove(place);
    }
}

/// Removes the reservation that a start names, by the number that it was sent with.
pub fn drop_named(rows: &mut Vec<ReservationRow>, op: &str, station: &str, id: Option<i32>)
    requires { IsStrictlySortedBy (by_key reservation_key) rows.old.items }
    ensures { rows.new.items ≡ without_named op.now station.now id rows.old.items }
{
    if let Some(id) = id {
        drop_reservation(rows, op, station, ReservationId::new(id));
    }
}

fn place_of(
    rows: &[ReservationRow],
    op: &str,
    station: &str,
    id: ReservationId,
) -> Result<usize, usize>
    requires { IsStrictlySortedBy (by_key reservation_key) rows.now }
    ensures { IsPlace reservation_key (op.now ∷ station.now ∷ (id ∷ []) ∷ []) rows.now result }
{
    rows.binary_search_by(|row| {
        row.op
            .as_str()
            .cmp(op)
            .then(row.station.as_str().cmp(station))
            .then(row.id.cmp(&id))
    })
}
